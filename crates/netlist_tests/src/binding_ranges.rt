//! Ranges with the bits that selects take of them.

use bind_names::{select, width_of};
use std::test::Fail;

#[test]
fn ranges_go_both_ways(rt: HostRuntime) -> Result<(), Fail> {
    let table: [((u32, u32), (u32, u32), Option<(u32, u64)>); 9] = [
        ((7, 0), (3, 2), Some((2, 2))),
        ((7, 0), (2, 3), None),
        ((0, 7), (2, 3), Some((4, 2))),
        ((0, 7), (3, 2), None),
        ((7, 4), (7, 4), Some((0, 4))),
        ((7, 4), (5, 5), Some((1, 1))),
        ((4, 7), (5, 5), Some((2, 1))),
        ((7, 4), (5, 3), None),
        ((2, 2), (2, 2), Some((0, 1))),
    ];
    for (range, wanted, part) in table {
        assert_eq!(rt; select(range, wanted), part);
    }
    assert_eq!(rt; width_of(None), 1);
    assert_eq!(rt; width_of(Some((3, 10))), 8);
    Ok(())
}
