//! Lists and names on their happy path.

use rsfq_ids::id::{Id, NetId};
use rsfq_ids::list::{IdVec, List};
use rsfq_ids::name::Name;
use std::test::Fail;

#[test]
fn a_list_grows_at_its_end(rt: HostRuntime) -> Result<(), Fail> {
    let mut list: List<List<u32>> = List::new(rt.alloc());
    let mut inner: List<u32> = List::new(rt.alloc());
    assert!(rt; inner.push(7).is_ok());
    assert!(rt; list.push(inner).is_ok());
    assert_eq!(rt; list.len(), 1);
    assert_eq!(rt; list.as_slice()[0].as_slice(), [7].as_slice());
    assert!(rt; list.get(1).is_none());
    let mut nets: IdVec<NetId, Name> = IdVec::new(rt.alloc());
    match Name::of(rt.alloc(), "clk") {
        Ok(name) => assert!(rt; nets.push(name).is_ok()),
        Err(_) => panic!(rt; "no memory"),
    }
    match nets.get(NetId::of(0)) {
        Some(name) => assert_eq!(rt; name.as_str(), "clk"),
        None => panic!(rt; "no item"),
    }
    Ok(())
}
