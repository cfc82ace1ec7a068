//! Small nets, with the drivers that each place has by the rule, and rings of links.
use flat_aliases::{AliasFault, Link, find_ring, resolve};
use std::test::Fail;

#[test]
fn what_drives_a_place_drives_what_follows_it(rt: HostRuntime) -> Result<(), Fail> {
    // 0 -> 1 -> 2, 0 -> 2 again, 3 -> 4 with nothing, driver 0 at place 0, driver 1 nowhere, driver 2 at place 5
    let links = [
        Link { from: 1, to: 2 },
        Link { from: 0, to: 1 },
        Link { from: 3, to: 4 },
        Link { from: 0, to: 2 },
        Link { from: 0, to: 2 },
    ];
    let starts = [Some(0), None, Some(5)];
    match resolve(rt.alloc(), links.as_slice(), starts.as_slice(), 6) {
        Ok(drivers) => {
            let wanted = [Some(0), Some(0), Some(0), None, None, Some(2)];
            assert_eq!(rt; drivers.as_slice(), wanted.as_slice());
        }
        Err(_) => panic!(rt; "refused"),
    }
    Ok(())
}

#[test]
fn two_drivers_come_before_rings(rt: HostRuntime) -> Result<(), Fail> {
    // a ring 3 -> 4 -> 3, and driver 1 and driver 3 meet in 2 and in the ring
    let links = [
        Link { from: 3, to: 4 },
        Link { from: 4, to: 3 },
        Link { from: 1, to: 3 },
        Link { from: 0, to: 2 },
        Link { from: 1, to: 2 },
    ];
    let starts = [None, Some(0), None, Some(1)];
    match resolve(rt.alloc(), links.as_slice(), starts.as_slice(), 5) {
        Err(
            AliasFault::TwoDrivers {
                place,
                first,
                second,
            },
        ) => {
            assert_eq!(rt; place, 2);
            assert_eq!(rt; first, 1);
            assert_eq!(rt; second, 3);
        }
        _ => panic!(rt; "not two drivers"),
    }
    Ok(())
}

#[test]
fn a_ring_begins_at_its_first_place(rt: HostRuntime) -> Result<(), Fail> {
    let links = [
        Link { from: 5, to: 4 },
        Link { from: 4, to: 2 },
        Link { from: 2, to: 3 },
        Link { from: 3, to: 4 },
        Link { from: 0, to: 5 },
    ];
    match resolve(rt.alloc(), links.as_slice(), [Some(1)].as_slice(), 6) {
        Err(AliasFault::Ring(ring)) => assert_eq!(rt; ring.as_slice(), [2, 3, 4].as_slice()),
        _ => panic!(rt; "no ring"),
    }
    match resolve(
        rt.alloc(),
        [Link { from: 0, to: 0 }].as_slice(),
        [Some(0)].as_slice(),
        1,
    ) {
        Err(AliasFault::Ring(ring)) => assert_eq!(rt; ring.as_slice(), [0].as_slice()),
        _ => panic!(rt; "no ring"),
    }
    Ok(())
}

#[test]
fn a_ring_of_links_is_found_without_drivers(rt: HostRuntime) -> Result<(), Fail> {
    let links = [
        Link { from: 3, to: 4 },
        Link { from: 4, to: 3 },
        Link { from: 1, to: 3 },
    ];
    match find_ring(rt.alloc(), links.as_slice(), 5)? {
        Some(ring) => assert_eq!(rt; ring.as_slice(), [3, 4].as_slice()),
        None => panic!(rt; "no ring"),
    }
    let straight = [Link { from: 0, to: 1 }, Link { from: 1, to: 2 }];
    assert!(rt; find_ring(rt.alloc(), straight.as_slice(), 3)?.is_none());
    Ok(())
}
