//! A listing with a known graph. The wanted answers are written by hand.

ghost use Rattle.std.specs.Prelude.{IfOk};
ghost use Rattle.aiger_order.specs.Listing.{IsListing};

use aiger_order::{Listing, one_graph_is_ordered, renumber};
use golden_aig::And;
use rsfq_ids::list::{List, NoMemory};
use std::alloc::Global;
use std::test::Fail;

/// The input 2 and the AND 4 of it and its negation.
fn make_listing(alloc: Global) -> Result<Listing, NoMemory>
    ensures { IfOk result IsListing }
{
    let mut inputs = List::new(alloc);
    inputs.push(2)?;
    let mut ands = List::new(alloc);
    ands.push(And {
        lhs: 4,
        rhs0: 2,
        rhs1: 3,
    })?;
    let mut outputs = List::new(alloc);
    outputs.push(5)?;
    let mut in_names = List::new(alloc);
    in_names.push(None)?;
    let mut out_names = List::new(alloc);
    out_names.push(None)?;
    Ok(Listing {
        top: 2,
        inputs,
        ands,
        outputs,
        in_names,
        out_names,
    })
}

#[test]
fn a_listing_has_its_graph(rt: HostRuntime) -> Result<(), Fail> {
    one_graph_is_ordered();
    let listing = make_listing(rt.alloc())?;
    match renumber(rt.alloc(), listing) {
        Ok(aig) => {
            assert_eq!(rt; aig.inputs, 1);
            assert_eq!(rt; aig.outputs.as_slice(), [5].as_slice());
            assert!(rt; aig.ands.len() == 1);
        }
        Err(_) => panic!(rt; "a graph"),
    }
    Ok(())
}
