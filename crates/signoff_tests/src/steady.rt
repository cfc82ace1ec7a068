//! The sign-off over objects that never fail.
use rsfq_outside::{Status, SteadyFolder};
use signoff::sign_off_status;
use std::alloc::{AllocError, Global};
use std::test::Fail;

const WIRE: &[u8] = b"module top(input clk, input a, output y);\nJTL j(.a(a), .q(y));\nendmodule\n";

fn words_of(alloc: Global, words: &[&str]) -> Result<Vec<String>, AllocError> {
    let mut all = Vec::new(alloc);
    for word in words {
        all.push(String::from_str(alloc, word)?)?;
    }
    Ok(all)
}

#[test]
fn no_fault_over_steady_objects(rt: HostRuntime) -> Result<(), Fail> {
    let alloc = rt.alloc();
    let mut folder = SteadyFolder::new(alloc);
    folder.put("n.v", WIRE)?;
    let given = words_of(alloc, &["n.v", "20000", "4000", "6000"])?;
    assert_eq!(rt;
        sign_off_status(alloc, &given, &mut folder),
        Status::Accepted
    );
    Ok(())
}
