//! Files with known graphs and faults. The wanted answers are written by hand.

use aiger_read::{
    AigerWhy, ands_are_read, breaks_are_faults, differences_are_read, faults_break,
    files_are_spelled, files_break_once, numbers_are_read, one_graph_is_spelled, read_aiger,
    spelled_files_break_nowhere,
};
use golden_aig::{eval, golden_values, values_are_determined};
use std::alloc::{AllocError, Global};
use std::test::Fail;

/// The graph of a file as text, or its fault.
fn describe(alloc: Global, bytes: &[u8]) -> Result<String, AllocError> {
    if bytes.len() > 1000 {
        return String::from_str(alloc, "long");
    }
    match read_aiger(alloc, bytes) {
        Ok(aig) => format!(in alloc;
            "{} {:?} {:?} {:?} {:?}",
            aig.inputs,
            aig.ands.as_slice(),
            aig.outputs.as_slice(),
            aig.in_names.as_slice(),
            aig.out_names.as_slice()
        ),
        Err(fault) => match &fault.why {
            AigerWhy::Cycle(ring) => format!(in alloc;
                "{} cycle {:?}",
                fault.offset,
                ring.as_slice()
            ),
            why => format!(in alloc; "{} {}", fault.offset, why),
        },
    }
}

/// Three inputs, and one AND of the negated third and the first: the second difference, 5, stands in two bytes.
const ONE_AND: &[u8] = b"aig 4 3 0 1 1\n8\n\x01\x85\x00";

#[test]
fn faults_are_the_first_from_the_left(rt: HostRuntime) -> Result<(), Fail> {
    let cases: [(&[u8], &str); 24] = [
        (&ONE_AND[..18], "18 truncated"),
        (&ONE_AND[..16], "16 truncated"),
        (&ONE_AND[..14], "14 truncated"),
        (b"", "0 header"),
        (b"aig 1 1 0 1\n2\n", "0 header"),
        (b"aig 1 1 0 1 0 0 0 0 0 0\n2\n", "0 header"),
        (b"aig 2 1 0 1 0\n2\n", "0 header"),
        (b"aig 1 1 0 x 0\n2\n", "10 number"),
        (b"aig 1  0 1 0\n2\n", "6 number"),
        (b"aig 1 1 0 1 4294967296\n2\n", "12 number"),
        (b"aig 1 0 1 0 0\n", "8 latches"),
        (b"aig 1000001 0 0 0 0\n", "4 limit 1000001"),
        (b"aig 1 1 0 1 0 0 7\n2\n", "16 extended"),
        (b"aig 1 1 0 1 0\n4\n", "14 range 4"),
        (b"aig 1 1 0 1 0\n2 \n", "15 number"),
        (b"aig 1 1 0 1 0\n-2\n", "14 number"),
        (b"aig 1 1 0 0 0\ni1 a\n", "14 symbol"),
        (b"aig 1 1 0 0 0\ni0 a\ni0 b\n", "19 symbol"),
        (b"aig 1 1 0 0 0\ni0 \n", "14 symbol"),
        (b"aig 1 1 0 0 0\ni0 \xff\n", "14 symbol"),
        (b"aig 1 1 0 0 0\n\n", "14 symbol"),
        (b"aig 2 1 0 0 1\n\x00\x00", "14 order"),
        (b"aig 2 1 0 0 1\n\x01\x04", "15 order"),
        (b"aig 2 1 0 0 1\n\x81\x80\x80\x80\x80\x00\x00", "14 number"),
    ];
    for (bytes, wanted) in cases {
        let text = describe(rt.alloc(), bytes)?;
        assert_eq!(rt; text.as_str(), wanted);
    }
    Ok(())
}

#[test]
fn faults_of_lines_have_their_places(rt: HostRuntime) -> Result<(), Fail> {
    let cases: [(&[u8], &str); 42] = [
        (b"aag 1 1 0 1 0\n2\n", "16 truncated"),
        (b"aag 1 0 1 0 0\n", "8 latches"),
        (b"aag 1000001 0 0 0 0\n", "4 limit 1000001"),
        (b"aag 2 0 0 0 2\n2 4 4\n4 2 2\n", "14 cycle [2, 4]"),
        (b"aag 1 0 0 0 1\n2 2 0\n", "14 cycle [2]"),
        (
            b"aag 3 0 0 0 3\n6 2 1\n2 4 1\n4 6 1\n",
            "14 cycle [2, 4, 6]",
        ),
        (
            b"aag 5 1 0 0 4\n2\n10 4 2\n8 2 6\n6 3 9\n4 10 10\n",
            "16 cycle [4, 10]",
        ),
        (b"aag 1 1 0 1\n2\n", "0 header"),
        (b"aag 1 1 0 0 1\n2\n", "0 header"),
        (b"aag  1 0 0 0 0\n", "4 number"),
        (b"aag 1 1 0 0 0 1\n2\n", "14 extended"),
        (b"aag 1 1 0 0 0", "13 truncated"),
        (b"aag 1 1 0 0 0\n", "14 truncated"),
        (b"aag 1 1 0 0 0\n\n", "14 number"),
        (b"aag 1 1 0 0 0\n2 \n", "15 number"),
        (b"aag 2 1 0 0 1\n2\n4 2\n", "19 number"),
        (b"aag 2 1 0 0 1\n2\n4 2", "19 number"),
        (b"aag 2 1 0 0 1\n2\n4  2\n", "18 number"),
        (b"aag 2 1 0 0 1\n2\n4 2 2 \n", "21 number"),
        (b"aag 2 1 0 0 1\n2\n4 x 2\n", "18 number"),
        (b"aag 1 1 0 0 0\n3\n", "14 range 3"),
        (b"aag 1 1 0 0 0\n0\n", "14 range 0"),
        (b"aag 1 1 0 0 0\n4\n", "14 range 4"),
        (b"aag 1 1 0 1 0\n2\n4\n", "16 range 4"),
        (b"aag 2 1 0 0 1\n2\n5 2 2\n", "16 range 5"),
        (b"aag 2 1 0 0 1\n2\n4 6 2\n", "18 range 6"),
        (b"aag 2 1 0 0 1\n2\n4 2 6\n", "20 range 6"),
        (b"aag 2 2 0 0 0\n2\n2\n", "16 defined 2"),
        (b"aag 2 1 0 0 1\n2\n2 2 2\n", "16 defined 2"),
        (b"aag 4 1 0 0 2\n2\n4 2 2\n4 2 2\n", "22 defined 4"),
        (b"aag 2 1 0 1 0\n2\n4\n", "16 undefined 4"),
        (b"aag 3 1 0 1 1\n2\n4\n4 7 2\n", "20 undefined 7"),
        (b"aag 3 1 0 1 1\n2\n4\n4 2 7\n", "22 undefined 7"),
        (b"aag 3 0 0 0 2\n2 4 6\n4 2 2\n", "18 undefined 6"),
        (b"aag 1 1 0 0 0\r\n2\n", "12 number"),
        (b"aag 1 1 0 0 0\n2\r\n", "14 number"),
        (b"aag 2 1 0 1 0\n2\n4\nx\n", "18 symbol"),
        (b"aag 2 1 0 0 1\n2\n4 2 2\ncx\n", "22 symbol"),
        (b"aag 1 1 0 0 0\n2\nc\r\n", "16 symbol"),
        (b"aag 1 1 0 0 0\n2\ni1 a\n", "16 symbol"),
        (b"aag 1 1 0 0 0\n2\no0 a\n", "16 symbol"),
        (b"aag 1 1 0 0 0\n2\ni0 a\ni0 a\n", "21 symbol"),
    ];
    for (bytes, wanted) in cases {
        let text = describe(rt.alloc(), bytes)?;
        assert_eq!(rt; text.as_str(), wanted);
    }
    Ok(())
}

#[test]
fn graphs_are_read_in_the_order_of_use(rt: HostRuntime) -> Result<(), Fail> {
    let cases: [(&[u8], &str); 19] = [
        (b"aag 1 1 0 1 0\n2\n2\n", "1 [] [2] [None] [None]"),
        (
            b"aag 1 1 0 2 0\n2\n2\n2\n",
            "1 [] [2, 2] [None] [None, None]",
        ),
        (
            b"aag 3 2 0 1 1\n2\n4\n7\n6 5 3\n",
            "2 [And { lhs: 6, rhs0: 5, rhs1: 3 }] [7] [None, None] [None]",
        ),
        (
            b"aag 3 2 0 1 1\n2\n4\n6\n6 4 2\n",
            "2 [And { lhs: 6, rhs0: 4, rhs1: 2 }] [6] [None, None] [None]",
        ),
        (
            b"aag 2 2 0 2 0\n2\n4\n2\n4\ni0 a[0]\ni1 a[1]\no0 y[0]\no1 y[1]\n",
            "2 [] [2, 4] [Some(Name { text: \"a[0]\" }), Some(Name { text: \"a[1]\" })] [Some(Name { text: \"y[0]\" }), Some(Name { text: \"y[1]\" })]",
        ),
        (
            b"aag 2 2 0 2 0\n2\n4\n2\n4\n",
            "2 [] [2, 4] [None, None] [None, None]",
        ),
        (
            b"aag 9 2 0 1 2\n14\n4\n19\n18 17 5\n16 14 4\nc\nrest",
            "2 [And { lhs: 6, rhs0: 2, rhs1: 4 }, And { lhs: 8, rhs0: 7, rhs1: 5 }] [9] [None, None] [None]",
        ),
        (
            b"aag 5 1 0 0 3\n2\n10 8 2\n8 2 2\n6 2 2\n",
            "1 [And { lhs: 4, rhs0: 2, rhs1: 2 }, And { lhs: 6, rhs0: 4, rhs1: 2 }, And { lhs: 8, rhs0: 2, rhs1: 2 }] [] [None] []",
        ),
        (b"aag 7 0 0 2 0\n0\n1", "0 [] [0, 1] [] [None, None]"),
        (
            b"aag 1 1 0 1 0\n2\n2\ni0 a\no0 y\n",
            "1 [] [2] [Some(Name { text: \"a\" })] [Some(Name { text: \"y\" })]",
        ),
        (
            b"aag 1 1 0 2 0\n2\n2\n2\no1 z\no0 y\ni0 a",
            "1 [] [2, 2] [Some(Name { text: \"a\" })] [Some(Name { text: \"y\" }), Some(Name { text: \"z\" })]",
        ),
        (
            b"aag 3 2 0 1 1\n2\n4\n7\n6 5 3\ni1 b\ni0 a\no0 y\n",
            "2 [And { lhs: 6, rhs0: 5, rhs1: 3 }] [7] [Some(Name { text: \"a\" }), Some(Name { text: \"b\" })] [Some(Name { text: \"y\" })]",
        ),
        (
            b"aag 3 2 0 1 1\n2\n4\n6\n6 4 2\ni0 a\ni1 b\no0 y\nc\n",
            "2 [And { lhs: 6, rhs0: 4, rhs1: 2 }] [6] [Some(Name { text: \"a\" }), Some(Name { text: \"b\" })] [Some(Name { text: \"y\" })]",
        ),
        (
            b"aag 5 2 0 2 3\n2\n4\n10\n6\n6 4 2\n8 5 3\n10 9 7\n",
            "2 [And { lhs: 6, rhs0: 4, rhs1: 2 }, And { lhs: 8, rhs0: 5, rhs1: 3 }, And { lhs: 10, rhs0: 9, rhs1: 7 }] [10, 6] [None, None] [None, None]",
        ),
        (b"aag 1 1 0 1 0\n2\n1\n", "1 [] [1] [None] [None]"),
        (
            b"aag 4 1 0 1 2\n2\n8\n6 2 3\n8 6 6",
            "1 [And { lhs: 4, rhs0: 2, rhs1: 3 }, And { lhs: 6, rhs0: 4, rhs1: 4 }] [6] [None] [None]",
        ),
        (b"aag 1000000 0 0 0 0\n", "0 [] [] [] []"),
        (b"aag 1 1 0 1 0\n2\n2\nc", "1 [] [2] [None] [None]"),
        (b"aig 1 1 0 1 0\n2", "1 [] [2] [None] [None]"),
    ];
    for (bytes, wanted) in cases {
        let text = describe(rt.alloc(), bytes)?;
        assert_eq!(rt; text.as_str(), wanted);
    }
    Ok(())
}

#[test]
fn differences_have_five_groups(rt: HostRuntime) -> Result<(), Fail> {
    let cases: [(&[u8], &str); 6] = [
        (b"aig 2 1 0 0 1\n\xff\xff\xff\xff\x10\x00", "14 number"),
        (b"aig 2 1 0 0 1\n\xff\xff\xff\xff\x0f\x00", "14 order"),
        (b"aig 2 1 0 0 1\n\x80\x80\x80\x80\x80", "14 number"),
        (b"aig 2 1 0 0 1\n\x80\x80\x80\x80", "18 truncated"),
        (b"aig 2 1 0 0 1\n\x80", "15 truncated"),
        (
            b"aig 2 1 0 0 1\n\x82\x00\x80\x00",
            "1 [And { lhs: 4, rhs0: 2, rhs1: 2 }] [] [None] []",
        ),
    ];
    for (bytes, wanted) in cases {
        let text = describe(rt.alloc(), bytes)?;
        assert_eq!(rt; text.as_str(), wanted);
    }
    Ok(())
}

#[test]
fn a_name_is_the_rest_of_its_line(rt: HostRuntime) -> Result<(), Fail> {
    let cases: [(&[u8], &str); 4] = [
        (b"aig 1 1 0 0 0\nl0 a\n", "14 symbol"),
        (
            b"aig 1 1 0 0 0\ni00 a\n",
            "1 [] [] [Some(Name { text: \"a\" })] []",
        ),
        (
            b"aig 1 1 0 0 0\ni0  a b",
            "1 [] [] [Some(Name { text: \" a b\" })] []",
        ),
        (
            b"aag 1 1 0 0 0\n2\ni0 a\r\n",
            "1 [] [] [Some(Name { text: \"a\\r\" })] []",
        ),
    ];
    for (bytes, wanted) in cases {
        let text = describe(rt.alloc(), bytes)?;
        assert_eq!(rt; text.as_str(), wanted);
    }
    Ok(())
}

#[test]
fn causes_come_in_their_order(rt: HostRuntime) -> Result<(), Fail> {
    let text = describe(rt.alloc(), b"aag 1 5 1 0 0\n")?;
    assert_eq!(rt; text.as_str(), "8 latches");
    let text = describe(rt.alloc(), b"aag 1 0 0 1 0\n2\nx\n")?;
    assert_eq!(rt; text.as_str(), "16 symbol");
    Ok(())
}

#[test]
fn laws_are_called(rt: HostRuntime) -> Result<(), Fail> {
    numbers_are_read();
    differences_are_read();
    ands_are_read();
    files_are_spelled();
    one_graph_is_spelled();
    faults_break();
    breaks_are_faults();
    files_break_once();
    spelled_files_break_nowhere();
    assert!(rt; read_aiger(rt.alloc(), ONE_AND).is_ok());
    assert!(rt; read_aiger(rt.alloc(), b"aag 1 1 0 1 0\n2\n2\n").is_ok());
    Ok(())
}

#[test]
fn graphs_are_read_with_their_symbols(rt: HostRuntime) -> Result<(), Fail> {
    let text = describe(rt.alloc(), ONE_AND)?;
    assert_eq!(rt;
        text.as_str(),
        "3 [And { lhs: 8, rhs0: 7, rhs1: 2 }] [8] [None, None, None] [None]"
    );
    let text = describe(
        rt.alloc(),
        b"aig 01 1 0 2 0 0 0 0 0\n2\n3\no1 y z\ni0 a\nc\nanything",
    )?;
    assert_eq!(rt;
        text.as_str(),
        "1 [] [2, 3] [Some(Name { text: \"a\" })] [None, Some(Name { text: \"y z\" })]"
    );
    Ok(())
}

#[test]
fn a_graph_that_is_read_has_values(rt: HostRuntime) -> Result<(), Fail> {
    let aig = match read_aiger(rt.alloc(), ONE_AND) {
        Ok(aig) => aig,
        Err(_) => panic!(rt; "a graph"),
    };
    golden_values(&aig);
    values_are_determined(&aig);
    assert!(rt; aig.inputs == 3 && aig.ands.len() == 1 && aig.outputs.len() == 1);
    let mut marks = [false; 4];
    let mut into = [false; 1];
    eval(&aig, &[true, true, false], &mut marks, &mut into);
    assert_eq!(rt; into, [true]);
    eval(&aig, &[true, true, true], &mut marks, &mut into);
    assert_eq!(rt; into, [false]);
    Ok(())
}
