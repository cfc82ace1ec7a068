//! The parts of small files. The wanted answers are written by hand.

use aiger_parts::{
    Form, Header, ReadStop, end_line, fault_of, take_ands, take_header, take_literal, take_number,
    take_outputs, take_symbols,
};
use golden_aig::And;
use std::alloc::{AllocError, Global};
use std::test::Fail;

/// Three inputs, one output, and one AND of the negated third input and the first: the second difference, 5, stands in two bytes. The third
/// input and the output have symbols.
const ONE_AND: &[u8] = b"aig 4 3 0 1 1\n8\n\x01\x85\x00i2 c\no0 y\nc\nanything";

#[test]
fn parts_stand_one_behind_the_other(rt: HostRuntime) -> Result<(), Fail> {
    let (header, rest) = take_header(Form::Binary, ONE_AND)?;
    let wanted = Header {
        variables: 4,
        inputs: 3,
        outputs: 1,
        ands: 1,
    };
    assert_eq!(rt; header, wanted);
    let (outputs, rest) = take_outputs(rt.alloc(), 9, header.outputs, rest)?;
    assert_eq!(rt; outputs.as_slice(), [8].as_slice());
    let (ands, rest) = take_ands(rt.alloc(), header.inputs, header.ands, rest)?;
    let and = And {
        lhs: 8,
        rhs0: 7,
        rhs1: 2,
    };
    assert_eq!(rt; ands.as_slice(), [and].as_slice());
    let symbols = take_symbols(rt.alloc(), header.inputs, header.outputs, rest)?;
    let names = format!(in rt.alloc();
        "{:?} {:?}",
        symbols.inputs.as_slice(),
        symbols.outputs.as_slice()
    )?;
    assert_eq!(rt;
        names.as_str(),
        "[None, None, Some(Name { text: \"c\" })] [Some(Name { text: \"y\" })]"
    );
    Ok(())
}

/// A number or a literal with how many bytes are left behind it, or the first fault of a file of these bytes alone, as text.
fn describe(
    alloc: Global,
    bytes: &[u8],
    read: Result<(u32, &[u8]), ReadStop>,
) -> Result<String, AllocError> {
    if bytes.len() > 100 {
        return String::from_str(alloc, "long");
    }
    match read {
        Ok((number, rest)) => format!(in alloc; "{} {}", number, rest.len()),
        Err(stop) => {
            let fault = fault_of(bytes.len(), stop);
            format!(in alloc; "{} {}", fault.offset, fault.why)
        }
    }
}

#[test]
fn numbers_end_at_spaces_and_newlines(rt: HostRuntime) -> Result<(), Fail> {
    let cases: [(&[u8], &str); 6] = [
        (b"12 3", "12 2"),
        (b"0012\n3", "12 2"),
        (b"4294967295", "4294967295 0"),
        (b"4294967296 ", "0 number"),
        (b"12x", "0 number"),
        (b"", "0 number"),
    ];
    for (bytes, wanted) in cases {
        let text = describe(rt.alloc(), bytes, take_number(bytes))?;
        assert_eq!(rt; text.as_str(), wanted);
    }
    Ok(())
}

#[test]
fn literals_have_lines_of_their_own(rt: HostRuntime) -> Result<(), Fail> {
    let cases: [(&[u8], &str); 7] = [
        (b"9\n2\n", "9 2"),
        (b"9", "9 0"),
        (b"10\n", "0 range 10"),
        (b"10 \n", "0 range 10"),
        (b"9 \n", "1 number"),
        (b"-9\n", "0 number"),
        (b"", "0 truncated"),
    ];
    for (bytes, wanted) in cases {
        let text = describe(rt.alloc(), bytes, take_literal(9, bytes))?;
        assert_eq!(rt; text.as_str(), wanted);
    }
    let rest = end_line(b"\n2\n")?;
    assert_eq!(rt; rest, b"2\n".as_slice());
    Ok(())
}
