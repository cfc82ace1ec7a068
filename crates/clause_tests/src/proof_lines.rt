//! Lines of each form.
use dimacs_text::Signed;
use lrat_lines::{Form, Numbers, lines_are_spelled};
use std::test::Fail;

/// The number 1.
const ONE: Signed = Signed {
    negative: false,
    size: 1,
};

/// The number 2 behind a hyphen.
const MINUS_TWO: Signed = Signed {
    negative: true,
    size: 2,
};

#[test]
fn lines_have_forms(rt: HostRuntime) -> Result<(), Fail> {
    let rows: [(&[u8], Form); 10] = [
        (b"", Form::Skipped),
        (b"c 4 1 0 1 0", Form::Skipped),
        (b"4 1 0 1 0", Form::Addition(4)),
        (b"0 0 0", Form::Addition(0)),
        (b"4294967295  d  1 0", Form::Deletion),
        (b"4 d 0", Form::Deletion),
        (b"4 d -1 0", Form::Broken),
        (b"4 1 0 1", Form::Broken),
        (b"4 1 0 1 0 ", Form::Broken),
        (b"4294967296 0 0", Form::Broken),
    ];
    lines_are_spelled();
    let mut numbers = Numbers::new(rt.alloc());
    for (line, form) in rows {
        assert_eq!(rt; numbers.read_line(line)?, form, "{line:?}");
    }
    Ok(())
}

#[test]
fn lines_have_numbers(rt: HostRuntime) -> Result<(), Fail> {
    let mut numbers = Numbers::new(rt.alloc());
    let form = numbers.read_line(b"4 1 -2 0 1 0")?;
    assert_eq!(rt; form, Form::Addition(4));
    assert_eq!(rt; numbers.lits.as_slice(), [ONE, MINUS_TWO].as_slice());
    assert_eq!(rt; numbers.hints.as_slice(), [ONE].as_slice());
    let form = numbers.read_line(b"5 d 1 0")?;
    assert_eq!(rt; form, Form::Deletion);
    assert_eq!(rt; numbers.lits.as_slice(), [ONE].as_slice());
    Ok(())
}
