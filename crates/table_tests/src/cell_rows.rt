//! Tables and their texts, as the specification states them.

use cell_table::read::read_cells;
use rsfq_ids::name::Name;
use rsfq_ids::table::{CellRow, Kind};
use std::test::Fail;

fn kind_text(kind: Kind) -> &'static str {
    match kind {
        Kind::Jtl => "jtl",
        Kind::Split => "split",
        Kind::Merge => "merge",
        Kind::Gate => "gate",
    }
}

fn names_text(rt: &HostRuntime, names: &[Name]) -> Result<String, Fail> {
    let mut text = String::from_str(rt.alloc(), "(")?;
    for (place, name) in names.iter().enumerate() {
        if place > 0 {
            text.push_str(" ")?;
        }
        text.push_str(name.as_str())?;
    }
    text.push_str(")")?;
    Ok(text)
}

fn clock_text(rt: &HostRuntime, clock: &Option<Name>) -> Result<String, Fail> {
    match clock {
        Some(name) => Ok(format!(in rt.alloc(); "({})", name.as_str())?),
        None => Ok(String::from_str(rt.alloc(), "()")?),
    }
}

fn times_text(rt: &HostRuntime, row: &CellRow) -> Result<String, Fail> {
    Ok(format!(in rt.alloc();
        "{} {} {} {} {}",
        row.low, row.high, row.setup, row.hold, row.dead
    )?)
}

fn row_text(rt: &HostRuntime, row: &CellRow) -> Result<String, Fail> {
    let inputs = names_text(rt, row.inputs.as_slice())?;
    let clock = clock_text(rt, &row.clock)?;
    let outputs = names_text(rt, row.outputs.as_slice())?;
    let times = times_text(rt, row)?;
    Ok(format!(in rt.alloc();
        "{} {} {} {} {} {} {}",
        row.name.as_str(),
        kind_text(row.kind),
        inputs.as_str(),
        clock.as_str(),
        outputs.as_str(),
        row.truth,
        times.as_str()
    )?)
}

fn table_text(rt: &HostRuntime, rows: &[CellRow]) -> Result<String, Fail> {
    let mut text = String::new(rt.alloc());
    for (place, row) in rows.iter().enumerate() {
        if place > 0 {
            text.push_str("; ")?;
        }
        let row = row_text(rt, row)?;
        text.push_str(row.as_str())?;
    }
    Ok(text)
}

fn answer_to(rt: &HostRuntime, bytes: &[u8]) -> Result<String, Fail> {
    match read_cells(rt.alloc(), bytes) {
        Ok(table) => table_text(rt, table.rows.as_slice()),
        Err(fault) => Ok(format!(in rt.alloc(); "refused cells {fault}")?),
    }
}

fn with_head(rt: &HostRuntime, rows: &[u8]) -> Result<Vec<u8>, Fail> {
    let mut text = Vec::new(rt.alloc());
    text.extend_from_slice(b"cell,kind,inputs,clock,outputs,function,lo,hi,setup,hold,dead\n")?;
    text.extend_from_slice(rows)?;
    Ok(text)
}

#[test]
fn tables_are_read(rt: HostRuntime) -> Result<(), Fail> {
    let cases: [(&[u8], &str); 8] = [
        (
            b"JTL,jtl,a,,q,,2000,3000,,,0\nSPL,split,a,,q0 q1,,3000,4000,,,0\nMRG,merge,a b,,q,,4000,5000,,,5000\nDFF,gate,a,clk,q,01,5000,7000,2000,1000,10000\nNOT,gate,a,clk,q,10,6000,8000,2000,1000,10000\nAND,gate,a b,clk,q,0001,6000,8000,2000,1000,10000\nXOR,gate,a b,clk,q,0110,6000,8000,2000,1000,10000\n",
            "JTL jtl (a) () (q) 0 2000 3000 0 0 0; SPL split (a) () (q0 q1) 0 3000 4000 0 0 0; MRG merge (a b) () (q) 0 4000 5000 0 0 5000; DFF gate (a) (clk) (q) 2 5000 7000 2000 1000 10000; NOT gate (a) (clk) (q) 1 6000 8000 2000 1000 10000; AND gate (a b) (clk) (q) 8 6000 8000 2000 1000 10000; XOR gate (a b) (clk) (q) 6 6000 8000 2000 1000 10000",
        ),
        (
            b"JTL,jtl,a,,q,,2000,9000,,,0\nSPL,split,a,,q0 q1,,3000,4000,,,0\nMRG,merge,a b,,q,,4000,5000,,,5000\nDFF,gate,a,clk,q,01,5000,7000,2000,1000,10000\nNOT,gate,a,clk,q,10,6000,8000,2000,1000,10000\nAND,gate,a b,clk,q,0001,6000,8000,2000,1000,10000\nXOR,gate,a b,clk,q,0110,6000,8000,2000,1000,10000\n",
            "JTL jtl (a) () (q) 0 2000 9000 0 0 0; SPL split (a) () (q0 q1) 0 3000 4000 0 0 0; MRG merge (a b) () (q) 0 4000 5000 0 0 5000; DFF gate (a) (clk) (q) 2 5000 7000 2000 1000 10000; NOT gate (a) (clk) (q) 1 6000 8000 2000 1000 10000; AND gate (a b) (clk) (q) 8 6000 8000 2000 1000 10000; XOR gate (a b) (clk) (q) 6 6000 8000 2000 1000 10000",
        ),
        (
            b"JTL,jtl,a,,q,,2000,9000,,,0\nSPL,split,a,,q0 q1,,3000,4000,,,0\nMRG,merge,a b,,q,,4000,5000,,,5000\nDFF,gate,a,clk,q,01,5000,7000,2000,1000,1000\nNOT,gate,a,clk,q,10,6000,8000,2000,1000,10000\nAND,gate,a b,clk,q,0001,6000,8000,2000,1000,10000\nXOR,gate,a b,clk,q,0110,6000,8000,2000,1000,10000\n",
            "JTL jtl (a) () (q) 0 2000 9000 0 0 0; SPL split (a) () (q0 q1) 0 3000 4000 0 0 0; MRG merge (a b) () (q) 0 4000 5000 0 0 5000; DFF gate (a) (clk) (q) 2 5000 7000 2000 1000 1000; NOT gate (a) (clk) (q) 1 6000 8000 2000 1000 10000; AND gate (a b) (clk) (q) 8 6000 8000 2000 1000 10000; XOR gate (a b) (clk) (q) 6 6000 8000 2000 1000 10000",
        ),
        (
            b"JTL,jtl,a,,q,,45000,45000,,,0\nSPL,split,a,,q0 q1,,3000,4000,,,0\nMRG,merge,a b,,q,,4000,5000,,,5000\nDFF,gate,a,clk,q,01,5000,7000,2000,1000,10000\nNOT,gate,a,clk,q,10,6000,8000,2000,1000,10000\nAND,gate,a b,clk,q,0001,6000,8000,2000,1000,10000\nXOR,gate,a b,clk,q,0110,6000,8000,2000,1000,10000\n",
            "JTL jtl (a) () (q) 0 45000 45000 0 0 0; SPL split (a) () (q0 q1) 0 3000 4000 0 0 0; MRG merge (a b) () (q) 0 4000 5000 0 0 5000; DFF gate (a) (clk) (q) 2 5000 7000 2000 1000 10000; NOT gate (a) (clk) (q) 1 6000 8000 2000 1000 10000; AND gate (a b) (clk) (q) 8 6000 8000 2000 1000 10000; XOR gate (a b) (clk) (q) 6 6000 8000 2000 1000 10000",
        ),
        (
            b"SPL,split,a,,q0 q1,,3000,3100,,,2000\nXOR3,gate,a b c,clk,q,01101001,6000,8000,2000,1000,10000\nMAJ,gate,a b c,clk,q,00010111,6000,8000,2000,1000,10000\n",
            "SPL split (a) () (q0 q1) 0 3000 3100 0 0 2000; XOR3 gate (a b c) (clk) (q) 150 6000 8000 2000 1000 10000; MAJ gate (a b c) (clk) (q) 232 6000 8000 2000 1000 10000",
        ),
        (
            b"JTL,jtl,a,,q,,0002,1000000000,,,1000000000\n",
            "JTL jtl (a) () (q) 0 2 1000000000 0 0 1000000000",
        ),
        (
            b"G,gate,a,c,q,01,0,0,1000000000,1000000000,1\n",
            "G gate (a) (c) (q) 2 0 0 1000000000 1000000000 1",
        ),
        (b"", ""),
    ];
    for (rows, wanted) in cases {
        let text = with_head(&rt, rows)?;
        let answer = answer_to(&rt, text.as_slice())?;
        assert_eq!(rt; answer.as_str(), wanted);
    }
    Ok(())
}

#[test]
fn heads_are_checked(rt: HostRuntime) -> Result<(), Fail> {
    let cases: [(&[u8], &str); 7] = [
        (b"", "refused cells 0 header"),
        (b"\n", "refused cells 0 header"),
        (
            b"cell,kind,inputs,clock,outputs,function,lo,hi,setup,hold\n",
            "refused cells 0 header",
        ),
        (
            b"cell,kind,inputs,clock,outputs,function,lo,hi,setup,hold,dead,\n",
            "refused cells 0 header",
        ),
        (
            b"cell,kind,inputs,clock,outputs,function,hi,lo,setup,hold,dead\n",
            "refused cells 0 header",
        ),
        // A field that is no UTF-8 comes before the head.
        (b"cell,kind,\xff\n", "refused cells 0 utf8"),
        // A byte order mark at the beginning is no part of the first field.
        (
            b"\xef\xbb\xbfcell,kind,inputs,clock,outputs,function,lo,hi,setup,hold,dead\nJ,jtl,a,,q,,2,3,,,0\n",
            "J jtl (a) () (q) 0 2 3 0 0 0",
        ),
    ];
    for (text, wanted) in cases {
        let answer = answer_to(&rt, text)?;
        assert_eq!(rt; answer.as_str(), wanted);
    }
    Ok(())
}

#[test]
fn rows_are_refused(rt: HostRuntime) -> Result<(), Fail> {
    let cases: [(&[u8], &str); 36] = [
        (b"JTL,jtl,a,,q,,3000,2000,,,0\n", "1 interval"),
        (b"\n\nJTL,jtl,a,,q,,2,3,,\n", "1 fields 10"),
        (b"JTL,jtl,a,,q,,2,3,,,0,\n", "1 fields 12"),
        // An unclosed quote takes the rest of the file.
        (
            b"J,jtl,a,,\"q,,2,3,,,0\nK,jtl,a,,q,,2,3,,,0\n",
            "1 fields 5",
        ),
        // The first of two faults: the name, and then the kind.
        (b"wire,JTL,a,,q,,2,3,,,0\n", "1 name"),
        (b"J\xffL,jtl,a,,q,,2,3,,,0\n", "1 utf8"),
        (b"1L,jtl,a,,q,,2,3,,,0\n", "1 name"),
        (b"wire,jtl,a,,q,,2,3,,,0\n", "1 name"),
        // A byte order mark is skipped at the beginning of the file alone.
        (b"\xef\xbb\xbfJ,jtl,a,,q,,2,3,,,0\n", "1 name"),
        (b",jtl,a,,q,,2,3,,,0\n", "1 name"),
        (b"J,JTL,a,,q,,2,3,,,0\n", "1 kind"),
        (b"J,jtl,a b,,q,,2,3,,,0\n", "1 pins"),
        (b"J,jtl,a,clk,q,,2,3,,,0\n", "1 pins"),
        (b"J,jtl, ,,q,,2,3,,,0\n", "1 pins"),
        (b"J,jtl,a,,task,,2,3,,,0\n", "1 pins"),
        (b"S,split,a,,q  r,,2,3,,,0\n", "1 pins"),
        (b"S,split,a,,q q,,2,3,,,0\n", "1 pins"),
        (b"M,merge,a,,q,,2,3,,,0\n", "1 pins"),
        (b"G,gate,a,a,q,01,2,3,1,1,1\n", "1 pins"),
        (b"G,gate,a,,q,01,2,3,1,1,1\n", "1 pins"),
        (b"G,gate,a b c d,k,q,0110100110010110,2,3,1,1,1\n", "1 pins"),
        (b"J,jtl,a,,q,01,2,3,,,0\n", "1 function"),
        (b"G,gate,a b,c,q,011,2,3,1,1,1\n", "1 function"),
        (b"G,gate,a,c,q,02,2,3,1,1,1\n", "1 function"),
        (b"J,jtl,a,,q,,2,+3,,,0\n", "1 number 7"),
        (b"J,jtl,a,,q,,2,3,1,,0\n", "1 number 8"),
        (b"J,jtl,a,,q,,2,3,,,\n", "1 number 10"),
        (b"J,jtl,a,,q,,2,1000000001,,,0\n", "1 range 7"),
        (b"J,jtl,a,,q,,2,99999999999999999999,,,0\n", "1 range 7"),
        (b"G,gate,a,c,q,01,2,3,1,0,1\n", "1 range 9"),
        (b"G,gate,a,c,q,01,2,3,1,1,0\n", "1 range 10"),
        (
            b"J,jtl,a,,q,,2,3,,,0\nK,jtl,a,,q,,2,3,,,0\nJ,jtl,a,,q,,2,3,,,0\n",
            "3 repeated 1",
        ),
        // Two causes in one row: the first check, and column by column, with the interval behind all columns.
        (
            b"J,jtl,a,,q,,2,1000000000,,,0\nJ,jtl,a,,q,,x,2,,,0\n",
            "2 number 6",
        ),
        (b"J,jtl,a,,q,,1000000001,x,,,0\n", "1 range 6"),
        (b"G,gate,a,c,q,01,3,2,1,1,0\n", "1 range 10"),
        // Two bad rows.
        (
            b"J,jtl,a,,q,,3,2,,,0\nwire,jtl,a,,q,,3,2,,,0\n",
            "1 interval",
        ),
    ];
    for (rows, wanted) in cases {
        let text = with_head(&rt, rows)?;
        let answer = answer_to(&rt, text.as_slice())?;
        let wanted = format!(in rt.alloc(); "refused cells {wanted}")?;
        assert_eq!(rt; answer.as_str(), wanted.as_str());
    }
    Ok(())
}

#[test]
fn ends_of_lines_are_those_of_csv(rt: HostRuntime) -> Result<(), Fail> {
    let cases: [&[u8]; 2] = [
        b"cell,kind,inputs,clock,outputs,function,lo,hi,setup,hold,dead\r\nJ,jtl,a,,q,,2,3,,,0\r\nG,gate,a,c,q,01,2,3,1,1,1\r\n",
        b"cell,kind,inputs,clock,outputs,function,lo,hi,setup,hold,dead\rJ,jtl,a,,q,,2,3,,,0\rG,gate,a,c,q,01,2,3,1,1,1\r",
    ];
    for text in cases {
        let answer = answer_to(&rt, text)?;
        assert_eq!(rt;
            answer.as_str(),
            "J jtl (a) () (q) 0 2 3 0 0 0; G gate (a) (c) (q) 2 2 3 1 1 1"
        );
    }
    Ok(())
}

#[test]
fn many_rows_are_read(rt: HostRuntime) -> Result<(), Fail> {
    let mut text = with_head(&rt, b"")?;
    for place in 0..100_000u32 {
        let row = format!(in rt.alloc(); "G{place},gate,a,clk,q,01,5,7,2,1,10\n")?;
        text.extend_from_slice(row.as_str().as_bytes())?;
    }
    match read_cells(rt.alloc(), text.as_slice()) {
        Ok(table) => assert_eq!(rt; table.rows.len(), 100_000),
        Err(_) => panic!(rt; "refused"),
    }
    text.extend_from_slice(b"G99999,jtl,a,,q,,2,3,,,0\n")?;
    let answer = answer_to(&rt, text.as_slice())?;
    assert_eq!(rt; answer.as_str(), "refused cells 100001 repeated 100000");
    Ok(())
}
