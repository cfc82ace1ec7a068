//! Tables and their texts, as the specification states them.

use env_table::bind::bind_env;
use env_table::env::Env;
use env_table::read::read_env;
use rsfq_ids::circuit::{Bench, Flat, PortBit, PortUse};
use rsfq_ids::id::{Id, PortId};
use rsfq_ids::list::IdVec;
use rsfq_ids::name::Name;
use std::test::Fail;

fn use_text(rt: &HostRuntime, used: PortUse, jitter: i64) -> Result<String, Fail> {
    match used {
        PortUse::Clock => Ok(format!(in rt.alloc(); "clock {jitter}")?),
        PortUse::Arrival { low, high } => Ok(format!(in rt.alloc(); "input {low} {high}")?),
        PortUse::Strobed(strobe) => Ok(format!(in rt.alloc();
            "output {} {} {}",
            strobe.offset, strobe.setup, strobe.hold
        )?),
    }
}

fn env_text(rt: &HostRuntime, env: &Env) -> Result<String, Fail> {
    let mut text = format!(in rt.alloc(); "period {}", env.period)?;
    for line in env.lines.as_slice() {
        let used = use_text(rt, line.used, line.jitter)?;
        let part = format!(in rt.alloc(); "; {} {}", line.port.as_str(), used.as_str())?;
        text.push_str(part.as_str())?;
    }
    Ok(text)
}

fn answer_to(rt: &HostRuntime, bytes: &[u8]) -> Result<String, Fail> {
    match read_env(rt.alloc(), bytes) {
        Ok(env) => env_text(rt, &env),
        Err(fault) => Ok(format!(in rt.alloc(); "refused env {fault}")?),
    }
}

fn with_head(rt: &HostRuntime, rows: &[u8]) -> Result<Vec<u8>, Fail> {
    let mut text = Vec::new(rt.alloc());
    text.extend_from_slice(b"role,port,x,y,z\n")?;
    text.extend_from_slice(rows)?;
    Ok(text)
}

#[test]
fn tables_are_read(rt: HostRuntime) -> Result<(), Fail> {
    let cases: [(&[u8], &str); 13] = [
        (
            b"period,,20000,,\nclock,clk,0,,\ninput,a,4000,6000,\noutput,y,0,1000,1000\n",
            "period 20000; clk clock 0; a input 4000 6000; y output 0 1000 1000",
        ),
        (
            b"period,,20000,,\nclock,clk,0,,\ninput,a,4000,6000,\noutput,y,0,1000,1000\noutput,z,0,1000,1000\n",
            "period 20000; clk clock 0; a input 4000 6000; y output 0 1000 1000; z output 0 1000 1000",
        ),
        (
            b"period,,20000,,\nclock,clk,0,,\ninput,a,14000,16000,\noutput,y,5000,1000,1000\n",
            "period 20000; clk clock 0; a input 14000 16000; y output 5000 1000 1000",
        ),
        (
            b"period,,13000,,\nclock,clk,0,,\ninput,a,14000,16000,\noutput,y,5000,1000,1000\n",
            "period 13000; clk clock 0; a input 14000 16000; y output 5000 1000 1000",
        ),
        (
            b"period,,20000,,\nclock,clk,0,,\ninput,a,2000,3000,\ninput,b,8000,9000,\noutput,y,0,1000,1000\n",
            "period 20000; clk clock 0; a input 2000 3000; b input 8000 9000; y output 0 1000 1000",
        ),
        (
            b"period,,20000,,\nclock,clk,0,,\ninput,a,6000,8000,\noutput,y,0,1000,1000\n",
            "period 20000; clk clock 0; a input 6000 8000; y output 0 1000 1000",
        ),
        (
            b"period,,20000,,\nclock,clk,0,,\ninput,a,6000,8000,\ninput,b,6000,8000,\noutput,y,0,1000,1000\n",
            "period 20000; clk clock 0; a input 6000 8000; b input 6000 8000; y output 0 1000 1000",
        ),
        (
            b"period,,20000,,\nclock,clk,0,,\ninput,a,7000,8000,\noutput,y,0,1000,1000\n",
            "period 20000; clk clock 0; a input 7000 8000; y output 0 1000 1000",
        ),
        (
            b"period,,20000,,\nclock,clk,0,,\ninput,a,4000,6000,\ninput,b,4000,6000,\noutput,y,0,1000,1000\n",
            "period 20000; clk clock 0; a input 4000 6000; b input 4000 6000; y output 0 1000 1000",
        ),
        // A jitter; the greatest times; a period in the last row; numbers with zeros in front; quotes.
        (b"clock,c,7,,\nperiod,,1,,\n", "period 1; c clock 7"),
        (
            b"period,,1000000000,,\ninput,a,1000000000,1000000000,\n",
            "period 1000000000; a input 1000000000 1000000000",
        ),
        (
            b"\n\"period\",,0009,,\n\noutput,\"y[0]\",8,1,01",
            "period 9; y[0] output 8 1 1",
        ),
        (b"period,,1,,\n", "period 1"),
    ];
    for (rows, wanted) in cases {
        let text = with_head(&rt, rows)?;
        let answer = answer_to(&rt, text.as_slice())?;
        assert_eq!(rt; answer.as_str(), wanted);
    }
    Ok(())
}

#[test]
fn heads_are_checked(rt: HostRuntime) -> Result<(), Fail> {
    let cases: [(&[u8], &str); 7] = [
        (b"", "refused env 0 header"),
        (b"\n\n", "refused env 0 header"),
        (b"role,port,x,y\nperiod,,1,,\n", "refused env 0 header"),
        (b"role,port,x,y,z,\n", "refused env 0 header"),
        (b"Role,port,x,y,z\n", "refused env 0 header"),
        // A field that is no UTF-8 comes before the head.
        (b"role,port,x,y,\xff\n", "refused env 0 utf8"),
        // A byte order mark at the beginning is no part of the first field.
        (b"\xef\xbb\xbfrole,port,x,y,z\nperiod,,5,,\n", "period 5"),
    ];
    for (text, wanted) in cases {
        let answer = answer_to(&rt, text)?;
        assert_eq!(rt; answer.as_str(), wanted);
    }
    Ok(())
}

#[test]
fn rows_are_refused(rt: HostRuntime) -> Result<(), Fail> {
    let cases: [(&[u8], &str); 31] = [
        (b"", "refused env 1 period"),
        (b"clock,clk,0,,\n", "refused env 2 period"),
        (b"\xff\n", "refused env 1 utf8"),
        (b"\n\xff\n", "refused env 1 utf8"),
        // An unclosed quote takes the rest of the file.
        (
            b"period,,5,,\nclock,\"c,7,,\ninput,a,1,2,\n",
            "refused env 2 fields 2",
        ),
        // A byte order mark is skipped at the beginning of the file alone.
        (b"\xef\xbb\xbfperiod,,5,,\n", "refused env 1 kind"),
        // A space is a byte of its field.
        (b"period, ,5,,\n", "refused env 1 pins"),
        (b"clock,c, ,,\n", "refused env 1 number 2"),
        (b"period,,1,\n", "refused env 1 fields 4"),
        (b"period,,1,,,\n", "refused env 1 fields 6"),
        (b"Period,,1,,\n", "refused env 1 kind"),
        (b"period,a,1,,\n", "refused env 1 pins"),
        (b"input,,1,2,\n", "refused env 1 pins"),
        (b"clock,,1,,\n", "refused env 1 pins"),
        (b"output,,1,2,3\n", "refused env 1 pins"),
        (b"period,,0,,\n", "refused env 1 range 2"),
        (b"period,,1,2,\n", "refused env 1 number 3"),
        (b"period,,1,,2\n", "refused env 1 number 4"),
        (b"clock,clk,,,\n", "refused env 1 number 2"),
        (b"clock,clk,+1,,\n", "refused env 1 number 2"),
        (b"input,a,2,1,\n", "refused env 1 interval"),
        (b"input,a,1,1000000001,\n", "refused env 1 range 3"),
        (
            b"input,a,1,99999999999999999999,\n",
            "refused env 1 range 3",
        ),
        (b"input,a,1,2,3\n", "refused env 1 number 4"),
        (b"output,y,0,0,1\n", "refused env 1 range 3"),
        (b"output,y,0,1,0\n", "refused env 1 range 4"),
        (
            b"clock,clk,0,,\nperiod,,5,,\nperiod,,6,,\n",
            "refused env 3 repeated 2",
        ),
        // Two causes in one row: the first check, and column by column.
        (b"input,,2,1,\n", "refused env 1 pins"),
        (b"input,a,1000000001,x,3\n", "refused env 1 range 2"),
        (b"period,,5,,\nperiod,,0,,\n", "refused env 2 range 2"),
        // Two bad rows.
        (b"input,a,2,1,\nnothing,,,,\n", "refused env 1 interval"),
    ];
    for (rows, wanted) in cases {
        let text = with_head(&rt, rows)?;
        let answer = answer_to(&rt, text.as_slice())?;
        assert_eq!(rt; answer.as_str(), wanted);
    }
    Ok(())
}

#[test]
fn ends_of_lines_are_those_of_csv(rt: HostRuntime) -> Result<(), Fail> {
    let cases: [&[u8]; 3] = [
        b"role,port,x,y,z\r\nperiod,,5,,\r\nclock,c,7,,\r\n",
        b"role,port,x,y,z\rperiod,,5,,\rclock,c,7,,\r",
        b"role,port,x,y,z\n\rperiod,,5,,\r\n\r\nclock,c,7,,",
    ];
    for text in cases {
        let answer = answer_to(&rt, text)?;
        assert_eq!(rt; answer.as_str(), "period 5; c clock 7");
    }
    Ok(())
}

#[test]
fn many_rows_are_read(rt: HostRuntime) -> Result<(), Fail> {
    let mut text = with_head(&rt, b"period,,5,,\n")?;
    for place in 0..99_999u32 {
        let row = format!(in rt.alloc(); "input,a[{place}],1,2,\n")?;
        text.extend_from_slice(row.as_str().as_bytes())?;
    }
    match read_env(rt.alloc(), text.as_slice()) {
        Ok(env) => assert_eq!(rt; env.lines.len(), 99_999),
        Err(_) => panic!(rt; "refused"),
    }
    text.extend_from_slice(b"period,,5,,\n")?;
    let answer = answer_to(&rt, text.as_slice())?;
    assert_eq!(rt; answer.as_str(), "refused env 100001 repeated 1");
    Ok(())
}

fn circuit_of(rt: &HostRuntime, ports: &[(&str, bool)]) -> Result<Flat, Fail> {
    let mut bits: IdVec<PortId, PortBit> = IdVec::new(rt.alloc());
    for (name, output) in ports {
        if bits.len() >= 100 {
            return Err(Fail::new("too many ports"));
        }
        bits.push(PortBit {
            name: Name::of(rt.alloc(), name)?,
            output: *output,
        })?;
    }
    Ok(Flat {
        ports: bits,
        cells: IdVec::new(rt.alloc()),
        nets: IdVec::new(rt.alloc()),
        pins: IdVec::new(rt.alloc()),
    })
}

fn bench_text(rt: &HostRuntime, bench: &Bench) -> Result<String, Fail> {
    let mut text = format!(in rt.alloc(); "period {} clock {}", bench.period, bench.clock.index())?;
    for used in bench.uses.as_slice() {
        let used = use_text(rt, *used, bench.jitter)?;
        text.push_str("; ")?;
        text.push_str(used.as_str())?;
    }
    Ok(text)
}

fn bound(rt: &HostRuntime, ports: &[(&str, bool)], rows: &[u8]) -> Result<String, Fail> {
    let text = with_head(rt, rows)?;
    let env = read_env(rt.alloc(), text.as_slice())?;
    let flat = circuit_of(rt, ports)?;
    match bind_env(rt.alloc(), &env, &flat) {
        Ok(bench) => bench_text(rt, &bench),
        Err(fault) => Ok(format!(in rt.alloc(); "refused bench {fault}")?),
    }
}

// The first circuit, and one with two bits at each data port. An output is true.
const ONE: [(&str, bool); 3] = [("clk", false), ("a", false), ("y", true)];

const TWO: [(&str, bool); 5] = [
    ("clk", false),
    ("a[1]", false),
    ("a[0]", false),
    ("y[0]", true),
    ("y[1]", true),
];

const MIXED: [(&str, bool); 3] = [("clk", false), ("p[0]", false), ("p[1]", true)];

const CLOCKS: [(&str, bool); 4] = [("b", false), ("a", false), ("c[1]", false), ("c[0]", false)];

const INPUTS: [(&str, bool); 2] = [("clk[0]", false), ("a", false)];

const ODD: [(&str, bool); 8] = [
    ("a", false),
    ("a[0]", false),
    ("b[x]", false),
    ("b[]", false),
    ("c[1", false),
    ("c1]", false),
    ("d[1][2]", false),
    ("clk[7]", false),
];

#[test]
fn lines_are_bound(rt: HostRuntime) -> Result<(), Fail> {
    let cases: [(&[(&str, bool)], &[u8], &str); 6] = [
        (
            &ONE,
            b"period,,20000,,\nclock,clk,0,,\ninput,a,4000,6000,\noutput,y,0,1000,1000\n",
            "period 20000 clock 0; clock 0; input 4000 6000; output 0 1000 1000",
        ),
        (
            &ONE,
            b"output,y,8,2,3\ninput,a,1,1,\nclock,clk,5,,\nperiod,,9,,\n",
            "period 9 clock 0; clock 5; input 1 1; output 8 2 3",
        ),
        (
            &TWO,
            b"period,,9,,\nclock,clk,5,,\ninput,a,1,2,\noutput,y,0,1,2\n",
            "period 9 clock 0; clock 5; input 1 2; input 1 2; output 0 1 2; output 0 1 2",
        ),
        (
            &TWO,
            b"period,,9,,\nclock,clk,5,,\ninput,a[0],1,2,\ninput,a[1],3,4,\noutput,y,0,1,2\n",
            "period 9 clock 0; clock 5; input 3 4; input 1 2; output 0 1 2; output 0 1 2",
        ),
        (
            &ODD,
            b"period,,9,,\nclock,clk,5,,\ninput,a,1,1,\ninput,a[0],2,2,\ninput,b[x],3,3,\ninput,b[],4,4,\ninput,c[1,5,5,\ninput,c1],6,6,\ninput,d[1],7,7,\n",
            "period 9 clock 7; input 1 1; input 2 2; input 3 3; input 4 4; input 5 5; input 6 6; input 7 7; clock 5",
        ),
        // A circuit with no outputs, and a clock that names a vector of one bit.
        (
            &INPUTS,
            b"period,,9,,\nclock,clk,5,,\ninput,a,1,2,\n",
            "period 9 clock 0; clock 5; input 1 2",
        ),
    ];
    for (ports, rows, wanted) in cases {
        let answer = bound(&rt, ports, rows)?;
        assert_eq!(rt; answer.as_str(), wanted);
    }
    Ok(())
}

#[test]
fn benches_are_refused(rt: HostRuntime) -> Result<(), Fail> {
    let cases: [(&[(&str, bool)], &[u8], &str); 25] = [
        (
            &ONE,
            b"period,,20000,,\nclock,clk,0,,\ninput,a,4000,6000,\n",
            "missing y",
        ),
        (&ONE, b"period,,9,,\ninput,b,1,2,\n", "unknown b"),
        (&ONE, b"period,,9,,\nclock,cl,1,,\n", "unknown cl"),
        (&ONE, b"period,,9,,\ninput,y,1,2,\n", "direction y"),
        (&ONE, b"period,,9,,\noutput,a,1,2,3\n", "direction a"),
        (&ONE, b"period,,9,,\nclock,y,1,,\n", "direction y"),
        (&MIXED, b"period,,9,,\ninput,p,1,2,\n", "direction p"),
        (&MIXED, b"period,,9,,\noutput,p,1,2,3\n", "direction p"),
        (
            &ONE,
            b"period,,9,,\ninput,a,1,2,\ninput,a,1,2,\n",
            "repeated a",
        ),
        (
            &ONE,
            b"period,,9,,\nclock,clk,1,,\nclock,clk,1,,\n",
            "repeated clk",
        ),
        (
            &TWO,
            b"period,,9,,\ninput,a[0],1,2,\ninput,a,1,2,\n",
            "repeated a",
        ),
        (
            &ONE,
            b"period,,9,,\ninput,a,1,2,\ninput,clk,1,2,\noutput,y,0,1,1\n",
            "no clock",
        ),
        (
            &CLOCKS,
            b"period,,9,,\nclock,a,1,,\nclock,b,1,,\n",
            "two clocks a b",
        ),
        (
            &CLOCKS,
            b"period,,9,,\nclock,c,1,,\n",
            "two clocks c[1] c[0]",
        ),
        (
            &CLOCKS,
            b"period,,9,,\nclock,b,1,,\nclock,c,1,,\n",
            "two clocks b c[1]",
        ),
        (
            &TWO,
            b"period,,9,,\nclock,clk,1,,\noutput,y,0,1,2\n",
            "missing a[1]",
        ),
        (&ODD, b"period,,9,,\ninput,b,1,2,\n", "unknown b"),
        (&ODD, b"period,,9,,\ninput,d,1,2,\n", "unknown d"),
        (
            &ODD,
            b"period,,9,,\nclock,clk,1,,\ninput,a,1,2,\n",
            "missing a[0]",
        ),
        (
            &ONE,
            b"period,,9,,\nclock,clk,0,,\ninput,a,1,2,\noutput,y,9,1,1\n",
            "strobe y",
        ),
        (
            &TWO,
            b"period,,9,,\nclock,clk,0,,\ninput,a,1,2,\noutput,y[0],8,1,1\noutput,y[1],10,1,1\n",
            "strobe y[1]",
        ),
        // A circuit with no outputs, and one with no ports at all.
        (
            &INPUTS,
            b"period,,9,,\nclock,clk,5,,\ninput,a,1,2,\noutput,y,0,1,1\n",
            "unknown y",
        ),
        (&[], b"period,,9,,\n", "no clock"),
        // The first line that does not fit; what is looked for later comes later.
        (
            &ONE,
            b"period,,9,,\ninput,y,1,2,\ninput,z,1,2,\n",
            "direction y",
        ),
        (
            &ONE,
            b"period,,9,,\nclock,clk,0,,\noutput,y,9,1,1\n",
            "missing a",
        ),
    ];
    for (ports, rows, wanted) in cases {
        let answer = bound(&rt, ports, rows)?;
        let wanted = format!(in rt.alloc(); "refused bench {wanted}")?;
        assert_eq!(rt; answer.as_str(), wanted.as_str());
    }
    Ok(())
}
