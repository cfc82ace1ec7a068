//! The timing paths of circuits, as lanes.

ghost use Rattle.rsfq_ids.specs.Design.{design_of};
ghost use Rattle.rsfq_ids.specs.Ready.{IsSetUp};

use crate::circuits::{CELLS, ONE_INPUT, Parts, cell_name, pin_text, read_parts, route_text};
use clock_tree::classify;
use lane_forest::{LaneFault, Lanes, grow};
use net_graph::build;
use rsfq_ids::id::{Id, LaneId, PinId};
use rsfq_ids::offence::PathArc;
use std::alloc::{AllocError, Global};
use std::test::Fail;

/// The cells of the rows, with a JTL of 2000 to 9000 fs.
const WIDE_CELLS: &[u8] = b"cell,kind,inputs,clock,outputs,function,lo,hi,setup,hold,dead
JTL,jtl,a,,q,,2000,9000,,,0
SPL,split,a,,q0 q1,,3000,4000,,,0
MRG,merge,a b,,q,,4000,5000,,,5000
DFF,gate,a,clk,q,01,5000,7000,2000,1000,10000
NOT,gate,a,clk,q,10,6000,8000,2000,1000,10000
AND,gate,a b,clk,q,0001,6000,8000,2000,1000,10000
XOR,gate,a b,clk,q,0110,6000,8000,2000,1000,10000
";

/// A clock with jitter, and one input and one output.
const JITTER: &[u8] = b"role,port,x,y,z
period,,20000,,
clock,clk,250,,
input,a,4000,6000,
output,y,0,1000,1000
";

/// An input that comes late in the period, and a strobe 5,000 fs into it.
const LATE_INPUT: &[u8] = b"role,port,x,y,z
period,,20000,,
clock,clk,0,,
input,a,14000,16000,
output,y,5000,1000,1000
";

/// Two inputs and two outputs.
const TWO_WIRES: &[u8] = b"role,port,x,y,z
period,,20000,,
clock,clk,0,,
input,a,4000,6000,
input,b,4000,6000,
output,y,0,1000,1000
output,z,0,1000,1000
";

/// Two gates whose clocks share a JTL and a splitter.
const SHARED_CLOCK: &[u8] = b"module top(input clk, input a, output y);
JTL j(.a(clk), .q(c));
SPL s(.a(c), .q0(c1), .q1(c2));
DFF u1(.a(a), .clk(c1), .q(m));
DFF u2(.a(m), .clk(c2), .q(y));
endmodule
";

/// The lanes of a circuit, or the limit that is passed. `None` where its graph or its clock breaks a rule.
fn grow_lanes(alloc: Global, parts: &Parts) -> Option<Result<Lanes, LaneFault>>
    requires { IsSetUp (design_of parts.now.table parts.now.flat parts.now.bench) }
{
    let Ok(graph) = build(alloc, &parts.flat, &parts.table) else {
        return None;
    };
    let Ok(clocked) = classify(alloc, &graph, &parts.bench) else {
        return None;
    };
    Some(grow(alloc, &graph, &clocked, &parts.bench))
}

/// The pin whose reader is printed so.
fn pin_named(alloc: Global, parts: &Parts, name: &str) -> Result<Option<PinId>, AllocError> {
    for place in 0..parts.flat.pins.len() {
        let pin = PinId::of(place as u32);
        let text = pin_text(alloc, parts, pin)?;
        if text.as_str() == name {
            return Ok(Some(pin));
        }
    }
    Ok(None)
}

fn fault_text(alloc: Global, parts: &Parts, fault: &LaneFault) -> Result<String, AllocError> {
    match fault {
        LaneFault::Pin { pin, count } => {
            let at = pin_text(alloc, parts, *pin)?;
            format!(in alloc; "limit lanes {} {}", at.as_str(), count)
        }
        LaneFault::Total { count } => format!(in alloc; "limit paths {}", count),
        LaneFault::Memory => String::from_str(alloc, "no memory"),
    }
}

/// The nets along a lane, its sums, and the gate that it passes.
fn lane_text(
    alloc: Global,
    parts: &Parts,
    lanes: &Lanes,
    lane: LaneId,
) -> Result<String, AllocError> {
    if lane.index() >= lanes.len() as usize {
        return String::from_str(alloc, "no lane");
    }
    let arcs: Vec<PathArc> = lanes.arcs(lane).collect(alloc)?;
    let route = route_text(alloc, parts, arcs.as_slice())?;
    let node = lanes.node(lane);
    let gate = match lanes.gate(lane) {
        Some(gate) => cell_name(parts, gate.cell),
        None => "no gate",
    };
    format!(in alloc; "{} {}..{} {}", route.as_str(), node.low, node.high, gate)
}

/// How many lanes there are, and those of a pin.
fn pin_lanes_text(
    alloc: Global,
    parts: &Parts,
    lanes: &Lanes,
    name: &str,
) -> Result<String, AllocError> {
    let Some(pin) = pin_named(alloc, parts, name)? else {
        return String::from_str(alloc, "no pin");
    };
    let mut text = format!(in alloc; "{} lanes", lanes.len())?;
    for lane in lanes.lanes(pin) {
        let line = lane_text(alloc, parts, lanes, *lane)?;
        text.push_str("; ")?;
        text.push_str(line.as_str())?;
    }
    Ok(text)
}

/// The spreads of the first lane of one pin and the last lane of another.
fn spread_text(
    alloc: Global,
    lanes: &Lanes,
    one: PinId,
    other: PinId,
) -> Result<String, AllocError> {
    let (Some(first), Some(last)) = (lanes.lanes(one).first(), lanes.lanes(other).last()) else {
        return String::from_str(alloc, "no lane");
    };
    let (first, last) = (*first, *last);
    let count = lanes.len() as usize;
    if first.index() >= count || last.index() >= count {
        return String::from_str(alloc, "no lane");
    }
    let same = lanes.spread(first, last, true);
    let apart = lanes.spread(first, last, false);
    format!(in alloc;
        "{} lanes of {} arcs, same {}..{}, apart {}..{}",
        lanes.lanes(one).len(),
        lanes.node(first).length,
        same.0,
        same.1,
        apart.0,
        apart.1
    )
}

/// The spreads between two pins of a circuit.
fn spread_answer(alloc: Global, parts: &Parts, one: &str, other: &str) -> Result<String, AllocError>
    requires { IsSetUp (design_of parts.now.table parts.now.flat parts.now.bench) }
{
    let first = pin_named(alloc, parts, one)?;
    let second = pin_named(alloc, parts, other)?;
    let (Some(first), Some(second)) = (first, second) else {
        return String::from_str(alloc, "no pin");
    };
    match grow_lanes(alloc, parts) {
        None => String::from_str(alloc, "no graph"),
        Some(Err(fault)) => fault_text(alloc, parts, &fault),
        Some(Ok(lanes)) => spread_text(alloc, &lanes, first, second),
    }
}

/// The lanes of a pin of a circuit.
fn lanes_answer(
    alloc: Global,
    cells: &[u8],
    netlist: &[u8],
    times: &[u8],
    pin: &str,
) -> Result<String, AllocError> {
    let Some(parts) = read_parts(alloc, cells, netlist, times) else {
        return String::from_str(alloc, "refused");
    };
    match grow_lanes(alloc, &parts) {
        None => String::from_str(alloc, "no graph"),
        Some(Err(fault)) => fault_text(alloc, &parts, &fault),
        Some(Ok(lanes)) => pin_lanes_text(alloc, &parts, &lanes, pin),
    }
}

#[test]
fn pins_list_their_paths(rt: HostRuntime) -> Result<(), Fail> {
    for (name, cells, netlist, times, pin, want) in ROWS {
        let answer = lanes_answer(rt.alloc(), cells, netlist, times, pin)?;
        assert_eq!(rt; answer.as_str(), want, "{name}");
    }
    Ok(())
}

#[test]
fn a_shared_clock_does_not_spread(rt: HostRuntime) -> Result<(), Fail> {
    let Some(parts) = read_parts(rt.alloc(), WIDE_CELLS, SHARED_CLOCK, LATE_INPUT) else {
        panic!(rt; "refused");
    };
    let answer = spread_answer(rt.alloc(), &parts, "u2.a", "u2.clk")?;
    assert_eq!(rt;
        answer.as_str(),
        "1 lanes of 4 arcs, same 4000..8000, apart -3000..15000"
    );
    let answer = spread_answer(rt.alloc(), &parts, "u1.a", "u1.clk")?;
    assert_eq!(rt;
        answer.as_str(),
        "1 lanes of 1 arcs, same 1000..11000, apart 1000..11000"
    );
    Ok(())
}

/// Seven splitters and mergers in a row.
const SEVEN_PAIRS: &[u8] = b"module top(input clk, input a, output y);
SPL s1(.a(a), .q0(p1), .q1(r1));
MRG m1(.a(p1), .b(r1), .q(x1));
SPL s2(.a(x1), .q0(p2), .q1(r2));
MRG m2(.a(p2), .b(r2), .q(x2));
SPL s3(.a(x2), .q0(p3), .q1(r3));
MRG m3(.a(p3), .b(r3), .q(x3));
SPL s4(.a(x3), .q0(p4), .q1(r4));
MRG m4(.a(p4), .b(r4), .q(x4));
SPL s5(.a(x4), .q0(p5), .q1(r5));
MRG m5(.a(p5), .b(r5), .q(x5));
SPL s6(.a(x5), .q0(p6), .q1(r6));
MRG m6(.a(p6), .b(r6), .q(x6));
SPL s7(.a(x6), .q0(p7), .q1(r7));
MRG m7(.a(p7), .b(r7), .q(y));
endmodule
";

/// The same without the last splitter and merger.
const SIX_PAIRS: &[u8] = b"module top(input clk, input a, output y);
SPL s1(.a(a), .q0(p1), .q1(r1));
MRG m1(.a(p1), .b(r1), .q(x1));
SPL s2(.a(x1), .q0(p2), .q1(r2));
MRG m2(.a(p2), .b(r2), .q(x2));
SPL s3(.a(x2), .q0(p3), .q1(r3));
MRG m3(.a(p3), .b(r3), .q(x3));
SPL s4(.a(x3), .q0(p4), .q1(r4));
MRG m4(.a(p4), .b(r4), .q(x4));
SPL s5(.a(x4), .q0(p5), .q1(r5));
MRG m5(.a(p5), .b(r5), .q(x5));
SPL s6(.a(x5), .q0(p6), .q1(r6));
MRG m6(.a(p6), .b(r6), .q(y));
endmodule
";

#[test]
fn a_pin_has_no_more_than_64_paths(rt: HostRuntime) -> Result<(), Fail> {
    let rows = [
        (
            SIX_PAIRS,
            "64 lanes of 13 arcs, same -12000..12000, apart -14000..14000",
        ),
        (SEVEN_PAIRS, "limit lanes y 128"),
    ];
    for (netlist, want) in rows {
        let Some(parts) = read_parts(rt.alloc(), CELLS, netlist, ONE_INPUT) else {
            panic!(rt; "refused");
        };
        let answer = spread_answer(rt.alloc(), &parts, "y", "y")?;
        assert_eq!(rt; answer.as_str(), want);
    }
    Ok(())
}

/// Splitters and mergers in a row, from the wire `a` to the wire `x` of the last.
fn push_pairs(alloc: Global, text: &mut String, pairs: usize) -> Result<(), AllocError> {
    text.push_str("wire x0;\nassign x0 = a;\n")?;
    for pair in 0..pairs {
        let line = format!(in alloc;
            "SPL s{}(.a(x{}), .q0(p{}), .q1(r{}));\nMRG m{}(.a(p{}), .b(r{}), .q(x{}));\n",
            pair,
            pair,
            pair,
            pair,
            pair,
            pair,
            pair,
            pair as u64 + 1
        )?;
        text.push_str(line.as_str())?;
    }
    Ok(())
}

/// JTLs in a row from one wire to another.
fn push_chain(
    alloc: Global,
    text: &mut String,
    from: &str,
    to: &str,
    length: usize,
) -> Result<(), AllocError> {
    let begin = format!(in alloc; "wire {}_0;\nassign {}_0 = {};\n", to, to, from)?;
    text.push_str(begin.as_str())?;
    for place in 0..length {
        let line = format!(in alloc;
            "JTL {}_j{}(.a({}_{}), .q({}_{}));\n",
            to,
            place,
            to,
            place,
            to,
            place as u64 + 1
        )?;
        text.push_str(line.as_str())?;
    }
    let end = format!(in alloc; "assign {} = {}_{};\n", to, to, length)?;
    text.push_str(end.as_str())
}

/// Splitters and mergers in a row, and behind them JTLs in a row, from the input to the output.
fn pairs_and_chain(alloc: Global, pairs: usize, length: usize) -> Result<String, AllocError> {
    let mut text = String::from_str(alloc, "module top(input clk, input a, output y);\n")?;
    push_pairs(alloc, &mut text, pairs)?;
    let last = format!(in alloc; "x{}", pairs)?;
    push_chain(alloc, &mut text, last.as_str(), "y", length)?;
    text.push_str("endmodule\n")?;
    Ok(text)
}

#[test]
fn pairs_double_the_paths(rt: HostRuntime) -> Result<(), Fail> {
    for (pairs, length, want) in PAIRS {
        let netlist = pairs_and_chain(rt.alloc(), pairs, length)?;
        let Some(parts) = read_parts(rt.alloc(), CELLS, netlist.as_bytes(), ONE_INPUT) else {
            panic!(rt; "refused");
        };
        let answer = spread_answer(rt.alloc(), &parts, "y", "y")?;
        assert_eq!(rt; answer.as_str(), want, "{pairs} pairs and {length} JTLs");
    }
    Ok(())
}

/// Six pairs and 15,621 JTLs to one output, which have 999,997 paths, and JTLs to another, which have a path each and one at the output.
fn million_paths(alloc: Global, length: usize) -> Result<String, AllocError> {
    let head = "module top(input clk, input a, input b, output y, output z);\n";
    let mut text = String::from_str(alloc, head)?;
    push_pairs(alloc, &mut text, 6)?;
    push_chain(alloc, &mut text, "x6", "y", 15_621)?;
    push_chain(alloc, &mut text, "b", "z", length)?;
    text.push_str("endmodule\n")?;
    Ok(text)
}

#[test]
fn a_million_paths_are_not_too_many(rt: HostRuntime) -> Result<(), Fail> {
    for (length, pin, want) in MILLIONS {
        let netlist = million_paths(rt.alloc(), length)?;
        let answer = lanes_answer(rt.alloc(), CELLS, netlist.as_bytes(), TWO_WIRES, pin)?;
        assert_eq!(rt; answer.as_str(), want, "{length} JTLs");
    }
    Ok(())
}

/// Each row: pairs of a splitter and a merger, JTLs behind them, and the spreads of the first and the last path to the output.
const PAIRS: [(usize, usize, &str); 3] = [
    (0, 0, "1 lanes of 1 arcs, same 0..0, apart -2000..2000"),
    (
        1,
        0,
        "2 lanes of 3 arcs, same -2000..2000, apart -4000..4000",
    ),
    (
        1,
        99_998,
        "2 lanes of 100001 arcs, same -100000000..100000000, apart -100002000..100002000",
    ),
];

/// Each row: JTLs to the second output, a pin, and its lanes, or the limit that is passed.
const MILLIONS: [(usize, &str, &str); 2] = [
    (2, "z", "1000000 lanes; b z_j0.q z_j1.q 8000..12000 no gate"),
    (3, "z", "limit paths 1000001"),
];

/// Each row: what it shows, the cell table, the netlist, the timing table, a pin, and its lanes.
const ROWS: [(&str, &[u8], &[u8], &[u8], &str, &str); 8] = [
    (
        "a wire",
        CELLS,
        b"module top(input clk, input a, output y);
JTL j(.a(a), .q(y));
endmodule
",
        ONE_INPUT,
        "y",
        "2 lanes; a j.q 6000..9000 no gate",
    ),
    (
        "data ends at a gate",
        CELLS,
        b"module top(input clk, input a, output y);
DFF u1(.a(a), .clk(clk), .q(y));
endmodule
",
        ONE_INPUT,
        "u1.a",
        "3 lanes; a 4000..6000 no gate",
    ),
    (
        "a gate is passed from its clock pin, with the jitter of the clock",
        CELLS,
        b"module top(input clk, input a, output y);
DFF u1(.a(a), .clk(clk), .q(y));
endmodule
",
        JITTER,
        "y",
        "3 lanes; clk u1.q 5000..7250 u1",
    ),
    (
        "a gate is passed before other cells",
        WIDE_CELLS,
        SHARED_CLOCK,
        ONE_INPUT,
        "u2.a",
        "7 lanes; clk j.q s.q0 u1.q 10000..20000 u1",
    ),
    (
        "no path passes two gates",
        WIDE_CELLS,
        SHARED_CLOCK,
        ONE_INPUT,
        "y",
        "7 lanes; clk j.q s.q1 u2.q 10000..20000 u2",
    ),
    (
        "a clock pin has the path of the clock",
        WIDE_CELLS,
        SHARED_CLOCK,
        ONE_INPUT,
        "u2.clk",
        "7 lanes; clk j.q s.q1 5000..13000 no gate",
    ),
    (
        "a merger's first pin comes first",
        CELLS,
        b"module top(input clk, input a, output y);
SPL s(.a(a), .q0(p), .q1(r));
JTL j(.a(r), .q(t));
MRG m(.a(t), .b(p), .q(y));
endmodule
",
        ONE_INPUT,
        "y",
        "6 lanes; a s.q1 j.q m.q 13000..18000 no gate; a s.q0 m.q 11000..15000 no gate",
    ),
    (
        "the order is by the last merger first",
        CELLS,
        b"module top(input clk, input a, output y);
SPL s(.a(a), .q0(p), .q1(r));
SPL t(.a(p), .q0(p0), .q1(p1));
MRG m(.a(p0), .b(r), .q(n));
MRG k(.a(p1), .b(n), .q(y));
endmodule
",
        ONE_INPUT,
        "y",
        "10 lanes; a s.q0 t.q1 k.q 14000..19000 no gate; a s.q0 t.q0 m.q k.q 18000..24000 no gate; a s.q1 m.q k.q 15000..20000 no gate",
    ),
];
