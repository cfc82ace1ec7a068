//! Graphs of circuits and their clocks.

ghost use Rattle.rsfq_ids.specs.Design.{design_of};
ghost use Rattle.rsfq_ids.specs.Ready.{IsSetUp};

use crate::circuits::{
    CELLS, ONE_INPUT, Parts, TWO_INPUTS, TWO_OUTPUTS, cell_name, net_text, pin_text, read_parts,
    refusal_text, route_text,
};
use clock_tree::laws::{
    clock_offences_are_one, clock_pins_have_one_path, clock_routes_are_one, graphs_are_ready,
};
use clock_tree::{Clocked, classify};
use lane_forest::laws::{
    lane_faults_are_one, lanes_are_paths, order_is_strict, paths_are_one, routes_are_paths,
    routes_are_short, sums_are_ends,
};
use net_graph::laws::{circuits_are_wired, fanouts_are_one, orders_are_one};
use net_graph::{Graph, build};
use offence_check::{holds, is_decided};
use rsfq_ids::id::{Id, NetId, PinId, PortId};
use rsfq_ids::list::List;
use rsfq_ids::offence::{Offence, PathArc, RuleFault};
use std::alloc::{AllocError, Global};
use std::test::Fail;

/// A rule, a pin, and the path back from what it reads.
fn clock_text(
    alloc: Global,
    parts: &Parts,
    rule: &str,
    pin: PinId,
    path: &List<PathArc>,
) -> Result<String, AllocError> {
    let at = pin_text(alloc, parts, pin)?;
    let via = route_text(alloc, parts, path.as_slice())?;
    format!(in alloc; "{} at {} via {}", rule, at.as_str(), via.as_str())
}

fn offence_text(alloc: Global, parts: &Parts, offence: &Offence) -> Result<String, AllocError> {
    match offence {
        Offence::Fanout { net, first, second } => {
            let driver = net_text(alloc, parts, *net)?;
            let one = pin_text(alloc, parts, *first)?;
            let other = pin_text(alloc, parts, *second)?;
            format!(in alloc;
                "fanout {} to {} and {}",
                driver.as_str(),
                one.as_str(),
                other.as_str()
            )
        }
        Offence::Loop { cells } => {
            let mut text = String::from_str(alloc, "loop")?;
            for cell in cells.as_slice() {
                text.push_str(" ")?;
                text.push_str(cell_name(parts, *cell))?;
            }
            Ok(text)
        }
        Offence::DataOnClock { pin, path } => {
            clock_text(alloc, parts, "data on clock", *pin, path)
        }
        Offence::ClockOnData { pin, path } => {
            clock_text(alloc, parts, "clock on data", *pin, path)
        }
        Offence::ClockMerged { pin, path } => clock_text(alloc, parts, "clock merged", *pin, path),
        Offence::ClockOut { pin, path } => clock_text(alloc, parts, "clock out", *pin, path),
        _ => String::from_str(alloc, "another rule"),
    }
}

/// The offence, and whether it does not hold.
fn fault_text(alloc: Global, parts: &Parts, fault: &RuleFault) -> Result<String, AllocError>
    requires { IsSetUp (design_of parts.now.table parts.now.flat parts.now.bench) }
{
    match fault {
        RuleFault::Offends(offence) => {
            let mut text = offence_text(alloc, parts, offence)?;
            if !is_decided(offence) || !holds(offence, &parts.flat, &parts.table, &parts.bench) {
                text.push_str(", which does not hold")?;
            }
            Ok(text)
        }
        RuleFault::Memory => String::from_str(alloc, "no memory"),
    }
}

/// The cells in order, and the nets of the clock.
fn clocked_text(
    alloc: Global,
    parts: &Parts,
    graph: &Graph<'_>,
    clocked: &Clocked,
) -> Result<String, AllocError> {
    let mut text = String::from_str(alloc, "order")?;
    for cell in graph.order() {
        text.push_str(" ")?;
        text.push_str(cell_name(parts, *cell))?;
    }
    text.push_str(" clock")?;
    for place in 0..parts.flat.nets.len() {
        let net = NetId::of(place as u32);
        if clocked.is_clock(net) {
            let name = net_text(alloc, parts, net)?;
            text.push_str(" ")?;
            text.push_str(name.as_str())?;
        }
    }
    Ok(text)
}

/// What is said of a circuit: why its netlist has none, its first offence against the rules on readers, loops and clocks, or its order
/// and its clock.
fn answer_text(alloc: Global, netlist: &[u8], times: &[u8]) -> Result<String, AllocError> {
    let Some(parts) = read_parts(alloc, CELLS, netlist, times) else {
        return refusal_text(alloc, CELLS, netlist);
    };
    match build(alloc, &parts.flat, &parts.table) {
        Err(fault) => fault_text(alloc, &parts, &fault),
        Ok(graph) => match classify(alloc, &graph, &parts.bench) {
            Err(fault) => fault_text(alloc, &parts, &fault),
            Ok(clocked) => clocked_text(alloc, &parts, &graph, &clocked),
        },
    }
}

#[test]
fn circuits_answer_as_they_should(rt: HostRuntime) -> Result<(), Fail> {
    for (name, netlist, times, want) in ROWS {
        let answer = answer_text(rt.alloc(), netlist, times)?;
        assert_eq!(rt; answer.as_str(), want, "{name}");
    }
    Ok(())
}

/// An unread clock, two JTLs, and an output.
const UNREAD_CLOCK: &[u8] = b"module top(input clk, input a, output y);
JTL j2(.a(n), .q(y));
JTL j1(.a(a), .q(n));
endmodule
";

/// Each net with the pin that reads it.
fn readers_text(alloc: Global, parts: &Parts, graph: &Graph<'_>) -> Result<String, AllocError> {
    let mut text = String::new(alloc);
    for place in 0..parts.flat.nets.len() {
        let net = NetId::of(place as u32);
        let name = net_text(alloc, parts, net)?;
        let reader = match graph.reader(net) {
            Some(pin) => pin_text(alloc, parts, pin)?,
            None => String::from_str(alloc, "no pin")?,
        };
        let line = format!(in alloc; "{} to {}; ", name.as_str(), reader.as_str())?;
        text.push_str(line.as_str())?;
    }
    Ok(text)
}

/// The pin of the output bit that is printed so.
fn output_pin(graph: &Graph<'_>, name: &str) -> Option<PinId> {
    let ports = &graph.flat().ports;
    for place in 0..ports.len() {
        let port = PortId::of(place as u32);
        if let Some(bit) = ports.get(port) {
            if bit.output && bit.name.as_str() == name {
                return Some(graph.port_pin(port));
            }
        }
    }
    None
}

/// Calls the laws of this layer that no program calls.
fn call_laws() {
    circuits_are_wired();
    orders_are_one();
    fanouts_are_one();
    graphs_are_ready();
    clock_routes_are_one();
    clock_pins_have_one_path();
    clock_offences_are_one();
    order_is_strict();
    paths_are_one();
    routes_are_paths();
    routes_are_short();
    sums_are_ends();
    lanes_are_paths();
    lane_faults_are_one();
}

#[test]
fn a_graph_tells_its_readers_its_cells_and_its_outputs(rt: HostRuntime) -> Result<(), Fail> {
    call_laws();
    let Some(parts) = read_parts(rt.alloc(), CELLS, UNREAD_CLOCK, ONE_INPUT) else {
        panic!(rt; "refused");
    };
    let Ok(graph) = build(rt.alloc(), &parts.flat, &parts.table) else {
        panic!(rt; "no graph");
    };
    let readers = readers_text(rt.alloc(), &parts, &graph)?;
    assert_eq!(rt;
        readers.as_str(),
        "clk to no pin; a to j1.a; j2.q to y; j1.q to j2.a; "
    );
    assert_eq!(rt; graph.cells().rows.len(), 7);
    let Some(pin) = output_pin(&graph, "y") else {
        panic!(rt; "no output");
    };
    let output = pin_text(rt.alloc(), &parts, pin)?;
    assert_eq!(rt; output.as_str(), "y");
    assert!(rt; output_pin(&graph, "a").is_none());
    Ok(())
}

/// How many parts the long chain has, and how many JTLs each part.
const PARTS: usize = 100;

const JTLS: usize = 1_000;

/// A chain of JTLs `p0.j0`, `p0.j1` and so on, in a scrambled order: the parts `p0`, `p1` and so on stand in a scrambled order in the
/// top, and the JTLs in that of their module.
fn scrambled_chain(alloc: Global) -> Result<String, AllocError> {
    let mut text = String::from_str(alloc, "module part(input a, output q);\nassign w0 = a;\n")?;
    for place in 0..JTLS {
        let jtl = place * 383 % JTLS;
        let line = format!(in alloc; "JTL j{}(.a(w{}), .q(w{}));\n", jtl, jtl, jtl + 1)?;
        text.push_str(line.as_str())?;
    }
    let ends = format!(in alloc; "assign q = w{};\nendmodule\n", JTLS)?;
    text.push_str(ends.as_str())?;
    text.push_str("module top(input clk, input a, output y);\nassign w0 = a;\n")?;
    for place in 0..PARTS {
        let part = place * 37 % PARTS;
        let line = format!(in alloc; "part p{}(.a(w{}), .q(w{}));\n", part, part, part + 1)?;
        text.push_str(line.as_str())?;
    }
    let last = format!(in alloc; "assign y = w{};\nendmodule\n", PARTS)?;
    text.push_str(last.as_str())?;
    Ok(text)
}

/// Whether the order of a graph is that along the chain.
fn follows_chain(alloc: Global, parts: &Parts, graph: &Graph<'_>) -> Result<bool, AllocError> {
    for (place, cell) in graph.order().iter().enumerate() {
        let name = format!(in alloc; "p{}.j{}", place / JTLS, place % JTLS)?;
        if cell_name(parts, *cell) != name.as_str() {
            return Ok(false);
        }
    }
    Ok(graph.order().len() == PARTS * JTLS)
}

#[test]
fn a_hundred_thousand_cells_come_in_order(rt: HostRuntime) -> Result<(), Fail> {
    let netlist = scrambled_chain(rt.alloc())?;
    let Some(parts) = read_parts(rt.alloc(), CELLS, netlist.as_bytes(), ONE_INPUT) else {
        panic!(rt; "refused");
    };
    let Ok(graph) = build(rt.alloc(), &parts.flat, &parts.table) else {
        panic!(rt; "no graph");
    };
    assert!(rt; follows_chain(rt.alloc(), &parts, &graph)?);
    let Ok(clocked) = classify(rt.alloc(), &graph, &parts.bench) else {
        panic!(rt; "no clock");
    };
    assert!(rt; clocked.is_clock(NetId::of(0)));
    assert!(rt; !clocked.is_clock(NetId::of(1)));
    Ok(())
}

/// Each row: what it shows, the netlist, the timing table, and the answer.
const ROWS: [(&str, &[u8], &[u8], &str); 19] = [
    (
        "the second reader stands in another module",
        b"module sub(input p, input clk, output q);
DFF d(.a(p), .clk(clk), .q(q));
endmodule
module top(input clk, input a, output y, output z);
sub s(.p(a), .clk(clk), .q(y));
JTL j(.a(a), .q(z));
endmodule
",
        TWO_OUTPUTS,
        "fanout a to s.d.a and j.a",
    ),
    (
        "two gates drive one output, which is refused before their clock",
        b"module top(input clk, input a, output y);
DFF u1(.a(a), .clk(clk), .q(y));
DFF u2(.a(a), .clk(clk), .q(y));
endmodule
",
        ONE_INPUT,
        "flat: two drivers y u1.q u2.q",
    ),
    (
        "the clock has two readers, and comes first",
        b"module top(input clk, input a, output y);
DFF u1(.a(a), .clk(clk), .q(y));
DFF u2(.a(a), .clk(clk), .q(y2));
endmodule
",
        ONE_INPUT,
        "fanout clk to u1.clk and u2.clk",
    ),
    (
        "the output is the third reader",
        b"module top(input a, input clk, output y);
JTL j(.a(a), .q(m));
JTL k(.a(m), .q(n));
JTL l(.a(m), .q(o));
assign y = m;
endmodule
",
        ONE_INPUT,
        "fanout j.q to k.a and l.a",
    ),
    (
        "two gates in a loop",
        b"module top(input clk, input a, output y);
SPL s(.a(clk), .q0(c1), .q1(c2));
DFF u1(.a(n), .clk(c1), .q(m));
DFF u2(.a(m), .clk(c2), .q(n));
JTL j(.a(a), .q(y));
endmodule
",
        ONE_INPUT,
        "loop u1 u2",
    ),
    (
        "a JTL that reads itself, which no output reads",
        b"module top(input clk, input a, output y);
JTL j(.a(a), .q(y));
JTL k(.a(n), .q(n));
endmodule
",
        ONE_INPUT,
        "loop k",
    ),
    (
        "a loop begins at its least cell",
        b"module top(input clk, input a, output y);
JTL j(.a(a), .q(y));
JTL k1(.a(n3), .q(n1));
JTL k3(.a(n2), .q(n3));
JTL k2(.a(n1), .q(n2));
endmodule
",
        ONE_INPUT,
        "loop k1 k2 k3",
    ),
    (
        "two readers are told before a loop",
        b"module top(input clk, input a, output y);
JTL k(.a(n), .q(n));
JTL j(.a(a), .q(y));
JTL l(.a(a), .q(z));
endmodule
",
        ONE_INPUT,
        "fanout a to j.a and l.a",
    ),
    (
        "the clock on a gate's data",
        b"module top(input clk, input a, output y);
SPL s(.a(clk), .q0(c1), .q1(c2));
DFF u1(.a(c1), .clk(c2), .q(y));
endmodule
",
        ONE_INPUT,
        "clock on data at u1.a via clk s.q0",
    ),
    (
        "data on a clock, from an input",
        b"module top(input clk, input a, input b, output y);
DFF u1(.a(a), .clk(b), .q(y));
endmodule
",
        TWO_INPUTS,
        "data on clock at u1.clk via b",
    ),
    (
        "data on a clock, through a merger, told along its first input",
        b"module top(input clk, input a, input b, output y);
SPL s(.a(a), .q0(a1), .q1(a2));
JTL j(.a(a1), .q(n));
MRG m(.a(n), .b(b), .q(c));
DFF v(.a(a2), .clk(c), .q(y));
endmodule
",
        TWO_INPUTS,
        "data on clock at v.clk via a s.q0 j.q m.q",
    ),
    (
        "the same merger with its inputs exchanged",
        b"module top(input clk, input a, input b, output y);
SPL s(.a(a), .q0(a1), .q1(a2));
JTL j(.a(a1), .q(n));
MRG m(.a(b), .b(n), .q(c));
DFF v(.a(a2), .clk(c), .q(y));
endmodule
",
        TWO_INPUTS,
        "data on clock at v.clk via b m.q",
    ),
    (
        "the clock at a merger, the first pin at fault of two",
        b"module top(input clk, input a, output y);
MRG m(.a(a), .b(b), .q(c));
DFF u1(.a(d), .clk(c), .q(y));
SPL s(.a(clk), .q0(b), .q1(d));
endmodule
",
        ONE_INPUT,
        "clock merged at m.b via clk s.q0",
    ),
    (
        "data on a clock, through a gate, told along the gate's clock pin",
        b"module top(input clk, input a, input b, output y);
SPL s(.a(clk), .q0(c1), .q1(c2));
JTL j(.a(c1), .q(c3));
DFF u(.a(a), .clk(c3), .q(g));
DFF v(.a(b), .clk(g), .q(y));
JTL k(.a(c2), .q(z));
endmodule
",
        TWO_INPUTS,
        "data on clock at v.clk via clk s.q0 j.q u.q",
    ),
    (
        "the clock at an output",
        b"module top(input clk, input a, output y);
JTL j(.a(clk), .q(y));
JTL k(.a(a), .q(z));
endmodule
",
        ONE_INPUT,
        "clock out at y via clk j.q",
    ),
    (
        "the clock at a merger's first pin",
        b"module top(input clk, input a, output y);
MRG m(.a(clk), .b(a), .q(y));
endmodule
",
        ONE_INPUT,
        "clock merged at m.a via clk",
    ),
    (
        "an unread clock",
        UNREAD_CLOCK,
        ONE_INPUT,
        "order j1 j2 clock clk",
    ),
    (
        "a shared JTL, a splitter and two gates",
        b"module top(input clk, input a, output y);
DFF u2(.a(m), .clk(c2), .q(y));
DFF u1(.a(a), .clk(c1), .q(m));
SPL s(.a(c), .q0(c1), .q1(c2));
JTL j(.a(clk), .q(c));
endmodule
",
        ONE_INPUT,
        "order j s u1 u2 clock clk s.q0 s.q1 j.q",
    ),
    (
        "of the cells that can come next the least comes, not the nearest to the inputs",
        b"module top(input clk, input a, input b, output y);
MRG m(.a(p), .b(q), .q(y));
JTL k2(.a(k), .q(p));
JTL j(.a(b), .q(q));
JTL k1(.a(a), .q(k));
endmodule
",
        TWO_INPUTS,
        "order j k1 k2 m clock clk",
    ),
];
