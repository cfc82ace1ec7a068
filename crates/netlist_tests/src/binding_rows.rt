//! Texts with their bound sources, and texts that have none.

use crate::texts::tree_of;
use cell_table::read::read_cells;
use rsfq_ids::list::NoMemory;
use std::alloc::Global;
use std::process::Abort;
use std::test::Fail;
use verilog_bind::{BindFault, Bound, BoundInstance, BoundModule, BoundPart, bind};

/// Adds parts, each as `WIRE.BIT+COUNT`.
fn push_parts(alloc: Global, text: &mut String, parts: &[BoundPart]) -> Result<(), Fail> {
    for part in parts {
        let BoundPart { wire, bit, count } = *part;
        text.push_str(format!(in alloc; " {wire}.{bit}+{count}")?.as_str())?;
    }
    Ok(())
}

/// Adds ports with their directions, and wires with their ranges.
fn push_names(alloc: Global, text: &mut String, owner: &BoundModule) -> Result<(), Fail> {
    for port in owner.ports.as_slice() {
        let way = if port.output { '>' } else { '<' };
        text.push_str(format!(in alloc; " {way}{}", port.name.as_str())?.as_str())?;
    }
    text.push_str(";")?;
    for wire in owner.wires.as_slice() {
        text.push_str(format!(in alloc; " {}", wire.name.as_str())?.as_str())?;
        if let Some((left, right)) = wire.range {
            text.push_str(format!(in alloc; "[{left}:{right}]")?.as_str())?;
        }
    }
    Ok(())
}

/// Adds an instance with its links, each behind the number of its port.
fn push_instance(alloc: Global, text: &mut String, instance: &BoundInstance) -> Result<(), Fail> {
    let name = instance.name.as_str();
    let kind = instance.kind;
    text.push_str(format!(in alloc; "; {name} {kind:?}")?.as_str())?;
    for link in instance.links.as_slice() {
        let port = link.port;
        text.push_str(format!(in alloc; ", {port}:")?.as_str())?;
        push_parts(alloc, text, link.parts.as_slice())?;
    }
    Ok(())
}

/// Adds a module.
fn push_module(alloc: Global, text: &mut String, owner: &BoundModule) -> Result<(), Fail> {
    text.push_str(owner.name.as_str())?;
    push_names(alloc, text, owner)?;
    for assign in owner.assigns.as_slice() {
        text.push_str(";")?;
        push_parts(alloc, text, assign.to.as_slice())?;
        text.push_str(" =")?;
        push_parts(alloc, text, assign.from.as_slice())?;
    }
    for instance in owner.instances.as_slice() {
        push_instance(alloc, text, instance)?;
    }
    text.push_str(" / ")?;
    Ok(())
}

/// A bound source: its modules, and the number of the top.
fn shown(alloc: Global, bound: &Bound) -> Result<String, Fail> {
    let mut text = String::new(alloc);
    for owner in bound.modules.as_slice() {
        push_module(alloc, &mut text, owner)?;
    }
    let top = bound.top;
    text.push_str(format!(in alloc; "top {top}")?.as_str())?;
    Ok(text)
}

/// The cells JTL, with the ports `a` and `q`, and DFF, with `a`, `clk` and `q`.
const CELLS: &[u8] =
    b"cell,kind,inputs,clock,outputs,function,lo,hi,setup,hold,dead\nJTL,jtl,a,,q,,2000,3000,,,0\nDFF,gate,a,clk,q,01,5000,7000,2000,1000,10000\n";

/// A fault, with the names of a ring.
fn printed(alloc: Global, fault: &BindFault) -> Result<String, Fail> {
    let mut text = format!(in alloc; "{fault}")?;
    if let BindFault::Recursive(names) = fault {
        for name in names.as_slice() {
            text.push_str(" ")?;
            text.push_str(name.as_str())?;
        }
    }
    Ok(text)
}

/// The bound source of a text over these cells, or its fault.
fn answer(alloc: Global, text: &[u8], top: Option<&str>) -> Result<String, Fail> {
    let source = match tree_of(alloc, text) {
        Ok(source) => source,
        Err(why) => return Ok(format!(in alloc; "{why}")?),
    };
    let Ok(cells) = read_cells(alloc, CELLS) else {
        return Ok(format!(in alloc; "no cells")?);
    };
    match bind(alloc, &source, &cells, top) {
        Ok(bound) => shown(alloc, &bound),
        Err(fault) => printed(alloc, &fault),
    }
}

/// A text, the name of its top if one is given, and what is answered.
type Row = (&'static str, Option<&'static str>, &'static str);

/// Sources that are bound.
const BOUND: [Row; 28] = [
    // Bits and parts count from the right end, whichever way a range goes.
    (
        "module m(input [3:0] a, output [0:1] y); assign y = a[2:1]; endmodule",
        None,
        "m <a >y; a[3:0] y[0:1]; 1.0+2 = 0.1+2 / top 0",
    ),
    (
        "module t(input [7:4] d,input [4:7] u,output [1:0] y,output z);assign y=d[6:5],z=u[5];assign y=u[4:5];assign {z,y}={d[4],u[6:7]};endmodule",
        None,
        "t <d <u >y >z; d[7:4] u[4:7] y[1:0] z; 2.0+2 = 0.1+2; 3.0+1 = 1.2+1; 2.0+2 = 1.2+2; 2.0+2 3.0+1 = 1.0+2 0.0+1 / top 0",
    ),
    (
        "module m; wire [3:0] a; wire [0:1] b; assign a = {b, b[1], b[0:0]}; endmodule",
        None,
        "m; a[3:0] b[0:1]; 0.0+4 = 1.1+1 1.0+1 1.0+2 / top 0",
    ),
    (
        "module m(a); output [0:3] a; assign a[0:3] = a; endmodule",
        None,
        "m >a; a[0:3]; 0.0+4 = 0.0+4 / top 0",
    ),
    // An implicit wire stands at its first use, in an assign or a link, among the declared ones.
    (
        "module t(input a,output y);assign w=a;wire v;JTL j(.a(w),.q(v));JTL k(v,{y});endmodule",
        None,
        "t <a >y; a y w v; 2.0+1 = 0.0+1; j Cell(0), 0: 2.0+1, 1: 3.0+1; k Cell(0), 0: 3.0+1, 1: 1.0+1 / top 0",
    ),
    (
        "module n(input [2:0] x);endmodule module t;n u({w,v});wire [1:0] v;endmodule",
        None,
        "n <x; x[2:0] / t; w v[1:0]; u Module(0), 0: 1.0+2 0.0+1 / top 1",
    ),
    (
        "module m; JTL u(a); endmodule",
        None,
        "m; a; u Cell(0), 0: 0.0+1 / top 0",
    ),
    (
        "module m; JTL u(x, y); endmodule",
        None,
        "m; x y; u Cell(0), 0: 0.0+1, 1: 1.0+1 / top 0",
    ),
    // Links stand in text order, those without an expression are left out. Modules that are not reached are too, with their faults.
    (
        "module c(input i,output o);assign o=i;endmodule module dead(input i);wire w,w;x z();endmodule module t(input i,output o);b q(.o(o),.i(i));c r(i,);endmodule module b(output o,input i);c s(.i(i),.o());DFF f(i,,o);endmodule",
        Some("t"),
        "c <i >o; i o; 1.0+1 = 0.0+1 / t <i >o; i o; q Module(2), 0: 1.0+1, 1: 0.0+1; r Module(0), 0: 0.0+1 / b >o <i; o i; s Module(0), 0: 1.0+1; f Cell(1), 0: 1.0+1, 2: 0.0+1 / top 1",
    ),
    (
        "module t(input a,output y);DFF d(.q(y),.clk(),.a(a));endmodule",
        None,
        "t <a >y; a y; d Cell(1), 2: 1.0+1, 0: 0.0+1 / top 0",
    ),
    (
        "module a(input i);endmodule module u;endmodule module t(input i);a v(.i(i));endmodule",
        Some("t"),
        "a <i; i / t <i; i; v Module(0), 0: 0.0+1 / top 1",
    ),
    (
        "module t;endmodule module u;wire w,w;x v();endmodule",
        Some("t"),
        "t; / top 0",
    ),
    (
        "module t;DFF u(,,);endmodule",
        None,
        "t;; u Cell(1) / top 0",
    ),
    // Two instances may link one port name; a name may be one of a wire, of an instance and of links.
    (
        "module m; DFF u(.a(a)), v(.a(a)); JTL w(.a(a)); endmodule",
        None,
        "m; a; u Cell(1), 0: 0.0+1; v Cell(1), 0: 0.0+1; w Cell(0), 0: 0.0+1 / top 0",
    ),
    (
        "module m(input wire b); wire b; JTL b(b, b); endmodule",
        None,
        "m <b; b; b Cell(0), 0: 0.0+1, 1: 0.0+1 / top 0",
    ),
    // A port that is declared again as a wire, before or behind its direction; a range of one bit; an escaped scalar with the printed name of a bit.
    (
        "module t(a);wire [1:0] a;input [1:0] a;endmodule",
        None,
        "t <a; a[1:0] / top 0",
    ),
    (
        "module m(a); wire [0:7] a; input [0:7] a; endmodule",
        None,
        "m <a; a[0:7] / top 0",
    ),
    (
        "module m(a); output [3:0] a; wire [3:0] a; endmodule",
        None,
        "m >a; a[3:0] / top 0",
    ),
    (
        "module t(input [0:0] a);wire [0:0] a;assign a=a[0];endmodule",
        None,
        "t <a; a[0:0]; 0.0+1 = 0.0+1 / top 0",
    ),
    (
        "module i(input [3:0] a,input \\a[3] );endmodule module t;i u(,w);endmodule",
        None,
        "i <a <a[3]; a[3:0] a[3] / t; w; u Module(0), 1: 0.0+1 / top 1",
    ),
    // The widest ports, and modules with little in them.
    (
        "module t(input [4096:1] a);endmodule",
        None,
        "t <a; a[4096:1] / top 0",
    ),
    (
        "module t(input [4095:0]a);endmodule",
        None,
        "t <a; a[4095:0] / top 0",
    ),
    (
        "module m(a); input [0:4095] a; endmodule",
        None,
        "m <a; a[0:4095] / top 0",
    ),
    ("module t;endmodule", None, "t; / top 0"),
    ("module t();endmodule", None, "t; / top 0"),
    (
        "module m; wire [3:0] a; endmodule",
        None,
        "m; a[3:0] / top 0",
    ),
    // The ports of a kind have their places and widths by the directions of its module.
    (
        "module t;m u(.v(x),.x(w));wire [3:0] w;endmodule module m(x,y,v);input [3:0] x;input y,v;endmodule",
        Some("t"),
        "t; x w[3:0]; u Module(1), 2: 0.0+1, 0: 1.0+4 / m <x <y <v; x[3:0] y v / top 0",
    ),
    (
        "module t;n i(.q(x),.r(y));wire [1:0] x;endmodule module n(input [0:1] p,q,output r);endmodule",
        None,
        "t; y x[1:0]; i Module(1), 1: 1.0+2, 2: 0.0+1 / n <p <q >r; p[0:1] q[0:1] r / top 0",
    ),
];

/// Names that are given twice, but for those of bits.
const TWICE: [Row; 13] = [
    // Modules and cells, ports, wires and instances.
    (
        "module a;endmodule module a;endmodule",
        None,
        "duplicate a a",
    ),
    ("module DFF;endmodule", None, "duplicate DFF DFF"),
    (
        "module a;endmodule module b;endmodule module a;endmodule",
        None,
        "duplicate a a",
    ),
    ("module t;wire w,v,v,w;endmodule", None, "duplicate v v"),
    ("module m; wire a, a; endmodule", None, "duplicate a a"),
    (
        "module m; wire b, a; wire c, b; endmodule",
        None,
        "duplicate b b",
    ),
    (
        "module m(b, b); input c, c; endmodule",
        None,
        "duplicate b b",
    ),
    (
        "module m; JTL u(), v(); DFF u(); endmodule",
        None,
        "duplicate u u",
    ),
    (
        "module a;wire w,w;endmodule module t(a,\\a[0] );input [3:0]a;input \\a[0] ;a u();endmodule module t;endmodule",
        Some("t"),
        "duplicate w w",
    ),
    // Of a name and a bit that are given twice the first is answered, and a port has the range of its first direction.
    (
        "module t(a,\\a[2] ,\\a[5] );input \\a[5] ,\\a[2] ;input [4:0] a;input [7:3] a;endmodule",
        None,
        "duplicate a[2] a[2]",
    ),
    (
        "module t(a,\\a[5] );input \\a[5] ;input [4:0] a;input [7:3] a;endmodule",
        None,
        "duplicate a a",
    ),
    (
        "module t(a,a,\\a[2] );input [4:0] a;input \\a[2] ;endmodule",
        None,
        "duplicate a a",
    ),
    (
        "module t(a,b,\\b[1] ,\\u[0] );input [4:0] a;input [7:0] b;input \\b[1] ;endmodule",
        None,
        "duplicate b[1] b[1]",
    ),
];

/// Bits of ports with one printed name, or nearly.
const BITS: [Row; 37] = [
    (
        "module t(input \\a[3] ,input [7:0] a);endmodule",
        None,
        "duplicate a[3] a[3]",
    ),
    (
        "module t(input [7:0] a,input \\a[3] );endmodule",
        None,
        "duplicate a[3] a[3]",
    ),
    (
        "module t(input [7:0] a,input \\a[7] );endmodule",
        None,
        "duplicate a[7] a[7]",
    ),
    (
        "module t(input [7:0] a,input \\a[0] );endmodule",
        None,
        "duplicate a[0] a[0]",
    ),
    (
        "module t(input [7:0] a,input \\a[8] );endmodule",
        None,
        "t <a <a[8]; a[7:0] a[8] / top 0",
    ),
    (
        "module t(input \\a[8] ,input [7:0] a);endmodule",
        None,
        "t <a[8] <a; a[8] a[7:0] / top 0",
    ),
    (
        "module t(input [7:2] a,input \\a[2] );endmodule",
        None,
        "duplicate a[2] a[2]",
    ),
    (
        "module t(input [7:2] a,input \\a[1] );endmodule",
        None,
        "t <a <a[1]; a[7:2] a[1] / top 0",
    ),
    (
        "module t(input [2:7] a,input \\a[2] );endmodule",
        None,
        "duplicate a[2] a[2]",
    ),
    (
        "module t(input [2:7] a,input \\a[7] );endmodule",
        None,
        "duplicate a[7] a[7]",
    ),
    (
        "module t(input [2:7] a,input \\a[1] );endmodule",
        None,
        "t <a <a[1]; a[2:7] a[1] / top 0",
    ),
    (
        "module t(input [2:7] a,input \\a[8] );endmodule",
        None,
        "t <a <a[8]; a[2:7] a[8] / top 0",
    ),
    (
        "module t(input [3:3] a,input \\a[3] );endmodule",
        None,
        "duplicate a[3] a[3]",
    ),
    (
        "module t(input \\a[5] ,input \\a[1] ,input [7:0] a);endmodule",
        None,
        "duplicate a[1] a[1]",
    ),
    (
        "module t(input \\a[5] ,input \\a[1] ,input [0:7] a);endmodule",
        None,
        "duplicate a[5] a[5]",
    ),
    (
        "module t(input [7:0] a,input [7:0] b,input \\b[1] ,input \\a[2] );endmodule",
        None,
        "duplicate b[1] b[1]",
    ),
    (
        "module t(input [7:0] a,input \\a[03] );endmodule",
        None,
        "t <a <a[03]; a[7:0] a[03] / top 0",
    ),
    (
        "module t(input [7:0] a,input \\a[00] );endmodule",
        None,
        "t <a <a[00]; a[7:0] a[00] / top 0",
    ),
    (
        "module t(input [7:0] a,input \\a[] );endmodule",
        None,
        "t <a <a[]; a[7:0] a[] / top 0",
    ),
    (
        "module t(input [7:0] a,input \\a[3]x );endmodule",
        None,
        "t <a <a[3]x; a[7:0] a[3]x / top 0",
    ),
    (
        "module t(input [7:0] a,input \\a[-1] );endmodule",
        None,
        "t <a <a[-1]; a[7:0] a[-1] / top 0",
    ),
    (
        "module t(input [7:0] a,input \\a[+3] );endmodule",
        None,
        "t <a <a[+3]; a[7:0] a[+3] / top 0",
    ),
    (
        "module t(input [7:0] a,input \\a[3 );endmodule",
        None,
        "t <a <a[3; a[7:0] a[3 / top 0",
    ),
    (
        "module t(input [7:0] a,input \\a3] );endmodule",
        None,
        "t <a <a3]; a[7:0] a3] / top 0",
    ),
    (
        "module t(input [7:0] a,input \\b[3] );endmodule",
        None,
        "t <a <b[3]; a[7:0] b[3] / top 0",
    ),
    (
        "module t(input a,input \\a[3] );endmodule",
        None,
        "t <a <a[3]; a a[3] / top 0",
    ),
    (
        "module t(input \\a[3] ,input \\a[3] );endmodule",
        None,
        "duplicate a[3] a[3]",
    ),
    (
        "module t(input [7:0] a,input a);endmodule",
        None,
        "duplicate a a",
    ),
    (
        "module t(input [7:0] a,input [0:0] \\a[3] );endmodule",
        None,
        "t <a <a[3]; a[7:0] a[3][0:0] / top 0",
    ),
    (
        "module t(input [7:0] \\a[1] ,input \\a[1][2] );endmodule",
        None,
        "duplicate a[1][2] a[1][2]",
    ),
    (
        "module t(input [999999999:0] a,input \\a[999999999] );endmodule",
        None,
        "duplicate a[999999999] a[999999999]",
    ),
    (
        "module t(input [999999999:0] a,input \\a[1000000000] );endmodule",
        None,
        "limit width 1000000000",
    ),
    (
        "module t(input [0:999999999] a,input \\a[0] );endmodule",
        None,
        "duplicate a[0] a[0]",
    ),
    (
        "module t(input [4294967295:0] a,input \\a[4294967296] );endmodule",
        None,
        "no tokens",
    ),
    (
        "module t(input [3:0] a,input \\a[2] );endmodule",
        None,
        "duplicate a[2] a[2]",
    ),
    (
        "module i(input [3:0] a,input \\a[3] );endmodule module t;i u(,w);endmodule",
        Some("i"),
        "duplicate a[3] a[3]",
    ),
    (
        "module m(a, \\a[1] ); input [1:0] a; input \\a[1] ; endmodule",
        None,
        "duplicate a[1] a[1]",
    ),
];

/// Tops, kinds, rings and ports.
const FOUND: [Row; 33] = [
    // Tops.
    ("", None, "no top"),
    ("module t;endmodule", Some("DFF"), "no top"),
    ("module a;endmodule", Some("DFF"), "no top"),
    ("module a;a u();endmodule", None, "no top"),
    (
        "module a;endmodule module b;endmodule module c;endmodule",
        None,
        "two tops a b",
    ),
    (
        "module c(input i,output o);assign o=i;endmodule module dead(input i);wire w,w;x z();endmodule module t(input i,output o);b q(.o(o),.i(i));c r(i,);endmodule module b(output o,input i);c s(.i(i),.o());DFF f(i,,o);endmodule",
        None,
        "two tops dead t",
    ),
    // Kinds.
    ("module a;x u();endmodule", None, "no module x"),
    ("module m; SFQ u(); endmodule", None, "no module SFQ"),
    ("module a;x u();y v();endmodule", None, "no module x"),
    ("module m; n u(,); endmodule", None, "no module n"),
    (
        "module a;x u();endmodule module t;y u();a v();endmodule",
        None,
        "no module x",
    ),
    // Rings.
    ("module a;a u();endmodule", Some("a"), "recursive a"),
    (
        "module t;a u();endmodule module b;a u();endmodule module a;b u();endmodule",
        None,
        "recursive b a",
    ),
    (
        "module t;c u();endmodule module a;b u();endmodule module b;c u();endmodule module c;a u();endmodule",
        None,
        "recursive a b c",
    ),
    (
        "module t;a u();endmodule module b;x u();endmodule module a;a u();b v();endmodule",
        None,
        "no module x",
    ),
    // Ports.
    ("module t(a);endmodule", None, "port a"),
    ("module t;input a;endmodule", None, "port a"),
    ("module m(a, b); input a; endmodule", None, "port b"),
    ("module m(a); input a, c; endmodule", None, "port c"),
    ("module t;assign w=w;DFF u(.x());endmodule", None, "port x"),
    ("module t;DFF u(.d(w));input z;endmodule", None, "port d"),
    ("module m; JTL u(.a(x), .p(y)); endmodule", None, "port p"),
    (
        "module t;n u(.r(x),.w(y));endmodule module n(input p,output r);endmodule",
        None,
        "port w",
    ),
    ("module t;DFF u(.a(),.a());endmodule", None, "port twice a"),
    (
        "module t;DFF u(,,,);DFF v(.q(),.q());endmodule",
        None,
        "port twice q",
    ),
    (
        "module m; JTL j(.a(a), .a(b)); JTL k(a, b, c); endmodule",
        None,
        "port twice a",
    ),
    (
        "module m; DFF u(.q(a), .a(b), .q(c)); endmodule",
        None,
        "port twice q",
    ),
    (
        "module m; DFF u(.a(), .a()), v(.q(), .q()); endmodule",
        None,
        "port twice a",
    ),
    ("module t;DFF u(,,,);endmodule", None, "too many 4 3"),
    ("module m; JTL u(x, y, z); endmodule", None, "too many 3 2"),
    (
        "module m; n u(x); endmodule module n; endmodule",
        None,
        "too many 1 0",
    ),
    (
        "module m(input [1:0] a, output y); JTL j(a[2], y); JTL k(a, y, y); endmodule",
        None,
        "too many 3 2",
    ),
    (
        "module t;m u(,,,,);endmodule module m(x,y,z,v);input [3:0] x;input y,z,v;endmodule",
        None,
        "too many 5 4",
    ),
];

/// Names, ranges and widths.
const REFUSED: [Row; 35] = [
    // Names.
    ("module t;wire v;assign v=w;endmodule", None, "no name w"),
    ("module t;assign p=q;endmodule", None, "no name p"),
    (
        "module t;wire [3:0]w;assign w[4]=v[0];endmodule",
        None,
        "no name v",
    ),
    (
        "module m; wire [3:0] a; assign a = z; endmodule",
        None,
        "no name z",
    ),
    (
        "module m(a); output [3:0] a; assign a[3] = b; endmodule",
        None,
        "no name b",
    ),
    ("module m; JTL u(a[0]); endmodule", None, "no name a"),
    (
        "module m; JTL u(a[0]); assign b = a; endmodule",
        None,
        "no name a",
    ),
    // Ranges.
    (
        "module t;wire [3:0]w;wire v;assign v=w[4];endmodule",
        None,
        "range w",
    ),
    (
        "module t(output y);assign y=w[0];JTL u(w);endmodule",
        None,
        "range w",
    ),
    ("module m; JTL u(a, a[0]); endmodule", None, "range a"),
    (
        "module m(a); output [3:0] a; assign a[4] = a; endmodule",
        None,
        "range a",
    ),
    (
        "module m(a); output [3:0] a; assign a[0:3] = a; endmodule",
        None,
        "range a",
    ),
    (
        "module m(a); output a; assign a[0] = a; endmodule",
        None,
        "range a",
    ),
    ("module t(input [0:0] a);wire a;endmodule", None, "range a"),
    (
        "module m(a); wire a; input [0:7] a; endmodule",
        None,
        "range a",
    ),
    (
        "module m(a); output [3:0] a; wire [0:3] a; endmodule",
        None,
        "range a",
    ),
    (
        "module m(a); wire [0:3] a; output [3:0] a; endmodule",
        None,
        "range a",
    ),
    (
        "module m(a); output [3:0] a; wire a; endmodule",
        None,
        "range a",
    ),
    // Widths.
    (
        "module t;wire [3:0]w;wire v;assign v=w;endmodule",
        None,
        "width 4 1",
    ),
    (
        "module t(input [3:0] a,output [1:0] y);assign y=a;endmodule",
        None,
        "width 4 2",
    ),
    (
        "module m; wire [3:0] a; wire [0:1] b; assign a = {b, {b, a[2:1]}}; endmodule",
        None,
        "width 6 4",
    ),
    (
        "module t;wire [3:0]w;DFF u(.a(w[2:1]));endmodule",
        None,
        "width 2 1",
    ),
    (
        "module m(input [1:0] a, output y); JTL j(a, y); endmodule",
        None,
        "width 2 1",
    ),
    (
        "module m; wire [3:0] a; JTL u(.a(a)); endmodule",
        None,
        "width 4 1",
    ),
    (
        "module m; wire [3:0] a; JTL u(w, a[1:0]); endmodule",
        None,
        "width 2 1",
    ),
    (
        "module n(input [2:0] x);endmodule module t;n u({w,v});endmodule",
        None,
        "width 2 3",
    ),
    (
        "module m; n u(a); endmodule module n(x); input [1:0] x; endmodule",
        None,
        "width 1 2",
    ),
    (
        "module t;m u(x);endmodule module m(x,y);input [3:0] x;input [7:0] y;endmodule",
        None,
        "width 1 4",
    ),
    (
        "module t;m u(,x);endmodule module m(x,y);input [3:0] x;input [7:0] y;endmodule",
        None,
        "width 1 8",
    ),
    (
        "module t;n u(.q(x));endmodule module n(input [0:1] p,q,output r);endmodule",
        None,
        "width 1 2",
    ),
    (
        "module t;DFF g(.clk(),.a({x,y}));endmodule",
        None,
        "width 2 1",
    ),
    ("module t;DFF g(,{x,y});endmodule", None, "width 2 1"),
    (
        "module t(input [4096:0]a);endmodule",
        None,
        "limit width 4097",
    ),
    (
        "module m(a); input [4096:0] a; endmodule",
        None,
        "limit width 4097",
    ),
    (
        "module t(a,b);input [5000:0] b;input [4096:0] a;endmodule",
        None,
        "limit width 4097",
    ),
];

/// Each row is answered as it says.
fn each_is_answered(rt: &impl Abort, alloc: Global, rows: &[Row]) -> Result<(), Fail> {
    for (text, top, wanted) in rows {
        let answer = answer(alloc, text.as_bytes(), *top)?;
        assert_eq!(rt; answer.as_str(), *wanted, "{text}");
    }
    Ok(())
}

#[test]
fn sources_are_bound(rt: HostRuntime) -> Result<(), Fail> {
    each_is_answered(&rt, rt.alloc(), &BOUND)
}

#[test]
fn names_are_given_twice(rt: HostRuntime) -> Result<(), Fail> {
    each_is_answered(&rt, rt.alloc(), &TWICE)
}

#[test]
fn bits_have_one_name(rt: HostRuntime) -> Result<(), Fail> {
    each_is_answered(&rt, rt.alloc(), &BITS)
}

#[test]
fn tops_kinds_and_ports_are_found(rt: HostRuntime) -> Result<(), Fail> {
    each_is_answered(&rt, rt.alloc(), &FOUND)
}

#[test]
fn names_and_widths_are_refused(rt: HostRuntime) -> Result<(), Fail> {
    each_is_answered(&rt, rt.alloc(), &REFUSED)
}

/// A text with many modules, each once in the top, and one whose many ports are linked by order.
fn large_text(alloc: Global, count: u32) -> Result<String, Fail> {
    let mut text = String::from_str(alloc, "module wide(p")?;
    for number in 0..count {
        text.push_str(format!(in alloc; ",p{number}")?.as_str())?;
    }
    text.push_str(");input p")?;
    for number in 0..count {
        text.push_str(format!(in alloc; ",p{number}")?.as_str())?;
    }
    text.push_str(";endmodule ")?;
    for number in 0..count {
        text.push_str(format!(in alloc; "module m{number};endmodule ")?.as_str())?;
    }
    text.push_str("module t;")?;
    for number in 0..count {
        text.push_str(format!(in alloc; "m{number} i{number}();")?.as_str())?;
    }
    text.push_str("wide w(a")?;
    for number in 0..count {
        text.push_str(format!(in alloc; ",w{number}")?.as_str())?;
    }
    text.push_str(");endmodule")?;
    Ok(text)
}

/// The last numbers of a large bound source: of its modules, and of the last link of the last instance of its top, with its wire.
fn last_numbers(alloc: Global, bound: &Bound) -> Result<String, Fail> {
    let modules = bound.modules.len();
    let Some(top) = bound.modules.get(bound.top as usize) else {
        return Ok(format!(in alloc; "no top")?);
    };
    let Some(last) = top.instances.as_slice().last() else {
        return Ok(format!(in alloc; "no instance")?);
    };
    let Some(link) = last.links.as_slice().last() else {
        return Ok(format!(in alloc; "no link")?);
    };
    let mut text = format!(in alloc; "{modules} {:?} {}", last.kind, link.port)?;
    push_parts(alloc, &mut text, link.parts.as_slice())?;
    Ok(text)
}

#[test]
fn large_sources_are_bound(rt: HostRuntime) -> Result<(), Fail> {
    let alloc = rt.alloc();
    let text = large_text(alloc, 70000)?;
    let source = tree_of(alloc, text.as_bytes())?;
    let Ok(cells) = read_cells(alloc, CELLS) else {
        panic!(rt; "no cells");
    };
    match bind(alloc, &source, &cells, None) {
        Ok(bound) => {
            let numbers = last_numbers(alloc, &bound)?;
            assert_eq!(rt; numbers.as_str(), "70002 Module(0) 70000 70000.0+1");
        }
        Err(_) => panic!(rt; "not bound"),
    }
    Ok(())
}
