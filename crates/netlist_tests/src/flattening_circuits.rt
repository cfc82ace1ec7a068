//! Netlists with their whole circuits, or why they have none.

ghost use Rattle.rsfq_ids.specs.WellFormed.{IsTable};

use cell_table::read::read_cells;
use flattener::FlatFault;
use loading::{Refusal, load_circuit};
use rsfq_ids::circuit::{Driver, Flat, Reader};
use rsfq_ids::id::Id;
use rsfq_ids::table::CellTable;
use std::alloc::Global;
use std::test::Fail;

/// The cells JTL, with the ports `a` and `q`, DFF, with `a`, `clk` and `q`, and SPL, with `a`, `q0` and `q1`.
const CELLS: &[u8] = b"cell,kind,inputs,clock,outputs,function,lo,hi,setup,hold,dead
JTL,jtl,a,,q,,2000,3000,,,0
DFF,gate,a,clk,q,01,5000,7000,2000,1000,10000
SPL,split,a,,q0 q1,,3000,4000,,,0
";

/// Adds a word and a blank.
fn push_word(text: &mut String, word: &str) -> Result<(), Fail> {
    text.push_str(word)?;
    text.push(' ')?;
    Ok(())
}

/// Adds ports, each behind its direction, and cells, each with the number of its row.
fn push_ends(alloc: Global, text: &mut String, flat: &Flat) -> Result<(), Fail> {
    for port in flat.ports.as_slice() {
        text.push(if port.output { '>' } else { '<' })?;
        push_word(text, port.name.as_str())?;
    }
    text.push_str("| ")?;
    for cell in flat.cells.as_slice() {
        let row = cell.row;
        push_word(text, cell.path.as_str())?;
        push_word(text, format!(in alloc; "{row}")?.as_str())?;
    }
    Ok(())
}

/// Adds nets, each as its driver, and pins, each with the number of its net.
fn push_nets(alloc: Global, text: &mut String, flat: &Flat) -> Result<(), Fail> {
    text.push_str("|")?;
    for driver in flat.nets.as_slice() {
        let word = match *driver {
            Driver::Port(port) => format!(in alloc; " {}", port.index())?,
            Driver::Out(cell, output) => format!(in alloc; " {}.{output}", cell.index())?,
        };
        text.push_str(word.as_str())?;
    }
    text.push_str(" |")?;
    for pin in flat.pins.as_slice() {
        let net = pin.net.index();
        let word = match pin.reader {
            Reader::Pin(cell, place) => format!(in alloc; " {}.{place}={net}", cell.index())?,
            Reader::Port(port) => format!(in alloc; " {}={net}", port.index())?,
        };
        text.push_str(word.as_str())?;
    }
    Ok(())
}

/// A fault with its names.
fn told(alloc: Global, fault: &FlatFault) -> Result<String, Fail> {
    let mut text = format!(in alloc; "{fault}")?;
    match fault {
        FlatFault::TwoDrivers(wire, first, second) => {
            for name in [wire, first, second] {
                text.push(' ')?;
                text.push_str(name.as_str())?;
            }
        }
        FlatFault::AliasLoop(wires) => {
            for name in wires.as_slice() {
                text.push(' ')?;
                text.push_str(name.as_str())?;
            }
        }
        FlatFault::NoDriver(pin) => {
            text.push(' ')?;
            text.push_str(pin.as_str())?;
        }
        _ => {}
    }
    Ok(text)
}

/// The circuit of a text over some cells, list by list, or why it has none.
fn answer(alloc: Global, text: &[u8], cells: &CellTable) -> Result<String, Fail>
    requires { IsTable cells.now }
{
    if text.len() > 16_777_216 {
        return Ok(format!(in alloc; "too long")?);
    }
    match load_circuit(alloc, text, cells, None) {
        Ok(flat) => {
            let mut shown = String::new(alloc);
            push_ends(alloc, &mut shown, &flat)?;
            push_nets(alloc, &mut shown, &flat)?;
            Ok(shown)
        }
        Err(Refusal::Flat(fault)) => told(alloc, &fault),
        Err(refusal) => Ok(format!(in alloc; "{refusal}")?),
    }
}

/// The same over [`CELLS`].
fn found(alloc: Global, text: &[u8]) -> Result<String, Fail> {
    match read_cells(alloc, CELLS) {
        Ok(cells) => answer(alloc, text, &cells),
        Err(_) => Ok(format!(in alloc; "no cells")?),
    }
}

/// A vector whose ends turn, and two instances of a module.
const PAIR: &str = "
module pair(input [3:2] d, input [1:0] c, output [0:1] q);
  wire [1:0] w;
  half lo(.d(d[2]), .c(c[0]), .q(w[0])), hi(d[3], c[1], w[1]);
  assign q = w;
endmodule
module half(input d, input c, output q);
  wire n;
  DFF f(.a(d), .clk(c), .q(n));
  JTL j(n, q);
endmodule
";

#[test]
fn circuits_have_four_lists(rt: HostRuntime) -> Result<(), Fail> {
    let rows: [(&str, &str); 4] = [
        (
            PAIR,
            "<d[2] <d[3] <c[0] <c[1] >q[1] >q[0] | lo.f 1 lo.j 0 hi.f 1 hi.j 0 | 0 1 2 3 0.0 1.0 2.0 3.0 | 0.0=0 0.1=2 1.0=4 2.0=1 2.1=3 3.0=6 4=5 5=7",
        ),
        (
            "module m(input a, output [1:0] y); SPL s(a, y[1], y[0]); endmodule",
            "<a >y[0] >y[1] | s 2 | 0 0.0 0.1 | 0.0=0 1=2 2=1",
        ),
        ("module m; endmodule", "| | |"),
        (
            "module m(input [1:0] a, output [1:0] y); wire [1:0] u, v; assign u = a, {v[0], v[1]} = u, y = v; endmodule",
            "<a[0] <a[1] >y[0] >y[1] | | 0 1 | 2=1 3=0",
        ),
    ];
    for (text, wanted) in rows {
        assert_eq!(rt; found(rt.alloc(), text.as_bytes())?.as_str(), wanted);
    }
    Ok(())
}

/// A module with the inputs `a` and `b`, the output `y` and the wires `n` and `m`, around some assigns.
fn assigned(alloc: Global, assigns: &str) -> Result<String, Fail> {
    Ok(format!(in alloc; "module m(a,b,y);input a,b;output y;wire n,m;{assigns}endmodule")?)
}

#[test]
fn refusals_come_in_their_order(rt: HostRuntime) -> Result<(), Fail> {
    let rows: [(&str, &str); 12] = [
        ("assign y=a;", "<a <b >y | | 0 1 | 2=0"),
        ("assign y=a,y=a;", "<a <b >y | | 0 1 | 2=0"),
        ("assign y=n,n=b,y=b;", "<a <b >y | | 0 1 | 2=1"),
        ("assign y=b,y=a;", "two drivers y a b"),
        ("assign n=a,b=n,y=n;", "two drivers b a b"),
        ("assign n=m,m=n,y=a,y=b;", "two drivers y a b"),
        ("assign m=n,n=m;", "alias loop n m"),
        ("assign a=a,y=a;", "alias loop a"),
        ("assign y=n;", "no driver y"),
        ("assign y=n;JTL j(m,n);", "no driver j.a"),
        ("JTL j(a,y),k(b,y);", "two drivers y j.q k.q"),
        ("assign m=n;assign n=m;assign m=n;", "alias loop n m"),
    ];
    for (assigns, wanted) in rows {
        let text = assigned(rt.alloc(), assigns)?;
        assert_eq!(rt; found(rt.alloc(), text.as_bytes())?.as_str(), wanted);
    }
    Ok(())
}

#[test]
fn places_have_names(rt: HostRuntime) -> Result<(), Fail> {
    for (text, wanted) in [
        (
            "module m;wire a;n u();assign a=a;endmodule module n;wire[2:3]w;endmodule",
            "alias loop a",
        ),
        (
            "module m;wire a;n u();endmodule module n;wire[2:3]w;assign w=w;endmodule",
            "alias loop u.w[3]",
        ),
        (
            "module m;wire a;n u();endmodule module n;wire[2:3]w;assign w[2]=w[2];endmodule",
            "alias loop u.w[2]",
        ),
    ] {
        assert_eq!(rt; found(rt.alloc(), text.as_bytes())?.as_str(), wanted);
    }
    Ok(())
}

/// A module that assigns one vector of so many bits from another again and again.
fn repeated(alloc: Global, bits: u32, times: u32) -> Result<String, Fail> {
    let left = bits.saturating_sub(1);
    let mut text = format!(in alloc; "module m(input [{left}:0] a, output [{left}:0] y);")?;
    for _time in 0..times {
        text.push_str("assign y=a;")?;
    }
    text.push_str("endmodule")?;
    Ok(text)
}

/// Assigns that stand again add nothing: 16,000 of them over 4,096 bits join as many bits as one.
#[test]
fn equal_assigns_count_once(rt: HostRuntime) -> Result<(), Fail> {
    for (bits, times) in [(1, 2), (4_096, 1), (4_096, 16_000)] {
        let text = repeated(rt.alloc(), bits, times)?;
        let bytes = text.as_bytes();
        let Ok(cells) = read_cells(rt.alloc(), CELLS) else {
            panic!(rt; "no cells");
        };
        assert!(rt; bytes.len() <= 16_777_216);
        match load_circuit(rt.alloc(), bytes, &cells, None) {
            Ok(flat) => {
                assert_eq!(rt; flat.pins.len(), bits as usize);
                for (bit, pin) in flat.pins.as_slice().iter().enumerate() {
                    assert_eq!(rt; pin.net.index(), bit);
                }
            }
            Err(_) => panic!(rt; "refused"),
        }
    }
    Ok(())
}

/// Assigns that are alike but not the same count each: by what they set, by what they are set from, by how many bits they join, or by how
/// these are parted.
#[test]
fn alike_assigns_all_count(rt: HostRuntime) -> Result<(), Fail> {
    let rows: [(&str, &str); 6] = [
        (
            "module m(input [1:0] a, output [1:0] y); assign y[0]=a[0]; assign y[1]=a[0]; endmodule",
            "<a[0] <a[1] >y[0] >y[1] | | 0 1 | 2=0 3=0",
        ),
        (
            "module m(input [1:0] a, output y); assign y=a[0]; assign y=a[1]; endmodule",
            "two drivers y a[0] a[1]",
        ),
        (
            "module m(input [1:0] a, output [1:0] y); assign y[0]=a[0]; assign y[1:0]=a[1:0]; endmodule",
            "<a[0] <a[1] >y[0] >y[1] | | 0 1 | 2=0 3=1",
        ),
        (
            "module m(input a, input b, output y, output z); assign {y,z}={a,b}; assign {y,z}={a,b}; endmodule",
            "<a <b >y >z | | 0 1 | 2=0 3=1",
        ),
        (
            "module m(input a, input b, output y, output z); assign {y,z}={a,b}; assign {z,y}={a,b}; endmodule",
            "two drivers y a b",
        ),
        (
            "module m(input [1:0] a, output y, output z); assign {y,z}=a; assign y=a[1]; assign {y,z}={a[1],a[0]}; endmodule",
            "<a[0] <a[1] >y >z | | 0 1 | 2=1 3=0",
        ),
    ];
    for (text, wanted) in rows {
        assert_eq!(rt; found(rt.alloc(), text.as_bytes())?.as_str(), wanted);
    }
    Ok(())
}
