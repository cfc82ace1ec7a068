//! Offences held against their rules: those that hold, and those that only look alike.

use crate::circuits::{CELLS, ONE_INPUT, Parts, TWO_INPUTS, read_parts};
use offence_check::{holds, is_decided};
use rsfq_ids::id::{CellId, Id, NetId, PinId, PortId};
use rsfq_ids::list::{List, NoMemory};
use rsfq_ids::offence::{Against, Offence, PathArc, PathPick};
use std::alloc::Global;
use std::test::Fail;

/// An arc by its numbers.
#[derive(Clone, Copy)]
enum Arc {
    Port(u32),
    Through(u32, u8, u8),
}

use Arc::{Port, Through};

/// A pulse: its arcs, its delays in fs, its number and the pin where it ends.
type Pulse = (&'static [Arc], &'static [i64], u64, u32);

/// An offence by its numbers.
#[derive(Clone, Copy)]
enum Said {
    Fanout(u32, u32, u32),
    Loop(&'static [u32]),
    DataOnClock(u32, &'static [Arc]),
    ClockOnData(u32, &'static [Arc]),
    ClockMerged(u32, &'static [Arc]),
    ClockOut(u32, &'static [Arc]),
    Dead(u32, Pulse, Pulse),
    Window(u32, Pulse, u64),
    Ahead(u32, Pulse, Pulse),
}

fn arcs_of(alloc: Global, arcs: &[Arc]) -> Result<List<PathArc>, NoMemory> {
    let mut list = List::new(alloc);
    for arc in arcs {
        let path_arc = match *arc {
            Arc::Port(port) => PathArc::Port(PortId::of(port)),
            Arc::Through(cell, pin, out) => PathArc::Through {
                cell: CellId::of(cell),
                pin,
                out,
            },
        };
        list.push(path_arc)?;
    }
    Ok(list)
}

fn pick_of(alloc: Global, pulse: Pulse) -> Result<PathPick, NoMemory> {
    let (arcs, times, number, ends) = pulse;
    let mut delays = List::new(alloc);
    for time in times {
        delays.push(*time)?;
    }
    Ok(PathPick {
        arcs: arcs_of(alloc, arcs)?,
        delays,
        number,
        ends: PinId::of(ends),
    })
}

fn loop_of(alloc: Global, numbers: &[u32]) -> Result<Offence, NoMemory> {
    let mut cells = List::new(alloc);
    for number in numbers {
        cells.push(CellId::of(*number))?;
    }
    Ok(Offence::Loop { cells })
}

fn offence_of(alloc: Global, said: Said) -> Result<Offence, NoMemory> {
    match said {
        Said::Fanout(net, first, second) => Ok(Offence::Fanout {
            net: NetId::of(net),
            first: PinId::of(first),
            second: PinId::of(second),
        }),
        Said::Loop(cells) => loop_of(alloc, cells),
        Said::DataOnClock(pin, arcs) => Ok(Offence::DataOnClock {
            pin: PinId::of(pin),
            path: arcs_of(alloc, arcs)?,
        }),
        Said::ClockOnData(pin, arcs) => Ok(Offence::ClockOnData {
            pin: PinId::of(pin),
            path: arcs_of(alloc, arcs)?,
        }),
        Said::ClockMerged(pin, arcs) => Ok(Offence::ClockMerged {
            pin: PinId::of(pin),
            path: arcs_of(alloc, arcs)?,
        }),
        Said::ClockOut(pin, arcs) => Ok(Offence::ClockOut {
            pin: PinId::of(pin),
            path: arcs_of(alloc, arcs)?,
        }),
        Said::Dead(cell, first, second) => Ok(Offence::Dead {
            cell: CellId::of(cell),
            first: pick_of(alloc, first)?,
            second: pick_of(alloc, second)?,
        }),
        Said::Window(pin, pulse, strobe) => Ok(Offence::Window {
            pin: PinId::of(pin),
            pulse: pick_of(alloc, pulse)?,
            against: Against::Strobe(strobe),
        }),
        Said::Ahead(pin, pulse, clock) => Ok(Offence::Ahead {
            pin: PinId::of(pin),
            pulse: pick_of(alloc, pulse)?,
            against: Against::Clock(pick_of(alloc, clock)?),
        }),
    }
}

/// Whether the offence holds of the circuit of these texts. `None` where a text is refused.
fn holds_of(
    alloc: Global,
    cells: &[u8],
    netlist: &[u8],
    times: &[u8],
    said: Said,
) -> Result<Option<bool>, NoMemory> {
    let Some(parts) = read_parts(alloc, cells, netlist, times) else {
        return Ok(None);
    };
    let offence = offence_of(alloc, said)?;
    if !is_decided(&offence) {
        return Ok(None);
    }
    let Parts { table, flat, bench } = &parts;
    Ok(Some(holds(&offence, flat, table, bench)))
}

/// A circuit with its tables, and offences: what each shows, and whether it holds.
type Rows = (
    &'static [u8],
    &'static [u8],
    &'static [u8],
    &'static [(&'static str, Said, bool)],
);

#[test]
fn offences_hold_exactly_where_the_rule_is_broken(rt: HostRuntime) -> Result<(), Fail> {
    for (cells, netlist, times, rows) in ROWS {
        for (name, said, want) in rows {
            match holds_of(rt.alloc(), cells, netlist, times, *said) {
                Ok(found) => assert_eq!(rt; found, Some(*want), "{name}"),
                Err(NoMemory) => panic!(rt; "no memory"),
            }
        }
    }
    Ok(())
}

/// The pins of `u1` and `u2` come first, then the output; the nets are the clock, `a` and the two outputs.
const TWO_READERS: &[u8] = b"module top(input clk, input a, output y);
DFF u1(.a(a), .clk(clk), .q(y));
DFF u2(.a(a), .clk(clk), .q(z));
endmodule
";

/// The cells are a splitter, two gates in a loop, and a JTL.
const LOOP: &[u8] = b"module top(input clk, input a, output y);
SPL s(.a(clk), .q0(c1), .q1(c2));
DFF u1(.a(n), .clk(c1), .q(m));
DFF u2(.a(m), .clk(c2), .q(n));
JTL j(.a(a), .q(y));
endmodule
";

/// The pins are those of the splitter, the gate's data and clock, and the output.
const CLOCK_AS_DATA: &[u8] = b"module top(input clk, input a, output y);
SPL s(.a(clk), .q0(c1), .q1(c2));
DFF u1(.a(c1), .clk(c2), .q(y));
endmodule
";

/// The ports are the clock, `a`, `b` and `y`; the pins are the merger's, the gate's data and clock, and the output.
const MERGED_CLOCK: &[u8] = b"module top(input clk, input a, input b, output y);
MRG m(.a(a), .b(clk), .q(c));
DFF u1(.a(b), .clk(c), .q(y));
endmodule
";

const CLOCK_WIRE: &[u8] = b"module top(input clk, input a, output y);
JTL j(.a(clk), .q(y));
endmodule
";

const WIRE: &[u8] = b"module top(input clk, input a, output y);
JTL j(.a(a), .q(y));
endmodule
";

/// An arrival up to 17,000 fs, so that a pulse may come with the strobe.
const LATE: &[u8] = b"role,port,x,y,z
period,,20000,,
clock,clk,0,,
input,a,4000,17000,
output,y,0,1000,1000
";

const MERGER: &[u8] = b"module top(input clk, input a, input b, output y);
MRG m(.a(a), .b(b), .q(y));
endmodule
";

/// Two inputs that may come 5,000 fs apart.
const APART: &[u8] = b"role,port,x,y,z
period,,20000,,
clock,clk,0,,
input,a,4000,6000,
input,b,8000,9000,
output,y,0,1000,1000
";

/// A JTL of 45,000 fs on the clock of a gate.
const SLOW_CELLS: &[u8] = b"cell,kind,inputs,clock,outputs,function,lo,hi,setup,hold,dead
JTL,jtl,a,,q,,45000,45000,,,0
DFF,gate,a,clk,q,01,5000,7000,2000,1000,10000
";

const SLOW_CLOCK: &[u8] = b"module top(input clk, input a, output y);
JTL j(.a(clk), .q(c));
DFF u1(.a(a), .clk(c), .q(y));
endmodule
";

/// The clock pulse 0 behind the slow JTL.
const SLOW_PULSE: Pulse = (&[Port(0), Through(0, 0, 0)], &[0, 45000], 0, 2);

const ROWS: [Rows; 8] = [
    (
        CELLS,
        TWO_READERS,
        ONE_INPUT,
        &[
            ("both clock pins", Said::Fanout(0, 1, 3), true),
            ("in the other order", Said::Fanout(0, 3, 1), true),
            ("both data pins", Said::Fanout(1, 0, 2), true),
            ("one pin twice", Said::Fanout(0, 1, 1), false),
            ("the pins of another net", Said::Fanout(0, 0, 2), false),
            ("one pin of another net", Said::Fanout(0, 1, 2), false),
            ("a pin that is not there", Said::Fanout(0, 1, 5), false),
            (
                "numbers out of range",
                Said::Fanout(4294967295, 4294967295, 4294967294),
                false,
            ),
        ],
    ),
    (
        CELLS,
        LOOP,
        ONE_INPUT,
        &[
            ("both gates", Said::Loop(&[1, 2]), true),
            ("from the other on", Said::Loop(&[2, 1]), true),
            ("twice around", Said::Loop(&[1, 2, 1, 2]), true),
            ("one of them", Said::Loop(&[1]), false),
            ("no cell", Said::Loop(&[]), false),
            ("an open end", Said::Loop(&[0, 1, 2]), false),
            ("a stop on the way", Said::Loop(&[1, 1, 2]), false),
            ("a cell that is not there", Said::Loop(&[1, 2, 9]), false),
            ("the greatest number", Said::Loop(&[4294967295]), false),
        ],
    ),
    (
        CELLS,
        CLOCK_AS_DATA,
        ONE_INPUT,
        &[
            (
                "the clock on data",
                Said::ClockOnData(1, &[Port(0), Through(0, 0, 0)]),
                true,
            ),
            (
                "a path that ends elsewhere",
                Said::ClockOnData(1, &[Port(0), Through(0, 0, 1)]),
                false,
            ),
            (
                "the clock on its own pin",
                Said::ClockOnData(2, &[Port(0), Through(0, 0, 1)]),
                false,
            ),
            (
                "a path that ends too early",
                Said::ClockOnData(1, &[Port(0)]),
                false,
            ),
            ("no path", Said::ClockOnData(1, &[]), false),
            (
                "a path without a beginning",
                Said::ClockOnData(1, &[Through(0, 0, 0)]),
                false,
            ),
            (
                "a path from another port",
                Said::ClockOnData(1, &[Port(1), Through(0, 0, 0)]),
                false,
            ),
            (
                "two ports on one path",
                Said::ClockOnData(1, &[Port(0), Port(0), Through(0, 0, 0)]),
                false,
            ),
            (
                "through a pin that the cell has not",
                Said::ClockOnData(1, &[Port(0), Through(0, 1, 0)]),
                false,
            ),
            (
                "through a cell that is not there",
                Said::ClockOnData(1, &[Port(0), Through(9, 0, 0)]),
                false,
            ),
            (
                "at a pin that is not there",
                Said::ClockOnData(9, &[Port(0), Through(0, 0, 0)]),
                false,
            ),
            (
                "under the name of another rule",
                Said::ClockMerged(1, &[Port(0), Through(0, 0, 0)]),
                false,
            ),
        ],
    ),
    (
        CELLS,
        MERGED_CLOCK,
        TWO_INPUTS,
        &[
            (
                "data on a clock, from the merger's first input",
                Said::DataOnClock(3, &[Port(1), Through(0, 0, 0)]),
                true,
            ),
            (
                "the clock through a merger",
                Said::DataOnClock(3, &[Port(0), Through(0, 1, 0)]),
                true,
            ),
            (
                "each input has its pin",
                Said::DataOnClock(3, &[Port(0), Through(0, 0, 0)]),
                false,
            ),
            ("data on data", Said::DataOnClock(2, &[Port(2)]), false),
            (
                "the clock at a merger",
                Said::ClockMerged(1, &[Port(0)]),
                true,
            ),
            ("data at a merger", Said::ClockMerged(0, &[Port(1)]), false),
        ],
    ),
    (
        CELLS,
        CLOCK_WIRE,
        ONE_INPUT,
        &[
            (
                "the clock at the output",
                Said::ClockOut(1, &[Port(0), Through(0, 0, 0)]),
                true,
            ),
            ("the clock at a JTL", Said::ClockOut(0, &[Port(0)]), false),
            ("a path too short", Said::ClockOut(1, &[Port(0)]), false),
        ],
    ),
    (
        CELLS,
        WIRE,
        LATE,
        &[
            (
                "with the strobe",
                Said::Window(1, (&[Port(1), Through(0, 0, 0)], &[17000, 3000], 0, 1), 1),
                true,
            ),
            (
                "just inside the setup",
                Said::Window(1, (&[Port(1), Through(0, 0, 0)], &[16001, 3000], 0, 1), 1),
                true,
            ),
            (
                "on the edge of the setup",
                Said::Window(1, (&[Port(1), Through(0, 0, 0)], &[16000, 3000], 0, 1), 1),
                false,
            ),
            (
                "a delay that the input does not take",
                Said::Window(1, (&[Port(1), Through(0, 0, 0)], &[17001, 3000], 0, 1), 1),
                false,
            ),
            (
                "a delay too few",
                Said::Window(1, (&[Port(1), Through(0, 0, 0)], &[17000], 0, 1), 1),
                false,
            ),
            (
                "another strobe",
                Said::Window(1, (&[Port(1), Through(0, 0, 0)], &[17000, 3000], 0, 1), 2),
                false,
            ),
            (
                "the greatest numbers",
                Said::Window(
                    1,
                    (
                        &[Port(1), Through(0, 0, 0)],
                        &[17000, 3000],
                        18446744073709551614,
                        1,
                    ),
                    18446744073709551615,
                ),
                true,
            ),
            (
                "delays of the greatest numbers",
                Said::Window(
                    1,
                    (
                        &[Port(1), Through(0, 0, 0)],
                        &[9223372036854775807, 9223372036854775807],
                        0,
                        1,
                    ),
                    0,
                ),
                false,
            ),
        ],
    ),
    (
        CELLS,
        MERGER,
        APART,
        &[
            (
                "just inside the dead time",
                Said::Dead(0, (&[Port(1)], &[4000], 0, 0), (&[Port(2)], &[8999], 0, 1)),
                true,
            ),
            (
                "the later one first",
                Said::Dead(0, (&[Port(2)], &[8999], 0, 1), (&[Port(1)], &[4000], 0, 0)),
                true,
            ),
            (
                "on the edge of the dead time",
                Said::Dead(0, (&[Port(1)], &[4000], 0, 0), (&[Port(2)], &[9000], 0, 1)),
                false,
            ),
            (
                "one pulse twice",
                Said::Dead(0, (&[Port(1)], &[4000], 0, 0), (&[Port(1)], &[4000], 0, 0)),
                false,
            ),
            (
                "another word",
                Said::Dead(0, (&[Port(1)], &[4000], 1, 0), (&[Port(2)], &[8999], 0, 1)),
                false,
            ),
        ],
    ),
    (
        SLOW_CELLS,
        SLOW_CLOCK,
        ONE_INPUT,
        &[
            (
                "word 1 before clock pulse 0",
                Said::Ahead(1, (&[Port(1)], &[6000], 1, 1), SLOW_PULSE),
                true,
            ),
            (
                "word 0",
                Said::Ahead(1, (&[Port(1)], &[6000], 0, 1), SLOW_PULSE),
                false,
            ),
            (
                "word 2, though it comes at 46,000 fs",
                Said::Ahead(1, (&[Port(1)], &[6000], 2, 1), SLOW_PULSE),
                false,
            ),
            (
                "clock pulse 1",
                Said::Ahead(
                    1,
                    (&[Port(1)], &[6000], 1, 1),
                    (&[Port(0), Through(0, 0, 0)], &[0, 45000], 1, 2),
                ),
                false,
            ),
        ],
    ),
];
