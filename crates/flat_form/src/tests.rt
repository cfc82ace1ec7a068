//! Circuits of three JTLs, and what is found of each. The wanted answers are written by hand.

ghost use Rattle.std.specs.Prelude.{◌≡◌, ◌∷◌, [], ◌<◌, codes, IfOk, false, true};
ghost use Rattle.rsfq_ids.specs.declared.circuit.PortBit.{PortBit};
ghost use Rattle.rsfq_ids.specs.declared.circuit.FlatCell.{FlatCell};
ghost use Rattle.rsfq_ids.specs.declared.circuit.Driver.TheVariants as driver;
ghost use Rattle.rsfq_ids.specs.declared.circuit.Reader.TheVariants as reader;
ghost use Rattle.rsfq_ids.specs.WellFormed.{IsFlat, AreDistinct};
ghost use Rattle.flat_form.specs.Table.{jtl_table};

use crate::{find_wires, wire_bench, wire_table};
use rsfq_ids::circuit::{Driver, Flat, FlatCell, Pin, PortBit, PortUse, Reader, Strobe};
use rsfq_ids::id::{CellId, Id, NetId, PinId, PortId};
use rsfq_ids::list::{IdVec, NoMemory};
use rsfq_ids::name::Name;
use std::alloc::Global;

/// Which port bit is named `clk`.
#[derive(Clone, Copy, Debug, PartialEq, Eq)]
enum Clock {
    Input,
    Output,
    None,
}

/// The names of the first port, an input, and the fourth, an output.
fn names(clock: Clock) -> (&'static str, &'static str)
    ensures { AreDistinct (result.0.now ∷ codes "a" ∷ codes "b" ∷ result.1.now ∷ codes "z" ∷ []) }
{
    match clock {
        Clock::Input => ("clk", "y"),
        Clock::Output => ("ck", "clk"),
        Clock::None => ("ck", "y"),
    }
}

fn port(alloc: Global, name: &str, output: bool) -> Result<PortBit, NoMemory>
    ensures { IfOk result (λ port. port ≡ record { name = name.now; output = output }) }
{
    Ok(PortBit {
        name: Name::of(alloc, name)?,
        output,
    })
}

fn ports(alloc: Global, first: &str, fourth: &str) -> Result<IdVec<PortId, PortBit>, NoMemory>
    ensures { IfOk result (λ ports. ports ≡ record { name = first.now; output = false } ∷ record { name = codes "a"; output = false } ∷ record { name = codes "b"; output = false } ∷ record { name = fourth.now; output = true } ∷ record { name = codes "z"; output = true } ∷ []) }
{
    let mut ports = IdVec::new(alloc);
    ports.push(port(alloc, first, false)?)?;
    ports.push(port(alloc, "a", false)?)?;
    ports.push(port(alloc, "b", false)?)?;
    ports.push(port(alloc, fourth, true)?)?;
    ports.push(port(alloc, "z", true)?)?;
    Ok(ports)
}

fn cells(alloc: Global) -> Result<IdVec<CellId, FlatCell>, NoMemory>
    ensures { IfOk result (λ cells. cells ≡ record { path = codes "p"; row = 0 } ∷ record { path = codes "q"; row = 0 } ∷ record { path = codes "r"; row = 0 } ∷ []) }
{
    let mut cells = IdVec::new(alloc);
    cells.push(FlatCell {
        path: Name::of(alloc, "p")?,
        row: 0,
    })?;
    cells.push(FlatCell {
        path: Name::of(alloc, "q")?,
        row: 0,
    })?;
    cells.push(FlatCell {
        path: Name::of(alloc, "r")?,
        row: 0,
    })?;
    Ok(cells)
}

fn nets(alloc: Global) -> Result<IdVec<NetId, Driver>, NoMemory>
    ensures { IfOk result (λ nets. nets ≡ driver.Port 0 ∷ driver.Port 1 ∷ driver.Port 2 ∷ driver.Out 0 0 ∷ driver.Out 1 0 ∷ driver.Out 2 0 ∷ []) }
{
    let mut nets = IdVec::new(alloc);
    nets.push(Driver::Port(PortId::of(0)))?;
    nets.push(Driver::Port(PortId::of(1)))?;
    nets.push(Driver::Port(PortId::of(2)))?;
    nets.push(Driver::Out(CellId::of(0), 0))?;
    nets.push(Driver::Out(CellId::of(1), 0))?;
    nets.push(Driver::Out(CellId::of(2), 0))?;
    Ok(nets)
}

fn pin(reader: Reader, net: u32) -> Pin
    ensures { result ≡ record { reader = reader; net = net } }
{
    Pin {
        reader,
        net: NetId::of(net),
    }
}

/// The nets that the cells and then the outputs read.
#[derive(Clone, Copy)]
struct Reads {
    p: u32,
    q: u32,
    r: u32,
    y: u32,
    z: u32,
}

fn pins(alloc: Global, reads: Reads) -> Result<IdVec<PinId, Pin>, NoMemory>
    ensures { IfOk result (λ pins. pins ≡ record { reader = reader.Pin 0 0; net = reads.p } ∷ record { reader = reader.Pin 1 0; net = reads.q } ∷ record { reader = reader.Pin 2 0; net = reads.r } ∷ record { reader = reader.Port 3; net = reads.y } ∷ record { reader = reader.Port 4; net = reads.z } ∷ []) }
{
    let mut pins = IdVec::new(alloc);
    pins.push(pin(Reader::Pin(CellId::of(0), 0), reads.p))?;
    pins.push(pin(Reader::Pin(CellId::of(1), 0), reads.q))?;
    pins.push(pin(Reader::Pin(CellId::of(2), 0), reads.r))?;
    pins.push(pin(Reader::Port(PortId::of(3)), reads.y))?;
    pins.push(pin(Reader::Port(PortId::of(4)), reads.z))?;
    Ok(pins)
}

/// Three inputs, three JTLs and two outputs. Nets 0 to 2 are the inputs', nets 3 to 5 the JTLs'.
fn circuit(alloc: Global, clock: Clock, reads: Reads) -> Result<Flat, NoMemory>
    requires { (reads.p < 6) × (reads.q < 6) × (reads.r < 6) × (reads.y < 6) × (reads.z < 6) }
    ensures { IfOk result (λ flat. IsFlat jtl_table flat) }
{
    let (first, fourth) = names(clock);
    Ok(Flat {
        ports: ports(alloc, first, fourth)?,
        cells: cells(alloc)?,
        nets: nets(alloc)?,
        pins: pins(alloc, reads)?,
    })
}

/// Each circuit, and the order of its cells where it is of the form.
const CASES: &[(Clock, [u32; 5], Option<[u32; 3]>)] = &[
    // wires from a and from b
    (Clock::Input, [1, 2, 4, 3, 5], Some([0, 1, 2])),
    // one wire that passes the cells from the last to the first, and one without a cell
    (Clock::Input, [4, 5, 1, 3, 2], Some([2, 1, 0])),
    (Clock::Input, [1, 3, 4, 5, 2], Some([0, 1, 2])),
    // no input is named clk
    (Clock::None, [1, 2, 4, 3, 5], None),
    (Clock::Output, [1, 2, 4, 3, 5], None),
    // a JTL reads the clock; an output does
    (Clock::Input, [0, 2, 4, 3, 5], None),
    (Clock::Input, [1, 3, 4, 5, 0], None),
    // one net is read by two JTLs; by a JTL and an output; by two outputs
    (Clock::Input, [1, 1, 4, 3, 5], None),
    (Clock::Input, [1, 2, 3, 3, 5], None),
    (Clock::Input, [1, 3, 2, 4, 4], None),
    // a ring of one JTL, two of one, one of two, one of three
    (Clock::Input, [1, 4, 3, 5, 2], None),
    (Clock::Input, [3, 4, 1, 5, 2], None),
    (Clock::Input, [4, 3, 1, 5, 2], None),
    (Clock::Input, [5, 3, 4, 1, 2], None),
];

/// The reads of a case.
fn reads_of(nets: [u32; 5]) -> Reads {
    let [p, q, r, y, z] = nets;
    Reads { p, q, r, y, z }
}

#[test]
fn tells_wires(rt: HostRuntime) {
    for (clock, nets, wanted) in CASES {
        let reads = reads_of(*nets);
        assert!(rt; reads.p < 6 && reads.q < 6 && reads.r < 6 && reads.y < 6 && reads.z < 6);
        match circuit(rt.alloc(), *clock, reads) {
            Ok(flat) => match (find_wires(rt.alloc(), &flat), wanted) {
                (Ok(Some(wires)), Some(order)) => {
                    assert_eq!(rt; wires.clock, PortId::of(0));
                    assert_eq!(rt; wires.order.len(), 3);
                    for (place, cell) in order.iter().enumerate() {
                        assert_eq!(rt; wires.order.get(place), Some(&CellId::of(*cell)));
                    }
                }
                (Ok(None), None) => {}
                _ => assert!(rt; false, "at {nets:?}"),
            },
            Err(_) => assert!(rt; false, "no memory"),
        }
    }
}

#[test]
fn gives_table_and_bench(rt: HostRuntime) {
    match wire_table(rt.alloc()) {
        Ok(table) => match table.rows.get(0) {
            Some(row) => {
                assert_eq!(rt; row.name.as_str(), "JTL");
                assert_eq!(rt; (row.low, row.high, row.dead), (2000, 3000, 0));
            }
            None => assert!(rt; false, "no row"),
        },
        Err(_) => assert!(rt; false, "no memory"),
    }
    let strobe = Strobe {
        offset: 0,
        setup: 1,
        hold: 1,
    };
    let arrival = PortUse::Arrival {
        low: 4000,
        high: 6000,
    };
    let wanted = [
        PortUse::Clock,
        arrival,
        arrival,
        PortUse::Strobed(strobe),
        PortUse::Strobed(strobe),
    ];
    let reads = Reads {
        p: 1,
        q: 2,
        r: 4,
        y: 3,
        z: 5,
    };
    let Ok(flat) = circuit(rt.alloc(), Clock::Input, reads) else {
        assert!(rt; false, "no memory");
        return;
    };
    let Ok(Some(wires)) = find_wires(rt.alloc(), &flat) else {
        assert!(rt; false, "not of the form");
        return;
    };
    match wire_bench(rt.alloc(), &flat, &wires, 20_000, 4000, 6000) {
        Ok(bench) => {
            assert_eq!(rt; (bench.period, bench.jitter), (20_000, 0));
            assert_eq!(rt; bench.clock, PortId::of(0));
            assert_eq!(rt; bench.uses.as_slice(), wanted.as_slice());
        }
        Err(_) => assert!(rt; false, "no memory"),
    }
}
