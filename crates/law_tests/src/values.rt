//! The plain programs on a register.

use pulse_laws::plain::{are_values, bits_read, is_apart, is_present, value_given};
use rsfq_ids::circuit::{Bench, Driver, Flat, FlatCell, Pin, PortBit, PortUse, Reader, Strobe};
use rsfq_ids::id::{CellId, Id, NetId, PortId};
use rsfq_ids::list::{IdVec, List, NoMemory};
use rsfq_ids::name::Name;
use rsfq_ids::table::{CellRow, CellTable, Kind};
use std::alloc::Global;
use std::test::Fail;

// the row `DFF,gate,a,clk,q,01,5000,7000,2000,1000,10000`
fn dff(alloc: Global) -> Result<CellTable, NoMemory> {
    let mut inputs = List::new(alloc);
    inputs.push(Name::of(alloc, "a")?)?;
    let mut outputs = List::new(alloc);
    outputs.push(Name::of(alloc, "q")?)?;
    let mut rows = List::new(alloc);
    rows.push(CellRow {
        name: Name::of(alloc, "DFF")?,
        kind: Kind::Gate,
        inputs,
        clock: Some(Name::of(alloc, "clk")?),
        outputs,
        truth: 2,
        low: 5000,
        high: 7000,
        setup: 2000,
        hold: 1000,
        dead: 10000,
    })?;
    Ok(CellTable { rows })
}

// `module top(input clk, input a, output y); DFF u1(.a(a), .clk(clk), .q(y)); endmodule`
fn register(alloc: Global) -> Result<Flat, NoMemory> {
    let mut ports = IdVec::new(alloc);
    for (name, output) in [("clk", false), ("a", false), ("y", true)] {
        let bit = PortBit {
            name: Name::of(alloc, name)?,
            output,
        };
        if ports.len() < 3 {
            ports.push(bit)?;
        }
    }
    let mut cells = IdVec::new(alloc);
    cells.push(FlatCell {
        path: Name::of(alloc, "u1")?,
        row: 0,
    })?;
    let mut nets = IdVec::new(alloc);
    nets.push(Driver::Port(PortId::of(0)))?;
    nets.push(Driver::Port(PortId::of(1)))?;
    nets.push(Driver::Out(CellId::of(0), 0))?;
    let mut pins = IdVec::new(alloc);
    pins.push(pin(Reader::Pin(CellId::of(0), 0), 1))?;
    pins.push(pin(Reader::Pin(CellId::of(0), 1), 0))?;
    pins.push(pin(Reader::Port(PortId::of(2)), 2))?;
    Ok(Flat {
        ports,
        cells,
        nets,
        pins,
    })
}

fn pin(reader: Reader, net: u32) -> Pin {
    Pin {
        reader,
        net: NetId::of(net),
    }
}

fn bench(alloc: Global) -> Result<Bench, NoMemory> {
    let mut uses = IdVec::new(alloc);
    uses.push(PortUse::Clock)?;
    uses.push(PortUse::Arrival {
        low: 4000,
        high: 6000,
    })?;
    uses.push(PortUse::Strobed(Strobe {
        offset: 0,
        setup: 1000,
        hold: 1000,
    }))?;
    Ok(Bench {
        period: 20000,
        jitter: 0,
        clock: PortId::of(0),
        uses,
    })
}

// The register takes the value of its input; so of its four valuations under the word 1 one alone holds.
fn tell(alloc: Global) -> Result<[bool; 4], NoMemory> {
    let table = dff(alloc)?;
    let flat = register(alloc)?;
    let bench = bench(alloc)?;
    let word = [true];
    let good = are_values(alloc, &table, &flat, &bench, &word, &[false, true, true])?;
    let wrong = are_values(alloc, &table, &flat, &bench, &word, &[false, true, false])?;
    let out = Driver::Out(CellId::of(0), 0);
    let given = value_given(
        alloc,
        &table,
        &flat,
        &bench,
        &word,
        &[false, true, false],
        out,
    )?;
    let bits = bits_read(alloc, &flat, &[false, true, false], CellId::of(0), 2)?;
    let read = bits.as_slice() == [true, false].as_slice();
    Ok([good, wrong, given, read])
}

#[test]
fn a_register_has_its_values(rt: HostRuntime) -> Result<(), Fail> {
    match tell(rt.alloc()) {
        Ok(told) => assert_eq!(rt; told, [true, false, true, true]),
        Err(_) => panic!(rt; "no memory"),
    }
    assert!(rt; is_present(&[5000], &[0, 20000, 40000], 20000));
    assert!(rt; !is_present(&[5000], &[0, 20000, 40000], 40000));
    assert!(rt; is_apart(5000, &[3000, 8000]));
    assert!(rt; !is_apart(5000, &[3000, 7999]));
    Ok(())
}
