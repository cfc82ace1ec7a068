//! The two ends of nets: drivers in the order of nets, readers in the order of pins, and the places where they stand.

ghost use Rattle.std.specs.Prelude.{◌≡◌, ◌+◌, ◌-◌, ◌<◌, ◌≤◌, ◌^◌, ◌++◌, map, length, IfOk, OnOk};
ghost use Rattle.std.specs.List.{All, flat_map, enumerate_from, range_with_len};
ghost use Rattle.rsfq_ids.specs.WellFormed.{IsTable, drivers_of, readers_of};
ghost use Rattle.rsfq_ids.specs.declared.circuit.Driver.TheVariants.{Out};
ghost use Rattle.rsfq_ids.specs.declared.circuit.Reader.TheVariants.{Pin};
ghost use Rattle.bind_forms.specs.Bits.{width_of};
ghost use Rattle.flat_places.specs.Circuit.{port_bits};
ghost use Rattle.flat_places.specs.Paths.{longer};
ghost use Rattle.flattener.specs.Ends.{bare, bits_of_port, input_drivers, output_readers, input_places, output_places, HasDriver, HasReader, printed_driver, printed_reader};

use crate::wiring::reading_pins;
use bind_forms::BoundPort;
use flat_names::{bit_name, longer_path};
use rsfq_ids::circuit::{Driver, FlatCell, PortBit, Reader};
use rsfq_ids::id::{CellId, Id, NetId, PortId};
use rsfq_ids::list::{IdVec, NoMemory};
use rsfq_ids::name::Name;
use rsfq_ids::table::CellTable;
use std::alloc::Global;

/// How many bits a port has.
fn port_width(port: &BoundPort) -> u32
    requires { width_of port.now.range ≤ 4096 }
    ensures { result ≡ width_of port.now.range }
{
    match port.range {
        None => 1,
        Some((left, right)) => left.saturating_sub(right) + right.saturating_sub(left) + 1,
    }
}

/// Adds the bits of a port, from the right of its range.
fn push_port_bits(
    alloc: Global,
    bits: &mut IdVec<PortId, PortBit>,
    port: &BoundPort,
) -> Result<(), NoMemory>
    requires width { width_of port.now.range ≤ 4096 }
    requires room { length bits.old + width_of port.now.range < 2 ^ 32 - 1 }
    ensures { OnOk result (bits.new ≡ bits.old ++ bits_of_port port.now) }
{
    let width = port_width(port);
    for place in 0..width {
        let name = bit_name(alloc, port.name.as_str(), port.range, place)?;
        bits.push(PortBit {
            name,
            output: port.output,
        })?;
    }
    Ok(())
}

/// The bits of ports in port order.
pub fn port_bits(alloc: Global, ports: &[BoundPort]) -> Result<IdVec<PortId, PortBit>, NoMemory>
    requires widths { All (λ port. width_of port.range ≤ 4096) ports.now }
    requires room { length (port_bits ports.now) < 2 ^ 32 - 1 }
    ensures { IfOk result (λ bits. bits ≡ port_bits ports.now) }
{
    let mut bits = IdVec::new(alloc);
    for port in ports {
        push_port_bits(alloc, &mut bits, port)?;
    }
    Ok(bits)
}

/// Adds the input bits to drivers.
fn push_inputs(nets: &mut IdVec<NetId, Driver>, ports: &[PortBit]) -> Result<(), NoMemory>
    requires { length nets.old + length ports.now < 2 ^ 32 - 1 }
    ensures { OnOk result (nets.new ≡ nets.old ++ input_drivers ports.now) }
{
    for (number, port) in ports.iter().enumerate() {
        if !port.output {
            nets.push(Driver::Port(PortId::of(number as u32)))?;
        }
    }
    Ok(())
}

/// Adds as many outputs of a cell.
fn push_outputs(nets: &mut IdVec<NetId, Driver>, cell: CellId, count: u8) -> Result<(), NoMemory>
    requires { length nets.old + count < 2 ^ 32 - 1 }
    ensures { OnOk result (nets.new ≡ nets.old ++ map (Out cell) (range_with_len 0 count)) }
{
    for output in 0..count {
        nets.push(Driver::Out(cell, output))?;
    }
    Ok(())
}

/// All drivers in the order of nets: the input bits, then the outputs of the cells.
pub fn list_drivers(
    alloc: Global,
    table: &CellTable,
    ports: &[PortBit],
    cells: &[FlatCell],
) -> Result<IdVec<NetId, Driver>, NoMemory>
    requires table { IsTable table.now }
    requires rows { All (λ cell. cell.row < length table.now.rows) cells.now }
    requires few { length cells.now ≤ 100000 }
    requires room { length ports.now ≤ 2000000 }
    ensures { IfOk result (λ nets. nets ≡ drivers_of table.now (bare ports.now cells.now)) }
{
    let mut nets = IdVec::new(alloc);
    push_inputs(&mut nets, ports)?;
    for (number, cell) in cells.iter().enumerate() {
        let row = &table.rows.as_slice()[cell.row as usize];
        push_outputs(
            &mut nets,
            CellId::of(number as u32),
            row.outputs.len() as u8,
        )?;
    }
    Ok(nets)
}

/// Adds as many reading pins of a cell.
fn push_pins(readers: &mut Vec<Reader>, cell: CellId, count: u8) -> Result<(), NoMemory>
    ensures { OnOk result (readers.new.items ≡ readers.old.items ++ map (Pin cell) (range_with_len 0 count)) }
{
    for pin in 0..count {
        readers.push(Reader::Pin(cell, pin))?;
    }
    Ok(())
}

/// Adds the output bits to readers.
fn push_output_bits(readers: &mut Vec<Reader>, ports: &[PortBit]) -> Result<(), NoMemory>
    requires { length ports.now < 2 ^ 32 }
    ensures { OnOk result (readers.new.items ≡ readers.old.items ++ output_readers ports.now) }
{
    for (number, port) in ports.iter().enumerate() {
        if port.output {
            readers.push(Reader::Port(PortId::of(number as u32)))?;
        }
    }
    Ok(())
}

/// All readers in the order of pins: the pins of the cells, then the output bits.
pub fn list_readers(
    alloc: Global,
    table: &CellTable,
    ports: &[PortBit],
    cells: &[FlatCell],
) -> Result<Vec<Reader>, NoMemory>
    requires table { IsTable table.now }
    requires rows { All (λ cell. cell.row < length table.now.rows) cells.now }
    requires few { length cells.now ≤ 100000 }
    requires room { length ports.now ≤ 2000000 }
    ensures { IfOk result (λ readers. readers.items ≡ readers_of table.now (bare ports.now cells.now)) }
{
    let mut readers = Vec::new(alloc);
    for (number, cell) in cells.iter().enumerate() {
        let row = &table.rows.as_slice()[cell.row as usize];
        push_pins(
            &mut readers,
            CellId::of(number as u32),
            reading_pins(row) as u8,
        )?;
    }
    push_output_bits(&mut readers, ports)?;
    Ok(readers)
}

/// The places where drivers start: those of the input bits, which come first of all, and then those of the cells' outputs.
pub fn list_starts(
    alloc: Global,
    ports: &[PortBit],
    outputs: &[Option<u32>],
) -> Result<Vec<Option<u32>>, NoMemory>
    requires { length ports.now < 2 ^ 32 }
    ensures { IfOk result (λ starts. starts.items ≡ input_places ports.now ++ outputs.now) }
{
    let mut starts = Vec::new(alloc);
    for (number, port) in ports.iter().enumerate() {
        if !port.output {
            starts.push(Some(number as u32))?;
        }
    }
    starts.extend_from_slice(outputs)?;
    Ok(starts)
}

/// The places that readers read: those of the cells' reading pins, and then those of the output bits.
pub fn list_reads(
    alloc: Global,
    ports: &[PortBit],
    reading: &[Option<u32>],
) -> Result<Vec<Option<u32>>, NoMemory>
    requires { length ports.now < 2 ^ 32 }
    ensures { IfOk result (λ reads. reads.items ≡ reading.now ++ output_places ports.now) }
{
    let mut reads = Vec::new(alloc);
    reads.extend_from_slice(reading)?;
    for (number, port) in ports.iter().enumerate() {
        if port.output {
            reads.push(Some(number as u32))?;
        }
    }
    Ok(reads)
}

/// The printed name of a cell's pin.
fn pin_name(alloc: Global, cell: &FlatCell, pin: &Name) -> Result<Name, NoMemory>
    ensures { IfOk result (λ name. name ≡ longer (Some cell.now.path) pin.now) }
{
    longer_path(alloc, Some(cell.path.as_str()), pin.as_str())
}

/// The printed name of a driver.
pub fn driver_name(
    alloc: Global,
    table: &CellTable,
    ports: &[PortBit],
    cells: &[FlatCell],
    driver: Driver,
) -> Result<Name, NoMemory>
    requires { HasDriver table.now ports.now cells.now driver }
    ensures { IfOk result (λ name. name ≡ printed_driver table.now ports.now cells.now driver) }
{
    match driver {
        Driver::Port(port) => Name::of(alloc, ports[port.index()].name.as_str()),
        Driver::Out(cell, output) => {
            let cell = &cells[cell.index()];
            let row = &table.rows.as_slice()[cell.row as usize];
            pin_name(alloc, cell, &row.outputs.as_slice()[output as usize])
        }
    }
}

/// The printed name of a reader.
pub fn reader_name(
    alloc: Global,
    table: &CellTable,
    ports: &[PortBit],
    cells: &[FlatCell],
    reader: Reader,
) -> Result<Name, NoMemory>
    requires { HasReader table.now ports.now cells.now reader }
    ensures { IfOk result (λ name. name ≡ printed_reader table.now ports.now cells.now reader) }
{
    match reader {
        Reader::Port(port) => Name::of(alloc, ports[port.index()].name.as_str()),
        Reader::Pin(cell, pin) => {
            let cell = &cells[cell.index()];
            let row = &table.rows.as_slice()[cell.row as usize];
            match (row.inputs.get(pin as usize), &row.clock) {
                (Some(input), _) => pin_name(alloc, cell, input),
                (None, Some(clock)) => pin_name(alloc, cell, clock),
                (None, None) => unreachable!(),
            }
        }
    }
}
