//! Graphs beside a circuit with the inputs `clk`, `a`, `b` and the outputs `y`, `z`. The wanted answers are written by hand.

ghost use Rattle.std.specs.Prelude.{◌≡◌, ◌<◌, ◌∷◌, [], length, replicate, codes, false, true, pos, IfOk};
ghost use Rattle.rsfq_ids.specs.declared.circuit.PortUse.TheVariants as used;
ghost use Rattle.golden_aig.specs.Aig.{IsAig};

use golden_aig::{Aig, And, eval, match_ports};
use rsfq_ids::circuit::{Bench, Flat, PortBit, PortUse, Strobe};
use rsfq_ids::id::{Id, PortId};
use rsfq_ids::list::{IdVec, List, NoMemory};
use rsfq_ids::name::Name;
use std::alloc::Global;
use std::test::Fail;

/// One bit of a port.
fn bit(alloc: Global, name: &str, output: bool) -> Result<PortBit, NoMemory>
    ensures { IfOk result (λ bit. bit ≡ record { name = name.now; output = output }) }
{
    Ok(PortBit {
        name: Name::of(alloc, name)?,
        output,
    })
}

/// The port bits `clk`, `y`, `b`, `a` and `z`.
fn make_ports(alloc: Global) -> Result<IdVec<PortId, PortBit>, NoMemory>
    ensures { IfOk result (λ ports. ports ≡ record { name = codes "clk"; output = false } ∷ record { name = codes "y"; output = true } ∷ record { name = codes "b"; output = false }
        ∷ record { name = codes "a"; output = false } ∷ record { name = codes "z"; output = true } ∷ []) }
{
    let mut ports = IdVec::new(alloc);
    ports.push(bit(alloc, "clk", false)?)?;
    ports.push(bit(alloc, "y", true)?)?;
    ports.push(bit(alloc, "b", false)?)?;
    ports.push(bit(alloc, "a", false)?)?;
    ports.push(bit(alloc, "z", true)?)?;
    Ok(ports)
}

/// A circuit with these ports.
fn make_circuit(alloc: Global) -> Result<Flat, NoMemory>
    ensures { IfOk result (λ flat. flat.ports ≡ record { name = codes "clk"; output = false } ∷ record { name = codes "y"; output = true } ∷ record { name = codes "b"; output = false }
        ∷ record { name = codes "a"; output = false } ∷ record { name = codes "z"; output = true } ∷ []) }
{
    Ok(Flat {
        ports: make_ports(alloc)?,
        cells: IdVec::new(alloc),
        nets: IdVec::new(alloc),
        pins: IdVec::new(alloc),
    })
}

/// Its bench.
fn make_bench(alloc: Global) -> Result<Bench, NoMemory>
    ensures { IfOk result (λ bench. bench ≡ record {
      period = pos 20000;
      jitter = pos 0;
      clock = 0;
      uses = used.Clock ∷ used.Strobed (record { offset = pos 0; setup = pos 1; hold = pos 1 })
          ∷ used.Arrival (pos 0) (pos 0) ∷ used.Arrival (pos 0) (pos 0) ∷ used.Strobed (record { offset = pos 0; setup = pos 1; hold = pos 1 }) ∷ [];
    }) }
{
    let strobe = Strobe {
        offset: 0,
        setup: 1,
        hold: 1,
    };
    let mut uses = IdVec::new(alloc);
    uses.push(PortUse::Clock)?;
    uses.push(PortUse::Strobed(strobe))?;
    uses.push(PortUse::Arrival { low: 0, high: 0 })?;
    uses.push(PortUse::Arrival { low: 0, high: 0 })?;
    uses.push(PortUse::Strobed(strobe))?;
    Ok(Bench {
        period: 20000,
        jitter: 0,
        clock: PortId::of(0),
        uses,
    })
}

/// So many literals of the constant.
fn make_constants(alloc: Global, count: u32) -> Result<List<u32>, NoMemory>
    ensures { IfOk result (λ literals. literals ≡ replicate count 0) }
{
    let mut literals = List::new(alloc);
    for _ in 0..count {
        literals.push(0)?;
    }
    Ok(literals)
}

/// A graph without ANDs, whose inputs and outputs have these symbols, and none where a text is empty.
fn make_graph(alloc: Global, in_names: &[&str], out_names: &[&str]) -> Result<Aig, NoMemory>
    requires inputs { length in_names.now < 1000 }
    requires outputs { length out_names.now < 1000 }
    ensures { IfOk result IsAig }
{
    Ok(Aig {
        inputs: in_names.len() as u32,
        ands: List::new(alloc),
        outputs: make_constants(alloc, out_names.len() as u32)?,
        in_names: make_entries(alloc, in_names)?,
        out_names: make_entries(alloc, out_names)?,
    })
}

/// An entry for each text, without a symbol where the text is empty.
fn make_entries(alloc: Global, names: &[&str]) -> Result<List<Option<Name>>, NoMemory>
    ensures { IfOk result (λ entries. length entries ≡ length names.now) }
{
    let mut entries = List::new(alloc);
    for name in names {
        if name.is_empty() {
            entries.push(None)?;
        } else {
            entries.push(Some(Name::of(alloc, name)?))?;
        }
    }
    Ok(entries)
}

/// The pairing of a graph with the circuit, or why there is none.
fn describe(alloc: Global, in_names: &[&str], out_names: &[&str]) -> Result<String, NoMemory> {
    let flat = make_circuit(alloc)?;
    let bench = make_bench(alloc)?;
    if in_names.len() >= 1000 || out_names.len() >= 1000 {
        return Err(NoMemory);
    }
    let aig = make_graph(alloc, in_names, out_names)?;
    let text = match match_ports(alloc, &aig, &flat, &bench) {
        Ok(matched) => format!(in alloc;
            "{:?} {:?}",
            matched.inputs.as_slice(),
            matched.outputs.as_slice()
        )?,
        Err(fault) => format!(in alloc; "{:?}", fault)?,
    };
    Ok(text)
}

#[test]
fn sides_are_matched(rt: HostRuntime) -> Result<(), Fail> {
    let cases: [(&[&str], &[&str], &str); 15] = [
        (
            &["", ""],
            &["", ""],
            "[PortId(2), PortId(3)] [PortId(1), PortId(4)]",
        ),
        (
            &["a", "b"],
            &["z", "y"],
            "[PortId(3), PortId(2)] [PortId(4), PortId(1)]",
        ),
        (
            &["b", "a"],
            &["", ""],
            "[PortId(2), PortId(3)] [PortId(1), PortId(4)]",
        ),
        (
            &["", ""],
            &["z", "y"],
            "[PortId(2), PortId(3)] [PortId(4), PortId(1)]",
        ),
        (&["a", ""], &["", ""], "Mixed"),
        (&["a", "", "b"], &["", ""], "Mixed"),
        (&[""], &["", ""], "Count(1, 2)"),
        (&["a", "b", "x"], &["", ""], "Count(3, 2)"),
        (&["a", "clk"], &["", ""], "NoPort(Name { text: \"clk\" })"),
        (&["y", "a"], &["", ""], "NoPort(Name { text: \"y\" })"),
        (&["a", "a"], &["", ""], "Repeated(Name { text: \"a\" })"),
        (&["b", "b"], &["z", "q"], "Repeated(Name { text: \"b\" })"),
        (&["q", "q"], &["", ""], "NoPort(Name { text: \"q\" })"),
        (&["a", "b"], &["z", ""], "Mixed"),
        (&["a", "b"], &["y", "y"], "Repeated(Name { text: \"y\" })"),
    ];
    for (in_names, out_names, wanted) in cases {
        let text = describe(rt.alloc(), in_names, out_names)?;
        assert_eq!(rt; text.as_str(), wanted);
    }
    Ok(())
}

/// The ANDs 6 of the input 2 and the negated input 4, and 8 of the negated 6 and the input 4.
fn make_ands(alloc: Global) -> Result<List<And>, NoMemory>
    ensures { IfOk result (λ ands. ands ≡ record { lhs = 6; rhs0 = 2; rhs1 = 5 } ∷ record { lhs = 8; rhs0 = 7; rhs1 = 4 } ∷ []) }
{
    let mut ands = List::new(alloc);
    ands.push(And {
        lhs: 6,
        rhs0: 2,
        rhs1: 5,
    })?;
    ands.push(And {
        lhs: 8,
        rhs0: 7,
        rhs1: 4,
    })?;
    Ok(ands)
}

/// A graph with these ANDs, whose outputs are the negated first input, the second AND and the negated first one.
fn make_gates(alloc: Global) -> Result<Aig, NoMemory>
    ensures graph { IfOk result IsAig }
    ensures size { IfOk result (λ aig. (aig.inputs ≡ 2) × (length aig.ands ≡ 2) × (length aig.outputs ≡ 3)) }
{
    let mut outputs = List::new(alloc);
    outputs.push(3)?;
    outputs.push(8)?;
    outputs.push(7)?;
    Ok(Aig {
        inputs: 2,
        ands: make_ands(alloc)?,
        outputs,
        in_names: make_entries(alloc, &["", ""])?,
        out_names: make_entries(alloc, &["", "", ""])?,
    })
}

#[test]
fn a_graph_has_values(rt: HostRuntime) -> Result<(), Fail> {
    let aig = make_gates(rt.alloc())?;
    let mut marks = [false; 4];
    let mut values = [false; 3];
    let cases = [
        ([false, false], [true, false, true]),
        ([true, false], [false, false, false]),
        ([false, true], [true, true, true]),
        ([true, true], [false, true, true]),
    ];
    for (word, wanted) in cases {
        eval(&aig, &word, &mut marks, &mut values);
        assert_eq!(rt; values, wanted);
    }
    Ok(())
}
