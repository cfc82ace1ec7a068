//! Formulas as texts in the DIMACS format.
ghost use Rattle.std.specs.Prelude.{◌<◌};

use decimal_text::append_number;
use std::alloc::{AllocError, Global};

/// A wire that is compared with its copy, as a miter of one output.
pub(crate) const WIRE: &[u8] =
    b"p cnf 4 8\n1 -2 0\n-1 2 0\n-3 0\n-4 2 1 0\n-4 -2 -1 0\n4 -2 1 0\n4 2 -1 0\n4 0\n";

/// Nine wires that are compared with themselves: the difference of each is false by a clause that has to be learnt.
pub(crate) const NINE_WIRES: &[u8] =
    b"p cnf 19 20\n-10 0\n-11 1 0\n-11 -1 0\n-12 2 0\n-12 -2 0\n-13 3 0\n-13 -3 0\n-14 4 0\n-14 -4 0\n-15 5 0\n-15 -5 0\n-16 6 0\n-16 -6 0\n-17 7 0\n-17 -7 0\n-18 8 0\n-18 -8 0\n-19 9 0\n-19 -9 0\n11 12 13 14 15 16 17 18 19 0\n";

/// Appends two literals that are false and the end of their clause.
fn append_pair(out: &mut Vec<u8>, one: u64, other: u64) -> Result<(), AllocError> {
    out.extend_from_slice(b"-")?;
    append_number(out, one)?;
    out.extend_from_slice(b" -")?;
    append_number(out, other)?;
    out.extend_from_slice(b" 0\n")
}

/// Appends the clause that a pigeon is in one of so many holes.
fn append_pigeon(out: &mut Vec<u8>, holes: u64, pigeon: u64) -> Result<(), AllocError>
    requires { (holes < 1000) × (pigeon < 1000) }
{
    for hole in 1..=holes {
        append_number(out, pigeon * holes + hole)?;
        out.extend_from_slice(b" ")?;
    }
    out.extend_from_slice(b"0\n")
}

/// Appends the clauses that a pigeon shares a hole with no later one of those up to `last`.
fn append_conflicts(out: &mut Vec<u8>, holes: u64, hole: u64, pigeon: u64) -> Result<(), AllocError>
    requires { ((holes < 1000) × (hole < 1000)) × (pigeon < 1000) }
{
    for other in pigeon + 1..holes + 1 {
        append_pair(out, pigeon * holes + hole, other * holes + hole)?;
    }
    Ok(())
}

/// Appends the clauses that no two pigeons share this hole.
fn append_hole(out: &mut Vec<u8>, holes: u64, hole: u64) -> Result<(), AllocError>
    requires { (holes < 1000) × (hole < 1000) }
{
    for pigeon in 0..holes {
        append_conflicts(out, holes, hole, pigeon)?;
    }
    Ok(())
}

/// That so many holes have room for one pigeon more than there are, each alone.
pub(crate) fn pigeons(alloc: Global, holes: u64) -> Result<Vec<u8>, AllocError>
    requires { holes < 1000 }
{
    let mut out = Vec::new(alloc);
    out.extend_from_slice(b"p cnf ")?;
    append_number(&mut out, (holes + 1) * holes)?;
    out.extend_from_slice(b" ")?;
    append_number(&mut out, holes + 1 + holes * (holes * (holes + 1) / 2))?;
    out.extend_from_slice(b"\n")?;
    for pigeon in 0..=holes {
        append_pigeon(&mut out, holes, pigeon)?;
    }
    for hole in 1..=holes {
        append_hole(&mut out, holes, hole)?;
    }
    Ok(out)
}
