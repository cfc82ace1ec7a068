//! The head of a text.
ghost use Rattle.std.specs.Prelude.{◌≡◌, ◌≤◌, IfSome};
ghost use Rattle.rsfq_ids.specs.declared.limits.TheConstants.{FORMULA_LIMIT};
ghost use Rattle.dimacs_text.specs.Reading.{head_of, sizes_of};

use crate::parts::field_end;
use decimal_text::read_number;
use rsfq_ids::limits::FORMULA_LIMIT;

/// What a head names: how many variables and how many clauses.
#[derive(Clone, Copy, Debug, PartialEq, Eq)]
pub(crate) struct Head {
    pub vars: u32,
    pub clauses: u32,
}

/// The head that a line is, if it is one.
pub(crate) fn read_head(line: &[u8]) -> Option<Head>
    ensures head { result ≡ head_of line.now }
    ensures small { IfSome result (λ head. (head.vars ≤ FORMULA_LIMIT) × (head.clauses ≤ FORMULA_LIMIT)) }
{
    match line.strip_prefix(b"p cnf ") {
        Some(sizes) => read_sizes(sizes),
        None => None,
    }
}

/// The two numbers of a head, parted by one space.
fn read_sizes(sizes: &[u8]) -> Option<Head>
    ensures head { result ≡ sizes_of sizes.now }
    ensures small { IfSome result (λ head. (head.vars ≤ FORMULA_LIMIT) × (head.clauses ≤ FORMULA_LIMIT)) }
{
    let space = field_end(sizes, 0);
    let vars = read_number(&sizes[..space], FORMULA_LIMIT)?;
    if space == sizes.len() {
        return None;
    }
    let clauses = read_number(&sizes[space + 1..], FORMULA_LIMIT)?;
    Some(Head { vars, clauses })
}
