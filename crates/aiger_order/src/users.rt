//! Which lines use each variable.

ghost use Rattle.std.specs.Prelude.{◌≡◌, ◌<◌, ◌/◌, ◌+◌, ◌^◌, ◌++◌, ◌∷◌, [], length, replicate, slice_set, slice_index_or, IfOk, OnOk, ◌≤◌};
ghost use Rattle.rsfq_ids.specs.declared.limits.TheConstants.{AIG_LIMIT};
ghost use Rattle.aiger_order.specs.Ready.{AreBelow};
ghost use Rattle.aiger_order.specs.Users.{lists_of, AreUsers};

use golden_aig::And;
use rsfq_ids::list::NoMemory;
use std::alloc::Global;

/// No line uses any of so many variables.
fn make_empty(alloc: Global, count: u32) -> Result<Vec<Vec<u32>>, NoMemory>
    ensures { IfOk result (λ users. lists_of users.items ≡ replicate count []) }
{
    let mut users = Vec::new(alloc);
    for _ in 0..count {
        users.push(Vec::new(alloc))?;
    }
    Ok(users)
}

/// Adds a line to those that use the variable of a literal.
fn add_user(users: &mut Vec<Vec<u32>>, literal: u32, place: u32) -> Result<(), NoMemory>
    requires { literal / 2 < length (lists_of users.old.items) }
    ensures { OnOk result (lists_of users.new.items ≡ slice_set (lists_of users.old.items) (literal / 2) (slice_index_or (lists_of users.old.items) (literal / 2) [] ++ place ∷ [])) }
{
    users[(literal / 2) as usize].push(place)?;
    Ok(())
}

/// For each variable up to the highest the lines that have it as an operand.
pub(crate) fn tabulate_users(
    alloc: Global,
    top: u32,
    lines: &[And],
) -> Result<Vec<Vec<u32>>, NoMemory>
    requires small { top ≤ AIG_LIMIT }
    requires few { length lines.now < 2 ^ 32 }
    requires below { AreBelow top lines.now }
    ensures { IfOk result (λ users. AreUsers top (length lines.now) lines.now (lists_of users.items)) }
{
    let mut users = make_empty(alloc, top + 1)?;
    for (place, line) in lines.iter().enumerate() {
        add_user(&mut users, line.rhs0, place as u32)?;
        add_user(&mut users, line.rhs1, place as u32)?;
    }
    Ok(users)
}
