//! A tournament over the variables: a full tree with a leaf for each variable, in which each inner node holds the better of its two children.
//!
//! Node 1 is the root, the children of node `i` are the nodes `2i` and `2i + 1`, and the leaf of variable `v` of `n` is node `n + v`. An edit
//! of a variable goes up from its leaf, and stops at the first node that it leaves as it was.
ghost use Rattle.std.specs.Prelude.{◌≡◌, ℕ, ◌*◌, ◌<◌, ◌≤◌, ◌^◌, true, false, length, replicate, slice_set, IfOk};
ghost use Rattle.variable_order.specs.Seats.{IsGreatest, seat_at};
ghost use Rattle.variable_order.specs.Tree.{better, leaf, AreRight, AreRightBut, node_at};
ghost use Rattle.variable_order.specs.declared.order.Seat.{Seat};

use rsfq_ids::id::{Id, Var};
use rsfq_ids::list::NoMemory;
use std::alloc::Global;
use std::marker::Model;

/// The score of a variable, and whether it takes part.
#[derive(Clone, Copy)]
pub struct Seat {
    pub score: u64,
    pub present: bool,
}

/// A variable that takes part, with its score.
#[derive(Clone, Copy)]
struct Ranked {
    score: u64,
    var: u32,
}

/// The scores of variables, and which of them take part. Contracts see the list of these, by the variables' numbers.
#[derive(Drop)]
pub struct VariableOrder {
    seats: Vec<Seat>,
    tree: Vec<Option<Ranked>>,
}

impl Model for VariableOrder {
    ghost use Rattle.std.specs.Prelude.{List};
    ghost use Rattle.variable_order.specs.declared.order.Seat.{Seat};

    ghost Value = { List Seat };

    ghost use Rattle.variable_order.specs.Kept.{seats_of, IsKept};

    ghost view = { seats_of };

    ghost invariant = { IsKept };
}

/// The better of two: one that is there comes before none, then the greater score, then the greater variable.
fn better_of(one: Option<Ranked>, other: Option<Ranked>) -> Option<Ranked>
    ensures { result ≡ better one other }
{
    match (one, other) {
        (None, _) => other,
        (_, None) => one,
        (Some(a), Some(b)) => {
            if b.score < a.score || (b.score == a.score && b.var < a.var) {
                one
            } else {
                other
            }
        }
    }
}

/// Whether two are the same.
fn are_same(one: Option<Ranked>, other: Option<Ranked>) -> bool
    ensures { result ≡ true → one ≡ other }
{
    match (one, other) {
        (None, None) => true,
        (Some(a), Some(b)) => a.score == b.score && a.var == b.var,
        _ => false,
    }
}

/// What the leaf of a variable holds.
fn leaf_of(seat: Seat, var: Var) -> Option<Ranked>
    ensures { result ≡ leaf seat var }
{
    if seat.present {
        Some(Ranked {
            score: seat.score,
            var: var.index() as u32,
        })
    } else {
        None
    }
}

/// Makes each node right, where all are but one, from that one up.
fn settle(tree: &mut [Option<Ranked>], start: usize)
    requires few { length tree.old < 2 ^ 33 }
    requires right { (count : ℕ) × ((length tree.old ≡ 2 * count) × ((start < count) × AreRightBut start count tree.old)) }
    ensures size { length tree.new ≡ length tree.old }
    ensures right { (count : ℕ) → length tree.old ≡ 2 * count → AreRight count tree.new }
    ensures leaves { (count place : ℕ) → length tree.old ≡ 2 * count → count ≤ place → node_at tree.new place ≡ node_at tree.old place }
{
    let mut node = start;
    'up: while node > 0 {
        let best = better_of(tree[2 * node], tree[2 * node + 1]);
        if are_same(best, tree[node]) {
            return;
        }
        tree[node] = best;
        node /= 2;
    }
}

impl VariableOrder {
    /// An order over so many variables, of score 0, none of which takes part.
    ///
    /// # Errors
    ///
    /// Only for want of memory.
    pub fn new(alloc: Global, vars: u32) -> Result<VariableOrder, NoMemory>
        ensures { IfOk result (λ order. order ≡ replicate vars (record { score = 0; present = false })) }
    {
        let none = Seat {
            score: 0,
            present: false,
        };
        let seats = vec![in alloc; none; vars as usize]?;
        let tree = vec![in alloc; None; 2 * vars as usize]?;
        Ok(VariableOrder { seats, tree })
    }

    /// The seat of a variable.
    pub fn seat(&self, var: Var) -> Seat
        requires { var < length self.now }
        ensures { result ≡ seat_at self.now var }
    {
        self.seats[var.index()]
    }

    /// Gives a variable another seat. It takes no memory, nor do the calls below.
    pub fn put(&mut self, var: Var, seat: Seat)
        requires { var < length self.old }
        ensures { self.new ≡ slice_set self.old var seat }
    {
        let place = self.seats.len() + var.index();
        self.seats[var.index()] = seat;
        self.tree[place] = leaf_of(seat, var);
        settle(self.tree.as_mut_slice(), place / 2);
    }

    /// Of the variables that take part the one with the greatest score, and of those with the same the last.
    pub fn greatest(&self) -> Option<Var>
        ensures { IsGreatest self.now result }
    {
        if self.seats.len() == 0 {
            return None;
        }
        match self.tree[1] {
            Some(best) => Some(Var::of(best.var)),
            None => None,
        }
    }
}
