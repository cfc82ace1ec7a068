//! Lanes as a forest: each is stored as its last arc behind a parent lane, with a jump to a further ancestor.
//!
//! The jump of a lane is its parent, or where the jump of the parent and the jump of that are equally long, where the second leads
//! (Myers, An applicative random-access stack, 1983). So every ancestor of a lane is found in steps logarithmic in its length.
ghost use Rattle.std.specs.Prelude.{◌≡◌, ◌≢◌, ◌+◌, ◌-◌, ◌<◌, ◌≤◌, ◌^◌, ℕ, ◌≤ℤ◌, ◌-ℤ◌, pos, [], ◌∷◌, ◌++◌, length, take, slice_get, Some, None, IfSome, IfNone, OnOk, OnErr};
ghost use Rattle.lane_forest.specs.Forest.{IsStoredLane, IsSummed, IsFirstPart, IsAncestor, IsShorterPair, IsMeeting, HasNoMeeting, IsShare, AreFitting, AreDifferenceEnds, IsSpreadOf, IsBounded, AreBehind, AreGatesBehind, AreAllLanes, arcs_at, with_lane, rooted, extended};
ghost use Rattle.lane_forest.specs.Gates.{gate_in, cell_of, gate_after};
ghost use Rattle.rsfq_ids.specs.Time.{IsWithin};
ghost use Rattle.lane_forest.specs.declared.node.LaneNode.{LaneNode};

use crate::node::{DelayRange, LaneNode, PassedGate};
use rsfq_ids::id::{Id, LaneId};
use rsfq_ids::list::NoMemory;
use rsfq_ids::offence::PathArc;
use std::alloc::Global;
use std::marker::Model;

/// A lane with its jump, and the gate that it passes.
#[derive(Clone, Copy)]
struct Stored {
    node: LaneNode,
    jump: LaneId,
    gate: Option<PassedGate>,
}

/// Lanes, each behind its parent. Contracts see the lanes by their ids, the arcs of each, and the gate that each passes.
#[derive(Drop)]
pub(crate) struct Forest {
    stored: Vec<Stored>,
}

impl Model for Forest {
    ghost use Rattle.lane_forest.specs.Forest.{Grove};

    ghost Value = { Grove };

    ghost use Rattle.lane_forest.specs.Held.{grove_of, IsForest};

    ghost view = { grove_of };

    ghost invariant = { IsForest };
}

/// A lane of one arc more, with the delay of this arc.
fn node_behind(before: &LaneNode, parent: LaneId, last: PathArc, delay: &DelayRange) -> LaneNode
    requires room { before.now.length < 2 ^ 32 - 1 }
    requires before { IsSummed before.now }
    requires delay { IsBounded delay.now }
    ensures node { result ≡ extended before.now parent last delay.now.low delay.now.high }
    ensures summed { IsSummed result }
{
    LaneNode {
        last,
        parent: Some(parent),
        length: before.length + 1,
        low: before.low + delay.low,
        high: before.high + delay.high,
    }
}

/// The cell that an arc goes through, as a gate that is passed.
fn cell_passed(last: &PathArc) -> Option<PassedGate>
    ensures { result ≡ cell_of last.now }
{
    match *last {
        PathArc::Port(_) => None,
        PathArc::Through { cell, pin, out } => Some(PassedGate { cell, pin, out }),
    }
}

/// A difference of two sums less their shared parts, all in fs.
fn apart(one: i64, of_one: i64, other: i64, of_other: i64) -> i64
    requires one { IsWithin (pos 0) (pos 4294967295000000000) one }
    requires of_one { IsWithin (pos 0) (pos 4294967295000000000) of_one }
    requires other { IsWithin (pos 0) (pos 4294967295000000000) other }
    requires of_other { IsWithin (pos 0) (pos 4294967295000000000) of_other }
    ensures { result ≡ (one -ℤ of_one) -ℤ (other -ℤ of_other) }
{
    (one - of_one) - (other - of_other)
}

/// The least and the greatest difference of the sums of two lanes, less these shared sums, all in fs.
fn difference_of(one: &LaneNode, other: &LaneNode, low: i64, high: i64) -> (i64, i64)
    requires one { IsSummed one.now }
    requires other { IsSummed other.now }
    requires shared { AreFitting low high }
    ensures { AreDifferenceEnds one.now other.now low high result.0 result.1 }
{
    let least = apart(one.low, low, other.high, high);
    let most = apart(one.high, high, other.low, low);
    (least, most)
}

impl Forest {
    /// No lane. It takes no memory; later calls take it from `alloc`.
    pub(crate) fn new(alloc: Global) -> Forest
        ensures nodes { result.nodes ≡ [] }
        ensures arcs { result.arcs ≡ [] }
        ensures gates { result.gates ≡ [] }
    {
        Forest {
            stored: Vec::new(alloc),
        }
    }

    /// How many lanes there are.
    pub(crate) fn len(&self) -> u32
        ensures nodes { result ≡ length self.now.nodes }
        ensures arcs { result ≡ length self.now.arcs }
    {
        self.stored.len() as u32
    }

    /// What is known of all lanes. The call does nothing.
    pub(crate) fn facts(&self)
        ensures { AreAllLanes self.now }
    {
        let _stored = &self.stored;
    }

    /// A lane.
    pub(crate) fn node(&self, lane: LaneId) -> &LaneNode
        requires { lane < length self.now.nodes }
        ensures node { slice_get self.now.nodes lane ≡ Some result.now }
        ensures lane { IsStoredLane self.now.arcs lane result.now }
        ensures arcs { length self.now.arcs ≡ length self.now.nodes }
    {
        &self.stored[lane.index()].node
    }

    /// The gate that a lane passes.
    pub(crate) fn gate(&self, lane: LaneId) -> Option<PassedGate>
        requires { lane < length self.now.nodes }
        ensures { result ≡ gate_in self.now.gates lane }
    {
        self.stored[lane.index()].gate
    }

    /// The gate that a lane of one arc more than its parent passes, where this arc goes through a gate or not.
    fn gate_behind(&self, parent: LaneId, last: &PathArc, gated: bool) -> Option<PassedGate>
        requires { parent < length self.now.nodes }
        ensures { result ≡ gate_after gated last.now (gate_in self.now.gates parent) }
    {
        if gated {
            cell_passed(last)
        } else {
            self.gate(parent)
        }
    }

    /// An ancestor further back, and the lane itself where it has one arc.
    fn jump(&self, lane: LaneId) -> LaneId
        requires { lane < length self.now.nodes }
        ensures { IsAncestor self.now.arcs lane result }
    {
        self.stored[lane.index()].jump
    }

    /// The jump of a lane behind this parent.
    fn jump_behind(&self, parent: LaneId) -> LaneId
        requires { parent < length self.now.nodes }
        ensures { IsFirstPart self.now.arcs parent result }
    {
        let near = self.jump(parent);
        let far = self.jump(near);
        let length = self.node(parent).length;
        let middle = self.node(near).length;
        if length - middle == middle - self.node(far).length {
            far
        } else {
            parent
        }
    }

    /// Adds a lane with its jump and the gate that it passes. After a refusal the forest is as it was.
    fn push(
        &mut self,
        node: LaneNode,
        jump: LaneId,
        gate: Option<PassedGate>,
    ) -> Result<(), NoMemory>
        requires few { length self.old.nodes < 2 ^ 32 - 1 }
        requires lane { IsStoredLane (with_lane self.old.arcs node) (length self.old.nodes) node }
        requires jump { IsAncestor (with_lane self.old.arcs node) (length self.old.nodes) jump }
        ensures nodes { OnOk result (self.new.nodes ≡ self.old.nodes ++ node ∷ []) }
        ensures arcs { OnOk result (self.new.arcs ≡ with_lane self.old.arcs node) }
        ensures gates { OnOk result (self.new.gates ≡ self.old.gates ++ gate ∷ []) }
        ensures kept { OnErr result (self.new ≡ self.old) }
    {
        self.stored.push(Stored { node, jump, gate })?;
        Ok(())
    }

    /// Adds a lane of one arc, with its delay. After a refusal the forest is as it was.
    pub(crate) fn plant(&mut self, last: PathArc, delay: &DelayRange) -> Result<(), NoMemory>
        requires few { length self.old.nodes < 2 ^ 32 - 1 }
        requires delay { IsBounded delay.now }
        ensures nodes { OnOk result (self.new.nodes ≡ self.old.nodes ++ rooted last delay.now.low delay.now.high ∷ []) }
        ensures arcs { OnOk result (self.new.arcs ≡ self.old.arcs ++ (last ∷ []) ∷ []) }
        ensures gates { OnOk result (self.new.gates ≡ self.old.gates ++ None ∷ []) }
        ensures kept { OnErr result (self.new ≡ self.old) }
    {
        let node = LaneNode {
            last,
            parent: None,
            length: 1,
            low: delay.low,
            high: delay.high,
        };
        self.push(node, LaneId::of(self.len()), None)
    }

    /// Adds a lane of one arc more than its parent, with the delay of this arc, which goes through a gate or not. After a refusal the
    /// forest is as it was.
    pub(crate) fn extend(
        &mut self,
        parent: LaneId,
        last: &PathArc,
        delay: &DelayRange,
        gated: bool,
    ) -> Result<(), NoMemory>
        requires few { length self.old.nodes < 2 ^ 32 - 1 }
        requires parent { parent < length self.old.nodes }
        requires delay { IsBounded delay.now }
        ensures nodes { OnOk result ((node : LaneNode) → slice_get self.old.nodes parent ≡ Some node → self.new.nodes ≡ self.old.nodes ++ extended node parent last.now delay.now.low delay.now.high ∷ []) }
        ensures arcs { OnOk result (self.new.arcs ≡ self.old.arcs ++ (arcs_at self.old.arcs parent ++ last.now ∷ []) ∷ []) }
        ensures gates { OnOk result (self.new.gates ≡ self.old.gates ++ gate_after gated last.now (gate_in self.old.gates parent) ∷ []) }
        ensures kept { OnErr result (self.new ≡ self.old) }
    {
        let jump = self.jump_behind(parent);
        let node = node_behind(self.node(parent), parent, *last, delay);
        let gate = self.gate_behind(parent, last, gated);
        self.push(node, jump, gate)
    }

    /// Adds a lane of one arc more behind each of these, in order, with the delay of this arc, which goes through a gate or not.
    pub(crate) fn extend_all(
        &mut self,
        from: u32,
        to: u32,
        last: &PathArc,
        delay: &DelayRange,
        gated: bool,
    ) -> Result<(), NoMemory>
        requires few { length self.old.nodes + (to - from) < 2 ^ 32 - 1 }
        requires inside { to ≤ length self.old.nodes }
        requires even { length self.old.arcs ≡ length self.old.nodes }
        requires even_gates { length self.old.gates ≡ length self.old.nodes }
        requires ends { from ≤ to }
        requires delay { IsBounded delay.now }
        ensures lanes { OnOk result (AreBehind self.old self.new from to last.now delay.now.low delay.now.high) }
        ensures gates { OnOk result (AreGatesBehind self.old self.new from to last.now gated) }
    {
        for lane in from..to {
            self.extend(LaneId::of(lane), last, delay, gated)?;
        }
        Ok(())
    }

    /// An ancestor of a lane that has more arcs than this, and not fewer than this.
    fn back(&self, lane: LaneId, count: u32) -> LaneId
        requires lane { lane < length self.now.nodes }
        requires some { 0 < count }
        requires more { count < length (arcs_at self.now.arcs lane) }
        ensures first { IsFirstPart self.now.arcs lane result }
        ensures shorter { length (arcs_at self.now.arcs result) < length (arcs_at self.now.arcs lane) }
        ensures enough { count ≤ length (arcs_at self.now.arcs result) }
    {
        let far = self.jump(lane);
        if count <= self.node(far).length {
            return far;
        }
        match self.node(lane).parent {
            Some(parent) => parent,
            None => unreachable!(),
        }
    }

    /// The lane of so many first arcs of a lane.
    pub(crate) fn ancestor(&self, lane: LaneId, count: u32) -> LaneId
        requires lane { lane < length self.now.nodes }
        requires some { 0 < count }
        requires within { count ≤ length (arcs_at self.now.arcs lane) }
        ensures first { IsFirstPart self.now.arcs lane result }
        ensures count { length (arcs_at self.now.arcs result) ≡ count }
    {
        let mut at = lane;
        'climb: while self.node(at).length > count {
            at = self.back(at, count);
        }
        at
    }

    /// Shorter first parts of two lanes that are as long as each other, none where they have one arc each.
    fn back_both(&self, a: LaneId, b: LaneId) -> Option<(LaneId, LaneId)>
        requires first { a < length self.now.nodes }
        requires second { b < length self.now.nodes }
        requires same { length (arcs_at self.now.arcs a) ≡ length (arcs_at self.now.arcs b) }
        requires differ { a ≢ b }
        ensures some { IfSome result (λ pair. IsShorterPair self.now.arcs a b pair.0 pair.1) }
        ensures none { IfNone result (HasNoMeeting self.now.arcs a b) }
    {
        let one = self.jump(a);
        let other = self.jump(b);
        let length = self.node(one).length;
        if one != other && length == self.node(other).length && length < self.node(a).length {
            return Some((one, other));
        }
        let one = self.node(a).parent?;
        let other = self.node(b).parent?;
        Some((one, other))
    }

    /// The lane of the arcs with which two lanes begin alike, if there are any.
    fn meeting(&self, a: LaneId, b: LaneId) -> Option<LaneId>
        requires first { a < length self.now.nodes }
        requires second { b < length self.now.nodes }
        ensures some { IfSome result (IsMeeting self.now.arcs a b) }
        ensures none { IfNone result (HasNoMeeting self.now.arcs a b) }
    {
        let count = self.node(a).length.min(self.node(b).length);
        let mut one = self.ancestor(a, count);
        let mut other = self.ancestor(b, count);
        'both: while one != other {
            let (further, beside) = self.back_both(one, other)?;
            one = further;
            other = beside;
        }
        Some(one)
    }

    /// The sums of the least and of the greatest delays, in fs, of the arcs with which two lanes begin alike.
    fn shared_sums(&self, a: LaneId, b: LaneId) -> (i64, i64)
        requires first { a < length self.now.nodes }
        requires second { b < length self.now.nodes }
        ensures share { IsShare self.now a b result.0 result.1 }
        ensures fit { AreFitting result.0 result.1 }
    {
        match self.meeting(a, b) {
            Some(lane) => {
                let node = self.node(lane);
                (node.low, node.high)
            }
            None => (0, 0),
        }
    }

    /// The least and the greatest difference, in fs, of the delay sums of two lanes. With `same` the arcs with which they begin alike
    /// are left out of both.
    pub(crate) fn spread(&self, a: LaneId, b: LaneId, same: bool) -> (i64, i64)
        requires first { a < length self.now.nodes }
        requires second { b < length self.now.nodes }
        ensures { IsSpreadOf self.now same a b result.0 result.1 }
    {
        let (low, high) = if same { self.shared_sums(a, b) } else { (0, 0) };
        difference_of(self.node(a), self.node(b), low, high)
    }
}
