// The calls that set a register: the step, and then the register. Operands have been read.
ghost use Rattle.std.specs.Prelude.{◌≡◌, false, ◌-◌, ◌≤◌, ◌<◌};
ghost use Rattle.diagram.specs.Tensor.{bits, depends, masks};
ghost use Rattle.diagram.specs.Tally.{sum as sums, cont as conts, low as low_of};
ghost use Rattle.diagram.specs.Lows.{lows as lows_of, clash};
ghost use Rattle.diagram.specs.Diagram.{IsEdge, tensor, MayLower, MayLowerSet};
ghost use Rattle.text.specs.Limits.{last_index, most_qubits, register_count};
ghost use Rattle.text.specs.Names.{Placed};
ghost use Rattle.text.specs.Call.{InRange};
ghost use Rattle.text.specs.Engine.{KeepsEngine, IsEngine, Sets};
ghost use Rattle.text.specs.Operate.{SetsOr};
ghost use Rattle.text.specs.Apply.{apply_step};
ghost use Rattle.text.specs.Respond.{Responds};
ghost use Rattle.text.specs.declared.call.Call.TheVariants as call;

use crate::answer::Answer;
use crate::apply;
use crate::call::Refusal;
use crate::engine::Engine;
use crate::limits::{Mask, Weight};
use diagram::gate::{Gate, QubitCount};
use diagram::node::{Edge, Index};
use diagram::registers::RegisterNumber;

impl<'b, 'a> Engine<'b, 'a> {
    pub(crate) fn put(&mut self, d: RegisterNumber, w: Weight) -> Result<Answer, Refusal>
        requires { IsEngine self.old × InRange (call.Put d w) }
        ensures loans { KeepsEngine self.old self.new }
        ensures responds { Responds self.old self.new (call.Put d w) result }
    {
        let weight = w as u64;
        self.set(d, |_| Ok(Edge { weight, node: 0 }))
    }

    pub(crate) fn gate(&mut self, d: RegisterNumber, g: Gate) -> Result<Answer, Refusal>
        requires { IsEngine self.old × InRange (call.Gate d g) }
        ensures loans { KeepsEngine self.old self.new }
        ensures responds { Responds self.old self.new (call.Gate d g) result }
    {
        self.set(d, |diagram| diagram.gate(g))
    }

    pub(crate) fn unit(&mut self, d: RegisterNumber, n: QubitCount) -> Result<Answer, Refusal>
        requires { IsEngine self.old × InRange (call.Unit d n) }
        ensures loans { KeepsEngine self.old self.new }
        ensures responds { Responds self.old self.new (call.Unit d n) result }
    {
        self.set(d, |diagram| diagram.unit(n))
    }

    pub(crate) fn add(&mut self, d: RegisterNumber, a: Edge, b: Edge) -> Result<Answer, Refusal>
        requires { IsEngine self.old ×
            ((d < register_count) × (IsEdge self.old.diagram.now a × IsEdge self.old.diagram.now b)) }
        ensures loans { KeepsEngine self.old self.new }
        ensures sets { Sets self.old self.new d
            (sums (tensor self.old.diagram.now a) (tensor self.old.diagram.now b)) result }
    {
        self.set(d, |diagram| diagram.sum(a, b))
    }

    pub(crate) fn cont(
        &mut self,
        d: RegisterNumber,
        a: Edge,
        b: Edge,
        m: Mask,
    ) -> Result<Answer, Refusal>
        requires { IsEngine self.old × ((d < register_count) ×
            (IsEdge self.old.diagram.now a × (IsEdge self.old.diagram.now b × (m < masks)))) }
        ensures loans { KeepsEngine self.old self.new }
        ensures sets { Sets self.old self.new d
            (conts (tensor self.old.diagram.now a) (tensor self.old.diagram.now b) (bits m)) result }
    {
        let mask = m as u64;
        self.set(d, |diagram| diagram.contract(a, b, mask))
    }

    // Index k is renamed k - 1, in a tensor that does not depend on k - 1.
    fn lower(&mut self, d: RegisterNumber, a: Edge, k: Index) -> Result<Answer, Refusal>
        requires { IsEngine self.old ×
            ((d < register_count) × (IsEdge self.old.diagram.now a × MayLower self.old.diagram.now a k)) }
        ensures loans { KeepsEngine self.old self.new }
        ensures sets { Sets self.old self.new d (low_of k (tensor self.old.diagram.now a)) result }
    {
        self.set(d, |diagram| diagram.lower(a, k))
    }

    // The same, or 7 where it depends on k - 1. (`low` and `lows` are two calls in the documents, with a test for 7
    // each: a bit of the mask, and the set's. What they share is `set`.)
    pub(crate) fn low(&mut self, d: RegisterNumber, a: Edge, k: Index) -> Result<Answer, Refusal>
        requires { IsEngine self.old ×
            ((d < register_count) × (IsEdge self.old.diagram.now a × ((1 ≤ k) × (k ≤ last_index)))) }
        ensures loans { KeepsEngine self.old self.new }
        ensures sets { SetsOr self.old self.new d (depends (k - 1) (tensor self.old.diagram.now a))
            (low_of k (tensor self.old.diagram.now a)) result }
    {
        if self.diagram.depends(a, k - 1) {
            return Err(Refusal::Depends);
        }
        self.lower(d, a, k)
    }

    // The indices of m are renamed to the ones before them, where there is no clash.
    fn lower_set(&mut self, d: RegisterNumber, a: Edge, m: Mask) -> Result<Answer, Refusal>
        requires { IsEngine self.old ×
            ((d < register_count) × (IsEdge self.old.diagram.now a × MayLowerSet self.old.diagram.now a m)) }
        ensures loans { KeepsEngine self.old self.new }
        ensures sets { Sets self.old self.new d (lows_of (bits m) (tensor self.old.diagram.now a)) result }
    {
        let mask = m as u64;
        self.set(d, |diagram| diagram.lows(a, mask))
    }

    // The same, or 7 where there is a clash.
    pub(crate) fn lows(&mut self, d: RegisterNumber, a: Edge, m: Mask) -> Result<Answer, Refusal>
        requires { IsEngine self.old ×
            ((d < register_count) × (IsEdge self.old.diagram.now a × ((bits m 0 ≡ false) × (m < masks)))) }
        ensures loans { KeepsEngine self.old self.new }
        ensures sets { SetsOr self.old self.new d (clash (bits m) (tensor self.old.diagram.now a))
            (lows_of (bits m) (tensor self.old.diagram.now a)) result }
    {
        if self.diagram.clash(a, m as u64) {
            return Err(Refusal::Depends);
        }
        self.lower_set(d, a, m)
    }

    // The gate g applied to a.
    pub(crate) fn apply(&mut self, d: RegisterNumber, a: Edge, g: Gate) -> Result<Answer, Refusal>
        requires { IsEngine self.old ×
            ((d < register_count) × (IsEdge self.old.diagram.now a × Placed most_qubits g)) }
        ensures loans { KeepsEngine self.old self.new }
        ensures sets { Sets self.old self.new d (apply_step g (tensor self.old.diagram.now a)) result }
    {
        self.set(d, |diagram| apply::apply(diagram, a, g))
    }
}
