// What a call does and answers (document 01, "Session calls"; document 02, `on` and `lows`). Its line was read, so 1,
// 2, 4, 5 and 6 are past: "3 from the left; 7; 8".
ghost use Rattle.std.specs.Prelude.{◌≡◌, ◌<◌, Ok, IfErr};
ghost use Rattle.diagram.specs.Diagram.{IsSound};
ghost use Rattle.text.specs.Limits.{register_count};
ghost use Rattle.text.specs.Call.{InRange, Ranged};
ghost use Rattle.text.specs.Engine.{KeepsEngine, IsEngine, HoldsEdges, RefuseEnsures, contents, reply};
ghost use Rattle.text.specs.Respond.{OperandRead, ReadResponds, PureEnsures, PureResponds, Responds, Replies};
ghost use Rattle.text.specs.declared.call.Call.TheVariants as call;

use crate::answer::Answer;
use crate::call::{Call, Refusal};
use crate::engine::Engine;
use crate::limits::{Assignment, Mask};
use diagram::compare;
use diagram::node::{Edge, Index};
use diagram::registers::RegisterNumber;

// (A function for each call, though some are much alike: what each promises names its call.)
impl<'b, 'a> Engine<'b, 'a> {
    // The edge in a register, or 3 where that is empty.
    pub(crate) fn operand(&self, a: RegisterNumber) -> Result<Edge, Refusal>
        requires { a < register_count }
        ensures { OperandRead self.now.registers.all a result }
    {
        self.registers.get(a).ok_or(Refusal::Empty)
    }

    fn respond_add(
        &mut self,
        d: RegisterNumber,
        a: RegisterNumber,
        b: RegisterNumber,
    ) -> Result<Answer, Refusal>
        requires { IsEngine self.old × InRange (call.Add d a b) }
        ensures loans { KeepsEngine self.old self.new }
        ensures responds { Responds self.old self.new (call.Add d a b) result }
    {
        let x = self.operand(a)?;
        let y = self.operand(b)?;
        self.add(d, x, y)
    }

    fn respond_cont(
        &mut self,
        d: RegisterNumber,
        a: RegisterNumber,
        b: RegisterNumber,
        m: Mask,
    ) -> Result<Answer, Refusal>
        requires { IsEngine self.old × InRange (call.Cont d a b m) }
        ensures loans { KeepsEngine self.old self.new }
        ensures responds { Responds self.old self.new (call.Cont d a b m) result }
    {
        let x = self.operand(a)?;
        let y = self.operand(b)?;
        self.cont(d, x, y, m)
    }

    fn respond_low(
        &mut self,
        d: RegisterNumber,
        a: RegisterNumber,
        k: Index,
    ) -> Result<Answer, Refusal>
        requires { IsEngine self.old × InRange (call.Low d a k) }
        ensures loans { KeepsEngine self.old self.new }
        ensures responds { Responds self.old self.new (call.Low d a k) result }
    {
        let x = self.operand(a)?;
        self.low(d, x, k)
    }

    fn respond_lows(
        &mut self,
        d: RegisterNumber,
        a: RegisterNumber,
        m: Mask,
    ) -> Result<Answer, Refusal>
        requires { IsEngine self.old × InRange (call.Lows d a m) }
        ensures loans { KeepsEngine self.old self.new }
        ensures responds { Responds self.old self.new (call.Lows d a m) result }
    {
        let x = self.operand(a)?;
        self.lows(d, x, m)
    }

    fn drop_register(&mut self, a: RegisterNumber) -> Result<Answer, Refusal>
        requires { InRange (call.Drop a) }
        ensures loans { KeepsEngine self.old self.new }
        ensures diagram { self.new.diagram.now ≡ self.old.diagram.now }
        ensures responds { PureEnsures (contents self.old) (call.Drop a) (reply result self.new) }
    {
        self.operand(a)?;
        self.registers.clear(a);
        Ok(Answer::Done(self.diagram.state.count))
    }

    fn collect(&mut self) -> Answer
        requires { IsEngine self.old }
        ensures loans { KeepsEngine self.old self.new }
        ensures responds { Responds self.old self.new call.Collect (Ok result) }
    {
        self.diagram.collect(&mut self.registers);
        Answer::Done(self.diagram.state.count)
    }

    fn at(&self, a: RegisterNumber, v: Assignment) -> Result<Answer, Refusal>
        requires { IsSound self.now.diagram.now × (HoldsEdges self.now × InRange (call.At a v)) }
        ensures { ReadResponds self.now (call.At a v) result }
    {
        let x = self.operand(a)?;
        let w = self.diagram.value(x, v as u64);
        Ok(Answer::Value(w as usize))
    }

    pub(crate) fn cmp(&self, a: RegisterNumber, b: RegisterNumber) -> Result<Answer, Refusal>
        requires { HoldsEdges self.now × InRange (call.Cmp a b) }
        ensures { PureResponds self.now (call.Cmp a b) result }
    {
        let x = self.operand(a)?;
        let y = self.operand(b)?;
        Ok(Answer::Compared(compare::compare(x, y)))
    }

    fn on(&self, a: RegisterNumber) -> Result<Answer, Refusal>
        requires { IsSound self.now.diagram.now × (HoldsEdges self.now × InRange (call.On a)) }
        ensures { ReadResponds self.now (call.On a) result }
    {
        let x = self.operand(a)?;
        let m = self.diagram.support(x);
        Ok(Answer::Mask(m as usize))
    }

    pub(crate) fn respond(&mut self, call: Call) -> Result<Answer, Refusal>
        requires { IsEngine self.old × InRange call }
        ensures loans { KeepsEngine self.old self.new }
        ensures responds { Responds self.old self.new call result }
    {
        match call {
            Call::Put(d, w) => self.put(d, w),
            Call::Gate(d, g) => self.gate(d, g),
            Call::Unit(d, n) => self.unit(d, n),
            Call::Add(d, a, b) => self.respond_add(d, a, b),
            Call::Cont(d, a, b, m) => self.respond_cont(d, a, b, m),
            Call::Low(d, a, k) => self.respond_low(d, a, k),
            Call::Drop(a) => self.drop_register(a),
            Call::Collect => Ok(self.collect()),
            Call::At(a, v) => self.at(a, v),
            Call::Cmp(a, b) => self.cmp(a, b),
            Call::On(a) => self.on(a),
            Call::Lows(d, a, m) => self.respond_lows(d, a, m),
        }
    }

    // What a line does and answers: its call's, or what its reader refused.
    pub(crate) fn reply(&mut self, read: Result<Call, Refusal>) -> Result<Answer, Refusal>
        requires { IsEngine self.old × Ranged read }
        ensures loans { KeepsEngine self.old self.new }
        ensures replies { Replies self.old self.new read result }
        ensures refused { IfErr read (λ why. RefuseEnsures self.old self.new why result) }
    {
        self.respond(read?)
    }
}
