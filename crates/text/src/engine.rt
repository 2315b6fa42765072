// What a session holds between two lines, and how a call that sets a register ends.
ghost use Rattle.std.specs.Prelude.{◌≡◌, ◌<◌};
ghost use Rattle.text.specs.Limits.{register_count};
ghost use Rattle.text.specs.Engine.{contents, KeepsEngine, IsEngine, Starts, MaySet, SetsBy};

use crate::answer::Answer;
use crate::call::Refusal;
use diagram::diagram::{Diagram, Full};
use diagram::make::State;
use diagram::node::Edge;
use diagram::registers::{RegisterNumber, Registers};

// A diagram and the registers that hold edges of it. (`IsEngine` stands at each method, and in no invariant of the
// type: it is not true before `start`, nor while a step is made.)
#[derive(Drop)]
pub struct Engine<'b, 'a> {
    pub diagram: &'b mut Diagram<'a>,
    pub registers: Registers,
}

// What an engine holds beside the bytes of its store and its cache.
#[derive(Clone, Copy)]
pub struct Contents {
    pub state: State,
    pub registers: Registers,
}

impl<'b, 'a> Engine<'b, 'a> {
    // A copy of what it holds now: of the engine itself, which is lent its memory, there can be none.
    pub fn contents(&self) -> Contents
        ensures { result ≡ contents self.now }
    {
        Contents {
            state: self.diagram.state,
            registers: self.registers,
        }
    }

    // "A session starts with no nodes and empty registers."
    pub fn start(&mut self)
        ensures loans { KeepsEngine self.old self.new }
        ensures start { Starts self.old self.new }
    {
        self.diagram.start();
        self.registers = Registers::empty();
    }

    // "Register d is set last": to the edge of a step, which is made from the diagram. Where the step does not fit, 8:
    // the nodes are as before the call, and nothing that it remembered is used.
    pub(crate) fn set<F: FnOnce(&mut Diagram<'a>) -> Result<Edge, Full>>(
        &mut self,
        d: RegisterNumber,
        step: F,
    ) -> Result<Answer, Refusal>
        requires { IsEngine self.old × ((d < register_count) × MaySet F.FnOnce step self.old) }
        ensures loans { KeepsEngine self.old self.new }
        ensures sets { SetsBy F.FnOnce step self.old self.new d result }
    {
        let Ok(e) = self.diagram.attempt(step) else {
            return Err(Refusal::Full);
        };
        self.registers.put(d, e);
        Ok(Answer::Done(self.diagram.state.count))
    }
}
