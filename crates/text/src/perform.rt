// The calls of a verdict's session until one is refused (document 01, "Verdicts"): one, or a gate's as one step.
ghost use Rattle.std.specs.Prelude.{◌≡◌, [], ◌∷◌, ◌<◌};
ghost use Rattle.text.specs.Limits.{most_qubits};
ghost use Rattle.text.specs.Names.{Placed};
ghost use Rattle.text.specs.Call.{InRange};
ghost use Rattle.text.specs.VerdictSession.{gate_calls};
ghost use Rattle.text.specs.Engine.{KeepsEngine, IsEngine};
ghost use Rattle.text.specs.Perform.{Performs, DropsAndCollects};

use crate::call::{Call, Refusal};
use crate::engine::Engine;
use diagram::gate::Gate;
use diagram::registers::RegisterNumber;

impl<'b, 'a> Engine<'b, 'a> {
    // One call more.
    pub(crate) fn perform(&mut self, call: Call) -> Result<(), Refusal>
        requires { IsEngine self.old × InRange call }
        ensures loans { KeepsEngine self.old self.new }
        ensures performs { Performs self.old self.new (call ∷ []) result }
    {
        self.respond(call)?;
        Ok(())
    }

    // "`drop 2`, `collect`"
    fn drop_collect(&mut self)
        requires { IsEngine self.old }
        ensures loans { KeepsEngine self.old self.new }
        ensures drops { DropsAndCollects self.old self.new }
    {
        self.registers.clear(2);
        self.diagram.collect(&mut self.registers);
    }

    // A gate of the list in register r. With nothing there, its `cont` would be refused.
    pub(crate) fn perform_gate(&mut self, r: RegisterNumber, g: Gate) -> Result<(), Refusal>
        requires { IsEngine self.old × ((r < 2) × Placed most_qubits g) }
        ensures loans { KeepsEngine self.old self.new }
        ensures performs { Performs self.old self.new (gate_calls r g) result }
    {
        let x = self.operand(r)?;
        self.apply(r, x, g)?;
        self.drop_collect();
        Ok(())
    }
}
