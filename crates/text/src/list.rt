// The lists of a verdict's text, run as its lines are read again (document 01, "Verdicts").
ghost use Rattle.std.specs.Prelude.{◌<◌};
ghost use Rattle.text.specs.List.{IsLists, IsAhead, IsGateAhead, GatesAhead, ListAhead};
ghost use Rattle.text.specs.List.{KeepsText, PassesLine, Opens, RunsGate, RunsGates, RunsList};

use crate::call::{Call, Refusal};
use crate::engine::Engine;
use crate::limits::LineNumber;
use crate::{check, split};
use diagram::gate::QubitCount;
use diagram::registers::RegisterNumber;

// A good text on so many qubits, and where the run of its lists stands: `line` lines were run, and the next begins at
// `place`. (A place, and not the rest of the text: what is promised counts lines from the text's front. `IsLists`
// stands at each method, and in no invariant of the type: it is not true within a call of the engine.)
#[derive(Drop)]
pub struct Lists<'t, 'b, 'a> {
    pub text: &'t [u8],
    pub qubits: QubitCount,
    pub line: LineNumber,
    pub place: usize,
    pub engine: Engine<'b, 'a>,
}

impl<'t, 'b, 'a> Lists<'t, 'b, 'a> {
    // The line at hand, which is passed.
    fn next_line(&mut self) -> &'t [u8]
        requires { IsAhead self.old }
        ensures text { KeepsText self.old self.new }
        ensures passes { PassesLine self.old self.new result.now }
    {
        let a = self.place;
        let e = split::end(self.text, a, b'\n');
        self.line += 1;
        self.place = e + 1;
        &self.text[a..e]
    }

    // "`unit` in 0", at the header, or in 1, at `=`.
    fn open(&mut self, r: RegisterNumber) -> Result<(), Refusal>
        requires { IsLists self.old × (IsAhead self.old × (r < 2)) }
        ensures text { KeepsText self.old self.new }
        ensures opens { Opens self.old self.new r result }
    {
        self.next_line();
        self.engine.perform(Call::Unit(r, self.qubits))
    }

    // The gate of the line at hand.
    fn gate(&mut self, r: RegisterNumber) -> Result<(), Refusal>
        requires { IsLists self.old × (IsGateAhead self.old × (r < 2)) }
        ensures text { KeepsText self.old self.new }
        ensures runs { RunsGate self.old self.new r result }
    {
        let line = self.next_line();
        let g = check::gate(self.qubits, line);
        self.engine.perform_gate(r, g)
    }

    // The gates of `count` lines.
    fn gates(&mut self, r: RegisterNumber, count: usize) -> Result<(), Refusal>
        requires { IsLists self.old × (GatesAhead self.old r count × (r < 2)) }
        ensures text { KeepsText self.old self.new }
        ensures runs { RunsGates self.old self.new r count result }
    {
        for _ in 0..count {
            self.gate(r)?;
        }
        Ok(())
    }

    // The list in register r: its head line, and `count` gate lines.
    pub(crate) fn run(&mut self, r: RegisterNumber, count: usize) -> Result<(), Refusal>
        requires { IsLists self.old × (ListAhead self.old r count × (r < 2)) }
        ensures text { KeepsText self.old self.new }
        ensures runs { RunsList self.old self.new r count result }
    {
        self.open(r)?;
        self.gates(r, count)
    }
}
