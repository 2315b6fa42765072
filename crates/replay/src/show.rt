// What is printed: a register's weight, node and four values; the count of the nodes.
ghost use Rattle.std.specs.Prelude.{◌<◌};
ghost use Rattle.diagram.specs.Diagram.{IsSound, IsEdge};
ghost use Rattle.replay.specs.Replay.{MayRead};

use crate::calls::Replay;
use diagram::node::{Assignment, Edge};
use diagram::registers::RegisterNumber;

impl<'a> Replay<'a> {
    // The values at assignments. What cannot be written is left out, here and below.
    fn values_at(&self, e: Edge, at: &[Assignment])
        requires { IsSound self.now.diagram × IsEdge self.now.diagram e }
    {
        print!(self.stdout; "values").unwrap_or(());
        for v in at {
            print!(self.stdout; " {}", self.diagram.value(e, *v)).unwrap_or(());
        }
        println!(self.stdout; "").unwrap_or(());
    }

    // The weight and the node, and the values where middle and fresh of qubit 0 are 00, 10, 01 and 11.
    fn line(&self, e: Edge)
        requires { IsSound self.now.diagram × IsEdge self.now.diagram e }
    {
        print!(self.stdout; "weight {} node {} ", e.weight, e.node).unwrap_or(());
        self.values_at(e, &[0, 2, 4, 6]);
    }

    // Register i, if it is filled. (`MayRead` is what `IsReplay` says of what is only read; why neither is an invariant
    // of the type: calls.rt.)
    pub fn register(&self, i: RegisterNumber)
        requires { MayRead self.now × (i < 16) }
    {
        let Some(e) = self.registers.get(i) else {
            return;
        };
        self.line(e);
    }

    pub fn count(&self) {
        println!(self.stdout; "nodes {}", self.diagram.state.count).unwrap_or(());
    }

    // The values of register 0 at chosen inputs and outputs of 8 qubits: all inputs 0 and all outputs 0; outputs 1;
    // input 1 on qubit 0; both; outputs 1 but on qubit 7; all 1.
    pub fn values(&self)
        requires { MayRead self.now }
    {
        let Some(e) = self.registers.get(0) else {
            return;
        };
        self.values_at(e, &[0, 4793490, 1, 4793491, 599186, 7190235]);
    }
}
