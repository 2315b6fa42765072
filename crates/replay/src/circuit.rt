// An 8-qubit circuit, gate after gate as document 01's verdicts run them: the gate is contracted with what register 0
// holds over the middles of its qubits, their fresh indices become the middles, and a collection follows. The count of
// the nodes is printed each time.
ghost use Rattle.std.specs.Prelude.{◌<◌};
ghost use Rattle.diagram.specs.Tensor.{masks};
ghost use Rattle.diagram.specs.Entry.{QubitsInRange};
ghost use Rattle.diagram.specs.Gate.{AllBelowEight};
ghost use Rattle.replay.specs.Replay.{IsReplay};

use crate::calls::Replay;
use diagram::gate::{Gate, Qubit, Shape};
use diagram::node::Mask;
use std::io::Stdout;

impl<'a> Replay<'a> {
    // The gate, contracted over the indices of m; register 1 has held it.
    fn contract_gate(&mut self, g: Gate, m: Mask)
        requires { IsReplay self.old × (QubitsInRange g × (m < masks)) }
        ensures { IsReplay self.new }
    {
        self.gate(1, g);
        self.cont(0, m);
        self.registers.clear(1);
    }

    // The fresh index of q becomes its middle. (text has this, `rename_all` and `set` too, over edges and an engine;
    // replay stands on diagram alone.)
    fn rename(&mut self, q: Qubit)
        requires { IsReplay self.old × (q < 8) }
        ensures { IsReplay self.new }
    {
        self.low(3 * q + 2);
    }

    // The fresh indices of a gate's qubits become their middles, the first qubit's before the second's. (A verdict
    // takes the lower qubit first, which is the first one in each gate here.)
    fn rename_all(&mut self, qubits: Shape)
        requires { IsReplay self.old × AllBelowEight qubits }
        ensures { IsReplay self.new }
    {
        match qubits {
            Shape::One(q) => self.rename(q),
            Shape::Two(p, q) => {
                self.rename(p);
                self.rename(q);
            }
        }
    }

    // The gate on what register 0 holds.
    fn apply(&mut self, g: Gate)
        requires { IsReplay self.old × QubitsInRange g }
        ensures { IsReplay self.new }
    {
        let qubits = g.shape();
        self.contract_gate(g, qubits.middles());
        self.rename_all(qubits);
        self.collect();
        self.count();
    }

    // CX on each qubit and the next.
    fn chain(&mut self)
        requires { IsReplay self.old }
        ensures { IsReplay self.new }
    {
        for q in 0..7 {
            self.apply(Gate::Cx(q, q + 1));
        }
    }

    fn gates(&mut self)
        requires { IsReplay self.old }
        ensures { IsReplay self.new }
    {
        self.apply(Gate::H(0));
        self.chain();
        self.apply(Gate::T(3));
        self.apply(Gate::S(5));
        self.apply(Gate::Sw(2, 6));
        self.apply(Gate::Cz(1, 4));
        self.apply(Gate::H(7));
    }

    fn circuit(&mut self)
        requires { IsReplay self.old }
    {
        self.unit(8);
        self.count();
        self.gates();
        self.values();
    }
}

// The circuit, from no nodes.
pub fn run(stdout: Stdout, store: &mut [u8], cache: &mut [u64]) {
    Replay::start(stdout, store, cache).circuit();
}
