// Replays the fault of the demands: a product is remembered under two node numbers, a collection frees their places,
// two other gates take them, and their product is asked for under the same numbers and the same mask. Then the same
// without the collection.
//
// The file stdout is calculated by hand from document 01. A line has a register's weight, its node and its values where
// middle and fresh of qubit 0 are 00, 10, 01, 11. A gate's values are its entries. The product's values, sums over the
// middle of products of the gates' values, depend on fresh alone: 1 and -256 for Z and S, -256 and 256 for X and Y. The
// numbers count the normal tensors in the order of the joins: (1, 0) and (0, 1) at index 2, Z, S, then the product; for
// X and Y (0, 1) before (1, 0), and only three are new where the first are still there.
//
// Then an 8-qubit circuit: the counts after the unit and after each gate, and values at six assignments. They agree
// with an independent calculation: the product of the 256 by 256 matrices over the field, and the number of different
// normal tensors among its cofactors, index by index.
#![tactic(auto)]

mod calls;
mod circuit;
mod show;

ghost use Rattle.std.specs.Prelude.{◌≡◌};
ghost use Rattle.diagram.specs.Entry.{QubitsInRange};
ghost use Rattle.replay.specs.Replay.{cleared, IsReplay, MayRead};

use calls::Replay;
use diagram::gate::{Gate, Shape};
use diagram::registers::Registers;

// Empties the three registers.
fn forget(registers: &mut Registers)
    ensures { registers.new.all ≡ cleared registers.old.all }
{
    registers.clear(0);
    registers.clear(1);
    registers.clear(2);
}

impl<'a> Replay<'a> {
    // Two gates, and their product over the middle of qubit 0.
    fn product(&mut self, g: Gate, h: Gate)
        requires { IsReplay self.old × (QubitsInRange g × QubitsInRange h) }
        ensures { IsReplay self.new }
    {
        self.gate(0, g);
        self.gate(1, h);
        self.cont(2, Shape::One(0).middles());
    }

    // The gates, their product and the count of the nodes.
    fn report(&self)
        requires { MayRead self.now }
    {
        for i in 0..3 {
            self.register(i);
        }
        self.count();
    }

    // The first pair of gates, which is then dropped.
    fn first_pair(&mut self)
        requires { IsReplay self.old }
        ensures { IsReplay self.new }
    {
        self.product(Gate::Z(0), Gate::S(0));
        self.report();
        forget(&mut self.registers);
    }

    fn second_pair(&mut self)
        requires { IsReplay self.old }
    {
        self.count();
        self.product(Gate::X(0), Gate::Y(0));
        self.report();
    }

    // Both pairs, with a collection between them.
    fn collected(&mut self)
        requires { IsReplay self.old }
    {
        self.first_pair();
        self.collect();
        self.second_pair();
    }

    // Both pairs, without one.
    fn uncollected(&mut self)
        requires { IsReplay self.old }
    {
        self.first_pair();
        self.second_pair();
    }
}

fn main(rt: HostRuntime) {
    let stdout = rt.stdout();
    let mut store = [0u8; 32768];
    let mut cache = [0u64; 256];
    Replay::start(stdout, &mut store, &mut cache).collected();
    Replay::start(stdout, &mut store, &mut cache).uncollected();
    circuit::run(stdout, &mut store, &mut cache);
}
