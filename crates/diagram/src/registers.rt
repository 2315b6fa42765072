// Sixteen registers, each empty or an edge.
ghost use Rattle.std.specs.Prelude.{◌≡◌, ◌<◌, set, Some};
ghost use Rattle.diagram.specs.Registers.{empty_register, empty_registers, GetEnsures};

use crate::node::Edge;

// One of the registers 0 to 15. (A plain number: a line's are checked only after all are read, and one that is checked
// would be opened again where the array is read. What a register holds has a node's number: document 01 numbers nodes.)
pub type RegisterNumber = usize;

pub type Register = Option<Edge>;

#[derive(Clone, Copy)]
pub struct Registers {
    pub all: [Register; 16],
}

impl Registers {
    // All empty.
    pub fn empty() -> Registers
        ensures { result.all ≡ empty_registers }
    {
        Registers { all: [None; 16] }
    }

    // What register i holds.
    pub fn get(&self, i: RegisterNumber) -> Register
        requires { i < 16 }
        ensures { GetEnsures self.now.all i result }
    {
        self.all[i]
    }

    // Sets register i to an edge.
    pub fn put(&mut self, i: RegisterNumber, edge: Edge)
        requires { i < 16 }
        ensures { self.new.all ≡ set self.old.all i (Some edge) }
    {
        self.all[i] = Some(edge);
    }

    // Empties register i.
    pub fn clear(&mut self, i: RegisterNumber)
        requires { i < 16 }
        ensures { self.new.all ≡ set self.old.all i empty_register }
    {
        self.all[i] = None;
    }
}
