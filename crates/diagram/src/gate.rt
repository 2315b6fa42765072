// The gates (document 01, "Gates").
ghost use Rattle.std.specs.Prelude.{◌≡◌, ◌^◌, ◌<◌, Some};
ghost use Rattle.diagram.specs.Tensor.{masks, middle as middle_of};
ghost use Rattle.diagram.specs.Gate.{numbers, matrix as matrix_of, shape as shape_of, first_qubit, second_qubit};
ghost use Rattle.diagram.specs.Gate.{gate_number, AllBelowEight, middles as middles_of, printed};

use crate::mask;
use crate::matrices::GateNumber;
use crate::node::{Mask, Weight};
use std::fmt;

// One of the qubits 0 to 7. (A plain number, as an index is: node.rt.)
pub type Qubit = usize;

pub type QubitCount = usize;

// A gate on its qubit, or on its two: for CX the control first. (`QubitsInRange` stands in clauses, and in no type: a
// line's gate is made before its qubits are checked.)
#[derive(Clone, Copy)]
pub enum Gate {
    X(Qubit),
    Y(Qubit),
    Z(Qubit),
    H(Qubit),
    S(Qubit),
    Sd(Qubit),
    T(Qubit),
    Td(Qubit),
    Cx(Qubit, Qubit),
    Cz(Qubit, Qubit),
    Sw(Qubit, Qubit),
}

// A gate's qubit, or its two.
#[derive(Clone, Copy)]
pub enum Shape {
    One(Qubit),
    Two(Qubit, Qubit),
}

impl Gate {
    // X Y Z H S SD T TD CX CZ SW are 0 to 10: a decision over a number and an entry's is what document 02 asks for.
    pub(crate) fn number(self) -> GateNumber
        ensures { result ≡ gate_number self }
    {
        match self {
            Gate::X(_) => 0,
            Gate::Y(_) => 1,
            Gate::Z(_) => 2,
            Gate::H(_) => 3,
            Gate::S(_) => 4,
            Gate::Sd(_) => 5,
            Gate::T(_) => 6,
            Gate::Td(_) => 7,
            Gate::Cx(_, _) => 8,
            Gate::Cz(_, _) => 9,
            Gate::Sw(_, _) => 10,
        }
    }

    // A one-qubit gate: rows output (fresh), columns input (middle). Zeros for a gate on two qubits, as the definition
    // has it. (No Option: who asks has seen that the gate is on one.)
    #[tactic(auto, using(crate::specs::GateLaws::as_matrix))]
    pub(crate) fn matrix(self) -> [[Weight; 2]; 2]
        ensures { result ≡ numbers (matrix_of self) }
    {
        match self {
            Gate::X(_) => [[0, 1], [1, 0]],
            Gate::Y(_) => [[0, 65281], [256, 0]],
            Gate::Z(_) => [[1, 0], [0, 65536]],
            Gate::H(_) => [[63497, 63497], [63497, 2040]],
            Gate::S(_) => [[1, 0], [0, 256]],
            Gate::Sd(_) => [[1, 0], [0, 65281]],
            Gate::T(_) => [[1, 0], [0, 16]],
            Gate::Td(_) => [[1, 0], [0, 61441]],
            Gate::Cx(_, _) | Gate::Cz(_, _) | Gate::Sw(_, _) => [[0, 0], [0, 0]],
        }
    }

    #[tactic(auto, using(crate::specs::GateLaws::as_shape))]
    pub fn shape(self) -> Shape
        ensures { result ≡ shape_of self }
    {
        match self {
            Gate::X(q)
            | Gate::Y(q)
            | Gate::Z(q)
            | Gate::H(q)
            | Gate::S(q)
            | Gate::Sd(q)
            | Gate::T(q)
            | Gate::Td(q) => Shape::One(q),
            Gate::Cx(a, b) | Gate::Cz(a, b) | Gate::Sw(a, b) => Shape::Two(a, b),
        }
    }

    // The gate's qubit twice, or its two. (No Option for the second: who asks goes through the indices of both, and the
    // same ones twice make no difference.)
    pub(crate) fn qubits(self) -> (Qubit, Qubit)
        ensures first { result.0 ≡ first_qubit self }
        ensures second { result.1 ≡ second_qubit self }
    {
        match self.shape() {
            Shape::One(q) => (q, q),
            Shape::Two(a, b) => (a, b),
        }
    }
}

// As a session's line names it: "CX 0 1".
impl fmt::Display for Gate {
    ghost output = { λ g. Some (printed g) };

    fn fmt<W: fmt::Write>(&self, f: &mut fmt::Formatter<W>) -> fmt::Result {
        match self {
            Gate::X(q) => write!(f, "X {q}"),
            Gate::Y(q) => write!(f, "Y {q}"),
            Gate::Z(q) => write!(f, "Z {q}"),
            Gate::H(q) => write!(f, "H {q}"),
            Gate::S(q) => write!(f, "S {q}"),
            Gate::Sd(q) => write!(f, "SD {q}"),
            Gate::T(q) => write!(f, "T {q}"),
            Gate::Td(q) => write!(f, "TD {q}"),
            Gate::Cx(a, b) => write!(f, "CX {a} {b}"),
            Gate::Cz(a, b) => write!(f, "CZ {a} {b}"),
            Gate::Sw(a, b) => write!(f, "SW {a} {b}"),
        }
    }
}

// The middle index of q, as a mask.
#[tactic(auto, using(crate::specs::GateLaws::middle_below))]
fn middle(q: Qubit) -> Mask
    requires { q < 8 }
    ensures { (result ≡ 2 ^ middle_of q) × (result < 8388608) }
{
    mask::power(3 * q + 1)
}

impl Shape {
    // The middle indices of a gate's qubits, as a mask. (A gate's two qubits are different ones.)
    pub fn middles(self) -> Mask
        requires { AllBelowEight self }
        ensures { (result ≡ middles_of self) × (result < masks) }
    {
        match self {
            Shape::One(q) => middle(q),
            Shape::Two(a, b) => middle(a) + middle(b),
        }
    }
}
