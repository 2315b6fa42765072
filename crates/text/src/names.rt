// The gates' names, and where a gate may stand. (Names of gates on one qubit and on two are apart: a name is looked
// for among those of its count. Why no `match`: words.rt.)
ghost use Rattle.std.specs.Prelude.{◌≡◌};
ghost use Rattle.text.specs.Names.{one_qubit, two_qubits, placed_gate};

use diagram::gate::{Gate, Qubit, QubitCount, Shape};

// The gate of this name on one qubit, if it is a name.
#[tactic(auto, unfolding(crate::specs::Names::one_qubit))]
pub(crate) fn one_qubit(s: &[u8], q: Qubit) -> Option<Gate>
    ensures { result ≡ one_qubit s.now q }
{
    if s == b"X".as_slice() {
        Some(Gate::X(q))
    } else if s == b"Y".as_slice() {
        Some(Gate::Y(q))
    } else if s == b"Z".as_slice() {
        Some(Gate::Z(q))
    } else if s == b"H".as_slice() {
        Some(Gate::H(q))
    } else if s == b"S".as_slice() {
        Some(Gate::S(q))
    } else if s == b"SD".as_slice() {
        Some(Gate::Sd(q))
    } else if s == b"T".as_slice() {
        Some(Gate::T(q))
    } else if s == b"TD".as_slice() {
        Some(Gate::Td(q))
    } else {
        None
    }
}

// The gate of this name on two qubits, if it is a name.
#[tactic(auto, unfolding(crate::specs::Names::two_qubits))]
pub(crate) fn two_qubits(s: &[u8], p: Qubit, q: Qubit) -> Option<Gate>
    ensures { result ≡ two_qubits s.now p q }
{
    if s == b"CX".as_slice() {
        Some(Gate::Cx(p, q))
    } else if s == b"CZ".as_slice() {
        Some(Gate::Cz(p, q))
    } else if s == b"SW".as_slice() {
        Some(Gate::Sw(p, q))
    } else {
        None
    }
}

// Why a gate may not stand: a qubit that is not there, or the same one twice.
#[derive(Clone, Copy)]
pub(crate) enum Misplaced {
    Qubit,
    Equal,
}

// The gate, where its qubits are below n and differ. (`Placed` stands in clauses, and in no type: n is the text's, and
// gates are made before they are placed.)
#[tactic(auto, unfolding(crate::specs::Names::placed_gate))]
pub(crate) fn placed(g: Gate, n: QubitCount) -> Result<Gate, Misplaced>
    ensures { result ≡ placed_gate n g }
{
    match g.shape() {
        Shape::One(q) if n <= q => Err(Misplaced::Qubit),
        Shape::Two(p, q) if n <= p || n <= q => Err(Misplaced::Qubit),
        Shape::Two(p, q) if p == q => Err(Misplaced::Equal),
        _ => Ok(g),
    }
}
