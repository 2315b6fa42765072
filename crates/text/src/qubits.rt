// A gate's qubits in rising order.
ghost use Rattle.text.specs.Limits.{most_qubits};
ghost use Rattle.text.specs.Names.{Placed};
ghost use Rattle.text.specs.Qubits.{QubitsOf};

use diagram::gate::{Gate, Shape};

// The gate's qubits, the lower one first.
pub(crate) fn of(g: Gate) -> Shape
    requires { Placed most_qubits g }
    ensures { QubitsOf g result }
{
    match g.shape() {
        Shape::One(q) => Shape::One(q),
        Shape::Two(p, q) => Shape::Two(p.min(q), p.max(q)),
    }
}
