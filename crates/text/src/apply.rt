// A gate applied to a list's tensor, as one step (document 01, "Verdicts"): the gate's tensor, the contraction over the
// middles of its qubits, and their fresh indices renamed. No register is set between, and nothing depends on the
// middles then, so 7 is not looked for.
ghost use Rattle.std.specs.Prelude.{◌+◌, ◌*◌, ◌<◌};
ghost use Rattle.diagram.specs.Tensor.{indices};
ghost use Rattle.diagram.specs.Tally.{low};
ghost use Rattle.diagram.specs.Top.{Free};
ghost use Rattle.diagram.specs.Diagram.{tensor, Ready, KeepsLoans, DoesCached};
ghost use Rattle.text.specs.Limits.{most_qubits};
ghost use Rattle.text.specs.Names.{Placed};
ghost use Rattle.diagram.specs.Gate.{AllBelowEight};
ghost use Rattle.text.specs.Qubits.{qubit_list, Rising};
ghost use Rattle.text.specs.Apply.{Renamable, rename_step, contract_step, apply_step};

use crate::qubits;
use diagram::diagram::{Diagram, Full};
use diagram::gate::{Gate, Qubit, Shape};
use diagram::node::Edge;

// The fresh index of q becomes its middle.
fn rename(d: &mut Diagram, a: Edge, q: Qubit) -> Result<Edge, Full>
    requires { Ready d.old a a × ((q < most_qubits) × Free (3 * q + 1) (tensor d.old a)) }
    ensures loans { KeepsLoans d.old d.new }
    ensures does { DoesCached d.old d.new (low (3 * q + 2) (tensor d.old a)) result }
{
    d.lower(a, 3 * q + 2)
}

// "`low` of their fresh indices in rising order"
fn rename_all(d: &mut Diagram, a: Edge, qubits: Shape) -> Result<Edge, Full>
    requires { Ready d.old a a × (AllBelowEight qubits × Renamable (qubit_list qubits) (tensor d.old a)) }
    ensures loans { KeepsLoans d.old d.new }
    ensures does { DoesCached d.old d.new (rename_step (qubit_list qubits) (tensor d.old a)) result }
{
    match qubits {
        Shape::One(q) => rename(d, a, q),
        Shape::Two(p, q) => {
            let e = rename(d, a, p)?;
            rename(d, e, q)
        }
    }
}

// "`cont 0 2 0` over the middles of its qubits", where a is the gate's tensor and x the list's
fn contract_rename(d: &mut Diagram, a: Edge, x: Edge, qubits: Shape) -> Result<Edge, Full>
    requires { Ready d.old a x × (AllBelowEight qubits × Rising indices 0 (qubit_list qubits)) }
    ensures loans { KeepsLoans d.old d.new }
    ensures does { DoesCached d.old d.new (contract_step (qubit_list qubits) (tensor d.old x) (tensor d.old a)) result }
{
    let m = qubits.middles();
    let e = d.contract(a, x, m)?;
    rename_all(d, e, qubits)
}

pub(crate) fn apply(d: &mut Diagram, x: Edge, g: Gate) -> Result<Edge, Full>
    requires { Ready d.old x x × Placed most_qubits g }
    ensures loans { KeepsLoans d.old d.new }
    ensures does { DoesCached d.old d.new (apply_step g (tensor d.old x)) result }
{
    let qubits = qubits::of(g);
    let a = d.gate(g)?;
    contract_rename(d, a, x, qubits)
}
