// Building `unit` (document 01): 1 where input equals middle for each qubit below n, else 0.
ghost use Rattle.std.specs.Prelude.{◌-◌, ◌≤◌};
ghost use Rattle.diagram.specs.Tensor.{indices};
ghost use Rattle.diagram.specs.Tally.{build};
ghost use Rattle.diagram.specs.Gate.{unit_tensor};
ghost use Rattle.diagram.specs.Unit.{onto as onto_of, unit_from};
ghost use Rattle.diagram.specs.Diagram.{IsSound, tensor, OntoReady, KeepsCache, Does};

use crate::diagram::{Diagram, Full};
use crate::gate::{Qubit, QubitCount};
use crate::node::Edge;

impl<'a> Diagram<'a> {
    // Qubit q before e, which has the qubits after it.
    fn onto(&mut self, q: Qubit, e: Edge) -> Result<Edge, Full>
        requires { OntoReady self.old q e }
        ensures cache { KeepsCache self.old self.new }
        ensures does { Does self.old self.new (build (onto_of q (tensor self.old e))) result }
    {
        let zero = Edge::ZERO;
        let a = self.join(3 * q + 1, e, zero)?;
        let b = self.join(3 * q + 1, zero, e)?;
        self.join(3 * q, a, b)
    }

    // The qubits from q on. (No loop over the qubits: the ones after q are joined first, and their edge is what q's
    // joins are made of.)
    fn unit_from(&mut self, q: Qubit, n: QubitCount) -> Result<Edge, Full>
        requires { IsSound self.old × ((q ≤ n) × (n ≤ 8)) }
        ensures cache { KeepsCache self.old self.new }
        ensures does { Does self.old self.new (build (unit_from {d = indices} q (n - q))) result }
    {
        if q == n {
            return Ok(Edge { weight: 1, node: 0 });
        }
        let e = self.unit_from(q + 1, n)?;
        self.onto(q, e)
    }

    pub fn unit(&mut self, n: QubitCount) -> Result<Edge, Full>
        requires { IsSound self.old × (n ≤ 8) }
        ensures cache { KeepsCache self.old self.new }
        ensures does { Does self.old self.new (build (unit_tensor indices n)) result }
    {
        self.unit_from(0, n)
    }
}
