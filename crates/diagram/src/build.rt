// Building a gate (document 01, `gate`).
ghost use Rattle.std.specs.Prelude.{◌≡◌, ◌≢◌, ◌+◌, ◌^◌, ◌≤◌, ◌<◌};
ghost use Rattle.diagram.specs.Tensor.{indices, index_count};
ghost use Rattle.diagram.specs.Tally.{build};
ghost use Rattle.diagram.specs.Gate.{gate_tensor};
ghost use Rattle.diagram.specs.Entry.{QubitsInRange};
ghost use Rattle.diagram.specs.Build.{NoneOwned, NoneUsed, gate_part, BitsBelow};
ghost use Rattle.diagram.specs.Diagram.{IsSound, KeepsCache, Does};

use crate::diagram::{Diagram, Full};
use crate::entry;
use crate::gate::{Gate, Qubit};
use crate::node::{Assignment, Edge, INDICES, Index};

// v with bit k set.
fn with_bit(v: Assignment, k: Index) -> Assignment
    requires { BitsBelow k v × (k ≢ index_count) }
    ensures { result ≡ v + 2 ^ k }
{
    v + (1 << k)
}

// The first index from k on that is the middle or fresh index of p or q, or the number of indices; p is not above q.
// (That number for "no index", as for a constant's top: it is compared by `<` with indices, and at it the recursion
// ends. An Option would be unwrapped at each.)
fn owned(p: Qubit, q: Qubit, k: Index) -> Index
    requires { (p ≤ q) × ((q < 8) × (k ≤ index_count)) }
    ensures { NoneOwned p q k result }
{
    if k < 3 * p + 1 {
        return 3 * p + 1;
    }
    if k < 3 * p + 3 {
        return k;
    }
    if k < 3 * q + 1 {
        return 3 * q + 1;
    }
    if k < 3 * q + 3 {
        return k;
    }
    INDICES
}

// The first index from k on that the gate uses, or the number of indices.
fn next_used(g: Gate, k: Index) -> Index
    requires { QubitsInRange g × (k ≤ index_count) }
    ensures { NoneUsed g k result }
{
    let (a, b) = g.qubits();
    owned(a.min(b), a.max(b), k)
}

impl<'a> Diagram<'a> {
    // The gate's tensor with its indices below k fixed as the bits of v: low before high. The indices that the gate
    // does not use are passed over.
    fn part(&mut self, g: Gate, k: Index, v: Assignment) -> Result<Edge, Full>
        requires { IsSound self.old × (QubitsInRange g × BitsBelow k v) }
        ensures cache { KeepsCache self.old self.new }
        ensures does { Does self.old self.new (build (gate_part g k v)) result }
    {
        if k == INDICES {
            let weight = entry::entry(g, v);
            return Ok(Edge { weight, node: 0 });
        }
        let n = next_used(g, k + 1);
        let l = self.part(g, n, v)?;
        let w = with_bit(v, k);
        let h = self.part(g, n, w)?;
        self.join(k, l, h)
    }

    pub fn gate(&mut self, g: Gate) -> Result<Edge, Full>
        requires { IsSound self.old × QubitsInRange g }
        ensures cache { KeepsCache self.old self.new }
        ensures does { Does self.old self.new (build (gate_tensor indices g)) result }
    {
        let k = next_used(g, 0);
        self.part(g, k, 0)
    }
}
