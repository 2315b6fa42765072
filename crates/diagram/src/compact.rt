// Moves the marked nodes down. Field 5 of a node's record holds its mark, and once it has moved its new number.
ghost use Rattle.std.specs.Prelude.{◌≡◌, ◌≢◌, ◌+◌, ◌-◌, ◌≤◌, ◌<◌, Some};
ghost use Rattle.diagram.specs.Fields.{field};
ghost use Rattle.diagram.specs.Node.{NodeFits, RecordWithin, HoldsNodes, node_at};
ghost use Rattle.diagram.specs.Compact.{ChildrenWithin, MarksClosed, forward as forwarded, shift_node};
ghost use Rattle.diagram.specs.Compact.{renumber_node, CompactStepEnsures, CompactEnsures, renumber_register};
ghost use Rattle.diagram.specs.Compact.{renumber_registers};
ghost use Rattle.diagram.specs.Registers.{RegistersValid};
ghost use Rattle.diagram.specs.declared.node.Edge as edge;

use crate::node::{Edge, Node, NodeCount, NodeNumber};
use crate::registers::{Register, Registers};
use crate::{fields, node};

// The new number of the child c.
fn forward(s: &[u8], c: NodeNumber) -> NodeNumber
    requires { HoldsNodes s.now c }
    ensures { (result ≡ forwarded s.now c) × (result < 65536) }
{
    if c == 0 {
        return 0;
    }
    fields::get(s, 5, c - 1)
}

// Node n becomes node k, with its children's new numbers.
fn shift(s: &mut [u8], n: NodeNumber, k: NodeNumber)
    requires { RecordWithin s.old n × (RecordWithin s.old k × ((k < 65536) × ChildrenWithin s.old n)) }
    ensures { (s.new ≡ shift_node n k s.old) × NodeFits
        (renumber_node (forwarded s.old) (node_at s.old n)) }
{
    let x = node::read(s, n);
    let low = forward(s, x.low.node);
    let high = forward(s, x.high.node);
    let y = Node {
        low: Edge { node: low, ..x.low },
        high: Edge {
            node: high,
            ..x.high
        },
        ..x
    };
    node::write(s, k, y);
    fields::set(s, 5, n - 1, k);
}

// Looks at node m + 1, where k nodes have moved; the answer is how many have then.
fn compact_step(s: &mut [u8], count: NodeCount, m: NodeCount, k: NodeCount) -> NodeCount
    requires { (m < count) × (HoldsNodes s.old count ×
        ((count < 65536) × ((k ≤ m) × (field s.old 5 m ≢ 0 → ChildrenWithin s.old (m + 1))))) }
    ensures { CompactStepEnsures count s.old s.new m k result }
{
    let mark = fields::get(s, 5, m);
    if mark == 0 {
        return k;
    }
    let to = k + 1;
    shift(s, m + 1, to);
    to
}

// Moves the marked nodes of 1 .. count down; the answer is how many they are.
pub(crate) fn compact(s: &mut [u8], count: NodeCount) -> NodeCount
    requires { HoldsNodes s.old count × ((count < 65536) × MarksClosed (λ n. field s.old 5 (n - 1))
        (node_at s.old) count) }
    ensures { CompactEnsures s.old s.new count result }
{
    let mut k = 0;
    for m in 0..count {
        k = compact_step(s, count, m, k);
    }
    k
}

// A register with its node's new number.
#[tactic(auto, unfolding(crate::specs::Compact::renumber_register))]
fn moved(s: &[u8], r: Register) -> Register
    requires { (e : edge.Edge) → r ≡ Some e → HoldsNodes s.now e.node }
    ensures { result ≡ renumber_register (forwarded s.now) r }
{
    let Edge { weight, node } = r?;
    let node = forward(s, node);
    Some(Edge { weight, node })
}

// The registers with their nodes' new numbers.
pub(crate) fn renumber(s: &[u8], count: NodeCount, registers: &mut Registers)
    requires { HoldsNodes s.now count × RegistersValid count registers.old.all }
    ensures { registers.new.all ≡ renumber_registers (forwarded s.now) registers.old.all }
{
    for r in registers.all.iter_mut() {
        *r = moved(s, *r);
    }
}
