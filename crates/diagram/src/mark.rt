// Marks what the marked nodes lead to. Field 5 of a node's record holds its mark.
ghost use Rattle.std.specs.Prelude.{◌≡◌, ◌≤◌, Some};
ghost use Rattle.diagram.specs.Node.{RecordWithin, node_at, HoldsNodes};
ghost use Rattle.diagram.specs.Compact.{ChildrenWithin};
ghost use Rattle.diagram.specs.Mark.{MarkEnsures, ChildrenBefore, MarkChildrenEnsures, SpreadEnsures};
ghost use Rattle.diagram.specs.Mark.{RootEnsures, RootsEnsures, ReachEnsures};
ghost use Rattle.diagram.specs.Registers.{edges_of, RegistersValid};
ghost use Rattle.diagram.specs.declared.node.Edge.{Edge};

use crate::node::{NodeCount, NodeNumber};
use crate::registers::{Register, Registers};
use crate::{fields, node};

// Marks node c; 0 is no node.
pub(crate) fn mark(s: &mut [u8], c: NodeNumber)
    requires { HoldsNodes s.old c }
    ensures { MarkEnsures s.old s.new c }
{
    if c == 0 {
        return;
    }
    fields::set(s, 5, c - 1, 1);
}

// Marks the children of node n, if it is marked.
fn mark_children(s: &mut [u8], count: NodeCount, n: NodeNumber)
    requires { RecordWithin s.old n × ((n ≤ count) × ChildrenWithin s.old n) }
    ensures { MarkChildrenEnsures count s.old s.new n }
{
    if fields::get(s, 5, n - 1) == 0 {
        return;
    }
    let x = node::read(s, n);
    mark(s, x.low.node);
    mark(s, x.high.node);
}

// Marks what the marked nodes of 1 .. count lead to.
fn spread(s: &mut [u8], count: NodeCount)
    requires { HoldsNodes s.old count × ChildrenBefore (node_at s.old) count }
    ensures { SpreadEnsures s.old s.new count }
{
    for n in (0..count).rev() {
        mark_children(s, count, n + 1);
    }
}

// Marks the node of a filled register.
fn root(s: &mut [u8], r: Register)
    requires { (e : Edge) → r ≡ Some e → HoldsNodes s.old e.node }
    ensures { RootEnsures r s.old s.new }
{
    if let Some(e) = r {
        mark(s, e.node);
    }
}

// Marks the nodes of the filled registers.
fn roots(s: &mut [u8], count: NodeCount, registers: Registers)
    requires { HoldsNodes s.old count × RegistersValid count registers.all }
    ensures { RootsEnsures count registers.all s.old s.new }
{
    for r in registers.all {
        root(s, r);
    }
}

// Marks what the filled registers lead to, and nothing else.
pub(crate) fn reach(s: &mut [u8], count: NodeCount, registers: Registers)
    requires { HoldsNodes s.old count × (ChildrenBefore (node_at s.old) count × RegistersValid count
        registers.all) }
    ensures { ReachEnsures count (edges_of registers.all) s.old s.new }
{
    fields::clear(s, 5, count);
    roots(s, count, registers);
    spread(s, count);
}
