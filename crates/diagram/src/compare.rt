// Comparing two edges (document 01, `cmp`).
ghost use Rattle.std.specs.Prelude.{◌<◌};
ghost use Rattle.field.specs.Weight.{to_weight, times_w, inverse_w, modulus};
ghost use Rattle.field.specs.Field.{Represents};
ghost use Rattle.diagram.specs.Compare.{CompareEnsures};

use crate::node::{Edge, Weight};

// The first tensor is the second; or it is so many times the second, neither 0 nor 1 times; or neither.
#[derive(Clone, Copy)]
pub enum Comparison {
    Same,
    Factor(Weight),
    Differ,
}

fn ratio(v: Weight, w: Weight) -> Weight
    requires { (v < modulus) × (w < modulus) }
    ensures { Represents result (times_w (to_weight v) (inverse_w (to_weight w))) }
{
    let i = field::inverse(w);
    field::mul(v, i)
}

// Edges of one store have the same tensor, or multiples of one, only at the same node.
pub fn compare(a: Edge, b: Edge) -> Comparison
    requires { (a.weight < modulus) × (b.weight < modulus) }
    ensures { CompareEnsures a b result }
{
    let v = a.weight;
    let w = b.weight;
    let m = a.node;
    let n = b.node;
    if m != n {
        return Comparison::Differ;
    }
    if v == w {
        return Comparison::Same;
    }
    if v == 0 {
        return Comparison::Differ;
    }
    if w == 0 {
        return Comparison::Differ;
    }
    let f = ratio(v, w);
    Comparison::Factor(f)
}
