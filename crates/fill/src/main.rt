// Fills a store with nodes by a pattern of joins, makes the same joins again, which find every node, and prints the
// number of nodes after each pass.
#![tactic(auto)]

ghost use Rattle.std.specs.Prelude.{◌+◌, ◌<◌};
ghost use Rattle.diagram.specs.Weights.{modulus};
ghost use Rattle.diagram.specs.Diagram.{IsSound, KeepsCache};
ghost use Rattle.fill.specs.Fill.{LeafEnsures, PairEnsures, FillInvariant};

use diagram::diagram::{Diagram, Full};
use diagram::node::{Edge, Weight};
use std::io::Stdout;

// The store has room for one node less than the pattern has.
const BYTES: usize = 1048560;

// The pattern has a pair for each two of so many weights.
const SIDE: u64 = 256;

// The node at index 23 with the values 1 and w.
fn leaf(d: &mut Diagram, w: Weight) -> Result<Edge, Full>
    requires { IsSound d.old × (w < modulus) }
    ensures cache { KeepsCache d.old d.new }
    ensures leaf { LeafEnsures d.old d.new w result }
{
    let one = Edge { weight: 1, node: 0 };
    let other = Edge { weight: w, node: 0 };
    d.join(23, one, other)
}

// The node at index 22 over two of those.
fn pair(d: &mut Diagram, a: Weight, b: Weight) -> Result<Edge, Full>
    requires { IsSound d.old × ((a < modulus) × (b < modulus)) }
    ensures cache { KeepsCache d.old d.new }
    ensures pair { PairEnsures d.old d.new result }
{
    let l = leaf(d, a)?;
    let h = leaf(d, b)?;
    d.join(22, l, h)
}

// A pair, or the nodes as they were where it does not fit. (`FillInvariant` stands in clauses here and below, and in no
// type: the diagram is that of another crate.)
fn one(d: &mut Diagram, a: Weight, b: Weight)
    requires { FillInvariant d.old × ((a < modulus) × (b < modulus)) }
    ensures { FillInvariant d.new }
{
    let _ = d.attempt(|d| pair(d, a, b));
}

// The pairs of a.
fn row(d: &mut Diagram, a: Weight)
    requires { FillInvariant d.old × (a < modulus) }
    ensures { FillInvariant d.new }
{
    for b in 0..SIDE {
        one(d, a, b + 2);
    }
}

fn pass(d: &mut Diagram)
    requires { FillInvariant d.old }
    ensures { FillInvariant d.new }
{
    for a in 0..SIDE {
        row(d, a + 2);
    }
}

// What cannot be written is left out.
fn print(stdout: Stdout, d: &Diagram) {
    println!(stdout; "{}", d.state.count).unwrap_or(());
}

fn run(stdout: Stdout, store: &mut [u8], cache: &mut [u64]) {
    let mut diagram = Diagram::over(store, cache);
    diagram.start();
    pass(&mut diagram);
    print(stdout, &diagram);
    pass(&mut diagram);
    print(stdout, &diagram);
}

// The array as a slice; the length is known here, and nothing has to count its elements. (Each program has its own:
// what is made of it differs.)
fn lend(stdout: Stdout, store: &mut [u8; BYTES]) {
    let mut cache = [0u64; 4];
    run(stdout, store, &mut cache);
}

fn main(rt: HostRuntime) {
    let stdout = rt.stdout();
    let mut store = [0u8; BYTES];
    lend(stdout, &mut store);
}
