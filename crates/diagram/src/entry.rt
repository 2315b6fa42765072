// The entries of a gate's tensor, at an assignment whose bit k is the value of index k.
ghost use Rattle.std.specs.Prelude.{◌≡◌, [], ◌+◌, ◌*◌, ◌<◌, get_or};
ghost use Rattle.field.specs.Field.{Represents};
ghost use Rattle.diagram.specs.Tensor.{bits, middle, fresh};
ghost use Rattle.diagram.specs.Gate.{bit as bit_of, entry as entry_of};
ghost use Rattle.diagram.specs.Entry.{QubitsInRange};

use crate::gate::{Gate, Qubit};
use crate::mask;
use crate::node::{Assignment, Index, Weight};

fn bit(v: Assignment, k: Index) -> usize
    requires { k < 64 }
    ensures { (result ≡ bit_of (bits v k)) × (result < 2) }
{
    usize::from(mask::has(v, k))
}

// A gate on the qubit q: rows are its fresh index, columns its middle one.
fn single(m: [[Weight; 2]; 2], q: Qubit, v: Assignment) -> Weight
    requires { q < 8 }
    ensures { result ≡ get_or (get_or m (bit_of (bits v (fresh q))) []) (bit_of (bits v (middle q))) 0 }
{
    let i = bit(v, 3 * q + 2);
    let j = bit(v, 3 * q + 1);
    m[i][j]
}

// A gate on the qubits a and b: rows are their fresh indices, columns their middle ones, a's counting double. This is
// not `single` at another size, since two bits choose the row and the column.
fn pair(m: [[Weight; 4]; 4], a: Qubit, b: Qubit, v: Assignment) -> Weight
    requires { (a < 8) × (b < 8) }
    ensures { result ≡ get_or (get_or m (2 * bit_of (bits v (fresh a)) + bit_of (bits v (fresh b))) [])
        (2 * bit_of (bits v (middle a)) + bit_of (bits v (middle b))) 0 }
{
    let i = bit(v, 3 * a + 2);
    let j = bit(v, 3 * b + 2);
    let x = bit(v, 3 * a + 1);
    let y = bit(v, 3 * b + 1);
    let row = 2 * i + j;
    let column = 2 * x + y;
    m[row][column]
}

pub(crate) fn entry(g: Gate, v: Assignment) -> Weight
    requires { QubitsInRange g }
    ensures { Represents result (entry_of g (bits v)) }
{
    let (a, b) = g.qubits();
    match g {
        Gate::Cx(_, _) => pair(
            [[1, 0, 0, 0], [0, 1, 0, 0], [0, 0, 0, 1], [0, 0, 1, 0]],
            a,
            b,
            v,
        ),
        Gate::Cz(_, _) => pair(
            [[1, 0, 0, 0], [0, 1, 0, 0], [0, 0, 1, 0], [0, 0, 0, 65536]],
            a,
            b,
            v,
        ),
        Gate::Sw(_, _) => pair(
            [[1, 0, 0, 0], [0, 0, 1, 0], [0, 1, 0, 0], [0, 0, 0, 1]],
            a,
            b,
            v,
        ),
        _ => single(g.matrix(), a, v),
    }
}
