// The gates' matrices, a case for each gate and entry (document 02, "Three"); docs/GATES.md has them as they are
// published. (`Gate::matrix` and `entry` have them as arrays, which is document 01's form.)
ghost use Rattle.std.specs.Prelude.{◌≡◌};
ghost use Rattle.diagram.specs.Matrices.{weight as weight_of};

use crate::node::Weight;

// One of 0 to 10 (`Gate::number`).
pub(crate) type GateNumber = usize;

// Row by row from 0: 0 to 3 on one qubit, 0 to 15 on two.
pub(crate) type EntryNumber = usize;

// Document 01, "The field": i, h, which is 1 over root two, and the eighth root; with them -1, -i, -h and the root's
// inverse.
const MINUS_ONE: Weight = 65536;

const I: Weight = 256;

const MINUS_I: Weight = 65281;

const H: Weight = 63497;

const MINUS_H: Weight = 2040;

const ROOT: Weight = 16;

const INVERSE_ROOT: Weight = 61441;

// That entry of that gate; 0 where there is none, as in document 01's matrices where a rule names no other entry. (No
// Option: only entries that are there are asked for.) Rows are outputs (fresh), columns inputs (middle). A gate on two
// qubits has rows and columns 00, 01, 10, 11, the first qubit's value first.
pub(crate) fn weight(gate: GateNumber, entry: EntryNumber) -> Weight
    ensures { result ≡ weight_of gate entry }
{
    match gate {
        // X
        0 => match entry {
            // row 0
            0 => 0,
            1 => 1,
            // row 1
            2 => 1,
            3 => 0,
            _ => 0,
        },
        // Y
        1 => match entry {
            // row 0
            0 => 0,
            1 => MINUS_I,
            // row 1
            2 => I,
            3 => 0,
            _ => 0,
        },
        // Z
        2 => match entry {
            // row 0
            0 => 1,
            1 => 0,
            // row 1
            2 => 0,
            3 => MINUS_ONE,
            _ => 0,
        },
        // H
        3 => match entry {
            // row 0
            0 => H,
            1 => H,
            // row 1
            2 => H,
            3 => MINUS_H,
            _ => 0,
        },
        // S
        4 => match entry {
            // row 0
            0 => 1,
            1 => 0,
            // row 1
            2 => 0,
            3 => I,
            _ => 0,
        },
        // SD
        5 => match entry {
            // row 0
            0 => 1,
            1 => 0,
            // row 1
            2 => 0,
            3 => MINUS_I,
            _ => 0,
        },
        // T
        6 => match entry {
            // row 0
            0 => 1,
            1 => 0,
            // row 1
            2 => 0,
            3 => ROOT,
            _ => 0,
        },
        // TD
        7 => match entry {
            // row 0
            0 => 1,
            1 => 0,
            // row 1
            2 => 0,
            3 => INVERSE_ROOT,
            _ => 0,
        },
        // CX, the first qubit the control
        8 => match entry {
            // row 00
            0 => 1,
            1 => 0,
            2 => 0,
            3 => 0,
            // row 01
            4 => 0,
            5 => 1,
            6 => 0,
            7 => 0,
            // row 10
            8 => 0,
            9 => 0,
            10 => 0,
            11 => 1,
            // row 11
            12 => 0,
            13 => 0,
            14 => 1,
            15 => 0,
            _ => 0,
        },
        // CZ
        9 => match entry {
            // row 00
            0 => 1,
            1 => 0,
            2 => 0,
            3 => 0,
            // row 01
            4 => 0,
            5 => 1,
            6 => 0,
            7 => 0,
            // row 10
            8 => 0,
            9 => 0,
            10 => 1,
            11 => 0,
            // row 11
            12 => 0,
            13 => 0,
            14 => 0,
            15 => MINUS_ONE,
            _ => 0,
        },
        // SW
        10 => match entry {
            // row 00
            0 => 1,
            1 => 0,
            2 => 0,
            3 => 0,
            // row 01
            4 => 0,
            5 => 0,
            6 => 1,
            7 => 0,
            // row 10
            8 => 0,
            9 => 1,
            10 => 0,
            11 => 0,
            // row 11
            12 => 0,
            13 => 0,
            14 => 0,
            15 => 1,
            _ => 0,
        },
        _ => 0,
    }
}
