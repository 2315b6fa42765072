// Verdict texts: every line is read, and the first faulty line decides.
ghost use Rattle.std.specs.Prelude.{◌≡◌, ◌+◌, ◌≤◌, length, drop, None};
ghost use Rattle.text.specs.Text.{lines};
ghost use Rattle.text.specs.Ruling.{fault_number};
ghost use Rattle.text.specs.Check.{HeaderRead, ItemRead, IsGate, GateRead, TextRead};
ghost use Rattle.text.specs.Check.{parting_after, check_lines, named_item, gate_item_of, item_of};
ghost use Rattle.text.specs.Check.{header_numbers, fault_of};

use crate::args::Args;
use crate::limits::{LineNumber, MOST_DIGITS, MOST_QUBITS};
use crate::names::Misplaced;
use crate::{args, names, split};
use diagram::gate::{Gate, QubitCount};

// Why a text is refused, with document 01's number.
#[derive(Clone, Copy)]
pub enum Fault {
    Header = 10,
    Line = 11,
    Qubit = 12,
    Equal = 13,
    Parting = 14,
    Full = 8,
}

impl Fault {
    // (`as`: an enum's number has no From.)
    pub fn number(self) -> usize
        ensures { (result ≡ fault_number self) × (result ≤ 14) }
    {
        self as usize
    }
}

impl From<Misplaced> for Fault {
    ghost from_gives = { λ m f. f ≡ fault_of m };

    fn from(m: Misplaced) -> Fault {
        match m {
            Misplaced::Qubit => Fault::Qubit,
            Misplaced::Equal => Fault::Equal,
        }
    }
}

// A fault, and the line that has it.
#[derive(Clone, Copy)]
pub struct FaultAt {
    pub fault: Fault,
    pub line: LineNumber,
}

// A line after the first: a gate, or the `=` that parts the lists.
#[derive(Clone, Copy)]
pub enum Item {
    Gate(Gate),
    Parting,
}

// What is known of a text without a fault: its n, the line of `=` and the number of lines.
#[derive(Clone, Copy)]
pub struct Checked {
    pub n: QubitCount,
    pub parting: LineNumber,
    pub count: usize,
}

// The item of the gate of a name, if that is one. (Gate calls have the like of this and of `gate_item`, gate.rt: one
// for both would take the two errors, what the gate is put into and a register's check as parameters, and a law for
// each.)
fn named(n: QubitCount, g: Option<Gate>) -> Result<Item, Fault>
    ensures { result ≡ named_item n g }
{
    let g = g.ok_or(Fault::Line)?;
    Ok(Item::Gate(names::placed(g, n)?))
}

#[tactic(auto, unfolding(crate::specs::Args::by_count, crate::specs::Check::gate_item_of))]
fn gate_item(n: QubitCount, name: &[u8], qubits: Args) -> Result<Item, Fault>
    ensures { result ≡ gate_item_of n name.now qubits }
{
    match qubits {
        Args::One(q) => named(n, names::one_qubit(name, q)),
        Args::Two(p, q) => named(n, names::two_qubits(name, p, q)),
        _ => Err(Fault::Line),
    }
}

// A line after the first.
fn read(n: QubitCount, line: &[u8]) -> Result<Item, Fault>
    ensures { ItemRead n line.now result }
{
    if line == b"=".as_slice() {
        return Ok(Item::Parting);
    }
    let e = split::end(line, 0, b'\t');
    let qubits = args::after(line, e, 1).ok_or(Fault::Line)?;
    gate_item(n, &line[..e], qubits)
}

// The gate of a good gate line, when a good text is read again.
pub fn gate(n: QubitCount, line: &[u8]) -> Gate
    requires { IsGate (item_of n line.now) }
    ensures { GateRead n line.now result }
{
    match read(n, line) {
        Ok(Item::Gate(g)) => g,
        _ => unreachable!(),
    }
}

#[tactic(auto, unfolding(crate::specs::Args::by_count, crate::specs::Check::header_numbers))]
fn header_number(args: Args) -> Option<QubitCount>
    ensures { result ≡ header_numbers args }
{
    match args {
        Args::One(n) if 1 <= n && n <= MOST_QUBITS => Some(n),
        _ => None,
    }
}

// The n of the first line, if that is good.
fn read_header(line: &[u8]) -> Option<QubitCount>
    ensures { HeaderRead line.now result }
{
    let e = split::end(line, 0, b'\t');
    if &line[..e] == b"lines".as_slice() {
        return header_number(args::after(line, e, MOST_DIGITS)?);
    }
    None
}

// The line of `=` so far, after a line that is this item; or the fault.
fn parting_after(
    item: Result<Item, Fault>,
    parting: Option<LineNumber>,
    line: LineNumber,
) -> Result<Option<LineNumber>, FaultAt>
    ensures { result ≡ parting_after item parting line }
{
    match (item, parting) {
        (Ok(Item::Gate(_)), _) => Ok(parting),
        (Ok(Item::Parting), None) => Ok(Some(line)),
        (Ok(Item::Parting), Some(_)) => Err(FaultAt {
            fault: Fault::Parting,
            line,
        }),
        (Err(fault), _) => Err(FaultAt { fault, line }),
    }
}

// The lines after the first, from `start` on.
fn check_lines(text: &[u8], start: usize, n: QubitCount) -> Result<Checked, FaultAt>
    ensures { result ≡ check_lines n None 1 (lines (drop start text.now)) }
{
    let mut count = 1;
    let mut parting = None;
    // (A first line without LF ends at the text's end: `start` is past it then.)
    let rest = &text[start.min(text.len())..];
    for part in rest.split_inclusive(|&b| b == b'\n') {
        count += 1;
        parting = parting_after(read(n, split::line_of(part)), parting, count)?;
    }
    match parting {
        Some(parting) => Ok(Checked { n, parting, count }),
        None => Err(FaultAt {
            fault: Fault::Parting,
            line: count + 1,
        }),
    }
}

// Reads a whole text.
pub fn check(text: &[u8]) -> Result<Checked, FaultAt>
    ensures { TextRead text.now result }
{
    let header = FaultAt {
        fault: Fault::Header,
        line: 1,
    };
    if text.is_empty() {
        return Err(header);
    }
    let e = split::end(text, 0, b'\n');
    let n = read_header(&text[..e]).ok_or(header)?;
    check_lines(text, e + 1, n)
}
