// Calls: the words and numbers of a line, checked field by field from the left.
#![tactic(auto, unfolding(crate::specs::Args::by_count, crate::specs::Call::call_of))]

ghost use Rattle.std.specs.Prelude.{◌≡◌, ◌≤◌, Ok, Some};
ghost use Rattle.text.specs.Call.{check_range, check_register, check_lowered, call_of, known_call, refusal_number};
ghost use Rattle.text.specs.Call.{printed_call};
ghost use Rattle.text.specs.Limits.{last_weight};

use crate::args::Args;
use crate::limits::{
    Assignment, LAST_INDEX, LAST_MASK, LAST_REGISTER, LAST_WEIGHT, MOST_QUBITS, Mask, Weight,
};
use crate::words::Word;
use diagram::gate::{Gate, QubitCount};
use diagram::node::Index;
use diagram::registers::RegisterNumber;
use std::fmt;

// Why a line is refused, with document 01's number.
#[derive(Clone, Copy)]
pub enum Refusal {
    Malformed = 1,
    Register = 2,
    Empty = 3,
    Range = 4,
    Name = 5,
    Equal = 6,
    Depends = 7,
    Full = 8,
}

impl Refusal {
    // (`as`: an enum's number has no From. `Fault` has this too, check.rt: a trait for two lines would be no plainer.)
    pub fn number(self) -> usize
        ensures { (result ≡ refusal_number self) × (result ≤ last_weight) }
    {
        self as usize
    }
}

// A call with its registers, weights, masks, indices and assignments, in the documents' order. (`InRange` stands in
// clauses: its numbers are plain ones, as node.rt of diagram has it for an index.)
#[derive(Clone, Copy)]
pub enum Call {
    Put(RegisterNumber, Weight),
    Gate(RegisterNumber, Gate),
    Unit(RegisterNumber, QubitCount),
    Add(RegisterNumber, RegisterNumber, RegisterNumber),
    Cont(RegisterNumber, RegisterNumber, RegisterNumber, Mask),
    Low(RegisterNumber, RegisterNumber, Index),
    Drop(RegisterNumber),
    Collect,
    At(RegisterNumber, Assignment),
    Cmp(RegisterNumber, RegisterNumber),
    On(RegisterNumber),
    Lows(RegisterNumber, RegisterNumber, Mask),
}

impl fmt::Display for Call {
    ghost output = { λ x. Some (printed_call x) };

    fn fmt<W: fmt::Write>(&self, f: &mut fmt::Formatter<W>) -> fmt::Result {
        match self {
            Call::Put(d, w) => write!(f, "put {d} {w}"),
            Call::Gate(d, g) => write!(f, "gate {d} {g}"),
            Call::Unit(d, n) => write!(f, "unit {d} {n}"),
            Call::Add(d, a, b) => write!(f, "add {d} {a} {b}"),
            Call::Cont(d, a, b, m) => write!(f, "cont {d} {a} {b} {m}"),
            Call::Low(d, a, k) => write!(f, "low {d} {a} {k}"),
            Call::Drop(a) => write!(f, "drop {a}"),
            Call::Collect => write!(f, "collect"),
            Call::At(a, v) => write!(f, "at {a} {v}"),
            Call::Cmp(a, b) => write!(f, "cmp {a} {b}"),
            Call::On(a) => write!(f, "on {a}"),
            Call::Lows(d, a, m) => write!(f, "lows {d} {a} {m}"),
        }
    }
}

// Is x between least and most?
pub(crate) fn check_range(x: usize, least: usize, most: usize) -> Result<(), Refusal>
    ensures { result ≡ check_range x least most (Ok tt) }
{
    if x < least || most < x {
        return Err(Refusal::Range);
    }
    Ok(())
}

// Is there a register d?
pub(crate) fn check_register(d: RegisterNumber) -> Result<(), Refusal>
    ensures { result ≡ check_register d (Ok tt) }
{
    if LAST_REGISTER < d {
        return Err(Refusal::Register);
    }
    Ok(())
}

// Can the set m go down? It has no index 0, nor one above the last.
fn check_lowered(m: Mask) -> Result<(), Refusal>
    ensures { result ≡ check_lowered m (Ok tt) }
{
    let odd = m % 2 == 1;
    if odd {
        return Err(Refusal::Range);
    }
    check_range(m, 0, LAST_MASK)
}

// Each word has its function, with a line for each field's check. `drop` and `on` differ in the call alone, `put`,
// `unit` and `at` in a bound too, but a generic one would take a closure for two lines.
fn put(d: RegisterNumber, w: Weight) -> Result<Call, Refusal>
    ensures { result ≡ call_of Word.Put (Args.Two d w) }
{
    check_register(d)?;
    check_range(w, 0, LAST_WEIGHT)?;
    Ok(Call::Put(d, w))
}

fn unit(d: RegisterNumber, n: QubitCount) -> Result<Call, Refusal>
    ensures { result ≡ call_of Word.Unit (Args.Two d n) }
{
    check_register(d)?;
    check_range(n, 1, MOST_QUBITS)?;
    Ok(Call::Unit(d, n))
}

fn add(d: RegisterNumber, a: RegisterNumber, b: RegisterNumber) -> Result<Call, Refusal>
    ensures { result ≡ call_of Word.Add (Args.Three d a b) }
{
    check_register(d)?;
    check_register(a)?;
    check_register(b)?;
    Ok(Call::Add(d, a, b))
}

fn cont(d: RegisterNumber, a: RegisterNumber, b: RegisterNumber, m: Mask) -> Result<Call, Refusal>
    ensures { result ≡ call_of Word.Cont (Args.Four d a b m) }
{
    check_register(d)?;
    check_register(a)?;
    check_register(b)?;
    check_range(m, 0, LAST_MASK)?;
    Ok(Call::Cont(d, a, b, m))
}

fn low(d: RegisterNumber, a: RegisterNumber, k: Index) -> Result<Call, Refusal>
    ensures { result ≡ call_of Word.Low (Args.Three d a k) }
{
    check_register(d)?;
    check_register(a)?;
    check_range(k, 1, LAST_INDEX)?;
    Ok(Call::Low(d, a, k))
}

fn drop(a: RegisterNumber) -> Result<Call, Refusal>
    ensures { result ≡ call_of Word.Drop (Args.One a) }
{
    check_register(a)?;
    Ok(Call::Drop(a))
}

fn at(a: RegisterNumber, v: Assignment) -> Result<Call, Refusal>
    ensures { result ≡ call_of Word.At (Args.Two a v) }
{
    check_register(a)?;
    check_range(v, 0, LAST_MASK)?;
    Ok(Call::At(a, v))
}

fn cmp(a: RegisterNumber, b: RegisterNumber) -> Result<Call, Refusal>
    ensures { result ≡ call_of Word.Cmp (Args.Two a b) }
{
    check_register(a)?;
    check_register(b)?;
    Ok(Call::Cmp(a, b))
}

fn on(a: RegisterNumber) -> Result<Call, Refusal>
    ensures { result ≡ call_of Word.On (Args.One a) }
{
    check_register(a)?;
    Ok(Call::On(a))
}

fn lows(d: RegisterNumber, a: RegisterNumber, m: Mask) -> Result<Call, Refusal>
    ensures { result ≡ call_of Word.Lows (Args.Three d a m) }
{
    check_register(d)?;
    check_register(a)?;
    check_lowered(m)?;
    Ok(Call::Lows(d, a, m))
}

// The call of a word, other than `gate`, with these numbers.
fn with_numbers(word: Word, args: Args) -> Result<Call, Refusal>
    ensures { result ≡ call_of word args }
{
    match (word, args) {
        (Word::Put, Args::Two(d, w)) => put(d, w),
        (Word::Unit, Args::Two(d, n)) => unit(d, n),
        (Word::Add, Args::Three(d, a, b)) => add(d, a, b),
        (Word::Cont, Args::Four(d, a, b, m)) => cont(d, a, b, m),
        (Word::Low, Args::Three(d, a, k)) => low(d, a, k),
        (Word::Drop, Args::One(a)) => drop(a),
        (Word::Collect, Args::Zero) => Ok(Call::Collect),
        (Word::At, Args::Two(a, v)) => at(a, v),
        (Word::Cmp, Args::Two(a, b)) => cmp(a, b),
        (Word::On, Args::One(a)) => on(a),
        (Word::Lows, Args::Three(d, a, m)) => lows(d, a, m),
        _ => Err(Refusal::Malformed),
    }
}

// The same, or 1 where there is no such word, or a number is malformed.
pub fn make(word: Option<Word>, args: Option<Args>) -> Result<Call, Refusal>
    ensures { result ≡ known_call word args }
{
    let word = word.ok_or(Refusal::Malformed)?;
    let args = args.ok_or(Refusal::Malformed)?;
    with_numbers(word, args)
}
