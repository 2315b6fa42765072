// The verdict on a text (document 01, "Verdicts"): every line is read, both lists are run, and their registers are
// compared.
ghost use Rattle.std.specs.Prelude.{◌≡◌, Err};
ghost use Rattle.text.specs.Check.{GoodText, CheckedInRange};
ghost use Rattle.text.specs.Ruling.{no_at};
ghost use Rattle.text.specs.List.{IsLists, ListAhead};
ghost use Rattle.text.specs.VerdictSession.{comparison_of};
ghost use Rattle.text.specs.Judge.{JudgesSecond, JudgeEnsures, VerdictEnsures};

use crate::answer::Answer;
use crate::call::Refusal;
use crate::check::{Checked, Fault, FaultAt};
use crate::engine::Engine;
use crate::limits::{LineNumber, VERDICT_ROOM};
use crate::list::Lists;
use crate::ruling::VerdictResult;
use crate::{check, ruling};
use diagram::compare::Comparison;
use diagram::diagram::Diagram;
use diagram::registers::Registers;

// (Where there is none, `Differ`: both registers are filled, and no answer but a comparison comes.)
fn comparison_of(answer: Result<Answer, Refusal>) -> Comparison
    ensures { result ≡ comparison_of answer }
{
    match answer {
        Ok(Answer::Compared(comparison)) => comparison,
        _ => Comparison::Differ,
    }
}

// "8 full, at the line being run"
fn full_at(line: LineNumber) -> FaultAt
    ensures { Err result ≡ no_at Fault.Full line }
{
    FaultAt {
        fault: Fault::Full,
        line,
    }
}

// The second list, from the line `=` on, and "then `cmp 0 1`".
fn second(lists: &mut Lists, count: usize) -> Result<Comparison, FaultAt>
    requires { IsLists lists.old × ListAhead lists.old 1 count }
    ensures { JudgesSecond lists.old count result }
{
    lists.run(1, count).map_err(|_| full_at(lists.line))?;
    Ok(comparison_of(lists.engine.cmp(0, 1)))
}

// Both lists of a good text.
fn run(
    text: &[u8],
    store: &mut [u8],
    cache: &mut [u64],
    good: Checked,
) -> Result<Comparison, FaultAt>
    requires { GoodText text.now good.n good.parting good.count × CheckedInRange good }
    ensures { JudgeEnsures text.now store.old result }
{
    let mut diagram = Diagram::over(store, cache);
    let mut engine = Engine {
        diagram: &mut diagram,
        registers: Registers::empty(),
    };
    engine.start();
    let mut lists = Lists {
        text,
        qubits: good.n,
        line: 0,
        place: 0,
        engine,
    };
    lists
        .run(0, good.parting - 2)
        .map_err(|_| full_at(lists.line))?;
    second(&mut lists, good.count - good.parting)
}

// "All lines are read before any gate runs; the first faulty line decides."
fn judge(text: &[u8], store: &mut [u8], cache: &mut [u64]) -> Result<Comparison, FaultAt>
    ensures { JudgeEnsures text.now store.old result }
{
    let good = check::check(text)?;
    run(text, store, cache, good)
}

// "Fewer than 32 output bytes returns 9 and writes nothing, before any reading; otherwise the code is 0, also with
// `no`."
pub fn verdict(text: &[u8], store: &mut [u8], cache: &mut [u64], out: &mut [u8]) -> VerdictResult
    ensures { VerdictEnsures text.now store.old out.old out.new result }
{
    if out.len() < VERDICT_ROOM {
        return VerdictResult { code: 9, bytes: 0 };
    }
    let ruling = judge(text, store, cache);
    let bytes = ruling::write(out, ruling);
    VerdictResult { code: 0, bytes }
}
