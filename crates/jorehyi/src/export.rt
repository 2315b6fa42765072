// The calls for programs in other languages: numbers and slices, and the result as words in a lent slice.
ghost use Rattle.jorehyi.specs.Export.{memory, SessionExported, VerdictExported};

use crate::words;
use crate::words::{SESSION_SIZE, VERDICT_SIZE};
use text::{judge, session};

// A session. False where the result has no room for its words: then nothing is done.
#[unsafe(no_mangle)]
pub extern "C" fn jorehyi_session(
    text: &[u8],
    store: &mut [u8],
    cache: &mut [u64],
    out: &mut [u8],
    res: &mut [u64],
) -> bool
    ensures { SessionExported text.now
        (memory store.old cache.old out.old res.old)
        (memory store.new cache.new out.new res.new) result }
{
    if res.len() < SESSION_SIZE {
        return false;
    }
    let s = session::session(text, store, cache, out);
    words::put_session(res, s);
    true
}

// A verdict. False where the result has no room for its words: then nothing is done.
#[unsafe(no_mangle)]
pub extern "C" fn jorehyi_verdict(
    text: &[u8],
    store: &mut [u8],
    cache: &mut [u64],
    out: &mut [u8],
    res: &mut [u64],
) -> bool
    ensures { VerdictExported text.now
        (memory store.old cache.old out.old res.old)
        (memory store.new cache.new out.new res.new) result }
{
    if res.len() < VERDICT_SIZE {
        return false;
    }
    let v = judge::verdict(text, store, cache, out);
    words::put_verdict(res, v);
    true
}
