ghost use Rattle.std.specs.Prelude.{◌≡◌, ℕ, List, length};
ghost use Rattle.appending.specs.Tail.{IsTail};
ghost use Rattle.appending.specs.Promises.{Opens, Appends};
ghost use Rattle.appending.specs.Answers.{scan_of, scan_tail, begin_of, begin_out, begin_tail, append_of, append_out, append_tail};
ghost use Rattle.appending.specs.Told.{appended_told};
ghost use Rattle.urkibasko.specs.Appends.{tail_c, appended_c, of_appended_c};

use crate::answers::{UrkAppended, UrkTail};
use appending::Appended;
use refusal::Rule;

fn appended(answer: Result<Appended, Rule>) -> UrkAppended
    ensures { result ≡ appended_c (appended_told answer) }
{
    match answer {
        Ok(done) => UrkAppended {
            refusal: 0,
            at: done.at as u64,
            length: done.length as u64,
        },
        Err(rule) => UrkAppended {
            refusal: rule.number(),
            at: 0,
            length: 0,
        },
    }
}

// Reads the tail of a log, in one scan.
#[unsafe(no_mangle)]
pub extern "C" fn urk_log_tail(log: &[u8], tail: &mut [u32]) -> UrkTail
    ensures answer { result ≡ tail_c (scan_of log.now (length tail.old)) }
    ensures words { tail.new ≡ scan_tail log.now tail.old }
    ensures told { result.refusal ≡ 0 → IsTail tail.new log.now }
{
    match appending::log_tail(log, tail) {
        Ok(told) => UrkTail {
            refusal: 0,
            page_size: told.page_size,
            frames: told.frames,
            pages: told.pages,
        },
        Err(rule) => UrkTail {
            refusal: rule.number(),
            page_size: 0,
            frames: 0,
            pages: 0,
        },
    }
}

// The header of a fresh log, and its tail.
#[unsafe(no_mangle)]
pub extern "C" fn urk_log_begin(
    page_size: u32,
    sequence: u32,
    salt1: u32,
    salt2: u32,
    tail: &mut [u32],
    out: &mut [u8],
) -> UrkAppended
    ensures answer { result ≡ appended_c (begin_of page_size (length tail.old) (length out.old)) }
    ensures words { tail.new ≡ begin_tail page_size sequence salt1 salt2 (length out.old) tail.old }
    ensures output { out.new ≡ begin_out page_size sequence salt1 salt2 (length tail.old) out.old }
    ensures opens { result.refusal ≡ 0 → Opens salt1 salt2 tail.new out.new }
{
    appended(appending::log_begin(page_size, sequence, salt1, salt2, tail, out))
}

// The frames of a commit of n pages, to stand behind the last commit in force of the log that the tail is of, and the tail behind them.
#[unsafe(no_mangle)]
pub extern "C" fn urk_log_append(
    tail: &mut [u32],
    numbers: &[u32],
    pages: &[u8],
    n: u32,
    out: &mut [u8],
) -> UrkAppended
    ensures answer { result ≡ appended_c (append_of tail.old n numbers.now (length pages.now) (length out.old)) }
    ensures words { tail.new ≡ append_tail tail.old n numbers.now pages.now (length out.old) }
    ensures output { out.new ≡ append_out tail.old n numbers.now pages.now out.old }
    ensures appends { (log : List ℕ) → IsTail tail.old log → result.refusal ≡ 0
        → Appends log n numbers.now pages.now (of_appended_c result) tail.new out.new }
{
    appended(appending::log_append(tail, numbers, pages, n, out))
}
