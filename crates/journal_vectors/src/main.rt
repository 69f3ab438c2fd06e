// Rolls small files back by journals that sqlite3 made, whole, cut and damaged (data/README.md). Arguments come in fours: journal, how many bytes of it
// are left, image, and the file expected (`-`: none is at hand). Each gives a line: the refusal, or the pages, length and Adler-32 of what was
// recovered, and whether it is the file expected. `kept`: the output is as it was past the recovered length, and all of it after a refusal; so it is
// with one byte of room too few, which is 44.
#![tactic(auto)]

ghost use Rattle.std.specs.Prelude.{◌≡◌, ◌≤◌, ◌↔◌, All, IsTrue};

use std::io;
use std::rt::{Env, Files};
use vectors::{say, text};

// What the output holds before.
const GUARD: u8 = 0xaa;

fn is_kept(b: &[u8]) -> bool
    ensures { IsTrue result ↔ All (λ byte. byte ≡ GUARD) b.now }
{
    b.iter().all(|byte| *byte == GUARD)
}

fn say_kept(rt: &impl Print, b: &[u8]) -> io::Result<()> {
    if is_kept(b) {
        text(rt, b" kept")
    } else {
        text(rt, b" CHANGED")
    }
}

fn compare(rt: &impl Print, found: &[u8], expected: &[u8]) -> io::Result<()> {
    if found == expected {
        text(rt, b" same")
    } else {
        text(rt, b" DIFFERS")
    }
}

// The answer, and what became of the output: answers the recovered length.
fn report(
    rt: &impl Print,
    journal: &[u8],
    image: &[u8],
    expected: Option<&[u8]>,
    out: &mut [u8],
) -> io::Result<usize> {
    match journal::recover(journal, image, out) {
        Err(rule) => {
            say(rt, b" refused ", u64::from(rule.number()))?;
            say_kept(rt, out)?;
            Ok(0)
        }
        Ok(done) => {
            let length = vectors::within(done.length, out);
            say(rt, b" pages ", u64::from(done.pages))?;
            say(rt, b" length ", length as u64)?;
            say(rt, b" adler ", vectors::adler(&out[..length]))?;
            say_kept(rt, &out[length..])?;
            if let Some(expected) = expected {
                compare(rt, &out[..length], expected)?;
            }
            Ok(length)
        }
    }
}

// The same with one byte of room too few.
fn report_short(
    rt: &impl Print,
    journal: &[u8],
    image: &[u8],
    length: usize,
    out: &mut [u8],
) -> io::Result<()> {
    if length == 0 {
        return Ok(());
    }
    let room = vectors::within(length - 1, out);
    let refusal = match journal::recover(journal, image, &mut out[..room]) {
        Err(rule) => rule.number(),
        Ok(_) => 0,
    };
    say(rt, b" short ", u64::from(refusal))?;
    say_kept(rt, out)
}

fn run(rt: &impl Print, journal: &[u8], image: &[u8], expected: Option<&[u8]>) -> io::Result<()> {
    let mut out = [GUARD; 65536];
    let length = report(rt, journal, image, expected, &mut out)?;
    let mut again = [GUARD; 65536];
    report_short(rt, journal, image, length, &mut again)?;
    text(rt, b"\n")
}

// Arguments i to i + 3.
fn one(rt: &(impl Env + Files + Print + Eprint + Alloc), i: usize) -> io::Result<()>
    requires { i ≤ 4096 }
{
    let mut journal = [0; 65536];
    let mut image = [0; 65536];
    let mut expected = [0; 65536];
    vectors::say_arg(rt, i, b" cut ")?;
    vectors::say_arg(rt, i + 1, b" ")?;
    vectors::say_arg(rt, i + 2, b" ")?;
    let compared = vectors::say_arg(rt, i + 3, b"")? != 1;
    let a = vectors::read_cut(rt, i, i + 1, &mut journal);
    let b = vectors::read_file(rt, i + 2, &mut image);
    let c = vectors::read_file(rt, i + 3, &mut expected);
    let expected = compared.then_some(&expected[..c]);
    run(rt, &journal[..a], &image[..b], expected)
}

fn main(rt: HostRuntime) -> io::Result<()> {
    for i in (1..vectors::args(&rt)).step_by(4) {
        one(&rt, i)?;
    }
    Ok(())
}
