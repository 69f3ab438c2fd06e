// Recovers small files with logs that sqlite3 made, whole, cut and damaged (data/README.md). Arguments come in threes: log, image, and how many bytes
// of the log are left. Each gives a line: the refusal, or the pages, Adler-32 of the file, and for each page whether it is shown from the log (L) or
// the image (I); then pages 0 and n + 1, which are refused.
#![tactic(auto)]

ghost use Rattle.std.specs.Prelude.{◌≤◌};

use std::io;
use std::rt::{Env, Files};
use vectors::{say, text};
use wal::Source;

// Where page p is shown from; its view is compared with the file from `at` on, and its length answered.
fn say_page(
    rt: &impl Print,
    log: &[u8],
    image: &[u8],
    p: u32,
    whole: &[u8],
    at: usize,
) -> io::Result<usize> {
    match wal::locate(log, image, p) {
        Err(rule) => {
            say(rt, b" ", u64::from(rule.number()))?;
            return Ok(0);
        },
        Ok(part) => match part.source {
            Source::Log => text(rt, b"L")?,
            Source::Image => text(rt, b"I")?,
        },
    }
    let view = wal::page_view(log, image, p);
    let n = view.len();
    if whole.len() < n || whole.len() - n < at {
        return Ok(0);
    }
    if view != &whole[at..at + n] {
        text(rt, b"(differs)")?;
    }
    Ok(n)
}

fn say_pages(rt: &impl Print, log: &[u8], image: &[u8], n: usize, whole: &[u8]) -> io::Result<()> {
    let mut at: usize = 0;
    let mut p: u32 = 1;
    for _ in 0..n {
        if 4096 < p || whole.len() < at {
            return Ok(());
        }
        let step = say_page(rt, log, image, p, whole, at)?;
        if whole.len() - at < step {
            return Ok(());
        }
        at += step;
        p += 1;
    }
    say_page(rt, log, image, 0, whole, 0)?;
    say_page(rt, log, image, p, whole, 0)?;
    Ok(())
}

fn report(rt: &impl Print, log: &[u8], image: &[u8], out: &mut [u8]) -> io::Result<()> {
    match wal::recover(log, image, out) {
        Err(rule) => say(rt, b" refused ", u64::from(rule.number())),
        Ok(done) => {
            let length = vectors::within(done.length, out);
            say(rt, b" pages ", done.pages as u64)?;
            say(rt, b" adler ", vectors::adler(&out[..length]))?;
            text(rt, b" ")?;
            say_pages(rt, log, image, done.pages, &out[..length])
        },
    }
}

// Arguments i, i + 1, i + 2.
fn one(rt: &(impl Env + Files + Print + Eprint + Alloc), i: usize) -> io::Result<()>
    requires { i ≤ 4096 }
{
    let mut log = [0; 65536];
    let mut image = [0; 65536];
    let mut out = [0; 65536];
    vectors::say_arg(rt, i, b" ")?;
    vectors::say_arg(rt, i + 1, b" cut ")?;
    vectors::say_arg(rt, i + 2, b"")?;
    let a = vectors::read_cut(rt, i, i + 2, &mut log);
    let b = vectors::read_file(rt, i + 1, &mut image);
    report(rt, &log[..a], &image[..b], &mut out)?;
    text(rt, b"\n")
}

fn main(rt: HostRuntime) -> io::Result<()> {
    let n = vectors::args(&rt);
    for i in (1..n).step_by(3) {
        one(&rt, i)?;
    }
    Ok(())
}
