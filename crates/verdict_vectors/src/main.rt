// Judges small images that sqlite3 made, whole and damaged (data/README.md); each argument is one. The kinds are 165, the namers 77 and the steps 99 at all 160
// entries before; two sums of each are printed that depend on every entry and its place. The first image is judged with ledgers of one entry too (12), the last
// six with root 3 named (33 to 35).
#![tactic(auto)]

use refusal::Refusal;
use std::io;
use std::rt::{Env, Files};
use verdict::Accepted;

// Numbers spelled long, where there are any.
fn say_long(rt: &impl Print, long: u64) -> io::Result<()> {
    if long != 0 {
        vectors::say(rt, b" long ", long)?;
    }
    Ok(())
}

fn say_answer(rt: &impl Print, answer: Result<Accepted, Refusal>) -> io::Result<()> {
    match answer {
        Err(refusal) => vectors::say_refused(rt, refusal.rule.number(), refusal.page),
        Ok(accepted) => {
            vectors::say(rt, b" accepted pages ", u64::from(accepted.pages))?;
            say_long(rt, accepted.long)
        }
    }
}

// An answer, then the sums of the three ledgers.
fn judge(
    rt: &impl Print,
    image: &[u8],
    ordered: &[u32],
    kinds: &mut [u8],
    namers: &mut [u32],
    steps: &mut [u32],
) -> io::Result<()> {
    say_answer(rt, verdict::verdict(image, ordered, kinds, namers, steps))?;
    vectors::say_sums(rt, b" kinds ", vectors::adler(kinds))?;
    vectors::say_sums(rt, b" namers ", vectors::adler_words(namers))?;
    vectors::say_sums(rt, b" steps ", vectors::adler_words(steps))?;
    vectors::text(rt, b"\n")
}

fn judge_in_full(rt: &impl Print, image: &[u8], ordered: &[u32]) -> io::Result<()> {
    judge(
        rt,
        image,
        ordered,
        &mut [165; 160],
        &mut [77; 160],
        &mut [99; 160],
    )
}

// With one entry for kinds, then with one for namers, then with one for steps.
fn judge_in_little(rt: &impl Print, image: &[u8]) -> io::Result<()> {
    let mut kinds = [165; 160];
    let mut namers = [77; 160];
    let mut steps = [99; 160];
    vectors::text(rt, b"one kind:")?;
    judge(rt, image, &[], &mut [165], &mut namers, &mut steps)?;
    vectors::text(rt, b"one namer:")?;
    judge(rt, image, &[], &mut kinds, &mut [77], &mut steps)?;
    vectors::text(rt, b"one step:")?;
    judge(rt, image, &[], &mut kinds, &mut namers, &mut [99])
}

// Argument i.
fn one(
    rt: &(impl Env + Files + Print + Eprint + Alloc),
    i: usize,
    ordered: bool,
) -> io::Result<()> {
    let mut image = [0; 65536];
    vectors::say_arg(rt, i, b"")?;
    let length = vectors::read_file(rt, i, &mut image);
    judge_in_full(rt, &image[..length], &[])?;
    if i == 1 {
        judge_in_little(rt, &image[..length])?;
    }
    if ordered {
        vectors::text(rt, b"3 named:")?;
        judge_in_full(rt, &image[..length], &[3])?;
    }
    Ok(())
}

fn main(rt: HostRuntime) -> io::Result<()> {
    let n = vectors::args(&rt);
    for i in 1..n {
        one(&rt, i, n <= i + 6)?;
    }
    Ok(())
}
