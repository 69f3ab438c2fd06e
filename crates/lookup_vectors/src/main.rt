// Looks rows up and fetches payloads in small files that sqlite3 made, whole and damaged (data/README.md). Arguments come in fours: file, what
// to do, and two numbers: l root row, p page cell, s page cell with a buffer of 64 bytes. Of the buffer, which holds 165 at each place before,
// two sums are printed that depend on every byte and its place.
#![tactic(auto)]

ghost use Rattle.std.specs.Prelude.{◌≡◌, ◌%◌, ◌<◌, ◌≤◌, pos, ◌+ℤ◌};

use std::io;
use std::rt::{Env, Files};
use vectors::{say, say_refused, text};

fn negative(n: u64) -> i64
    requires { n < 1000000000000000000 }
    ensures { result +ℤ pos n ≡ pos 0 }
{
    -(n as i64)
}

fn small(n: u64) -> u32
    ensures { result ≡ n % 4294967296 }
{
    (n % 4294967296) as u32
}

fn look_up(rt: &impl Print, image: &[u8], root: u32, row: i64) -> io::Result<()> {
    match lookup::lookup(image, root, row) {
        Ok(None) => text(rt, b" nothing"),
        Ok(Some(at)) => {
            say(rt, b" page ", u64::from(at.page))?;
            say(rt, b" cell ", u64::from(at.cell))?;
            say(rt, b" length ", u64::from(at.length))
        }
        Err(e) => say_refused(rt, e.rule.number(), e.page),
    }
}

fn fetch(rt: &impl Print, image: &[u8], page: u32, cell: u32, out: &mut [u8]) -> io::Result<()> {
    match lookup::payload(image, page, cell, out) {
        Ok(n) => say(rt, b" length ", u64::from(n))?,
        Err(e) => say_refused(rt, e.rule.number(), e.page)?,
    }
    vectors::say_sums(rt, b" sums ", vectors::adler(out))
}

// The row number that argument i says.
fn row_of(rt: &impl Env, i: usize) -> i64 {
    if vectors::arg_byte(rt, i) == b'-' {
        negative(vectors::arg_number(rt, i, 1))
    } else {
        vectors::arg_number(rt, i, 0) as i64
    }
}

// What argument i says to do, with arguments i + 1 and i + 2.
fn act(rt: &(impl Env + Print), image: &[u8], i: usize) -> io::Result<()>
    requires { i ≤ 4097 }
{
    let what = vectors::arg_byte(rt, i);
    let first = small(vectors::arg_number(rt, i + 1, 0));
    if what == b'l' {
        return look_up(rt, image, first, row_of(rt, i + 2));
    }
    let second = small(vectors::arg_number(rt, i + 2, 0));
    if what == b's' {
        return fetch(rt, image, first, second, &mut [165; 64]);
    }
    fetch(rt, image, first, second, &mut [165; 65536])
}

// Arguments i to i + 3.
fn one(rt: &(impl Env + Files + Print + Eprint + Alloc), i: usize) -> io::Result<()>
    requires { i ≤ 4096 }
{
    let mut image = [0; 65536];
    vectors::say_arg(rt, i, b" ")?;
    vectors::say_arg(rt, i + 1, b" ")?;
    vectors::say_arg(rt, i + 2, b" ")?;
    vectors::say_arg(rt, i + 3, b"")?;
    let length = vectors::read_file(rt, i, &mut image);
    act(rt, &image[..length], i + 1)?;
    text(rt, b"\n")
}

fn main(rt: HostRuntime) -> io::Result<()> {
    let n = vectors::args(&rt);
    for i in (1..n).step_by(4) {
        one(&rt, i)?;
    }
    Ok(())
}
