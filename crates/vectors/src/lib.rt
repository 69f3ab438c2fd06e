// What the programs that run vectors share: arguments, files, sums, lines.
#![tactic(auto)]

ghost use Rattle.std.specs.Prelude.{◌≡◌, ◌<◌, ◌≤◌, IfOk, length, min};
ghost use Rattle.vectors.specs.Adler.{adler};
ghost use Rattle.vectors.specs.Counts.{IsPrefixLen};

use std::env::FillError;
use std::io::Read;
use std::rt::{Env, Files};
use std::{fs, io, str};

pub fn text(rt: &impl Print, t: &[u8]) -> io::Result<()> {
    rt.write_all(t)
}

pub fn say(rt: &impl Print, t: &[u8], n: u64) -> io::Result<()> {
    text(rt, t)?;
    print!(rt; "{n}")
}

pub fn say_signed(rt: &impl Print, v: i64) -> io::Result<()> {
    print!(rt; "{v}")
}

// Each byte in hexadecimal, with `after` behind it.
pub fn say_bytes(rt: &impl Print, b: &[u8], after: &[u8]) -> io::Result<()> {
    for byte in b {
        print!(rt; "{byte:02x}")?;
        text(rt, after)?;
    }
    Ok(())
}

// Both halves of an Adler-32, the low one first.
pub fn say_sums(rt: &impl Print, t: &[u8], sum: u64) -> io::Result<()> {
    say(rt, t, sum % 65536)?;
    say(rt, b" ", sum / 65536)
}

pub fn say_refused(rt: &impl Print, number: u32, page: u32) -> io::Result<()> {
    say(rt, b" refused ", u64::from(number))?;
    say(rt, b" page ", u64::from(page))
}

#[tactic(auto, using(crate::proofs::AdlerLaws::sums))]
pub fn adler(b: &[u8]) -> u64
    ensures { result ≡ adler b.now }
{
    let mut low: u64 = 1;
    let mut high: u64 = 0;
    for byte in b {
        low = (low + u64::from(*byte)) % 65521;
        high = (high + low) % 65521;
    }
    high * 65536 + low
}

// The same of entries of 32 bits.
#[tactic(auto, using(crate::proofs::AdlerLaws::sums))]
pub fn adler_words(b: &[u32]) -> u64
    ensures { result ≡ adler b.now }
{
    let mut low: u64 = 1;
    let mut high: u64 = 0;
    for word in b {
        low = (low + wide(*word)) % 65521;
        high = (high + low) % 65521;
    }
    high * 65536 + low
}

fn wide(x: u32) -> u64
    ensures { (result ≡ x) × (result < 4294967296) }
{
    u64::from(x)
}

// The digit that a byte says, 10 for any other byte.
fn digit(c: u8) -> u64
    ensures { result ≤ 10 }
{
    if c.is_ascii_digit() {
        u64::from(c - b'0')
    } else {
        10
    }
}

// The decimal number from `from` on, of up to 18 digits.
fn decimal(s: &[u8], from: usize) -> u64
    ensures { result < 1000000000000000000 }
{
    let mut value = 0;
    for c in s.iter().skip(from) {
        let d = digit(*c);
        if d == 10 {
            break;
        }
        value = value % 100000000000000000 * 10 + d;
    }
    value
}

// One more than the number of the last argument; at most 4000 are looked at.
pub fn args(rt: &impl Env) -> usize
    ensures { result ≤ 4000 }
{
    for i in 0..4000 {
        if let Err(FillError::NotPresent) = rt.arg(i, &mut []) {
            return i;
        }
    }
    4000
}

// Puts argument i at the start of `buf` and answers its length, or 0 where there is none and where it is longer than `buf`.
fn arg(rt: &impl Env, i: usize, buf: &mut [u8]) -> usize
    ensures { IsPrefixLen result buf.new }
{
    rt.arg(i, buf).unwrap_or(0)
}

// Writes argument i with `after` behind it, and answers its length.
pub fn say_arg(rt: &(impl Env + Print), i: usize, after: &[u8]) -> io::Result<usize> {
    let mut word = [0; 4096];
    let n = arg(rt, i, &mut word);
    text(rt, &word[..n])?;
    text(rt, after)?;
    Ok(n)
}

// The first byte of argument i.
pub fn arg_byte(rt: &impl Env, i: usize) -> u8 {
    let mut word = [0; 8];
    arg(rt, i, &mut word);
    word[0]
}

// The number that argument i says from the byte `from` on.
pub fn arg_number(rt: &impl Env, i: usize, from: usize) -> u64
    ensures { result < 1000000000000000000 }
{
    let mut word = [0; 24];
    let n = arg(rt, i, &mut word);
    decimal(&word[..n], from)
}

// The bytes of the file that argument i names, and none for a name of one byte, as `-`.
pub fn read_file<R: Env + Files + Eprint + Alloc>(rt: &R, i: usize, into: &mut [u8]) -> usize
    ensures { IsPrefixLen result into.new }
{
    let mut path = [0; 4096];
    let n = arg(rt, i, &mut path);
    if n == 1 {
        return 0;
    }
    let Ok(path) = str::from_utf8(&path[..n]) else {
        // std opens no other.
        let _ = eprintln!(rt; "argument {i}: the name is not UTF-8");
        return 0;
    };
    match fs::open(rt, path) {
        Ok(mut file) => read_full(&mut file, into),
        Err(error) => {
            let _ = fail(rt, path, error);
            0
        }
    }
}

// Reads until `into` is full, the input ends or a read fails, and answers how many bytes there are.
fn read_full(input: &mut impl Read, into: &mut [u8]) -> usize
    ensures { IsPrefixLen result into.new }
{
    let mut done = 0;
    while done < into.len() {
        match input.read(&mut into[done..]) {
            Ok(0) | Err(_) => break,
            Ok(n) => done += n,
        }
    }
    done
}

// Says on standard error why a file does not open, in the system's words without their number.
fn fail<R: Eprint + Alloc>(rt: &R, path: &str, error: io::Error) -> io::Result<()> {
    let words = error.to_string(rt.alloc())?;
    let reason = words.split(" (os error ").next().unwrap_or("");
    eprintln!(rt; "{path}: {reason}")
}

// As many of them as argument j says.
pub fn read_cut<R: Env + Files + Eprint + Alloc>(
    rt: &R,
    i: usize,
    j: usize,
    into: &mut [u8],
) -> usize
    ensures { IsPrefixLen result into.new }
{
    let n = read_file(rt, i, into);
    let most = arg_number(rt, j, 0);
    if (n as u64) < most {
        return n;
    }
    within(most as usize, into)
}

// n, or the number of bytes where that is less; in a form that lends `&b[..r]`.
pub fn within(n: usize, b: &[u8]) -> usize
    ensures lends { IsPrefixLen result b.now }
    ensures least { result ≡ min n (length b.now) }
{
    n.min(b.len())
}
