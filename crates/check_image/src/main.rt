// Judges the image on standard input and writes one line: `accepted pages N` or `refused K page P`.
#![tactic(auto)]

ghost use Rattle.std.specs.Prelude.{◌≡◌, ◌≤◌, ◌<◌, [], length};
ghost use Rattle.verdict.specs.Answer.{Refused, told};
ghost use Rattle.verdict.specs.Verdict.{verdict_is};

use refusal::{Refusal, Rule};
use std::io;
use std::io::Read;
use verdict::Accepted;

fn say(rt: &impl Print, text: &[u8], n: u32) -> io::Result<()> {
    rt.write_all(text)?;
    print!(rt; "{n}")
}

fn refused(rt: &impl Print, refusal: Refusal) -> io::Result<()> {
    say(rt, b"refused ", refusal.rule.number())?;
    say(rt, b" page ", refusal.page)?;
    rt.write_all(b"\n")
}

// Reads until the buffer is full, the input ends or a read fails, and answers how many bytes there are.
fn read_full(input: &mut impl Read, bytes: &mut [u8]) -> usize
    ensures { result ≤ length bytes.new }
{
    let mut n = 0;
    while n < bytes.len() {
        match input.read(&mut bytes[n..]) {
            Ok(0) | Err(_) => break,
            Ok(more) => n += more,
        }
    }
    n
}

// More than 65,536 bytes are refused first.
fn judge(image: &[u8]) -> Result<Accepted, Refusal>
    ensures long { 65536 < length image.now → told result ≡ Refused 13 0 }
    ensures fits { length image.now ≤ 65536 → told result ≡ verdict_is image.now [] 4096 4096 4096 }
{
    if image.len() > 65536 {
        return Err(Rule::LongInput.into());
    }
    let mut kinds = [0; 4096];
    let mut namers = [0; 4096];
    let mut steps = [0; 4096];
    verdict::plain(image, &mut kinds, &mut namers, &mut steps)
}

fn main(rt: HostRuntime) -> io::Result<()> {
    // One byte more than an image may have.
    let mut bytes = [0; 65537];
    let n = read_full(&mut rt.reader(), &mut bytes);
    match judge(&bytes[..n]) {
        Err(refusal) => refused(&rt, refusal),
        Ok(accepted) => {
            say(&rt, b"accepted pages ", accepted.pages)?;
            rt.write_all(b"\n")
        }
    }
}
