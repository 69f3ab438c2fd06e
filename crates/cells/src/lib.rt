// A cell's payload, as the walk takes it: its chain, then its record. A record is read where it lies; only one
// whose header runs over its chain is copied together.
#![tactic(auto)]

ghost use Rattle.std.specs.Prelude.{◌≡◌, ℕ, ◌≤◌, ◌<◌, length};
ghost use Rattle.std.proofs.Math.Option.{Option};
ghost use Rattle.dealing.specs.File.{File};
ghost use Rattle.dealing.specs.Good.{Mark};
ghost use Rattle.dealing.specs.Walk.{payload_events, state, run};
ghost use Rattle.record.specs.Record.{reads_of};
ghost use Rattle.image.specs.Payload.{cell_bytes};
ghost use Rattle.image.specs.Image.{file_cell, file_of};
ghost use Rattle.payload.specs.Copy.{Fetchable};
ghost use Rattle.ledger.specs.Ledger.{Open, outcome_at};
ghost use Rattle.cells.specs.Reading.{rest_fills, taken_of, Steps, Told};
ghost use Rattle.cells.specs.Cells.{CellAt};

use cell::Cell;
use header::Header;
use refusal::{Refusal, Rule};

// The next serial type of a header: where the one after it begins, and its value's end.
#[derive(Clone, Copy)]
struct Next {
    at: usize,
    place: usize,
}

// Whether a record reads, as far as its first bytes tell.
#[derive(Clone, Copy)]
enum Reading {
    Yes,
    No,
    More,
}

// Serial type t, before `next`; its value lies at `place` of a record of `end` bytes. None where it has none: then the record does not read.
fn taken(t: u64, next: usize, place: usize, end: usize) -> Option<Next>
    requires { place ≤ end }
    ensures { result ≡ taken_of t next place end }
{
    if record::refuses(t) {
        return None;
    }
    let size = record::size_of(t);
    if ((end - place) as u64) < size {
        return None;
    }
    Some(Next {
        at: next,
        place: place + size as usize,
    })
}

// The serial type at `at`; most are one byte.
fn one_type(b: &[u8], at: usize, header: usize, place: usize, end: usize) -> Option<Next>
    requires { (at < header) × (header ≤ length b.now) × (place ≤ end) }
    ensures { Steps b.now header end at place result }
{
    let t = u64::from(b[at]);
    if t < 128 {
        return taken(t, at + 1, place, end);
    }
    let word = number::varint_word(b, at, header);
    if word.length == 0 {
        return None;
    }
    taken(word.bits, at + word.length, place, end)
}

// Whether the serial types from `own` to `header` have values that fill the rest of a record of `end` bytes.
fn types_fill(b: &[u8], own: usize, header: usize, end: usize) -> bool
    requires { (header ≤ length b.now) × (header ≤ end) }
    ensures { result ≡ rest_fills b.now header end own header }
{
    let mut at = own;
    let mut place = header;
    while at < header {
        let Some(next) = one_type(b, at, header, place, end) else {
            return false;
        };
        at = next.at;
        place = next.place;
    }
    at == header && place == end
}

// Whether a record of `whole` bytes reads, of which b are the first: its header tells.
fn reads(b: &[u8], whole: usize) -> Reading
    requires { length b.now ≤ whole }
    ensures { Told b.now whole result }
{
    let have = b.len();
    let head = number::varint_word(b, 0, have);
    if head.length == 0 {
        return if have < whole {
            Reading::More
        } else {
            Reading::No
        };
    }
    if (whole as u64) < head.bits {
        return Reading::No;
    }
    if (have as u64) < head.bits {
        return Reading::More;
    }
    if types_fill(b, head.length, head.bits as usize, whole) {
        Reading::Yes
    } else {
        Reading::No
    }
}

// Whether the payload of cell c of page p, whose chain is whole, reads as a record. `work` is scratch.
fn record_reads(image: &[u8], h: Header, p: u32, c: Cell, work: &mut [u8]) -> bool
    requires { Fetchable image.now h p c 65536 }
    ensures { result ≡ reads_of (cell_bytes image.now p c) }
{
    let page = header::page_of(image, h.size, p as usize);
    let end = c.start + c.local;
    match reads(&page[c.start..end], c.payload) {
        Reading::Yes => true,
        Reading::No => false,
        Reading::More => copied_reads(image, h, p, c, work),
    }
}

// The same, of the payload copied together: into `work`, cut to the payload's length, or where that has no room apart. It calls itself, so it is not
// inlined: else every `walk_payload` would have the array of `copied_apart` in its frame (1.2 times as slow).
fn copied_reads(image: &[u8], h: Header, p: u32, c: Cell, work: &mut [u8]) -> bool
    requires { Fetchable image.now h p c 65536 }
    ensures { result ≡ reads_of (cell_bytes image.now p c) }
{
    let whole = c.payload;
    let room = work.len();
    if room < whole {
        return copied_apart(image, h, p, c);
    }
    if whole < room {
        return copied_reads(image, h, p, c, &mut work[..whole]);
    }
    copied_into(image, h, p, c, work)
}

// Copied into room of its own.
fn copied_apart(image: &[u8], h: Header, p: u32, c: Cell) -> bool
    requires { Fetchable image.now h p c 65536 }
    ensures { result ≡ reads_of (cell_bytes image.now p c) }
{
    let mut room = [0u8; 65536];
    copied_into(image, h, p, c, &mut room)
}

// Copied into `work`.
fn copied_into(image: &[u8], h: Header, p: u32, c: Cell, work: &mut [u8]) -> bool
    requires { Fetchable image.now h p c (length work.old) }
    ensures { result ≡ reads_of (cell_bytes image.now p c) }
{
    payload::copy_payload(image, h, p, c, work);
    matches!(reads(&work[..c.payload], c.payload), Reading::Yes)
}

// The payload of cell c of page p: its chain (27, 20, 21), then its record (28).
pub fn walk_payload(
    image: &[u8],
    h: Header,
    p: u32,
    c: Cell,
    work: &mut [u8],
    kinds: &mut [u8],
    namers: &mut [u32],
) -> Result<(), Refusal>
    requires { CellAt image.now h p c × Open h.pages kinds.old namers.old }
    ensures { (m : Option Mark) (l : ℕ) → run (file_of image.now).N (state kinds.old namers.old m l)
        (payload_events (file_of image.now) p (file_cell image.now p c))
        ≡ outcome_at m l result kinds.new namers.new }
{
    let links = cell::cell_links(h.usable, c);
    ledger::walk_chain(image, h, p, links, c.first, kinds, namers)?;
    if !record_reads(image, h, p, c, work) {
        return Err(Refusal {
            rule: Rule::BadRecord,
            page: p,
        });
    }
    Ok(())
}
