// A leaf's cell read in a straight line, where it lies whole on its page: most cells do. Where it may not, the general reader has to look.
#![tactic(auto)]

ghost use Rattle.std.specs.Prelude.{◌≡◌, true, cond, ◌+◌, ◌-◌, ◌/◌, ◌<◌, ◌≤◌, length, IfSome};
ghost use Rattle.number.specs.Bytes.{part};
ghost use Rattle.number.specs.Varint.{varint_at, long_of};
ghost use Rattle.record.specs.Serial.{size_of};
ghost use Rattle.record.specs.Record.{reads_of};
ghost use Rattle.cell.specs.Split.{max_local};
ghost use Rattle.leaf.specs.Whole.{LeafType, LocalAt};
ghost use Rattle.leaf.specs.Parts.{Headed, Begins};

use cell::TABLE_LEAF;
use number::{Word, wide};

// A cell that lies whole on its page: how many bytes it takes, its row number on a table leaf, and its payload's place and length.
#[derive(Clone, Copy)]
pub struct Extent {
    pub size: usize,
    pub row: u64,
    pub start: usize,
    pub length: usize,
}

// Where a cell's payload begins, and its row number.
#[derive(Clone, Copy)]
struct Begin {
    start: usize,
    row: u64,
}

// A varint of one byte to four, not spelled long; else the length is 0.
fn short(p: &[u8], at: usize, u: usize) -> Word
    requires { (at + 4 ≤ u) × (u ≤ length p.now) }
    ensures { (result.length ≡ 0 → ⊥) → (result ≡ varint_at p.now at u) × (long_of result ≡ 0) }
{
    let a = wide(p[at]);
    if a < 128 {
        return Word { length: 1, bits: a };
    }
    if a == 128 {
        return Word { length: 0, bits: 0 };
    }
    let b = wide(p[at + 1]);
    let first = a % 128 * 128;
    if b < 128 {
        let bits = first + b;
        return Word { length: 2, bits };
    }
    let c = wide(p[at + 2]);
    let second = (first + b % 128) * 128;
    if c < 128 {
        let bits = second + c;
        return Word { length: 3, bits };
    }
    let d = wide(p[at + 3]);
    let third = (second + c % 128) * 128;
    if d < 128 {
        let bits = third + d;
        return Word { length: 4, bits };
    }
    Word { length: 0, bits: 0 }
}

// A varint of any length, not spelled long; else the length is 0.
fn plain(p: &[u8], at: usize, u: usize) -> Word
    requires { (at ≤ u) × (u ≤ 65536) × (u ≤ length p.now) }
    ensures { (result.length ≡ 0 → ⊥) → (result ≡ varint_at p.now at u) × (long_of result ≡ 0) }
{
    if at + 4 <= u {
        let quick = short(p, at, u);
        if quick.length != 0 {
            return quick;
        }
    }
    if u <= at {
        return Word { length: 0, bits: 0 };
    }
    // A number is spelled long where it begins with zeros.
    if wide(p[at]) == 128 {
        return Word { length: 0, bits: 0 };
    }
    number::varint_word(p, at, u)
}

// Where the payload begins whose length ends at `from`: behind a table leaf's row number. None where the general reader has to look.
fn begin_of(p: &[u8], u: usize, kind: u8, from: usize) -> Option<Begin>
    requires { (from ≤ u) × (u ≤ 65536) × (u ≤ length p.now) × LeafType kind }
    ensures { IfSome result (λ begin. Begins p.now u kind from begin.start begin.row) }
{
    if kind != TABLE_LEAF {
        return Some(Begin {
            start: from,
            row: 0,
        });
    }
    let w = plain(p, from, u);
    if w.length == 0 {
        return None;
    }
    let start = from + w.length;
    let row = number::bias(w.bits);
    Some(Begin { start, row })
}

// The bytes of a value of a serial type below 10: four bits each.
fn size_small(t: u64) -> u64
    requires { t < 10 }
    ensures { (result ≡ size_of t) × (result < 16) }
{
    (0x8864_3210 >> (4 * t)) % 16
}

// Whether the values of serial types of one, two or three bytes fill the record b, whose header has so many bytes.
fn types_fill(b: &[u8], header: usize) -> bool
    requires { Headed b.now header }
    ensures { result ≡ true → reads_of b.now ≡ true }
{
    let mut place = header as u64;
    let mut i: usize = 1;
    while i < header {
        let t = wide(b[i]);
        let size = if t < 12 {
            if 10 <= t {
                return false;
            }
            size_small(t)
        } else if t < 128 {
            (t - 12) / 2
        } else {
            if t == 128 {
                return false;
            }
            i += 1;
            if header <= i {
                return false;
            }
            let v = wide(b[i]);
            if v < 128 {
                ((t - 128) * 128 + v - 12) / 2
            } else {
                i += 1;
                if header <= i {
                    return false;
                }
                let w = wide(b[i]);
                if 128 <= w {
                    return false;
                }
                (((t - 128) * 128 + v - 128) * 128 + w - 12) / 2
            }
        };
        place += size;
        i += 1;
    }
    place == b.len() as u64
}

// n or 0, with no jump.
fn pick(yes: bool, n: u16) -> u16
    ensures { (result ≡ cond yes n 0) × (result ≤ n) }
{
    if yes { n } else { 0 }
}

// The bytes of a text or blob, 0 for other types.
fn size_long(t: u16) -> u16
    ensures { result ≡ (t - 12) / 2 }
{
    if t < 12 { 0 } else { (t - 12) / 2 }
}

// The bytes of a value of serial type t, with no jump and no table: the compiler takes eight types at once.
fn size_flat(t: u16) -> u16
    requires { t < 256 }
    ensures { (result ≡ size_of t) × (result < 256) }
{
    pick(t < 5, t) + pick(t == 5, 6) + pick(t / 2 == 3, 8) + size_long(t)
}

// Not 0 for the first byte of a longer type, and for types 10 and 11.
fn odd_flat(t: u16) -> u16
    requires { t < 256 }
    ensures few { result ≤ 2 }
    ensures plain { result ≡ 0 → (t < 128) × (t ≡ 10 → ⊥) × (t ≡ 11 → ⊥) }
{
    t / 128 + pick(t / 2 == 5, 1)
}

// The bytes of all values of the record b, whose header has so many bytes, where all serial types have one byte. A loop with one way out, over the types
// of a wide row.
fn sum_types(b: &[u8], header: usize) -> Option<usize>
    requires { Headed b.now header }
    ensures { IfSome result (λ sum. (sum < 65536) × (header + sum ≡ length b.now → reads_of b.now ≡ true)) }
{
    let mut sum: u16 = 0;
    let mut odd: u16 = 0;
    let mut i: usize = 1;
    // Kept: (b) a `while`: with `for` and `saturating_sub` the compiler takes sixteen types at once, or else four, and ten types cost a fifth more.
    while i < header {
        let t = u16::from(b[i]);
        sum += size_flat(t);
        odd += odd_flat(t);
        i += 1;
    }
    if odd != 0 {
        return None;
    }
    Some(usize::from(sum))
}

// Whether b reads as a record with a short header of such types.
fn record_reads(b: &[u8]) -> bool
    requires { 1 ≤ length b.now }
    ensures { result ≡ true → reads_of b.now ≡ true }
{
    let header = usize::from(b[0]);
    if header == 0 || 128 <= header || b.len() < header {
        return false;
    }
    // Eight types or more.
    if 9 <= header {
        if let Some(sum) = sum_types(b, header) {
            return header + sum == b.len();
        }
    }
    types_fill(b, header)
}

// Whether the `size` bytes from `start` on read as such a record; no bytes do not.
pub fn reads_at(p: &[u8], start: usize, size: usize) -> bool
    requires { (start + size ≤ 65536) × (start + size ≤ length p.now) }
    ensures { result ≡ true → (size ≡ 0 → ⊥) × (reads_of (part p.now start size) ≡ true) }
{
    size != 0 && record_reads(&p[start..start + size])
}

// The cell at `at` of a leaf of that type, on which payloads of up to `most` bytes are local; its record is not looked at. None where the general reader
// has to look.
pub fn local_cell(p: &[u8], u: usize, kind: u8, at: usize, most: usize) -> Option<Extent>
    requires { (480 ≤ u) × (u ≤ 65536) × (u ≤ length p.now) × (at ≤ 65536) × (most ≡ max_local u kind) × LeafType kind }
    ensures taken { IfSome result (λ cell. LocalAt p.now u kind at cell.size cell.row cell.start cell.length) }
    ensures inside { IfSome result (λ cell. cell.start + cell.length ≤ u) }
{
    if u < at + 4 {
        return None;
    }
    let w = short(p, at, u);
    let n = w.length;
    if n == 0 {
        return None;
    }
    let length = w.bits as usize;
    if most < length {
        return None;
    }
    let Begin { start, row } = begin_of(p, u, kind, at + n)?;
    let end = start + length;
    if length == 0 || u < end || end < at + 4 {
        return None;
    }
    let size = end - at;
    Some(Extent {
        size,
        row,
        start,
        length,
    })
}
