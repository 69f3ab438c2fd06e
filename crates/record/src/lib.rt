// Records: a header of serial types, and the values of the columns. A record is a whole slice.
#![tactic(auto)]

ghost use Rattle.std.specs.Prelude.{◌≡◌, ◌+◌, ◌≤◌, length, cond, Option, None, Some};
ghost use Rattle.record.specs.Serial.{refused, size_of, real_of, value_of};
ghost use Rattle.record.specs.Record.{types_at, filling, reads_of, columns_of, column_at};
ghost use Rattle.record.specs.Scan.{summary, scan_of};

// A column's value. The place of a text or a blob counts from the record's first byte.
#[derive(Clone, Copy)]
pub enum Column {
    Null,
    Int(i64),
    Real(f64),
    Text { place: usize, length: usize },
    Blob { place: usize, length: usize },
}

// Why a record has no such column.
#[derive(Clone, Copy, Debug, PartialEq, Eq)]
pub enum NoValue {
    DoesNotRead,
    Missing,
}

// A column's serial type, and where its value begins.
#[derive(Clone, Copy)]
struct Spot {
    kind: u64,
    place: usize,
}

// What one pass over a record finds: how many columns, and the one that was asked for.
#[derive(Clone, Copy)]
struct Scanned {
    count: usize,
    found: Option<Spot>,
}

// The number of columns of a record, if it reads.
pub fn column_count(b: &[u8]) -> Option<usize>
    ensures { result ≡ columns_of b.now }
{
    Some(scan(b, 0)?.count)
}

// Whether a record reads.
pub fn reads(b: &[u8]) -> bool
    ensures { result ≡ reads_of b.now }
{
    column_count(b).is_some()
}

// Column i of a record, where columns count from 1.
pub fn column_at(b: &[u8], i: u64) -> Result<Column, NoValue>
    ensures { result ≡ column_at b.now i }
{
    let scan = scan(b, i).ok_or(NoValue::DoesNotRead)?;
    let spot = scan.found.ok_or(NoValue::Missing)?;
    Ok(value_at(b, spot.kind, spot.place))
}

// One pass over a record, which looks out for column i.
fn scan(b: &[u8], i: u64) -> Option<Scanned>
    ensures { result ≡ scan_of b.now i }
{
    let head = number::varint_word(b, 0, b.len());
    // A header below its own length ends at no type.
    if head.length == 0 || head.bits < (head.length as u64) {
        return None;
    }
    scan_types(b, head.length, head.bits as usize, i)
}

// The serial types from `own` on, with the first value at the header's end.
fn scan_types(b: &[u8], own: usize, header: usize, i: u64) -> Option<Scanned>
    requires { own ≤ header }
    ensures { result ≡ summary i header (filling b.now header (types_at b.now header own)) }
{
    let end = b.len();
    if end < header {
        return None;
    }
    let mut at = own;
    let mut place = header;
    let mut count = 0;
    // Plain words until the end: an Option carried through the loop costs its tag at each column.
    let mut kind = 0;
    let mut from = 0;
    while at < header {
        let word = number::varint_word(b, at, header);
        if word.length == 0 {
            return None;
        }
        let size = room_of(word.bits)?;
        // Sizes are compared with what is left: their sum could wrap.
        if ((end - place) as u64) < size {
            return None;
        }
        at += word.length;
        count += 1;
        if (count as u64) == i {
            kind = word.bits;
            from = place;
        }
        place += size as usize;
    }
    if place != end {
        return None;
    }
    let found = if i == 0 || (count as u64) < i {
        None
    } else {
        Some(Spot { kind, place: from })
    };
    Some(Scanned { count, found })
}

// Whether a serial type is one that no record may have: 10, 11 or a negative one.
pub fn refuses(t: u64) -> bool
    ensures { result ≡ refused t }
{
    matches!(t, 10 | 11 | 0x8000_0000_0000_0000..)
}

// The number of bytes of a value of each serial type below 10. Read from a table, since a chain of tests is guessed wrong where types change.
const SHORT_SIZES: [u64; 10] = [0, 1, 2, 3, 4, 6, 8, 8, 0, 0];

// The number of bytes of a value of serial type t.
pub fn size_of(t: u64) -> u64
    ensures { result ≡ size_of t }
{
    match t {
        0..10 => SHORT_SIZES[t as usize],
        10 | 11 => 0,
        _ => (t - 12) / 2,
    }
}

// The same, where a record may have the type.
fn room_of(t: u64) -> Option<u64>
    ensures { result ≡ cond (refused t) None (Some (size_of t)) }
{
    // Most types are below 10, and need one test and the table.
    if t < 10 {
        return Some(size_of(t));
    }
    if refuses(t) {
        return None;
    }
    Some(size_of(t))
}

// A float with these bits; a NaN is null.
fn real_of(bits: u64) -> Column
    ensures { result ≡ real_of bits }
{
    // Kept: (d) `from_bits` asks that its bits are no NaN's, so the test is of the bits and not `is_nan`.
    if 0x7ff0000000000000 < bits % 0x8000000000000000 {
        return Column::Null;
    }
    Column::Real(f64::from_bits(bits))
}

// The value of serial type t whose bytes start at a place.
pub fn value_at(b: &[u8], t: u64, place: usize) -> Column
    requires { place + size_of t ≤ length b.now }
    ensures { result ≡ value_of b.now t place }
{
    let length = size_of(t) as usize;
    match t {
        0 => Column::Null,
        1..=6 => Column::Int(number::signed_be(b, place, length)),
        7 => real_of(number::be(b, place, 8)),
        8 => Column::Int(0),
        9 => Column::Int(1),
        _ if t % 2 == 0 => Column::Blob { place, length },
        _ => Column::Text { place, length },
    }
}
