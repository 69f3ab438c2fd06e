// Numbers as a SQLite file spells them: big-endian, two's complement, varints.
#![tactic(auto)]

ghost use Rattle.std.specs.Prelude.{◌≡◌, ◌+◌, ◌-◌, ◌^◌, ◌<◌, ◌≤◌, ◌++◌, min, length, drop};
ghost use Rattle.number.specs.Bytes.{be, signed_of, half_of, signed_be, word_of, bias_of, biased};
ghost use Rattle.number.specs.Varint.{word_from, varint_at, is_shortest, long_of, answer_of, varint_size, groups, spelling, written_of, laid_over};

// A varint's length in bytes, 0 where the input ends inside it, and its 64 bits.
#[derive(Clone, Copy)]
pub struct Word {
    pub length: usize,
    pub bits: u64,
}

// A varint that was read whole: its number, its length in bytes, and whether the spelling is the shortest.
#[derive(Clone, Copy)]
pub struct Varint {
    pub value: i64,
    pub length: usize,
    pub shortest: bool,
}

pub fn wide(x: u8) -> u64
    ensures { (result ≡ x) × (result < 256) }
{
    u64::from(x)
}

// The big-endian number in 2 bytes.
pub fn be16(b: &[u8], at: usize) -> usize
    requires { at + 2 ≤ length b.now }
    ensures { (result ≡ be 2 b.now at) × (result < 65536) }
{
    usize::from(u16::from_be_bytes([b[at], b[at + 1]]))
}

// The big-endian number in 4 bytes.
pub fn be32(b: &[u8], at: usize) -> u32
    requires { at + 4 ≤ length b.now }
    ensures { result ≡ be 4 b.now at }
{
    u32::from_be_bytes([b[at], b[at + 1], b[at + 2], b[at + 3]])
}

// The big-endian number in `width` bytes.
pub fn be(b: &[u8], at: usize, width: usize) -> u64
    requires { (at + width ≤ length b.now) × (width ≤ 8) }
    ensures { (result ≡ be width b.now at) × (result < 256 ^ width) }
{
    let mut u: u64 = 0;
    for i in 0..width {
        u = u * 256 + u64::from(b[at + i]);
    }
    u
}

// u as two's complement, half being half of the width's numbers.
// Kept: (d) std's `cast_signed` is for the widths of its types only, and columns have numbers of 24 and 48 bits too.
pub fn signed(u: u64, half: u64) -> i64
    requires { (u < half + half) × (half ≤ 2 ^ 63) }
    ensures { result ≡ signed_of half u }
{
    if u < half {
        u as i64
    } else {
        -1 - ((half - 1 + half - u) as i64)
    }
}

// Half of the numbers that `width` bytes have.
fn half_of(width: usize) -> u64
    requires { (1 ≤ width) × (width ≤ 8) }
    ensures { result ≡ half_of width }
{
    1u64 << (8 * width - 1)
}

// The signed big-endian number in `width` bytes.
pub fn signed_be(b: &[u8], at: usize, width: usize) -> i64
    requires { (at + width ≤ length b.now) × (1 ≤ width) × (width ≤ 8) }
    ensures { result ≡ signed_be width b.now at }
{
    signed(be(b, at, width), half_of(width))
}

// The 64 bits of a signed number.
pub fn word_of(v: i64) -> u64
    ensures { result ≡ word_of v }
{
    v.cast_unsigned()
}

// Bits moved so that their order is the signed order.
pub fn bias(bits: u64) -> u64
    ensures { result ≡ biased bits }
{
    bits.wrapping_add(0x8000_0000_0000_0000)
}

// The same of a signed number.
pub fn bias_of(v: i64) -> u64
    ensures { result ≡ bias_of v }
{
    bias(word_of(v))
}

// The rest of a varint whose first two bytes gave `start`. `last` of its first eight bytes may be read.
fn varint_rest(b: &[u8], at: usize, left: usize, last: usize, start: u64) -> Word
    requires { (at + left ≤ length b.now) × (last ≡ min left 8) × (start < 16384) }
    ensures { result ≡ word_from 7 b.now (at + left) (at + 2) 2 start }
{
    let mut bits = start;
    for n in 2..last {
        let x = u64::from(b[at + n]);
        if x < 128 {
            return Word {
                length: n + 1,
                bits: bits * 128 + x,
            };
        }
        bits = bits * 128 + x % 128;
    }
    if last < left {
        return Word {
            length: 9,
            bits: bits * 256 + u64::from(b[at + 8]),
        };
    }
    Word { length: 0, bits: 0 }
}

// The varint at a place, where bytes at or past `end` are not read; one of one byte or two is settled first. UNROLLED is quicker and larger: where nine
// bytes may be read, the loop over them is unrolled, and no byte is tested for being there.
fn word_at<const UNROLLED: bool>(b: &[u8], at: usize, end: usize) -> Word
    ensures { result ≡ varint_at b.now at end }
{
    let stop = b.len().min(end);
    if stop <= at {
        return Word { length: 0, bits: 0 };
    }
    let x = u64::from(b[at]);
    if x < 128 {
        return Word { length: 1, bits: x };
    }
    let left = stop - at;
    if left < 2 {
        return Word { length: 0, bits: 0 };
    }
    let y = u64::from(b[at + 1]);
    let high = x % 128 * 128;
    if y < 128 {
        return Word {
            length: 2,
            bits: high + y,
        };
    }
    let start = high + y % 128;
    if UNROLLED && 9 <= left {
        return varint_rest(b, at, left, 8, start);
    }
    varint_rest(b, at, left, left.min(8), start)
}

// The same, small, and inlined wherever a cell or a record is read.
pub fn varint_word(b: &[u8], at: usize, end: usize) -> Word
    ensures { result ≡ varint_at b.now at end }
{
    word_at::<false>(b, at, end)
}

// Whether a spelling is the shortest: as long as the writer's. Numbers that need one byte or two are settled first.
fn is_shortest(length: usize, bits: u64) -> bool
    ensures { result ≡ is_shortest length bits }
{
    if bits < 128 {
        return length == 1;
    }
    if bits < 16384 {
        return length == 2;
    }
    length == varint_size(bits)
}

// 1 where a number is spelled long, else 0. Spellings of one byte or two are settled first.
pub fn long_of(w: Word) -> u32
    ensures { result ≡ long_of w }
{
    if w.length < 2 {
        return 0;
    }
    if w.length == 2 {
        return u32::from(w.bits < 128);
    }
    u32::from(varint_size(w.bits) < w.length)
}

// The number at a place, for the reader that users call; none where the input ends inside it.
pub fn varint_read(b: &[u8], at: usize, end: usize) -> Option<Varint>
    ensures { result ≡ answer_of (varint_at b.now at end) }
{
    let w = word_at::<true>(b, at, end);
    if w.length == 0 {
        return None;
    }
    Some(Varint {
        value: w.bits.cast_signed(),
        length: w.length,
        shortest: is_shortest(w.length, w.bits),
    })
}

// How many bytes the shortest spelling takes.
pub fn varint_size(bits: u64) -> usize
    ensures { result ≡ varint_size bits }
{
    let mut rest = bits;
    for n in 1..9 {
        if rest < 128 {
            return n;
        }
        rest /= 128;
    }
    9
}

// Groups of 7 bits with their top bit set, laid over the first n bytes.
fn lay_groups(n: usize, bits: u64, out: &mut [u8])
    requires { n ≤ length out.old }
    ensures { out.new ≡ groups n bits ++ drop n out.old }
{
    let mut rest = bits;
    for i in (0..n).rev() {
        out[i] = (rest % 128 + 128) as u8;
        rest /= 128;
    }
}

// The spelling in n bytes, laid over the first n.
fn lay_spelling(n: usize, bits: u64, out: &mut [u8])
    requires { (1 ≤ n) × (n ≤ 9) × (n ≤ length out.old) }
    ensures { out.new ≡ spelling n bits ++ drop n out.old }
{
    let last = n - 1;
    if n == 9 {
        lay_groups(last, bits / 256, out);
        out[last] = (bits % 256) as u8;
    } else {
        lay_groups(last, bits / 128, out);
        out[last] = (bits % 128) as u8;
    }
}

// Writes a number in its shortest spelling, and tells its length; without room nothing is written.
pub fn varint_write(value: i64, out: &mut [u8]) -> Option<usize>
    ensures { (result ≡ written_of value (length out.old)) × (out.new ≡ laid_over value out.old) }
{
    let bits = word_of(value);
    let size = varint_size(bits);
    if out.len() < size {
        return None;
    }
    lay_spelling(size, bits, out);
    Some(size)
}
