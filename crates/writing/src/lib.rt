// The bytes of a fresh file's cells and pages, laid over a lent slice.
#![tactic(auto)]

ghost use Rattle.std.specs.Prelude.{◌≡◌, ◌+◌, ◌-◌, ◌*◌, ◌^◌, ◌≤◌, ◌<◌, [], ◌∷◌, ◌++◌, cond, eqb, ltb, length, take, replicate};
ghost use Rattle.number.specs.Bytes.{part};
ghost use Rattle.number.specs.Varint.{varint_size, spelling};
ghost use Rattle.cell.specs.Cell.{at_least4, local_end};
ghost use Rattle.cell.specs.Split.{table_interior};
ghost use Rattle.paging.specs.Pages.{over};
ghost use Rattle.writing.specs.Cells.{be_bytes, leaf_cell};
ghost use Rattle.writing.specs.Pages.{joined, tree_page, overflow_page};
ghost use Rattle.writing.specs.Rows.{row_cells, leaf_page, chain_of};
ghost use Rattle.writing.specs.Given.{links_for, rows_from, cells_laid, CellPlace, LeafRoom};
ghost use Rattle.writing.specs.Layout.{file_header, first_page};
ghost use Rattle.writing.specs.Given.{cell_size, start_bytes, key_bytes, keys_from, KeysRoom, ChainRoom};

// A number in 2 bytes.
pub fn put_half(out: &mut [u8], at: usize, n: usize)
    requires { at + 2 ≤ length out.old }
    ensures { out.new ≡ over out.old at (be_bytes 2 n) }
{
    paging::lay(out, at, &((n % 65536) as u16).to_be_bytes());
}

// A number in 4 bytes.
pub fn put_word(out: &mut [u8], at: usize, n: u32)
    requires { at + 4 ≤ length out.old }
    ensures { out.new ≡ over out.old at (be_bytes 4 n) }
{
    paging::lay(out, at, &n.to_be_bytes());
}

// n zeros.
pub fn put_zeros(out: &mut [u8], at: usize, n: usize)
    requires { at + n ≤ length out.old }
    ensures { out.new ≡ over out.old at (replicate n 0) }
{
    out[at..at + n].fill(0);
}

// The shortest varint of 64 bits; where it ends.
pub fn put_bits(out: &mut [u8], at: usize, bits: u64) -> usize
    requires { at + varint_size bits ≤ length out.old }
    ensures { (result ≡ at + varint_size bits) × (out.new ≡ over out.old at (spelling (varint_size bits) bits)) }
{
    let value = number::signed(bits, 0x8000_0000_0000_0000);
    let size = number::varint_size(bits);
    number::varint_write(value, &mut out[at..]);
    at + size
}

// The number of a chain's first page, where not all of a payload is local; where it ends.
fn put_link(out: &mut [u8], at: usize, local: usize, size: usize, first: u32) -> usize
    requires { at + length (cond (eqb local size) [] (be_bytes 4 first)) ≤ length out.old }
    ensures { (result ≡ at + length (cond (eqb local size) [] (be_bytes 4 first))) × (out.new ≡ over out.old at (cond (eqb local size) [] (be_bytes 4 first))) }
{
    if local == size {
        return at;
    }
    put_word(out, at, first);
    at + 4
}

// Zeros behind a cell's fields, which begin at `at`: a cell takes at least 4 bytes; where it ends.
fn put_pad(out: &mut [u8], at: usize, end: usize) -> usize
    requires { (at ≤ end) × (end + (4 - (end - at)) ≤ length out.old) }
    ensures { (result ≡ end + (4 - (end - at))) × (out.new ≡ over out.old end (replicate (4 - (end - at)) 0)) }
{
    if 4 <= end - at {
        return end;
    }
    let n = 4 - (end - at);
    put_zeros(out, end, n);
    end + n
}

// Two varints; where they end.
fn put_head(out: &mut [u8], at: usize, size: u64, bits: u64) -> usize
    requires { at + varint_size size + varint_size bits ≤ length out.old }
    ensures { (result ≡ at + varint_size size + varint_size bits) × (out.new ≡ over out.old at (spelling (varint_size size) size ++ spelling (varint_size bits) bits)) }
{
    let a = put_bits(out, at, size);
    put_bits(out, a, bits)
}

// The local bytes of a payload, and the number of its chain's first page; where they end.
fn put_body(out: &mut [u8], at: usize, payload: &[u8], local: usize, first: u32) -> usize
    requires { (local ≤ length payload.now) × (at + local + length (cond (eqb local (length payload.now)) [] (be_bytes 4 first)) ≤ length out.old) }
    ensures { (result ≡ at + local + length (cond (eqb local (length payload.now)) [] (be_bytes 4 first)))
        × (out.new ≡ over out.old at (take local payload.now ++ cond (eqb local (length payload.now)) [] (be_bytes 4 first))) }
{
    paging::lay(out, at, &payload[..local]);
    let next = at + local;
    put_link(out, next, local, payload.len(), first)
}

// The cell of a row on a table leaf of u bytes; where it ends.
pub fn put_row(out: &mut [u8], u: usize, at: usize, row: i64, payload: &[u8], first: u32) -> usize
    requires { (480 ≤ u) × (u ≤ 65536) × (length payload.now ≤ 65536) × (at + length (leaf_cell u row payload.now first) ≤ length out.old) }
    ensures { (result ≡ at + length (leaf_cell u row payload.now first)) × (out.new ≡ over out.old at (leaf_cell u row payload.now first)) }
{
    let size = payload.len();
    let local = cell::local_size(u, 13, size);
    let bits = number::word_of(row);
    let a = put_head(out, at, size as u64, bits);
    let b = put_body(out, a, payload, local, first);
    put_pad(out, at, b)
}

// The pointer and the cell of a row, the k-th of a leaf that begins at `page`, in its place there; where on the page the cell ends.
fn put_cell(
    out: &mut [u8],
    page: usize,
    k: usize,
    at: usize,
    row: i64,
    payload: &[u8],
    first: u32,
) -> usize
    requires { CellPlace (length out.old) page k at row payload.now first }
    ensures { (result ≡ at + length (leaf_cell 1024 row payload.now first))
        × (out.new ≡ over (over out.old (page + 8 + 2 * k) (be_bytes 2 at)) (page + at) (leaf_cell 1024 row payload.now first)) }
{
    put_half(out, page + 8 + 2 * k, at);
    let end = put_row(out, 1024, page + at, row, payload, first);
    end - page
}

// How many overflow pages a payload of that length takes.
pub fn links_of(size: usize) -> usize
    requires { size ≤ 65536 }
    ensures { result ≡ links_for size }
{
    let local = cell::local_size(1024, 13, size);
    cell::chain_length(1024, size - local)
}

// The pointers and cells of `count` rows from the i-th on, on the leaf that begins at `page`.
fn put_cells(
    out: &mut [u8],
    page: usize,
    start: usize,
    rows: &[i64],
    lengths: &[u32],
    payloads: &[u8],
    i: usize,
    count: usize,
    off: usize,
    t: u32,
)
    requires { LeafRoom rows.now lengths.now payloads.now (length out.old) page start i count off t }
    ensures { out.new ≡ cells_laid out.old (page + 8) (page + start)
        (row_cells 1024 (rows_from rows.now lengths.now payloads.now count i off t)) }
{
    let mut at = start;
    let mut from = off;
    let mut next = t;
    for k in 0..count {
        let size = lengths[i + k] as usize;
        at = put_cell(
            out,
            page,
            k,
            at,
            rows[i + k],
            &payloads[from..from + size],
            next,
        );
        next += links_of(size) as u32;
        from += size;
    }
}

// One byte.
fn put_byte(out: &mut [u8], at: usize, x: u8)
    requires { at < length out.old }
    ensures { out.new ≡ over out.old at (x ∷ []) }
{
    out[at] = x;
}

// The first 8 bytes of a tree page's header: type, no freeblock, how many cells, where they begin, no fragment.
fn put_start(out: &mut [u8], at: usize, kind: u8, count: usize, start: usize)
    requires { at + 8 ≤ length out.old }
    ensures { out.new ≡ over out.old at (start_bytes kind count start) }
{
    put_byte(out, at, kind);
    put_zeros(out, at + 1, 2);
    put_half(out, at + 3, count);
    put_half(out, at + 5, start);
    put_byte(out, at + 7, 0);
}

// A leaf of `count` rows from the i-th on, whose cells begin at `start` of the page.
pub fn put_leaf(
    out: &mut [u8],
    page: usize,
    start: usize,
    rows: &[i64],
    lengths: &[u32],
    payloads: &[u8],
    i: usize,
    count: usize,
    off: usize,
    t: u32,
)
    requires { LeafRoom rows.now lengths.now payloads.now (length out.old) page start i count off t }
    ensures { out.new ≡ over out.old page (leaf_page 1024 [] (rows_from rows.now lengths.now payloads.now count i off t)) }
{
    put_start(out, page, 13, count, start);
    put_zeros(out, page + 8 + 2 * count, start - 8 - 2 * count);
    put_cells(out, page, start, rows, lengths, payloads, i, count, off, t);
}

// The pointer and the cell of a child, the k-th of an interior page that begins at `page`; where on the page the cell ends.
fn put_key(out: &mut [u8], page: usize, k: usize, at: usize, child: u32, bits: u64) -> usize
    requires { (page + 1024 ≤ length out.old) × (12 + 2 * k + 2 ≤ at) × (at + 4 + varint_size bits ≤ 1024) }
    ensures { (result ≡ at + 4 + varint_size bits) × (out.new ≡ over (over out.old (page + 12 + 2 * k) (be_bytes 2 at)) (page + at) (key_bytes child bits)) }
{
    put_half(out, page + 12 + 2 * k, at);
    put_word(out, page + at, child);
    let end = put_bits(out, page + at + 4, bits);
    end - page
}

// The pointers and cells of `count` children from page `child` on, whose keys are those from the i-th on.
fn put_keys(
    out: &mut [u8],
    page: usize,
    start: usize,
    keys: &[u64],
    i: usize,
    count: usize,
    child: u32,
)
    requires { KeysRoom keys.now (length out.old) page start i count child }
    ensures { out.new ≡ cells_laid out.old (page + 12) (page + start) (keys_from keys.now count i child) }
{
    let mut at = start;
    let mut next = child;
    for k in 0..count {
        at = put_key(out, page, k, at, next, keys[i + k]);
        next += 1;
    }
}

// An interior page: `count` children with keys from page `child` on, and the right child behind them.
pub fn put_inner(
    out: &mut [u8],
    page: usize,
    start: usize,
    keys: &[u64],
    i: usize,
    count: usize,
    child: u32,
)
    requires { KeysRoom keys.now (length out.old) page start i count child }
    ensures { out.new ≡ over out.old page (tree_page 1024 [] table_interior (child + count) (keys_from keys.now count i child)) }
{
    put_start(out, page, 5, count, start);
    put_word(out, page + 8, child + count as u32);
    put_zeros(out, page + 12 + 2 * count, start - 12 - 2 * count);
    put_keys(out, page, start, keys, i, count, child);
}

// An overflow page with n bytes of a payload.
fn put_overflow(out: &mut [u8], page: usize, next: u32, chunk: &[u8])
    requires { (page + 1024 ≤ length out.old) × (length chunk.now ≤ 1020) }
    ensures { out.new ≡ over out.old page (overflow_page 1024 next chunk.now) }
{
    let n = chunk.len();
    put_word(out, page, next);
    paging::lay(out, page + 4, chunk);
    put_zeros(out, page + 4 + n, 1020 - n);
}

// How many bytes go to the next overflow page, and which page follows it.
fn chunk_of(left: usize) -> usize
    ensures { (result ≤ 1020) × (result ≤ left) × (result ≡ cond (ltb left 1020) left 1020) }
{
    left.min(1020)
}

fn next_of(left: usize, page: u32) -> u32
    requires { page + 1 < 2 ^ 32 }
    ensures { result ≡ cond (eqb left 0) 0 (page + 1) }
{
    if left == 0 { 0 } else { page + 1 }
}

// The n pages of a chain, side by side from page `first` on, which begins at `at`: the bytes `from` to `end` of the payloads.
pub fn put_chain(
    out: &mut [u8],
    at: usize,
    first: u32,
    n: usize,
    payloads: &[u8],
    from: usize,
    end: usize,
)
    requires { ChainRoom (length payloads.now) (length out.old) at first n from end }
    ensures { out.new ≡ over out.old at (joined (chain_of 1024 n first (part payloads.now from (end - from)))) }
{
    let mut place = at;
    let mut page = first;
    let mut done = from;
    for k in 0..n {
        let size = chunk_of(end - done);
        let next = next_of(n - k - 1, page);
        put_overflow(out, place, next, &payloads[done..done + size]);
        done += size;
        place += 1024;
        page += 1;
    }
}

// Where the fields of a row's cell end, if the numbers before its local bytes take `head`.
fn fields_end(head: usize, local: usize, size: usize) -> usize
    requires { (head ≤ 18) × (local ≤ 65536) }
    ensures { result ≡ local_end head local size }
{
    if local == size {
        head + local
    } else {
        head + local + 4
    }
}

// A cell takes at least 4 bytes.
fn padded_size(n: usize) -> usize
    ensures { result ≡ at_least4 0 n }
{
    n.max(4)
}

// How many bytes the cell of a row takes.
pub fn cell_size(row: i64, size: usize) -> usize
    requires { size ≤ 65536 }
    ensures { result ≡ cell_size row size }
{
    let local = cell::local_size(1024, 13, size);
    let bits = number::word_of(row);
    let first = number::varint_size(size as u64);
    let second = number::varint_size(bits);
    let end = fields_end(first + second, local, size);
    padded_size(end)
}

// The file's header, for n pages.
fn put_header(out: &mut [u8], n: u32)
    requires { 100 ≤ length out.old }
    ensures { out.new ≡ over out.old 0 (file_header n) }
{
    let head: [u8; 100] = [
        83, 81, 76, 105, 116, 101, 32, 102, 111, 114, 109, 97, 116, 32, 51, 0, 4, 0, 1, 1, 0, 64,
        32, 32, 0, 0, 0, 1, 0, 0, 0, 0, 0, 0, 0, 0, 0, 0, 0, 0, 0, 0, 0, 1, 0, 0, 0, 4, 0, 0, 0, 0,
        0, 0, 0, 0, 0, 0, 0, 1, 0, 0, 0, 0, 0, 0, 0, 0, 0, 0, 0, 0, 0, 0, 0, 0, 0, 0, 0, 0, 0, 0,
        0, 0, 0, 0, 0, 0, 0, 0, 0, 0, 0, 0, 0, 1, 0, 0, 0, 0,
    ];
    paging::lay(out, 0, &head);
    put_word(out, 28, n);
}

// Page 1: the file's header, and the schema row.
pub fn put_first(out: &mut [u8], n: u32, schema: &[u8])
    requires { (1024 ≤ length out.old) × (length schema.now ≤ 911) }
    ensures { out.new ≡ over out.old 0 (first_page n schema.now) }
{
    let start = 1024 - cell_size(1, schema.len());
    put_header(out, n);
    put_start(out, 100, 13, 1, start);
    put_half(out, 108, start);
    put_zeros(out, 110, start - 110);
    put_row(out, 1024, start, 1, schema, 0);
}
