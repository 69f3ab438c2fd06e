// A leaf page, checked in one pass over its cells.
#![tactic(auto)]

ghost use Rattle.std.specs.Prelude.{◌≡◌, true, List, ◌+◌, ◌-◌, ◌*◌, ◌≤◌, ◌<◌, length, IfSome, IsSomeAnd};
ghost use Rattle.number.specs.Bytes.{part};
ghost use Rattle.record.specs.Record.{reads_of};
ghost use Rattle.cell.specs.Split.{max_local};
ghost use Rattle.page.specs.Header.{first_freeblock, cell_count};
ghost use Rattle.page.specs.Sound.{Span, Freeblocks, cell_spans};
ghost use Rattle.page.specs.Steps.{AllLie, Past};
ghost use Rattle.leaf.specs.Whole.{LeafType, TakenAt};
ghost use Rattle.leaf_pass.specs.Way.{marks, has_gaps};
ghost use Rattle.leaf_pass.specs.Scan.{Comes, first_left, begin_before, Fallen, Entered, Scanned, Passed};
ghost use Rattle.leaf_pass.specs.Ends.{gap_before, gaps_before, Stopped, Blocks, FreeMarked};
ghost use Rattle.leaf_pass.specs.Calm.{Calm};

use cell::{INDEX_LEAF, TABLE_LEAF, max_local, read_cell};
use leaf::{Extent, local_cell, reads_at};
use number::{be16, wide};
use page::{OpenPage, Place, clear, content_start, suits};

// What one pass over a leaf finds where nothing on it is left to follow but payloads: its type, the number of its cells, and on a table leaf with cells the
// least row number that may come next. Payloads are left to follow of cells with an index in from..to at most.
#[derive(Clone, Copy)]
pub struct Leaf {
    pub kind: u8,
    pub cells: usize,
    pub next: u64,
    pub from: usize,
    pub to: usize,
}

// Whether a type is a leaf's.
fn is_leaf(kind: u8) -> bool
    ensures { result ≡ true → LeafType kind }
{
    kind == TABLE_LEAF || kind == INDEX_LEAF
}

// How many bytes a leaf's cell takes, and its row number.
#[derive(Clone, Copy)]
struct Taken {
    size: usize,
    row: u64,
}

// The cell at `at` as the general reader reads it, where it has no refusal and no number spelled long: it may have a chain.
fn general_cell(page: &OpenPage, at: usize) -> Option<Taken>
    requires { at ≤ 65536 }
    ensures { IfSome result (λ cell. TakenAt page.now.bytes.now page.now.usable page.now.kind at cell.size cell.row) }
{
    let c = read_cell(page.bytes, page.usable, page.kind, at);
    if c.fault != 0 || c.long != 0 {
        return None;
    }
    let size = c.end - at;
    Some(Taken { size, row: c.row })
}

// On a table leaf, the least row number that may come after `row`, where that is at least `least` and one may come. On an index leaf 1.
fn next_row(kind: u8, least: u64, row: u64) -> Option<u64>
    ensures { IfSome result (λ next. Comes kind least row next) }
{
    if kind != TABLE_LEAF {
        return Some(1);
    }
    if row < least {
        return None;
    }
    row.checked_add(1)
}

// The first of the cells whose payloads are left to follow, once the ith is one: before it there is none where `to` is 0.
fn first_left(i: usize, from: usize, to: usize) -> usize
    ensures { result ≡ first_left i from to }
{
    if to == 0 { i } else { from }
}

// Where the cell before the ith begins; before the first, u.
fn begin_before(page: &OpenPage, i: usize) -> usize
    requires { page.now.first + 2 * i ≤ page.now.usable }
    ensures { result ≡ begin_before page.now.bytes.now page.now.usable page.now.first i }
{
    if i == 0 {
        page.usable
    } else {
        be16(page.bytes, page.first + 2 * (i - 1))
    }
}

// How it is seen that no cell clashes with another.
#[derive(Clone, Copy)]
enum Way {
    // The last byte of each is marked.
    Marking,
    // Each ends just where the one before it begins.
    Stacked,
    // Each ends at or before that.
    Falling,
}

// Enters the ith cell: marks its last byte, or says whether it lies as it must. The cells so far take `bytes` bytes; where they are stacked they fill at..u.
fn enter(
    page: &OpenPage,
    i: usize,
    at: usize,
    size: usize,
    bytes: usize,
    way: Way,
    s: &mut [u8],
) -> bool
    requires { (page.now.first + 2 * i ≤ page.now.usable) × (1 ≤ size) × (at + size ≤ length s.old) × (at + size ≤ 65536) × (bytes ≤ 4294967296) }
    ensures { Entered s.old s.new at size (marks way) (Fallen page.now.bytes.now page.now.usable page.now.first i at size bytes (has_gaps way)) result }
{
    match way {
        Way::Marking => {
            s[at + size - 1] = 1;
            true
        }
        Way::Stacked => at + bytes == page.usable,
        Way::Falling => at + size <= begin_before(page, i),
    }
}

// Whether a cell that lies whole on the page has a record that reads.
fn whole(p: &[u8], cell: Option<Extent>) -> bool
    requires { IfSome cell (λ c. (c.start + c.length ≤ 65536) × (c.start + c.length ≤ length p.now)) }
    ensures { result ≡ true → IsSomeAnd cell (λ c. reads_of (part p.now c.start c.length) ≡ true) }
{
    match cell {
        Some(c) => reads_at(p, c.start, c.length),
        None => false,
    }
}

// What one pass over a leaf's cells finds where none has a refusal or a number spelled long, and their rows rise: how many bytes they take, the least row
// number that may come next, and from..to, outside of which all are whole.
#[derive(Clone, Copy)]
struct Scan {
    bytes: usize,
    next: u64,
    from: usize,
    to: usize,
}

// Reads the cells of a leaf, whose rows begin at `lowest`, and marks their last bytes; or goes on as long as they lie as they must. A record is looked
// at last, when little else is held: then the compiler keeps all of that in registers.
fn scan_cells(page: &OpenPage, lowest: u64, way: Way, s: &mut [u8]) -> Option<Scan>
    requires { LeafType page.now.kind × (page.now.first + 2 * page.now.cells ≤ page.now.usable) × (page.now.usable ≤ length s.old) }
    ensures scanned { IfSome result (λ scan. Scanned page.now.bytes.now page.now.usable page.now.head s.old s.new lowest (marks way) scan) }
    ensures past { Past page.now.usable s.old s.new }
{
    // Fields that stay in registers in the loop.
    let OpenPage {
        bytes: p,
        usable,
        kind,
        start,
        first,
        cells,
        ..
    } = *page;
    let most = max_local(usable, kind);
    let mut bytes: usize = 0;
    let mut least = lowest;
    let mut from: usize = 0;
    let mut to: usize = 0;
    for i in 0..cells {
        let at = be16(p, first + 2 * i);
        if at < start {
            return None;
        }
        let local = local_cell(p, usable, kind, at, most);
        let Taken { size, row } = match local {
            Some(cell) => Taken {
                size: cell.size,
                row: cell.row,
            },
            None => general_cell(page, at)?,
        };
        bytes += size;
        if !enter(page, i, at, size, bytes, way, s) {
            return None;
        }
        least = next_row(kind, least, row)?;
        if !whole(p, local) {
            from = first_left(i, from, to);
            to = i + 1;
        }
    }
    Some(Scan {
        bytes,
        next: least,
        from,
        to,
    })
}

// One byte of each 64, put together: halves, so that the compiler leaves the loop as it is.
fn touch(p: &[u8], u: usize) -> u64
    requires { (u ≤ 65536) × (u ≤ length p.now) }
{
    let mut sum: u64 = 0;
    for lines in p[..u].chunks_exact(256) {
        sum = sum / 2 + wide(lines[0]) + wide(lines[64]) + wide(lines[128]) + wide(lines[192]);
    }
    sum
}

// Brings a page of many small cells into the cache, one byte of each 64: the cells' own reads jump about, and find it there then (1.45 times as fast on
// 16 MiB). What comes out is put into the scratch, so that the reads are not idle.
fn fetch(page: &OpenPage, marks: &mut [u8])
    requires { page.now.usable ≤ length marks.old }
    ensures { Past page.now.usable marks.old marks.new }
{
    // Large cells lie in few of a page's lines.
    if page.cells >= page.usable / 256 {
        marks[0] = (touch(page.bytes, page.usable) % 256) as u8;
    }
}

// Whether a leaf has no freeblock, and its cells may fall: the last begins the content.
fn may_fall(page: &OpenPage) -> bool
    requires { page.now.first + 2 * page.now.cells ≤ page.now.usable }
    ensures { result ≡ true → first_freeblock page.now.bytes.now page.now.head ≡ 0 }
{
    be16(page.bytes, page.head + 1) == 0
        && page.cells != 0
        && be16(page.bytes, page.first + 2 * (page.cells - 1)) == page.start
}

// What is found of a leaf whose cells were scanned.
fn leaf_of(page: &OpenPage, scan: Scan) -> Leaf
    ensures { result ≡ record { kind = page.now.kind; cells = page.now.cells; next = scan.next; from = scan.from; to = scan.to } }
{
    Leaf {
        kind: page.kind,
        cells: page.cells,
        next: scan.next,
        from: scan.from,
        to: scan.to,
    }
}

// Passes over a leaf without freeblocks whose cells fall, each before the one before it: none clashes with another, so that nothing is to be marked. With
// fragments there are gaps between them.
fn pass_falling(page: &OpenPage, least: u64, marks: &mut [u8]) -> Option<Leaf>
    requires { LeafType page.now.kind × (page.now.start ≤ page.now.usable) × (page.now.first + 2 * page.now.cells ≤ page.now.start)
        × (page.now.usable ≤ length marks.old) }
    ensures passed { IfSome result (λ leaf. Passed page.now.bytes.now page.now.usable page.now.head least leaf) }
    ensures past { Past page.now.usable marks.old marks.new }
{
    if !may_fall(page) {
        return None;
    }
    let fragments = usize::from(page.bytes[page.head + 7]);
    if fragments > 60 {
        return None;
    }
    let way = if fragments == 0 {
        Way::Stacked
    } else {
        Way::Falling
    };
    let scan = scan_cells(page, least, way, marks)?;
    if scan.bytes + fragments != page.usable - page.start {
        return None;
    }
    Some(leaf_of(page, scan))
}

// Marks the last bytes of the freeblocks from `first` on: how many bytes they take, where each lies in the content and before the next.
fn mark_free(page: &OpenPage, first: usize, s: &mut [u8]) -> Option<usize>
    requires { page.now.usable ≤ length s.old }
    ensures marked { IfSome result (λ bytes. FreeMarked page.now.bytes.now page.now.start page.now.usable first s.old s.new bytes × (bytes ≤ 4294967296)) }
    ensures past { Past page.now.usable s.old s.new }
{
    let mut bytes: usize = 0;
    let mut at = first;
    while at != 0 {
        let block = page.read_freeblock(at)?;
        s[at + block.size - 1] = 1;
        bytes += block.size;
        at = block.next;
    }
    Some(bytes)
}

// How many bytes right before `at` are not marked, down to `start`, before which one is; more than `most` where there are more.
fn gap_before(s: &[u8], start: usize, at: usize, most: usize) -> usize
    requires { Stopped s.now start × (start ≤ at) × (at ≤ length s.now) × (at ≤ 65536) × (most ≤ 60) }
    ensures { (result ≤ 61) × (result ≤ most → result ≡ gap_before s.now (at - start) at) }
{
    for gap in 0..most + 1 {
        if s[at - gap - 1] != 0 {
            return gap;
        }
    }
    most + 1
}

// The gaps before the cells, and `gaps`; more than `most` where they are more.
fn gaps_cells(page: &OpenPage, s: &[u8], gaps: usize, most: usize) -> usize
    requires { (page.now.first + 2 * page.now.cells ≤ page.now.usable) × (page.now.usable ≤ length s.now)
        × AllLie page.now.start page.now.usable (cell_spans page.now.bytes.now page.now.usable page.now.head 0 (cell_count page.now.bytes.now page.now.head))
        × Stopped s.now page.now.start × (gaps ≤ 61) × (most ≤ 60) }
    ensures few { result ≤ 122 }
    ensures gaps { result ≤ most → result ≡ gaps + gaps_before s.now page.now.start (cell_spans page.now.bytes.now page.now.usable page.now.head 0 (cell_count page.now.bytes.now page.now.head)) }
{
    let mut all = gaps;
    for i in 0..page.cells {
        if most < all {
            return all;
        }
        let at = be16(page.bytes, page.first + 2 * i);
        all += gap_before(s, page.start, at, most);
    }
    all
}

// The gaps before the freeblocks from `first` on, and `gaps`; more than `most` where they are more.
fn gaps_free(page: &OpenPage, first: usize, s: &[u8], gaps: usize, most: usize) -> usize
    requires { (page.now.usable ≤ length s.now) × Blocks page.now.bytes.now page.now.start page.now.usable first × Stopped s.now page.now.start
        × (gaps ≤ 122) × (most ≤ 60) }
    ensures { (ss : List Span) → Freeblocks page.now.bytes.now page.now.usable first ss → result ≤ most → result ≡ gaps + gaps_before s.now page.now.start ss }
{
    let mut all = gaps;
    let mut at = first;
    while at != 0 {
        if most < all {
            return all;
        }
        all += gap_before(s, page.start, at, most);
        at = be16(page.bytes, at);
    }
    all
}

// Passes over any leaf, and marks the last bytes of its cells and freeblocks. Where what lies between them is as many bytes as the fragments, and all
// together fill the content, none clashes with another.
fn pass_marking(page: &OpenPage, least: u64, marks: &mut [u8]) -> Option<Leaf>
    requires { LeafType page.now.kind × (page.now.start ≤ page.now.usable) × (page.now.first + 2 * page.now.cells ≤ page.now.start)
        × (page.now.usable ≤ length marks.old) }
    ensures passed { IfSome result (λ leaf. Passed page.now.bytes.now page.now.usable page.now.head least leaf) }
    ensures past { Past page.now.usable marks.old marks.new }
{
    clear(marks, page.start, page.usable);
    marks[page.start - 1] = 1;
    let scan = scan_cells(page, least, Way::Marking, marks)?;
    let block = be16(page.bytes, page.head + 1);
    let free = mark_free(page, block, marks)?;
    let fragments = usize::from(page.bytes[page.head + 7]);
    if fragments > 60 || scan.bytes + free + fragments != page.usable - page.start {
        return None;
    }
    let top = gap_before(marks, page.start, page.usable, fragments);
    let cells = gaps_cells(page, marks, top, fragments);
    let all = gaps_free(page, block, marks, cells, fragments);
    if all != fragments {
        return None;
    }
    Some(leaf_of(page, scan))
}

// Passes over a leaf whose header is read and whose pointer array ends in time.
fn pass(page: &OpenPage, least: u64, marks: &mut [u8]) -> Option<Leaf>
    requires { LeafType page.now.kind × (page.now.start ≤ page.now.usable) × (page.now.first + 2 * page.now.cells ≤ page.now.start)
        × (page.now.usable ≤ length marks.old) }
    ensures passed { IfSome result (λ leaf. Passed page.now.bytes.now page.now.usable page.now.head least leaf) }
    ensures past { Past page.now.usable marks.old marks.new }
{
    fetch(page, marks);
    let falling = pass_falling(page, least, marks);
    if falling.is_some() {
        return falling;
    }
    pass_marking(page, least, marks)
}

// Checks a leaf in its place, in one pass over its cells. With None nothing is said: the page is no leaf, or has a refusal, a number spelled long, or rows
// that do not rise from `least` on.
pub fn check_leaf(
    p: &[u8],
    u: usize,
    head: usize,
    place: Place,
    least: u64,
    marks: &mut [u8],
) -> Option<Leaf>
    requires { (480 ≤ u) × (u ≤ 65536) × (u ≤ length p.now) × (head ≤ 100) × (u ≤ length marks.old) }
    ensures calm { IfSome result (λ leaf. Calm place p.now u head least leaf) }
    ensures past { Past u marks.old marks.new }
{
    let kind = p[head];
    if !suits(place, kind) || !is_leaf(kind) {
        return None;
    }
    let page = OpenPage {
        bytes: p,
        usable: u,
        head,
        kind,
        start: content_start(p, head),
        first: head + 8,
        cells: be16(p, head + 3),
    };
    if u < page.start || page.start < page.first + 2 * page.cells {
        return None;
    }
    pass(&page, least, marks)
}
