// A tree page by itself: its header, its cells, and whether it is sound.
#![tactic(auto)]

ghost use Rattle.std.specs.Prelude.{◌≡◌, ◌+◌, ◌*◌, ◌≤◌, ◌<◌, true, false, length, IfOk, IfErr, IfSome, IfNone};
ghost use Rattle.refusal.specs.Rule.{number_of};
ghost use Rattle.cell.specs.Split.{table_interior};
ghost use Rattle.cell.specs.Cell.{child_width, cell_at};
ghost use Rattle.page.specs.Header.{page_type, cell_count, content_start, right_pointer, is_table, is_index, pointer_place, cell_of};
ghost use Rattle.page.specs.Place.{allowed};
ghost use Rattle.page.specs.Checked.{told};
ghost use Rattle.page.specs.Fault.{cell_fault, checked_of};
ghost use Rattle.page.specs.Steps.{Cleared, Noted, Hop, Inside, Counted, Fallen, Opened, Extends, KeyExtends};
ghost use Rattle.page.specs.Steps.{CellsPlaced, AllNoted, Judged, BlockRead, NoBlock, FreePlaced, Rested, Past};

use cell::{Cell, INDEX_INTERIOR, INDEX_LEAF, TABLE_INTERIOR, TABLE_LEAF, child_width, read_cell};
use number::{be16, be32, varint_word};
use refusal::Rule;

// Where a tree page stands, which says the types that suit it.
#[derive(Clone, Copy)]
pub enum Place {
    // Page 1: a table page.
    SchemaRoot,
    // A root that a schema row names: any tree page.
    AnyRoot,
    // A page of a table tree.
    TablePage,
    // A page of an index tree.
    IndexPage,
    // A page whose cells have payloads: all but table interior pages.
    PayloadPage,
}

// A tree page that was checked: its type, the number of its cells, and on interior pages the right pointer.
#[derive(Clone, Copy)]
pub struct TreePage {
    pub kind: u8,
    pub cells: usize,
    pub right: u32,
}

pub fn is_table(kind: u8) -> bool
    ensures { result ≡ is_table kind }
{
    kind == TABLE_INTERIOR || kind == TABLE_LEAF
}

fn is_index(kind: u8) -> bool
    ensures { result ≡ is_index kind }
{
    kind == INDEX_INTERIOR || kind == INDEX_LEAF
}

// Whether a type suits a place.
#[tactic(auto, unfolding(crate::specs::Place::allowed))]
pub fn suits(place: Place, kind: u8) -> bool
    ensures { result ≡ allowed place kind }
{
    match place {
        Place::SchemaRoot | Place::TablePage => is_table(kind),
        Place::IndexPage => is_index(kind),
        Place::AnyRoot => is_table(kind) || is_index(kind),
        Place::PayloadPage => kind == TABLE_LEAF || is_index(kind),
    }
}

pub fn content_start(p: &[u8], head: usize) -> usize
    requires { (head ≤ 100) × (480 ≤ length p.now) }
    ensures { (result ≡ content_start p.now head) × (result ≤ 65536) }
{
    let field = be16(p, head + 5);
    if field == 0 { 65536 } else { field }
}

fn right_pointer(p: &[u8], head: usize, kind: u8) -> u32
    requires { (head ≤ 100) × (480 ≤ length p.now) × (kind ≡ page_type p.now head) }
    ensures { result ≡ right_pointer p.now head }
{
    if child_width(kind) == 0 {
        0
    } else {
        be32(p, head + 8)
    }
}

// Where the cell pointers begin.
pub fn array_start(head: usize, kind: u8) -> usize
    requires { head ≤ 100 }
    ensures { (result ≡ head + 8 + child_width kind) × (result ≤ 112) }
{
    head + 8 + child_width(kind)
}

// Clears a..e.
pub fn clear(s: &mut [u8], a: usize, e: usize)
    requires { (a ≤ e) × (e ≤ length s.old) }
    ensures { Cleared s.old s.new a e }
{
    s[a..e].fill(0);
}

// Notes a span of `size` bytes at `at`. Of the four bytes from a multiple of 4 on, the first says which of them a span begins at, the next two its
// length past 4: spans take at least 4 bytes, so no two that are apart begin there.
fn note(s: &mut [u8], at: usize, size: usize)
    requires { (at + 4 ≤ length s.old) × (4 ≤ size) × (size ≤ 65536) }
    ensures { Noted s.old s.new at size }
{
    let rest = at % 4;
    let slot = at - rest;
    s[slot] = (rest + 1) as u8;
    let more = size - 4;
    s[slot + 1] = (more % 256) as u8;
    s[slot + 2] = (more / 256) as u8;
}

// How far to hop from j: over the span that is noted there, else over one byte.
fn hop(s: &[u8], j: usize) -> usize
    requires { j + 4 ≤ length s.now }
    ensures { Hop s.now j result }
{
    let rest = j % 4;
    let slot = j - rest;
    if usize::from(s[slot]) != rest + 1 {
        return 1;
    }
    usize::from(s[slot + 1]) + 256 * usize::from(s[slot + 2]) + 4
}

// Hops from a to e over the spans that are noted, and counts the bytes between them.
fn count_gaps(s: &[u8], a: usize, e: usize) -> usize
    requires { (a ≤ e) × (4 ≤ e) × (e ≤ 65536) × (e ≤ length s.now) × Inside s.now a e }
    ensures { Counted s.now a e result }
{
    let mut gaps: usize = 0;
    let mut j = a;
    while j <= e - 4 {
        let step = hop(s, j);
        if step == 1 {
            gaps += 1;
        }
        j += step;
    }
    gaps + (e - j)
}

// Where a cell lies.
#[derive(Clone, Copy)]
struct Extent {
    at: usize,
    end: usize,
}

// Where the cell at `at` of a table interior page lies, a child and a key: only the key's length is asked for.
fn key_extent(p: &[u8], u: usize, at: usize) -> Result<Extent, Rule>
    requires { (u ≤ 65536) × (u ≤ length p.now) × (at < u) }
    ensures lies { IfOk result (λ cell. KeyExtends p.now u at 0 cell.at cell.end) }
    ensures refused { IfErr result (λ rule. number_of rule ≡ (cell_at p.now u table_interior at).fault) }
{
    let key = at + 4;
    if key >= u {
        return Err(Rule::NotSound);
    }
    if p[key] < 128 {
        let end = key + 1;
        return Ok(Extent { at, end });
    }
    let n = varint_word(p, key, u).length;
    if n == 0 {
        return Err(Rule::NotSound);
    }
    let end = key + n;
    Ok(Extent { at, end })
}

// A tree page whose header is read: how many of its bytes are usable, where its header begins, its type, where its content and its cell pointers begin, and
// how many cells it has.
#[derive(Clone, Copy)]
pub struct OpenPage<'a> {
    pub bytes: &'a [u8],
    pub usable: usize,
    pub head: usize,
    pub kind: u8,
    pub start: usize,
    pub first: usize,
    pub cells: usize,
    ghost opened: { Opened bytes.now usable head kind start first },
    ghost count: { cells ≡ cell_count bytes.now head },
    ghost few: { cells < 65536 },
}

// Where a span that ends at or before `low` begins, 0 for another.
fn fall(low: usize, at: usize, end: usize) -> usize
    ensures { Fallen low at end result }
{
    if end > low { 0 } else { at }
}

// How many bytes the cells take, and whether each lies before the one before it, as they do where rows came in order: `low` is then where the last
// begins, else 0.
#[derive(Clone, Copy)]
struct Held {
    bytes: usize,
    low: usize,
}

// A freeblock: where the next begins, 0 after the last, and how many bytes it takes.
#[derive(Clone, Copy)]
pub struct Freeblock {
    pub next: usize,
    pub size: usize,
}

// Whether a freeblock lies in start..u, has at least 4 bytes, and comes before the next, if there is one.
fn fits(start: usize, u: usize, at: usize, next: usize, size: usize) -> bool
    requires { at ≤ u }
    ensures { Judged start u at next size result }
{
    start <= at && 4 <= size && size <= u - at && (next == 0 || at < next)
}

impl OpenPage<'_> {
    // Where the ith cell lies.
    fn cell_extent(&self, i: usize) -> Result<Extent, Rule>
        requires { i < 65536 }
        ensures lies { IfOk result (λ cell. Extends self.now.bytes.now self.now.usable self.now.head i 0 cell.at cell.end) }
        ensures refused { IfErr result (λ rule. number_of rule ≡ cell_fault self.now.bytes.now self.now.usable self.now.head i) }
    {
        let place = self.first + 2 * i;
        if place + 2 > self.usable {
            return Err(Rule::NotSound);
        }
        let at = be16(self.bytes, place);
        if at < self.start || at >= self.usable {
            return Err(Rule::NotSound);
        }
        if self.kind == TABLE_INTERIOR {
            return key_extent(self.bytes, self.usable, at);
        }
        let c = read_cell(self.bytes, self.usable, self.kind, at);
        if c.fault == 26 {
            return Err(Rule::LongPayload);
        }
        if c.fault != 0 {
            return Err(Rule::NotSound);
        }
        Ok(Extent { at, end: c.end })
    }

    // Reads the cells, and notes them. A cell that clashes with another refuses nothing yet: a later cell may have a refusal of its own.
    fn place_cells(&self, s: &mut [u8]) -> Result<Held, Rule>
        requires { self.now.usable ≤ length s.old }
        ensures noted { IfOk result (λ held. CellsPlaced self.now.bytes.now self.now.usable self.now.head s.old s.new 0 held.bytes held.low) }
        ensures refused { IfErr result (λ rule. CellsPlaced self.now.bytes.now self.now.usable self.now.head s.old s.new (number_of rule) 0 0) }
    {
        let mut bytes: usize = 0;
        let mut low = self.usable;
        for i in 0..self.cells {
            let cell = self.cell_extent(i)?;
            let size = cell.end - cell.at;
            note(s, cell.at, size);
            bytes += size;
            low = fall(low, cell.at, cell.end);
        }
        Ok(Held { bytes, low })
    }

    // The freeblock at `at`, where it lies in the content, has at least 4 bytes, and comes before the next, if there is one.
    pub fn read_freeblock(&self, at: usize) -> Option<Freeblock>
        ensures read { IfSome result (λ block. BlockRead self.now.bytes.now self.now.start self.now.usable at block.next block.size) }
        ensures unfit { IfNone result (NoBlock self.now.bytes.now self.now.start self.now.usable at) }
    {
        if at > self.usable - 4 {
            return None;
        }
        let next = be16(self.bytes, at);
        let size = be16(self.bytes, at + 2);
        if !fits(self.start, self.usable, at, next, size) {
            return None;
        }
        Some(Freeblock { next, size })
    }

    // Notes the freeblocks from `first` on: how many bytes they take, where they are such.
    fn place_free(&self, first: usize, s: &mut [u8]) -> Option<usize>
        requires { self.now.usable ≤ length s.old }
        ensures noted { IfSome result (λ bytes. FreePlaced self.now.bytes.now self.now.start self.now.usable first s.old s.new true bytes × (bytes ≤ 4294967296)) }
        ensures unfit { IfNone result (FreePlaced self.now.bytes.now self.now.start self.now.usable first s.old s.new false 0) }
    {
        let mut bytes: usize = 0;
        let mut at = first;
        while at != 0 {
            let block = self.read_freeblock(at)?;
            note(s, at, block.size);
            bytes += block.size;
            at = block.next;
        }
        Some(bytes)
    }

    // Whether the page is sound, once its cells are noted in `marks`.
    fn rest(&self, held: Held, marks: &mut [u8]) -> Result<(), Rule>
        requires { (self.now.start ≤ self.now.usable) × (self.now.usable ≤ length marks.old)
            × AllNoted self.now.bytes.now self.now.usable self.now.head marks.old held.bytes held.low }
        ensures sound { IfOk result (λ _. Rested self.now.bytes.now self.now.usable self.now.head marks.old marks.new 0) }
        ensures refused { IfErr result (λ rule. Rested self.now.bytes.now self.now.usable self.now.head marks.old marks.new (number_of rule)) }
    {
        if self.first + 2 * self.cells > self.start {
            return Err(Rule::NotSound);
        }
        let fragments = usize::from(self.bytes[self.head + 7]);
        if fragments > 60 {
            return Err(Rule::NotSound);
        }
        let block = be16(self.bytes, self.head + 1);
        let Some(free) = self.place_free(block, marks) else {
            return Err(Rule::NotSound);
        };
        if held.bytes + free + fragments != self.usable - self.start {
            return Err(Rule::NotSound);
        }
        // Where the cells fall and there is no freeblock none clashes with another, and nothing is to be counted.
        if held.low != 0 && free == 0 {
            return Ok(());
        }
        if count_gaps(marks, self.start, self.usable) != fragments {
            return Err(Rule::NotSound);
        }
        Ok(())
    }

    // Checks the cells, then whether the page is sound, once its type suits. `marks` is scratch.
    fn soundness(&self, marks: &mut [u8]) -> Result<(), Rule>
        requires { self.now.usable ≤ length marks.old }
        ensures sound { IfOk result (λ _. Rested self.now.bytes.now self.now.usable self.now.head marks.old marks.new 0) }
        ensures refused { IfErr result (λ rule. Rested self.now.bytes.now self.now.usable self.now.head marks.old marks.new (number_of rule)) }
    {
        if self.start > self.usable {
            return Err(Rule::NotSound);
        }
        clear(marks, self.start - self.start % 4, self.usable);
        let held = self.place_cells(marks)?;
        self.rest(held, marks)
    }
}

// Checks a tree page in its place: 22 where its type does not suit, then 23 or 26. `marks` is scratch: what it holds below u afterwards is left open.
pub fn check_page(
    p: &[u8],
    u: usize,
    head: usize,
    place: Place,
    marks: &mut [u8],
) -> Result<TreePage, Rule>
    requires { (480 ≤ u) × (u ≤ 65536) × (u ≤ length p.now) × (head ≤ 100) × (u ≤ length marks.old) }
    ensures { (told result ≡ checked_of place p.now u head) × Past u marks.old marks.new }
{
    let kind = p[head];
    if !suits(place, kind) {
        return Err(Rule::PageType);
    }
    let page = OpenPage {
        bytes: p,
        usable: u,
        head,
        kind,
        start: content_start(p, head),
        first: array_start(head, kind),
        cells: be16(p, head + 3),
    };
    page.soundness(marks)?;
    let right = right_pointer(p, head, kind);
    Ok(TreePage {
        kind,
        cells: page.cells,
        right,
    })
}

// The ith cell of a page of that type, whose pointer lies before u.
pub fn cell_of(p: &[u8], u: usize, head: usize, kind: u8, i: usize) -> Cell
    requires { (480 ≤ u) × (u ≤ 65536) × (u ≤ length p.now) × (head ≤ 100) × (kind ≡ page_type p.now head) × (pointer_place p.now head i + 2 ≤ u) }
    ensures { result ≡ cell_of p.now u head i }
{
    let first = array_start(head, kind);
    let at = be16(p, first + 2 * i);
    read_cell(p, u, kind, at)
}
