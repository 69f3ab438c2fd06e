// A row set to a record of any length that fits: its leaf page is laid anew.
#![tactic(auto)]

ghost use Rattle.std.specs.Prelude.{◌≡◌, ◌+◌, ◌-◌, ◌*◌, ◌≤◌, ◌<◌, cond, eqb, length, ◌≢◌, false};
ghost use Rattle.record.specs.Record.{reads_of};
ghost use Rattle.paging.specs.Pages.{over};
ghost use Rattle.page.specs.Header.{cell_count};
ghost use Rattle.writing.specs.Cells.{be_bytes};
ghost use Rattle.writing.specs.Pages.{header_bytes};
ghost use Rattle.setting.specs.Relaid.{cell_part, cell_with, stacked, leaf_page, relaid};
ghost use Rattle.setting.specs.Laying.{SoundLeaf, sizes_with, new_cell, cells_anew, stack_laid, MayLay, CellRoom};
ghost use Rattle.header.specs.Header.{size_of, Within};
ghost use Rattle.image.specs.Pages.{page_in};
ghost use Rattle.dealing.specs.Good.{Dealing};
ghost use Rattle.image.specs.Good.{GoodDealing};
ghost use Rattle.setting.specs.Answers.{may_write, fit_for, refusal_for, set_of, image_after, Own, Means, FoundAt, start_for, Ready, idle, Judged, Planned};

// The refusal, 0 for none, and the page reported; whether the row was set, its cell, with its index from 0, and the record's length.
#[derive(Clone, Copy)]
pub struct Outcome {
    pub refusal: u32,
    pub found: bool,
    pub page: u32,
    pub cell: u32,
    pub length: u32,
}

// How many cells a leaf has, and where they begin once it is laid anew: 0 where there is no room.
#[derive(Clone, Copy)]
struct Room {
    count: usize,
    start: usize,
}

// Whether the leaf is to be laid anew, and how.
#[derive(Clone, Copy)]
struct Plan {
    ready: bool,
    size: usize,
    usable: usize,
    count: usize,
    start: usize,
    answer: Outcome,
}

// How many bytes the cell of a row takes, whose record has no chain.
fn fresh_size(u: usize, row: i64, fresh: &[u8]) -> usize
    requires { (480 ≤ u) × (u ≤ 65536) × (length fresh.now ≤ u - 35) }
    ensures { result ≡ length (new_cell u row fresh.now) }
{
    let bits = number::word_of(row);
    let first = number::varint_size(fresh.len() as u64);
    let second = number::varint_size(bits);
    let n = first + second + fresh.len();
    n.max(4)
}

// How many bytes the kth cell of a leaf takes.
fn part_size(p: &[u8], u: usize, k: usize) -> usize
    requires { SoundLeaf p.now u × (k < cell_count p.now 0) }
    ensures { (result ≡ length (cell_part p.now u k)) × (result ≤ 65536) }
{
    let c = page::cell_of(p, u, 0, 13, k);
    let at = number::be16(p, 8 + 2 * k);
    let end = c.end;
    end - at
}

// The same, but for one cell, which has n.
fn size_at(p: &[u8], u: usize, cell: usize, n: usize, k: usize) -> usize
    requires { SoundLeaf p.now u × (k < cell_count p.now 0) × (n ≤ 65536) }
    ensures { (result ≡ cond (eqb k cell) n (length (cell_part p.now u k))) × (result ≤ 65536) }
{
    if k == cell { n } else { part_size(p, u, k) }
}

// And of all cells together.
fn sizes(p: &[u8], u: usize, cell: usize, n: usize, count: usize) -> usize
    requires { SoundLeaf p.now u × (count ≡ cell_count p.now 0) × (n ≤ 65536) }
    ensures { (result ≡ sizes_with p.now u cell n 0 count) × (result ≤ 65536 * count) }
{
    let mut sum = 0;
    for k in 0..count {
        sum += size_at(p, u, cell, n, k);
    }
    sum
}

// The kth cell and its pointer, the cell ending at `top`; where it begins.
fn put_at(
    out: &mut [u8],
    p: &[u8],
    u: usize,
    cell: usize,
    row: i64,
    fresh: &[u8],
    k: usize,
    top: usize,
) -> usize
    requires { CellRoom p.now u cell row fresh.now (length out.old) k top }
    ensures { (result ≡ top - length (cell_with p.now u cell (new_cell u row fresh.now) k))
        × (out.new ≡ over (over out.old (8 + 2 * k) (be_bytes 2 result)) result (cell_with p.now u cell (new_cell u row fresh.now) k)) }
{
    if k == cell {
        let n = fresh_size(u, row, fresh);
        let at = top - n;
        writing::put_half(out, 8 + 2 * k, at);
        writing::put_row(out, u, at, row, fresh, 0);
        return at;
    }
    let n = part_size(p, u, k);
    let at = top - n;
    let from = number::be16(p, 8 + 2 * k);
    writing::put_half(out, 8 + 2 * k, at);
    paging::lay(out, at, &p[from..from + n]);
    at
}

// All cells with their pointers.
fn put_all(out: &mut [u8], p: &[u8], u: usize, cell: usize, row: i64, fresh: &[u8], count: usize)
    requires { MayLay p.now u cell row fresh.now (length out.old) × (count ≡ cell_count p.now 0) }
    ensures { out.new ≡ stack_laid out.old 8 u (cells_anew p.now u cell row fresh.now) }
{
    let mut top = u;
    for k in 0..count {
        top = put_at(out, p, u, cell, row, fresh, k, top);
    }
}

// The header of a table leaf with no freeblock and no fragment.
fn put_header(out: &mut [u8], count: usize, start: usize)
    requires { 8 ≤ length out.old }
    ensures { out.new ≡ over out.old 0 (header_bytes 13 count start 0) }
{
    writing::put_half(out, 0, 3328);
    writing::put_zeros(out, 2, 1);
    writing::put_half(out, 3, count);
    writing::put_half(out, 5, start);
    writing::put_zeros(out, 7, 1);
}

// The leaf p with one cell another, over the first u bytes of `out`.
fn put_leaf(
    out: &mut [u8],
    p: &[u8],
    u: usize,
    cell: usize,
    row: i64,
    fresh: &[u8],
    count: usize,
    start: usize,
)
    requires { MayLay p.now u cell row fresh.now (length out.old) × (count ≡ cell_count p.now 0)
        × (start ≡ u - length (stacked (cells_anew p.now u cell row fresh.now))) }
    ensures { out.new ≡ over out.old 0 (leaf_page u (cells_anew p.now u cell row fresh.now)) }
{
    put_header(out, count, start);
    writing::put_zeros(out, 8 + 2 * count, start - 8 - 2 * count);
    put_all(out, p, u, cell, row, fresh, count);
}

// Where the cells of the leaf p begin once one is another.
fn room_for(p: &[u8], u: usize, cell: usize, row: i64, fresh: &[u8]) -> Room
    requires { SoundLeaf p.now u × (length fresh.now ≤ u - 35) }
    ensures { (result.count ≡ cell_count p.now 0) × (result.start ≡ start_for u (cells_anew p.now u cell row fresh.now)) }
{
    let count = number::be16(p, 3);
    let n = fresh_size(u, row, fresh);
    let total = sizes(p, u, cell, n, count);
    if u < 8 + 2 * count + total {
        return Room { count, start: 0 };
    }
    Room {
        count,
        start: u - total,
    }
}

fn measure(
    image: &[u8],
    size: usize,
    u: usize,
    page: usize,
    cell: usize,
    row: i64,
    fresh: &[u8],
) -> Room
    requires { (size ≡ size_of image.now) × Within image.now size page × SoundLeaf (page_in image.now page) u × (length fresh.now ≤ u - 35) }
    ensures { (result.count ≡ cell_count (page_in image.now page) 0)
        × (result.start ≡ start_for u (cells_anew (page_in image.now page) u cell row fresh.now)) }
{
    let p = header::page_of(image, size, page);
    room_for(p, u, cell, row, fresh)
}

// The leaf laid anew over a buffer.
fn build(
    out: &mut [u8],
    image: &[u8],
    size: usize,
    u: usize,
    page: usize,
    cell: usize,
    row: i64,
    fresh: &[u8],
    count: usize,
    start: usize,
)
    requires { Ready image.now page cell row fresh.now size u count start × (length out.old ≡ 65536) }
    ensures { out.new ≡ over out.old 0 (leaf_page u (cells_anew (page_in image.now page) u cell row fresh.now)) }
{
    let p = header::page_of(image, size, page);
    put_leaf(out, p, u, cell, row, fresh, count, start);
}

// Where page p begins in the image.
fn place_of(size: usize, p: usize) -> usize
    requires { (1 ≤ p) × (p ≤ 2200000) × (size ≤ 65536) }
    ensures { result ≡ (p - 1) * size }
{
    (p - 1) * size
}

// .. and over its page.
fn relay(
    image: &mut [u8],
    size: usize,
    u: usize,
    page: usize,
    cell: usize,
    row: i64,
    fresh: &[u8],
    count: usize,
    start: usize,
)
    requires { Ready image.old page cell row fresh.now size u count start }
    ensures { image.new ≡ relaid image.old page cell row fresh.now }
{
    let mut out = [0u8; 65536];
    build(
        &mut out, image, size, u, page, cell, row, fresh, count, start,
    );
    let at = place_of(size, page);
    paging::lay(image, at, &out[..u]);
}

// Nothing is to be done.
fn idle(number: u32, page: u32) -> Plan
    ensures { result ≡ idle number page }
{
    Plan {
        ready: false,
        size: 0,
        usable: 0,
        count: 0,
        start: 0,
        answer: Outcome {
            refusal: number,
            found: false,
            page,
            cell: 0,
            length: 0,
        },
    }
}

// Whether the ledger has a root there, and neither it nor the leaf is page 1.
fn may_write(kinds: &[u8], root: u32, page: u32) -> bool
    ensures { result ≡ may_write kinds.now root page }
{
    if root < 2 {
        return false;
    }
    if page == 1 {
        return false;
    }
    let i = root as usize - 1;
    if kinds.len() <= i {
        return false;
    }
    kinds[i] == 1
}

// A cell that lookup shows, for a record that reads.
fn fit(image: &[u8], row: i64, page: u32, cell: u32, fresh: &[u8]) -> Plan
    requires { FoundAt image.now page cell × (page ≢ 1) }
    ensures { Judged image.now (fit_for image.now page cell row fresh.now) page cell row fresh.now result }
{
    let h = header::check_header(image).unwrap();
    let c = image::tree_cell(image, h, page, 13, cell as usize);
    if cell::cell_links(h.usable, c) != 0 {
        return idle(54, page);
    }
    let size = h.size;
    let u = h.usable;
    let most = cell::max_local(u, 13);
    if most < fresh.len() {
        return idle(54, page);
    }
    let r = measure(image, size, u, page as usize, cell as usize, row, fresh);
    if r.start == 0 {
        return idle(54, page);
    }
    Plan {
        ready: true,
        size,
        usable: u,
        count: r.count,
        start: r.start,
        answer: Outcome {
            refusal: 0,
            found: true,
            page,
            cell,
            length: fresh.len() as u32,
        },
    }
}

// A cell that lookup shows.
fn judge(
    image: &[u8],
    kinds: &[u8],
    root: u32,
    row: i64,
    page: u32,
    cell: u32,
    fresh: &[u8],
) -> Plan
    requires { FoundAt image.now page cell }
    ensures { Judged image.now (refusal_for image.now kinds.now root page cell row fresh.now) page cell row fresh.now result }
{
    if may_write(kinds, root, page) {
        if record::reads(fresh) {
            return fit(image, row, page, cell, fresh);
        }
        return idle(28, 0);
    }
    idle(53, page)
}

fn plan_for(image: &[u8], kinds: &[u8], root: u32, row: i64, fresh: &[u8]) -> Plan
    ensures { Planned image.now kinds.now root row fresh.now result }
{
    match lookup::lookup(image, root, row) {
        Ok(None) => idle(0, 0),
        Ok(Some(at)) => judge(image, kinds, root, row, at.page, at.cell, fresh),
        Err(e) => idle(e.rule.number(), e.page),
    }
}

// Sets a row of the table tree under `root` to a record; `kinds` is the ledger of kinds that the verdict gave for the image.
pub fn set(image: &mut [u8], kinds: &[u8], root: u32, row: i64, fresh: &[u8]) -> Outcome
    ensures answer { result ≡ set_of image.old kinds.now root row fresh.now }
    ensures image { image.new ≡ image_after image.old kinds.now root row fresh.now }
    ensures untouched { result.found ≡ false → image.new ≡ image.old }
    ensures good { (d : Dealing) → GoodDealing image.old d → Own image.old d kinds.now root
        → Means image.old image.new d root row fresh.now result }
{
    let p = plan_for(image, kinds, root, row, fresh);
    let answer = p.answer;
    let size = p.size;
    let u = p.usable;
    let count = p.count;
    let start = p.start;
    let page = answer.page as usize;
    let cell = answer.cell as usize;
    if p.ready {
        relay(image, size, u, page, cell, row, fresh, count, start);
        return answer;
    }
    answer
}
