// Rows and payloads of an image that was accepted before: no page is tested for soundness, only what is read is tested.
#![tactic(auto)]

ghost use Rattle.std.specs.Prelude.{◌≡◌, true, ℕ, ◌+◌, ◌*◌, ◌≤◌, ◌<◌, length, Ok, IfOk, IfErr, IfSome};
ghost use Rattle.refusal.specs.Rule.{number_of};
ghost use Rattle.page.specs.Header.{page_type, cell_count, is_table};
ghost use Rattle.page.specs.Fault.{cell_fault};
ghost use Rattle.dealing.specs.File.{File, level_limit};
ghost use Rattle.dealing.specs.Good.{Dealing};
ghost use Rattle.image.specs.Pages.{page_in, head_of};
ghost use Rattle.image.specs.Payload.{payload_of};
ghost use Rattle.image.specs.Good.{GoodDealing, TableRoot, PayloadCell};
ghost use Rattle.image.specs.Ready.{PageAt};
ghost use Rattle.lookup.specs.Found.{told_found};
ghost use Rattle.lookup.specs.Fetched.{told_fetched};
ghost use Rattle.lookup.specs.Answers.{out_of};
ghost use Rattle.lookup.specs.Means.{Finds, Shows, Nothing, Refuses, Fetches, Copied, NoRoom};
ghost use Rattle.quick.specs.Step.{told_step};
ghost use Rattle.quick.specs.Search.{row_word, row_seen, sought_in, cell_step, end_step, page_step};
ghost use Rattle.quick.specs.Answers.{find_page, find_of, page_quick, quick_of};
ghost use Rattle.quick.specs.Ready.{Readable, Opened, start_of, Looked, Picked, PickRefused, sought_of};

use cell::Cell;
use header::Header;
use lookup::{At, has_page};
use number::{Word, be16, be32, bias, varint_word};
use page::{Place, array_start, content_start, is_table, suits};
use refusal::{Refusal, Rule};

// Trees have at most so many levels, the root being level 1.
const LEVEL_LIMIT: u32 = 20;

// What a page says to the search for a row: no cell carries the number; the cell that does, with its payload's length; the child to go on with.
#[derive(Clone, Copy)]
pub enum Step {
    Nothing,
    Cell { index: u32, length: u32 },
    Child(u32),
}

// Where the ith cell begins, if its pointer lies on the page and points from the content's start to below u.
fn cell_start(
    p: &[u8],
    u: usize,
    head: usize,
    kind: u8,
    start: usize,
    first: usize,
    i: usize,
) -> Option<usize>
    requires { Opened p.now u head kind start first × (i < 65536) }
    ensures place { result ≡ start_of p.now u head i }
    ensures below { IfSome result (λ at. at < u) }
{
    let place = first + 2 * i;
    if place + 2 > u {
        return None;
    }
    let at = be16(p, place);
    if at < start {
        return None;
    }
    if at >= u {
        return None;
    }
    Some(at)
}

// The ith cell, or its refusal.
fn look(
    p: &[u8],
    u: usize,
    head: usize,
    kind: u8,
    start: usize,
    first: usize,
    i: usize,
) -> Result<Cell, Rule>
    requires { Opened p.now u head kind start first × (i < 65536) }
    ensures read { IfOk result (λ c. Looked p.now u head i c) }
    ensures refused { IfErr result (λ rule. number_of rule ≡ cell_fault p.now u head i) }
{
    match cell_start(p, u, head, kind, start, first, i) {
        None => Err(Rule::NotSound),
        Some(at) => {
            let c = cell::read_cell(p, u, kind, at);
            if c.fault == 26 {
                return Err(Rule::LongPayload);
            }
            if c.fault != 0 {
                return Err(Rule::NotSound);
            }
            Ok(c)
        }
    }
}

// The row number of a cell, as a varint.
fn row_word(p: &[u8], u: usize, kind: u8, at: usize) -> Word
    requires { at ≤ 65536 }
    ensures { result ≡ row_word p.now u kind at }
{
    if kind != 13 {
        return varint_word(p, at + 4, u);
    }
    let w = varint_word(p, at, u);
    if w.length == 0 {
        return w;
    }
    varint_word(p, at + w.length, u)
}

// That of the ith cell.
fn row_seen(p: &[u8], u: usize, head: usize, kind: u8, start: usize, first: usize, i: usize) -> Word
    requires { Opened p.now u head kind start first × (i < 65536) }
    ensures { result ≡ row_seen p.now u head i }
{
    match cell_start(p, u, head, kind, start, first, i) {
        None => Word { length: 0, bits: 0 },
        Some(at) => row_word(p, u, kind, at),
    }
}

// The first of n cells whose row is not below the one asked for, where rows rise: before a all are below it, from z on none is.
// Kept: (d) by hand: std halves slices (partition_point), and these cells are read one by one by their indices, each reading of which may be refused.
fn halve(p: &[u8], u: usize, head: usize, kind: u8, n: usize, row: u64) -> Result<usize, Rule>
    requires { Readable p.now u head kind × (n ≡ cell_count p.now head) × (n < 65536) }
    ensures { sought_in p.now u head row ≡ sought_of result }
{
    let start = content_start(p, head);
    let first = array_start(head, kind);
    let mut a: usize = 0;
    let mut z = n;
    while a < z {
        let i = a + (z - a) / 2;
        let w = row_seen(p, u, head, kind, start, first, i);
        if w.length == 0 {
            return Err(Rule::NotSound);
        }
        if bias(w.bits) < row {
            a = i + 1;
            continue;
        }
        z = i;
    }
    Ok(z)
}

// What the cell says where halving ends.
fn cell_step(p: &[u8], u: usize, head: usize, kind: u8, row: u64, i: usize) -> Result<Step, Rule>
    requires { Readable p.now u head kind × (i < 65536) }
    ensures { told_step result ≡ cell_step p.now u head row i }
{
    let start = content_start(p, head);
    let first = array_start(head, kind);
    let c = look(p, u, head, kind, start, first, i)?;
    if kind != 13 {
        return Ok(Step::Child(c.child));
    }
    if c.row != row {
        return Ok(Step::Nothing);
    }
    Ok(Step::Cell {
        index: i as u32,
        length: c.payload as u32,
    })
}

// What the page says where it ends past the last cell.
fn end_step(p: &[u8], head: usize, kind: u8) -> Step
    requires { (head ≤ 100) × (480 ≤ length p.now) × (kind ≡ page_type p.now head) × (is_table kind ≡ true) }
    ensures { told_step (Ok result) ≡ end_step p.now head }
{
    if kind == 13 {
        return Step::Nothing;
    }
    Step::Child(be32(p, head + 8))
}

// What a page says to the search.
fn page_step(p: &[u8], u: usize, head: usize, row: u64) -> Result<Step, Rule>
    requires { (480 ≤ u) × (u ≤ 65536) × (u ≤ length p.now) × (head ≤ 100) }
    ensures { told_step result ≡ page_step p.now u head row }
{
    let kind = p[head];
    if !is_table(kind) {
        return Err(Rule::PageType);
    }
    let n = be16(p, head + 3);
    let i = halve(p, u, head, kind, n, row)?;
    if i < n {
        return cell_step(p, u, head, kind, row, i);
    }
    Ok(end_step(p, head, kind))
}

// The same of page `page` of an image.
fn step_on(image: &[u8], h: Header, page: u32, row: u64) -> Result<Step, Rule>
    requires { PageAt image.now h page }
    ensures { told_step result ≡ page_step (page_in image.now page) h.usable (head_of page) row }
{
    let p = header::page_of(image, h.size, page as usize);
    page_step(p, h.usable, image::head_of(page), row)
}

// A page with so many levels left, itself included, and what is below it.
fn descend(image: &[u8], h: Header, levels: u32, page: u32, row: u64) -> Result<Option<At>, Refusal>
    requires { PageAt image.now h page }
    ensures { told_found result ≡ find_page image.now row levels page }
{
    if levels == 0 {
        return Err(Refusal {
            rule: Rule::TreeLevel,
            page,
        });
    }
    match step_on(image, h, page, row) {
        Err(rule) => Err(Refusal { rule, page }),
        Ok(Step::Nothing) => Ok(None),
        Ok(Step::Cell { index, length }) => Ok(Some(At {
            page,
            cell: index,
            length,
        })),
        Ok(Step::Child(child)) => {
            if !has_page(h, child) {
                return Err(Refusal {
                    rule: Rule::PointerRange,
                    page,
                });
            }
            descend(image, h, levels - 1, child, row)
        }
    }
}

// Looks for a row number in the table tree under `root`, by halving.
pub fn find(image: &[u8], root: u32, row: i64) -> Result<Option<At>, Refusal>
    ensures answer { told_found result ≡ find_of image.now root row }
    ensures good { (d : Dealing) → GoodDealing image.now d → TableRoot image.now d root
        → Finds image.now d root row (Shows (told_found result)) (Nothing (told_found result)) (Refuses (told_found result)) }
{
    let h = lookup::open_at(image, root, Rule::PointerRange)?;
    descend(image, h, LEVEL_LIMIT, root, number::bias_of(row))
}

// The ith cell of a page, whose payload may be fetched, or the refusal: 22 and 23 report the page, 46, that there is none, reports none.
fn cell_on(p: &[u8], u: usize, head: usize, page: u32, i: usize) -> Result<Cell, Refusal>
    requires { (480 ≤ u) × (u ≤ 65536) × (u ≤ length p.now) × (head ≤ 100) }
    ensures read { IfOk result (λ c. Picked p.now u head i c) }
    ensures refused { IfErr result (λ e. PickRefused p.now u head page i e) }
{
    let kind = p[head];
    if !suits(Place::PayloadPage, kind) {
        return Err(Refusal {
            rule: Rule::PageType,
            page,
        });
    }
    if be16(p, head + 3) <= i {
        return Err(Rule::NoSuchPlace.into());
    }
    let start = content_start(p, head);
    let first = array_start(head, kind);
    match look(p, u, head, kind, start, first, i) {
        Ok(c) => Ok(c),
        Err(rule) => Err(Refusal { rule, page }),
    }
}

// The payload of cell i of page p.
fn fetch_at(image: &[u8], h: Header, p: u32, i: usize, out: &mut [u8]) -> Result<u32, Refusal>
    requires { PageAt image.now h p }
    ensures { (told_fetched result ≡ page_quick image.now p i (length out.old))
        × (out.new ≡ out_of (told_fetched result) (payload_of image.now p i) out.old) }
{
    let page = header::page_of(image, h.size, p as usize);
    let c = cell_on(page, h.usable, image::head_of(p), p, i)?;
    lookup::fetch(image, h, p, i, c, out)
}

// Copies the payload of a cell, with its index from 0, to the start of `out`.
pub fn payload_quick(image: &[u8], page: u32, cell: u32, out: &mut [u8]) -> Result<u32, Refusal>
    ensures answer { told_fetched result ≡ quick_of image.now page cell (length out.old) }
    ensures buffer { out.new ≡ out_of (told_fetched result) (payload_of image.now page cell) out.old }
    ensures good { (d : Dealing) → GoodDealing image.now d → PayloadCell image.now d page cell
        → Fetches image.now d page cell out.old out.new (Copied (told_fetched result)) (NoRoom (told_fetched result)) }
{
    let h = lookup::open_at(image, page, Rule::NoSuchPlace)?;
    fetch_at(image, h, page, cell as usize, out)
}
