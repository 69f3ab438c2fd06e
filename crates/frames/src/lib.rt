// A table of frames for long logs: filled once with the last frame in force of each page, it shows pages without a scan.
#![tactic(auto)]

ghost use Rattle.std.specs.Prelude.{◌≡◌, true, false, ◌++◌, ◌+◌, ◌<◌, ◌≤◌, ◌^◌, length, drop, IfOk};
ghost use Rattle.wal.specs.Told.{part_told};
ghost use Rattle.frames.specs.Table.{entry_limit, late, fill_of, last_frames, table_of, entry_part, part_by, Serves};
ghost use Rattle.frames.specs.Filling.{of_pages, Noted};
ghost use Rattle.frames.specs.Filled.{filled_told};

use refusal::Rule;
use wal::{Part, Source, View};

// n and the page size in force.
#[derive(Clone, Copy, Debug, PartialEq, Eq)]
pub struct Filled {
    pub pages: usize,
    pub size: usize,
}

// No entry is larger.
const ENTRY_LIMIT: usize = 4294967295;

// Whether p is a page of 1 to n.
fn of_pages(n: usize, p: usize) -> bool
    ensures { result ≡ of_pages n p }
{
    p != 0 && p <= n
}

// Whether a page has its last frame past what an entry holds: whether one of those frames holds such a page.
fn is_late(view: &View) -> bool
    ensures { result ≡ late view.now.state.size view.now.log.now view.now.state.frames view.now.state.pages }
{
    for k in ENTRY_LIMIT..view.state.frames {
        let page = number::be32(view.log, wal::frame_at(view.state.size, k));
        if of_pages(view.state.pages, page as usize) {
            return true;
        }
    }
    false
}

// Notes frame k for page p, where that is of 1 to n.
fn note(table: &mut [u32], n: usize, p: usize, k: usize)
    requires { (n ≤ length table.old) × (of_pages n p ≡ true → k ≤ entry_limit) }
    ensures { Noted n table.old p k table.new }
{
    if of_pages(n, p) {
        table[p - 1] = k as u32;
    }
}

// Fills the entries of all pages from the frames in force: the last of a page stays.
fn fill_in(view: &View, table: &mut [u32])
    requires { (view.now.state.pages ≤ length table.old) × (late view.now.state.size view.now.log.now view.now.state.frames view.now.state.pages ≡ false) }
    ensures { table.new ≡ last_frames view.now.state.size view.now.log.now view.now.state.frames view.now.state.pages ++ drop view.now.state.pages table.old }
{
    let pages = view.state.pages;
    table[..pages].fill(0);
    for k in 0..view.state.frames {
        let page = number::be32(view.log, wal::frame_at(view.state.size, k));
        note(table, pages, page as usize, k + 1);
    }
}

// Fills the table, once for a log and an image. It changes only on success, and only in its first n entries.
pub fn fill(log: &[u8], image: &[u8], table: &mut [u32]) -> Result<Filled, Rule>
    ensures answer { filled_told result ≡ fill_of log.now image.now (length table.old) }
    ensures table { table.new ≡ table_of log.now image.now table.old }
    ensures pages { IfOk result (λ filled. Serves log.now image.now table.new filled.pages filled.size) }
{
    let state = wal::state_of(log, image)?;
    let view = View { log, image, state };
    if table.len() < state.pages || is_late(&view) {
        return Err(Rule::SmallTable);
    }
    fill_in(&view, table);
    Ok(Filled {
        pages: state.pages,
        size: state.size,
    })
}

// Page p by its entry: frame `entry` of the log, or for 0 the image's page.
fn entry_part(log: &[u8], image: &[u8], size: usize, entry: usize, p: usize) -> Result<Part, Rule>
    requires { (1 ≤ p) × (p < 2 ^ 32) × (size ≤ 65536) × (entry < 2 ^ 32) }
    ensures { part_told result ≡ entry_part size log.now image.now entry p }
{
    if entry == 0 {
        return wal::image_part(image, size, p).ok_or(Rule::PageNowhere);
    }
    let end = wal::frame_at(size, entry);
    if log.len() < end {
        return Err(Rule::PageNowhere);
    }
    Ok(Part {
        source: Source::Log,
        start: end - size,
        length: size,
    })
}

// Where a page is shown from by a table, n and a page size, whatever they are; no byte of log or image is read.
#[tactic(auto, unfolding(crate::specs::Table::part_by))]
pub fn page_by(
    log: &[u8],
    image: &[u8],
    table: &[u32],
    pages: u32,
    size: u32,
    page: u32,
) -> Result<Part, Rule>
    ensures { part_told result ≡ part_by log.now image.now table.now pages size page }
{
    if !paging::size_fits(size) {
        return Err(Rule::RecoverySize);
    }
    let size = size as usize;
    let n = pages as usize;
    let p = page as usize;
    if table.len() < n {
        return Err(Rule::SmallTable);
    }
    if p == 0 || n < p {
        return Err(Rule::NoSuchPlace);
    }
    if p == paging::lock_page(size) {
        return wal::image_part(image, size, p).ok_or(Rule::NoSuchPlace);
    }
    entry_part(log, image, size, table[p - 1] as usize, p)
}
