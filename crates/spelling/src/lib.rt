// Numbers that are not in their shortest spelling, counted after acceptance: payload lengths, row numbers and interior keys, in the cells of all tree pages.
#![tactic(auto)]

ghost use Rattle.std.specs.Prelude.{◌≡◌, ◌+◌, ◌*◌, ◌≤◌, ◌<◌, length};
ghost use Rattle.cell.specs.Split.{table_leaf};
ghost use Rattle.cell.specs.Cell.{cell_at};
ghost use Rattle.page.specs.Header.{cell_count};
ghost use Rattle.page.specs.Fault.{sound_fault};
ghost use Rattle.dealing.specs.Spelling.{long_cells, long_by};
ghost use Rattle.image.specs.Image.{file_of};
ghost use Rattle.image.specs.Ready.{PageAt};
ghost use Rattle.spelling.specs.Count.{Read, Trees, Short, is_open, page_long};

use cell::read_cell;
use header::Header;
use number::be16;

// How many numbers of the cell at `at` are spelled long.
fn read_long(p: &[u8], u: usize, kind: u8, at: usize) -> u32
    requires { Read p.now u kind at }
    ensures { result ≡ (cell_at p.now u kind at).long }
{
    read_cell(p, u, kind, at).long
}

// The same on a table leaf. A number that is spelled long begins with 80: nearly always three bytes say that there is none.
fn leaf_long(p: &[u8], u: usize, kind: u8, at: usize) -> u32
    requires { Read p.now u kind at × (kind ≡ table_leaf) }
    ensures { result ≡ (cell_at p.now u kind at).long }
{
    let x = p[at];
    let y = p[at + 1];
    if x < 128 && y != 128 {
        return 0;
    }
    if 128 < x && y < 128 && p[at + 2] != 128 {
        return 0;
    }
    read_long(p, u, kind, at)
}

// The same on any tree page.
fn cell_long(p: &[u8], u: usize, kind: u8, at: usize) -> u32
    requires { Read p.now u kind at }
    ensures { (result ≡ (cell_at p.now u kind at).long) × (result ≤ 2) }
{
    if kind == cell::TABLE_LEAF {
        return leaf_long(p, u, kind, at);
    }
    if p[at + cell::child_width(kind)] == 128 {
        return read_long(p, u, kind, at);
    }
    0
}

// How many numbers are spelled long on a sound page.
fn page_long(p: &[u8], u: usize, head: usize) -> u64
    requires { (480 ≤ u) × (u ≤ 65536) × (u ≤ length p.now) × (head ≤ 100) × (sound_fault p.now u head ≡ 0) }
    ensures { (result ≡ page_long p.now u head (cell_count p.now head)) × (result ≤ 65536) }
{
    let kind = p[head];
    let first = head + 8 + cell::child_width(kind);
    let n = be16(p, head + 3);
    let mut total: u64 = 0;
    for i in 0..n {
        let at = be16(p, first + 2 * i);
        total += u64::from(cell_long(p, u, kind, at));
    }
    total
}

// On page p of the image, a tree page.
fn tree_long(image: &[u8], h: Header, p: u32) -> u64
    requires { PageAt image.now h p × ((file_of image.now).broken p ≡ 0) }
    ensures { (result ≡ long_cells (file_of image.now) p ((file_of image.now).count p)) × (result ≤ 65536) }
{
    let page = header::page_of(image, h.size, p as usize);
    page_long(page, h.usable, image::head_of(p))
}

// Whether numbers on a page of that kind are to be looked at: on a tree page that the walk did not note.
fn is_open(kind: u8, noted: u32) -> bool
    ensures { result ≡ is_open kind noted }
{
    noted != 1 && (kind == 1 || kind == 6)
}

// In the whole image, whose kinds stand in the ledger: at most 65536 a page. `short` notes pages that have none.
pub fn count_long(image: &[u8], h: Header, kinds: &[u8], short: &[u32]) -> u64
    requires { Trees image.now h kinds.now × Short (file_of image.now) h.pages short.now }
    ensures { (result ≡ long_by (file_of image.now) kinds.now) × (result ≤ h.pages * 65536) }
{
    let mut total: u64 = 0;
    for i in 0..h.pages {
        if is_open(kinds[i], short[i]) {
            total += tree_long(image, h, i as u32 + 1);
        }
    }
    total
}
