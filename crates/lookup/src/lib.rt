// Rows found by their numbers, and the payloads of cells. Only the pages on the path, and those of the payload's chain, are looked at.
#![tactic(auto)]

ghost use Rattle.std.specs.Prelude.{◌≡◌, ℕ, ◌≤◌, length, List, Ok, IfOk, IfErr};
ghost use Rattle.std.specs.Fn.{FnOnceReturnsAtMut};
ghost use Rattle.refusal.specs.Rule.{number_of};
ghost use Rattle.page.specs.declared.Place.TheVariants.{PayloadPage};
ghost use Rattle.page.specs.Checked.{told};
ghost use Rattle.page.specs.Fault.{checked_of};
ghost use Rattle.dealing.specs.File.{File, cells_of, level_limit};
ghost use Rattle.dealing.specs.Good.{Dealing};
ghost use Rattle.dealing.specs.Walk.{in_range};
ghost use Rattle.dealing.specs.Lookup.{child_for, cell_for, lookup_page, follow_cell};
ghost use Rattle.image.specs.Pages.{page_in, head_of};
ghost use Rattle.image.specs.Image.{file_of};
ghost use Rattle.image.specs.Payload.{payload_of};
ghost use Rattle.image.specs.Good.{GoodDealing, TableRoot, PayloadCell};
ghost use Rattle.image.specs.Ready.{PageAt};
ghost use Rattle.lookup.specs.Found.{told_found};
ghost use Rattle.lookup.specs.Fetched.{told_fetched};
ghost use Rattle.lookup.specs.Answers.{found_of, lookup_of, followed_of, cell_fetched, page_fetched, fetched_of, out_of};
ghost use Rattle.lookup.specs.Means.{Finds, Shows, Nothing, Refuses, Fetches, Copied, NoRoom};
ghost use Rattle.lookup.specs.Ready.{TreeAt, CellOn, opening_refusal};

use cell::Cell;
use header::Header;
use page::{Place, TreePage};
use refusal::{Refusal, Rule};

// Trees have at most so many levels, the root being level 1.
const LEVEL_LIMIT: u32 = 20;

// The leaf cell that carries a row's number: its page, its index from 0 and its payload's length.
#[derive(Clone, Copy, Debug, PartialEq, Eq)]
pub struct At {
    pub page: u32,
    pub cell: u32,
    pub length: u32,
}

// Whether an image with that header has page p.
pub fn has_page(h: Header, p: u32) -> bool
    ensures { result ≡ in_range h.pages p }
{
    p != 0 && p as usize <= h.pages
}

// The first of a table leaf's cells that carries the row number.
fn leaf_cell(image: &[u8], h: Header, page: u32, count: usize, row: u64) -> Option<At>
    requires { TreeAt image.now h page 13 count }
    ensures { told_found (Ok result) ≡ found_of (cell_for row page 0 (cells_of (file_of image.now) page)) }
{
    for i in 0..count {
        let cell = image::tree_cell(image, h, page, 13, i);
        if cell.row == row {
            return Some(At {
                page,
                cell: i as u32,
                length: cell.payload as u32,
            });
        }
    }
    None
}

// The child of a table interior page's first cell whose key is at least the row number, else the right child.
fn child_for(image: &[u8], h: Header, page: u32, count: usize, right: u32, row: u64) -> u32
    requires { TreeAt image.now h page 5 count × (right ≡ (file_of image.now).right page) }
    ensures { result ≡ child_for row ((file_of image.now).right page) (cells_of (file_of image.now) page) }
{
    for i in 0..count {
        let cell = image::tree_cell(image, h, page, 5, i);
        if row <= cell.row {
            return cell.child;
        }
    }
    right
}

// A page with so many levels left, itself included, and what is below it. `marks` is scratch.
fn descend(
    image: &[u8],
    h: Header,
    levels: u32,
    page: u32,
    row: u64,
    marks: &mut [u8],
) -> Result<Option<At>, Refusal>
    requires { PageAt image.now h page × (h.usable ≤ length marks.old) }
    ensures { told_found result ≡ found_of (lookup_page (file_of image.now) levels page row) }
{
    if levels == 0 {
        return Err(Refusal {
            rule: Rule::TreeLevel,
            page,
        });
    }
    let tree = match image::tree_page(image, h, page, Place::TablePage, marks) {
        Ok(tree) => tree,
        Err(rule) => return Err(Refusal { rule, page }),
    };
    if tree.kind == 13 {
        return Ok(leaf_cell(image, h, page, tree.cells, row));
    }
    let child = child_for(image, h, page, tree.cells, tree.right, row);
    if !has_page(h, child) {
        return Err(Refusal {
            rule: Rule::PointerRange,
            page,
        });
    }
    descend(image, h, levels - 1, child, row, marks)
}

// Calls `run` with marks that are no longer than the pages need: clearing them takes time.
fn with_marks<T, F: FnOnce(&mut [u8]) -> T>(usable: usize, run: F) -> T
    requires fits { usable ≤ 65536 }
    requires called { (marks : _) → usable ≤ length marks.now → F.pre run marks }
    ensures { (old : List ℕ) × (new : List ℕ) × FnOnceReturnsAtMut F.FnOnce run old result new }
{
    if usable <= 512 {
        return run(&mut [0; 512]);
    }
    if usable <= 4096 {
        return run(&mut [0; 4096]);
    }
    run(&mut [0; 65536])
}

// A root and what is below it.
fn find(image: &[u8], h: Header, root: u32, row: u64) -> Result<Option<At>, Refusal>
    requires { PageAt image.now h root }
    ensures { told_found result ≡ found_of (lookup_page (file_of image.now) level_limit root row) }
{
    with_marks(
        h.usable,
        |marks| descend(image, h, LEVEL_LIMIT, root, row, marks),
    )
}

// The header of an image, which has page p; where it has not, `missing` is refused.
pub fn open_at(image: &[u8], p: u32, missing: Rule) -> Result<Header, Rule>
    ensures ok { IfOk result (λ h. PageAt image.now h p) }
    ensures refused { IfErr result (λ rule. number_of rule ≡ opening_refusal image.now p (number_of missing)) }
{
    let h = header::check_header(image)?;
    if !has_page(h, p) {
        return Err(missing);
    }
    Ok(h)
}

// Looks for a row number in the table tree under `root`.
pub fn lookup(image: &[u8], root: u32, row: i64) -> Result<Option<At>, Refusal>
    ensures answer { told_found result ≡ lookup_of image.now root row }
    ensures good { (d : Dealing) → GoodDealing image.now d → TableRoot image.now d root
        → Finds image.now d root row (Shows (told_found result)) (Nothing (told_found result)) (Refuses (told_found result)) }
{
    let h = open_at(image, root, Rule::PointerRange)?;
    find(image, h, root, number::bias_of(row))
}

// Follows the chain of a cell of page p: `links` pages, of which `first` is the first.
pub fn follow_chain(
    image: &[u8],
    h: Header,
    p: u32,
    links: usize,
    first: u32,
) -> Result<(), Refusal>
    requires { PageAt image.now h p }
    ensures { follow_cell (file_of image.now) p links first ≡ followed_of result }
{
    if links == 0 {
        return Ok(());
    }
    let mut holder = p;
    let mut next = first;
    for _link in 0..links {
        if next == 0 {
            return Err(Refusal {
                rule: Rule::ChainLength,
                page: holder,
            });
        }
        if h.pages < next as usize {
            return Err(Refusal {
                rule: Rule::PointerRange,
                page: holder,
            });
        }
        holder = next;
        next = image::word_at(image, h, holder, 0);
    }
    if next != 0 {
        return Err(Refusal {
            rule: Rule::ChainLength,
            page: holder,
        });
    }
    Ok(())
}

// Copies the payload of cell i of page p, which is c, once its chain is known to be whole and to fit.
pub fn fetch(
    image: &[u8],
    h: Header,
    p: u32,
    i: usize,
    c: Cell,
    out: &mut [u8],
) -> Result<u32, Refusal>
    requires { CellOn image.now h p i c }
    ensures { (told_fetched result ≡ cell_fetched (file_of image.now) p ((file_of image.now).cell p i) (length out.old))
        × (out.new ≡ out_of (told_fetched result) (payload_of image.now p i) out.old) }
{
    follow_chain(image, h, p, cell::cell_links(h.usable, c), c.first)?;
    if out.len() < c.payload {
        return Err(Rule::SmallOutput.into());
    }
    payload::copy_payload(image, h, p, c, out);
    Ok(c.payload as u32)
}

// Checks page p as one whose cells have payloads.
fn payload_page(image: &[u8], h: Header, p: u32) -> Result<TreePage, Rule>
    requires { PageAt image.now h p }
    ensures { told result ≡ checked_of PayloadPage (page_in image.now p) h.usable (head_of p) }
{
    with_marks(
        h.usable,
        |marks| image::tree_page(image, h, p, Place::PayloadPage, marks),
    )
}

// The payload of cell i of page p.
fn fetch_at(image: &[u8], h: Header, p: u32, i: usize, out: &mut [u8]) -> Result<u32, Refusal>
    requires { PageAt image.now h p }
    ensures { (told_fetched result ≡ page_fetched image.now p i (length out.old))
        × (out.new ≡ out_of (told_fetched result) (payload_of image.now p i) out.old) }
{
    let tree = match payload_page(image, h, p) {
        Ok(tree) => tree,
        Err(rule) => return Err(Refusal { rule, page: p }),
    };
    if tree.cells <= i {
        return Err(Rule::NoSuchPlace.into());
    }
    let c = image::tree_cell(image, h, p, tree.kind, i);
    fetch(image, h, p, i, c, out)
}

// Copies the payload of a cell, with its index from 0, to the start of `out`.
pub fn payload(image: &[u8], page: u32, cell: u32, out: &mut [u8]) -> Result<u32, Refusal>
    ensures answer { told_fetched result ≡ fetched_of image.now page cell (length out.old) }
    ensures buffer { out.new ≡ out_of (told_fetched result) (payload_of image.now page cell) out.old }
    ensures good { (d : Dealing) → GoodDealing image.now d → PayloadCell image.now d page cell
        → Fetches image.now d page cell out.old out.new (Copied (told_fetched result)) (NoRoom (told_fetched result)) }
{
    let h = open_at(image, page, Rule::NoSuchPlace)?;
    fetch_at(image, h, page, cell as usize, out)
}
