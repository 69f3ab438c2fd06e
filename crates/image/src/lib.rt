// An image's pages as the rest of the library reads them. `h` is what the check of the image's header answered.
#![tactic(auto)]

ghost use Rattle.std.specs.Prelude.{◌≡◌, ◌+◌, ◌-◌, ◌≤◌, ◌<◌, length, IfSome};
ghost use Rattle.number.specs.Bytes.{be};
ghost use Rattle.cell.specs.Split.{table_interior};
ghost use Rattle.page.specs.Checked.{told};
ghost use Rattle.page.specs.Fault.{checked_of};
ghost use Rattle.leaf_pass.specs.Calm.{Calm};
ghost use Rattle.dealing.specs.File.{File};
ghost use Rattle.image.specs.Pages.{page_in, head_of, cell_in};
ghost use Rattle.image.specs.Image.{file_of};
ghost use Rattle.image.specs.Ready.{PageAt};

use cell::Cell;
use header::Header;
use leaf_pass::Leaf;
use page::{Place, TreePage};
use refusal::Rule;

// The 4-byte number at `at` of page p.
pub fn word_at(image: &[u8], h: Header, p: u32, at: usize) -> u32
    requires { PageAt image.now h p × (at + 4 ≤ h.usable) }
    ensures { result ≡ be 4 (page_in image.now p) at }
{
    let page = header::page_of(image, h.size, p as usize);
    number::be32(page, at)
}

// Where a tree page's header begins.
pub fn head_of(p: u32) -> usize
    ensures { (result ≡ head_of p) × (result ≤ 100) }
{
    if p == 1 { 100 } else { 0 }
}

// Checks page p as a tree page. `marks` is scratch.
pub fn tree_page(
    image: &[u8],
    h: Header,
    p: u32,
    place: Place,
    marks: &mut [u8],
) -> Result<TreePage, Rule>
    requires { PageAt image.now h p × (h.usable ≤ length marks.old) }
    ensures { told result ≡ checked_of place (page_in image.now p) h.usable (head_of p) }
{
    let page = header::page_of(image, h.size, p as usize);
    page::check_page(page, h.usable, head_of(p), place, marks)
}

// Checks page p as a leaf whose rows begin at `least`, in one pass over its cells. `marks` is scratch.
pub fn leaf_page(
    image: &[u8],
    h: Header,
    p: u32,
    place: Place,
    least: u64,
    marks: &mut [u8],
) -> Option<Leaf>
    requires { PageAt image.now h p × (h.usable ≤ length marks.old) }
    ensures { IfSome result (λ leaf. Calm place (page_in image.now p) h.usable (head_of p) least leaf) }
{
    let page = header::page_of(image, h.size, p as usize);
    leaf_pass::check_leaf(page, h.usable, head_of(p), place, least, marks)
}

// Cell i of page p, a tree page that was checked.
pub fn tree_cell(image: &[u8], h: Header, p: u32, kind: u8, i: usize) -> Cell
    requires { PageAt image.now h p × (kind ≡ (file_of image.now).type p)
        × ((file_of image.now).broken p ≡ 0) × (i < (file_of image.now).count p) }
    ensures { result ≡ cell_in image.now p i }
{
    let page = header::page_of(image, h.size, p as usize);
    page::cell_of(page, h.usable, head_of(p), kind, i)
}

// The child of cell i of page p, a tree page that was checked; 0 on leaves. Nothing else of the cell is read.
pub fn child_of(image: &[u8], h: Header, p: u32, kind: u8, i: usize) -> u32
    requires { PageAt image.now h p × (kind ≡ (file_of image.now).type p)
        × ((file_of image.now).broken p ≡ 0) × (i < (file_of image.now).count p) }
    ensures { result ≡ ((file_of image.now).cell p i).child }
{
    if cell::child_width(kind) == 0 {
        return 0;
    }
    let page = header::page_of(image, h.size, p as usize);
    let head = head_of(p);
    let at = number::be16(page, head + 12 + 2 * i);
    number::be32(page, at)
}

// The key of cell i of page p, a table interior page that was checked. Nothing else of the cell is read.
pub fn key_of(image: &[u8], h: Header, p: u32, i: usize) -> u64
    requires { PageAt image.now h p × ((file_of image.now).type p ≡ table_interior)
        × ((file_of image.now).broken p ≡ 0) × (i < (file_of image.now).count p) }
    ensures { result ≡ ((file_of image.now).cell p i).row }
{
    let page = header::page_of(image, h.size, p as usize);
    let head = head_of(p);
    let at = number::be16(page, head + 12 + 2 * i);
    let key = number::varint_word(page, at + 4, h.usable);
    number::bias(key.bits)
}
