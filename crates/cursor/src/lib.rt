// The rows of a table tree one after the other, by a cursor that is handed back after each step. Only the pages on its path, and those that it enters, are looked at.
#![tactic(auto)]

ghost use Rattle.std.specs.Prelude.{◌≡◌, ℕ, suc, ◌+◌, ◌-◌, ◌≤◌, ◌<◌, length};
ghost use Rattle.dealing.specs.File.{File, level_limit};
ghost use Rattle.number.specs.Bytes.{bias_of};
ghost use Rattle.dealing.specs.Good.{Dealing};
ghost use Rattle.dealing.specs.Cursor.{leaf_met, child_at, child_met, inner_met, listing, index_for, listing_from, shown_from};
ghost use Rattle.image.specs.Image.{file_of};
ghost use Rattle.image.specs.Good.{GoodDealing, TableRoot};
ghost use Rattle.image.specs.Ready.{Opened, PageAt};
ghost use Rattle.lookup.specs.Ready.{TreeAt};
ghost use Rattle.cursor.specs.Answers.{zeros, blank, put_at, row_of, last_page, last_index, answer_of, first_of, seek_of, step_of, next_in, Stored};
ghost use Rattle.cursor.specs.Told.{told_row, told, told_stepped};
ghost use Rattle.cursor.specs.Means.{row_in, Stands, RowsOn};

use header::Header;
use page::Place;
use refusal::{Refusal, Rule};

// Trees have at most so many levels, the root being level 1.
const LEVEL_LIMIT: u32 = 20;

// A cursor's path does not stand in the image.
const STALE: Refusal = Refusal {
    rule: Rule::StaleCursor,
    page: 0,
};

// A row: its cell, by page and index from 0, its payload's length and its number.
#[derive(Clone, Copy)]
pub struct Row {
    pub page: u32,
    pub cell: u32,
    pub length: u32,
    pub number: i64,
}

// A path of so many levels (0: the end) from its first page down: a page, and the index of the child on an interior page, of the cell on the leaf.
#[derive(Clone, Copy)]
pub struct Cursor {
    pub levels: u32,
    pub pages: [u32; 20],
    pub cells: [u32; 20],
}

// What is shown, and the cursor that stands there.
#[derive(Clone, Copy)]
pub struct Stepped {
    pub shown: Result<Option<Row>, Refusal>,
    pub cursor: Cursor,
}

// A row that is shown, and the cursor that stands there.
#[derive(Clone, Copy)]
pub struct Standing {
    pub row: Row,
    pub cursor: Cursor,
}

// The end's cursor.
fn nowhere() -> Cursor
    ensures { result ≡ blank }
{
    Cursor {
        levels: 0,
        pages: [0; 20],
        cells: [0; 20],
    }
}

// What was found, with a cursor in every case: at the end the end's, after a refusal the one that there was.
fn handed(found: Result<Option<Standing>, Refusal>, kept: Cursor) -> Stepped
    ensures { told_stepped result ≡ told kept found }
{
    match found {
        Ok(Some(standing)) => Stepped {
            shown: Ok(Some(standing.row)),
            cursor: standing.cursor,
        },
        Ok(None) => Stepped {
            shown: Ok(None),
            cursor: nowhere(),
        },
        Err(refusal) => Stepped {
            shown: Err(refusal),
            cursor: kept,
        },
    }
}

// The signed number that is u when it is moved up by 2^63.
fn row_of(u: u64) -> i64
    ensures { result ≡ row_of u }
{
    number::signed(number::bias(u), 0x8000_0000_0000_0000)
}

// A cursor with page and index set at a level, counted from 0.
fn placed(c: Cursor, level: usize, page: u32, index: u32) -> Cursor
    requires { level < 20 }
    ensures { result ≡ put_at c level page index }
{
    let mut pages = c.pages;
    let mut cells = c.cells;
    pages[level] = page;
    cells[level] = index;
    Cursor {
        levels: c.levels,
        pages,
        cells,
    }
}

// The leaf cell with that index, on a page with so many levels above it.
fn show(page: u32, cell: u32, length: u32, row: u64, above: usize) -> Standing
    requires { above < 20 }
    ensures row { result.row ≡ record { page = page; cell = cell; length = length; number = row_of row } }
    ensures cursor { result.cursor ≡ put_at (record { levels = above + 1; pages = zeros; cells = zeros }) above page cell }
{
    let start = Cursor {
        levels: above as u32 + 1,
        pages: [0; 20],
        cells: [0; 20],
    };
    Standing {
        row: Row {
            page,
            cell,
            length,
            number: row_of(row),
        },
        cursor: placed(start, above, page, cell),
    }
}

// The first of a table leaf's cells from index `from` on whose row number is not below `least`.
fn leaf_from(
    image: &[u8],
    h: Header,
    page: u32,
    count: usize,
    from: usize,
    least: u64,
    above: usize,
) -> Option<Standing>
    requires { TreeAt image.now h page 13 count × (above < 20) }
    ensures { told_row result ≡ answer_of (file_of image.now) blank above (shown_from (file_of image.now) least (leaf_met page from (count - from))) }
{
    for i in from..count {
        let c = image::tree_cell(image, h, page, 13, i);
        if least <= c.row {
            return Some(show(page, i as u32, c.payload as u32, c.row, above));
        }
    }
    None
}

// The index of a table interior page's first cell whose key is at least the row number, else the number of its cells.
fn index_for(image: &[u8], h: Header, page: u32, count: usize, row: u64) -> usize
    requires { TreeAt image.now h page 5 count }
    ensures { (result ≡ index_for (file_of image.now) row page 0 count) × (result ≤ count) }
{
    for i in 0..count {
        let c = image::tree_cell(image, h, page, 5, i);
        if row <= c.row {
            return i;
        }
    }
    count
}

// The child with an index from 0 of a table interior page; the last is the right child.
fn child_at(image: &[u8], h: Header, page: u32, count: usize, right: u32, i: usize) -> u32
    requires { TreeAt image.now h page 5 count × (right ≡ (file_of image.now).right page) }
    ensures { result ≡ child_at (file_of image.now) page i }
{
    if i < count {
        image::tree_cell(image, h, page, 5, i).child
    } else {
        right
    }
}

// A page with so many levels left, itself included, and what is below it, from where lookup goes down for `from`: the first row number not below `least`. `marks` is scratch.
#[cycle(child_children_descend)]
fn descend(
    image: &[u8],
    h: Header,
    levels: u32,
    page: u32,
    least: u64,
    from: u64,
    marks: &mut [u8],
) -> Result<Option<Standing>, Refusal>
    requires { PageAt image.now h page × (h.usable ≤ length marks.old) × (levels ≤ 20) }
    ensures { told blank result ≡ answer_of (file_of image.now) blank (20 - levels)
        (shown_from (file_of image.now) least (listing_from (file_of image.now) from levels page)) }
{
    if levels == 0 {
        return Err(Refusal {
            rule: Rule::TreeLevel,
            page,
        });
    }
    let tree = match image::tree_page(image, h, page, Place::TablePage, marks) {
        Ok(tree) => tree,
        Err(rule) => return Err(Refusal { rule, page }),
    };
    let cells = tree.cells;
    let right = tree.right;
    if tree.kind == 13 {
        return Ok(leaf_from(image, h, page, cells, 0, least, (20 - levels) as usize));
    }
    let start = index_for(image, h, page, cells, from);
    match child(
        image,
        h,
        levels - 1,
        page,
        cells,
        right,
        start,
        least,
        from,
        marks,
    )? {
        None => children(
            image,
            h,
            levels - 1,
            page,
            cells,
            right,
            start + 1,
            least,
            marks,
        ),
        Some(standing) => Ok(Some(standing)),
    }
}

// Child i of a table interior page, with so many levels left for it: the page goes before its path.
#[cycle(child_children_descend)]
fn child(
    image: &[u8],
    h: Header,
    levels: u32,
    page: u32,
    cells: usize,
    right: u32,
    i: usize,
    least: u64,
    from: u64,
    marks: &mut [u8],
) -> Result<Option<Standing>, Refusal>
    requires { TreeAt image.now h page 5 cells × (right ≡ (file_of image.now).right page) × (h.usable ≤ length marks.old) × (levels < 20) × (i ≤ cells) }
    ensures { told blank result ≡ answer_of (file_of image.now) blank (19 - levels)
        (shown_from (file_of image.now) least (child_met (file_of image.now) (listing_from (file_of image.now) from levels) page i)) }
{
    let target = child_at(image, h, page, cells, right, i);
    if !lookup::has_page(h, target) {
        return Err(Refusal {
            rule: Rule::PointerRange,
            page,
        });
    }
    match descend(image, h, levels, target, least, from, marks)? {
        None => Ok(None),
        Some(below) => {
            let cursor = placed(below.cursor, (19 - levels) as usize, page, i as u32);
            Ok(Some(Standing {
                row: below.row,
                cursor,
            }))
        }
    }
}

// The children of a table interior page from index `from` on.
#[cycle(child_children_descend)]
fn children(
    image: &[u8],
    h: Header,
    levels: u32,
    page: u32,
    cells: usize,
    right: u32,
    from: usize,
    least: u64,
    marks: &mut [u8],
) -> Result<Option<Standing>, Refusal>
    requires { TreeAt image.now h page 5 cells × (right ≡ (file_of image.now).right page) × (h.usable ≤ length marks.old) × (levels < 20) }
    ensures { told blank result ≡ answer_of (file_of image.now) blank (19 - levels)
        (shown_from (file_of image.now) least (inner_met (file_of image.now) (listing (file_of image.now) levels) page from (cells + 1 - from))) }
{
    for i in from..cells + 1 {
        if let Some(standing) = child(image, h, levels, page, cells, right, i, least, 0, marks)? {
            return Ok(Some(standing));
        }
    }
    Ok(None)
}

// The part of a stored path that has so many levels left, from its page at that level down: 49 where it does not stand, else what follows its leaf cell.
fn next_in(
    image: &[u8],
    h: Header,
    c: Cursor,
    levels: u32,
    marks: &mut [u8],
) -> Result<Option<Standing>, Refusal>
    requires { Opened image.now h × (h.usable ≤ length marks.old) × Stored c levels }
    ensures { told blank result ≡ answer_of (file_of image.now) blank (20 - levels) (next_in (file_of image.now) c levels) }
{
    let depth = c.levels as usize;
    let k = (20 - levels) as usize;
    let p = c.pages[k];
    let i = c.cells[k] as usize;
    if !lookup::has_page(h, p) {
        return Err(STALE);
    }
    let tree = match image::tree_page(image, h, p, Place::TablePage, marks) {
        Ok(tree) => tree,
        Err(_) => return Err(STALE),
    };
    let count = tree.cells;
    let right = tree.right;
    if tree.kind == 13 {
        if depth != k + 1 {
            return Err(STALE);
        }
        if count <= i {
            return Err(STALE);
        }
        return Ok(leaf_from(image, h, p, count, i + 1, 0, k));
    }
    if depth == k + 1 {
        return Err(STALE);
    }
    if count < i {
        return Err(STALE);
    }
    let target = child_at(image, h, p, count, right, i);
    if target != c.pages[k + 1] {
        return Err(STALE);
    }
    match next_in(image, h, c, levels - 1, marks)? {
        None => children(image, h, levels - 1, p, count, right, i + 1, 0, marks),
        Some(below) => {
            let cursor = placed(below.cursor, k, p, i as u32);
            Ok(Some(Standing {
                row: below.row,
                cursor,
            }))
        }
    }
}

// A root and what is below it. The marks are no longer than the pages need: clearing them takes time.
fn from_root(image: &[u8], h: Header, root: u32, least: u64) -> Result<Option<Standing>, Refusal>
    requires { PageAt image.now h root }
    ensures { told blank result ≡ answer_of (file_of image.now) blank 0
        (shown_from (file_of image.now) least (listing_from (file_of image.now) least level_limit root)) }
{
    if h.usable <= 512 {
        let mut marks = [0u8; 512];
        return descend(image, h, LEVEL_LIMIT, root, least, least, &mut marks);
    }
    if h.usable <= 4096 {
        let mut marks = [0u8; 4096];
        return descend(image, h, LEVEL_LIMIT, root, least, least, &mut marks);
    }
    let mut marks = [0u8; 65536];
    descend(image, h, LEVEL_LIMIT, root, least, least, &mut marks)
}

// The same from a stored path on.
fn from_path(image: &[u8], h: Header, c: Cursor) -> Result<Option<Standing>, Refusal>
    requires { Opened image.now h × Stored c 20 }
    ensures { told blank result ≡ answer_of (file_of image.now) blank 0 (next_in (file_of image.now) c level_limit) }
{
    if h.usable <= 512 {
        let mut marks = [0u8; 512];
        return next_in(image, h, c, LEVEL_LIMIT, &mut marks);
    }
    if h.usable <= 4096 {
        let mut marks = [0u8; 4096];
        return next_in(image, h, c, LEVEL_LIMIT, &mut marks);
    }
    let mut marks = [0u8; 65536];
    next_in(image, h, c, LEVEL_LIMIT, &mut marks)
}

// What `Cursor::first` finds.
fn find_first(image: &[u8], root: u32) -> Result<Option<Standing>, Refusal>
    ensures { told blank result ≡ first_of image.now root }
{
    let h = lookup::open_at(image, root, Rule::PointerRange)?;
    from_root(image, h, root, 0)
}

// What `Cursor::seek` finds.
fn find_from(image: &[u8], root: u32, row: i64) -> Result<Option<Standing>, Refusal>
    ensures { told blank result ≡ seek_of image.now root row }
{
    let h = lookup::open_at(image, root, Rule::PointerRange)?;
    from_root(image, h, root, number::bias_of(row))
}

// What `Cursor::step` finds. The end stays the end.
fn find_next(image: &[u8], c: Cursor) -> Result<Option<Standing>, Refusal>
    ensures { told c result ≡ step_of image.now c }
{
    let h = header::check_header(image)?;
    if c.levels == 0 {
        return Ok(None);
    }
    if LEVEL_LIMIT < c.levels {
        return Err(STALE);
    }
    from_path(image, h, c)
}

impl Cursor {
    // The first row of the table tree under `root`.
    pub fn first(image: &[u8], root: u32) -> Stepped
        ensures answer { told_stepped result ≡ first_of image.now root }
        ensures good { (d : Dealing) → GoodDealing image.now d → TableRoot image.now d root
            → RowsOn image.now d root 0 (told_stepped result) }
    {
        handed(find_first(image, root), nowhere())
    }

    // The first row whose number is not below `row`.
    pub fn seek(image: &[u8], root: u32, row: i64) -> Stepped
        ensures answer { told_stepped result ≡ seek_of image.now root row }
        ensures good { (d : Dealing) → GoodDealing image.now d → TableRoot image.now d root
            → RowsOn image.now d root (bias_of row) (told_stepped result) }
    {
        handed(find_from(image, root, row), nowhere())
    }

    // The row after the one where the cursor stands. The end stays the end; after a refusal the cursor is as it was.
    pub fn step(self, image: &[u8]) -> Stepped
        ensures answer { told_stepped result ≡ step_of image.now self }
        ensures good { (d : Dealing) (root : ℕ) → GoodDealing image.now d → TableRoot image.now d root → Stands image.now root self
            → RowsOn image.now d root (suc (row_in image.now (last_page self) (last_index self))) (told_stepped result) }
    {
        handed(find_next(image, self), self)
    }
}
