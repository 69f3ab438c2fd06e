// The walk through a tree. `work` is scratch: the marks of a page's check, or where they fit payloads.
#![tactic(auto)]

ghost use Rattle.std.specs.Prelude.{◌≡◌, Bool, true, false, List, [], ◌∷◌, ℕ, ◌+◌, ◌-◌, ◌≤◌, ◌<◌, length, IfErr};
ghost use Rattle.page.specs.Place.{allowed};
ghost use Rattle.std.proofs.Math.Option.{Option};
ghost use Rattle.dealing.specs.Good.{Mark};
ghost use Rattle.dealing.specs.File.{File, cells_of, is_table, leaf_type, table_type, child_place, suits};
ghost use Rattle.dealing.specs.Walk.{plain_tree, is_ordered, entry_of, leaf, leaf_cell, leaf_events, page_events, state, run};
ghost use Rattle.record.specs.Record.{reads_of};
ghost use Rattle.payload.specs.Copy.{Fetchable};
ghost use Rattle.schema.specs.Row.{row_is};
ghost use Rattle.image.specs.Pages.{cell_in};
ghost use Rattle.image.specs.Payload.{cell_bytes};
ghost use Rattle.image.specs.Schema.{column4_of};
ghost use Rattle.image.specs.Image.{file_cell, file_of};
ghost use Rattle.image.specs.Ready.{PageAt};
ghost use Rattle.ledger.specs.Ledger.{Open, state_of, outcome, outcome_at, Least};
ghost use Rattle.spelling.specs.Count.{Short};
ghost use Rattle.dealing.specs.Spelling.{long_cells};
ghost use Rattle.tree.specs.Found.{told};
ghost use Rattle.tree.specs.Spots.{spot_of, mode_of, Tests, CalmAt, SoundAt, Above, Room};
ghost use Rattle.tree.specs.Leaves.{leaf_last, leaf_rest, payloads_in};
ghost use Rattle.tree.specs.Turns.{child_at, name_of, after_at, turn, turns};

use cell::Cell;
use header::Header;
use ledger::{Last, Tree};
use page::{Place, TreePage};
use refusal::{Refusal, Rule};

// Where a tree page stands: page 1, another root, the child of a table page, the child of an index page.
#[derive(Clone, Copy)]
pub enum Spot {
    Schema,
    Root,
    Table,
    Index,
}

// How a tree is walked: as the schema's, as another one, as one whose root the caller names as plain ascending.
#[derive(Clone, Copy)]
pub enum Mode {
    Schema,
    Plain,
    Ordered,
}

fn place_of(spot: Spot) -> Place
    ensures { (t : ℕ) → allowed result t ≡ suits (spot_of spot) t }
{
    match spot {
        Spot::Schema => Place::SchemaRoot,
        Spot::Root => Place::AnyRoot,
        Spot::Table => Place::TablePage,
        Spot::Index => Place::IndexPage,
    }
}

// Checks page p in its place (22, 23, 26). `work` holds the marks.
pub fn check(
    image: &[u8],
    h: Header,
    p: u32,
    spot: Spot,
    work: &mut [u8],
) -> Result<TreePage, Refusal>
    requires { PageAt image.now h p × (h.usable ≤ length work.old) }
    ensures found { Tests (file_of image.now) (spot_of spot) p (told result) }
    ensures reported { IfErr result (λ e. e.page ≡ p) }
{
    let place = place_of(spot);
    match image::tree_page(image, h, p, place, work) {
        Ok(page) => Ok(page),
        Err(rule) => Err(Refusal { rule, page: p }),
    }
}

fn is_plain(mode: Mode) -> bool
    ensures { result ≡ true → mode_of mode ≡ plain_tree }
{
    matches!(mode, Mode::Plain)
}

// Notes that no number on page p is spelled long.
fn note(p: u32, short: &mut [u32], n: usize)
    requires { (1 ≤ p) × (p ≤ n) × (length short.old ≡ n) }
    ensures { (f : File) → Short f n short.old → long_cells f p (f.count p) ≡ 0 → Short f n short.new }
{
    let at = p as usize - 1;
    short[at] = 1;
}

pub fn is_leaf(kind: u8) -> bool
    ensures { result ≡ leaf_type kind }
{
    matches!(kind, 10 | 13)
}

fn is_table(kind: u8) -> bool
    ensures { result ≡ table_type kind }
{
    matches!(kind, 5 | 13)
}

// A child has its parent's family.
pub fn child_spot(kind: u8) -> Spot
    ensures { spot_of result ≡ child_place (table_type kind) }
{
    if is_table(kind) {
        Spot::Table
    } else {
        Spot::Index
    }
}

// The child at turn i: that of cell i, or after the last cell the right child.
fn child_at(image: &[u8], h: Header, p: u32, kind: u8, cells: usize, i: usize, right: u32) -> u32
    requires { i < cells → SoundAt image.now h p kind × (cells ≡ (file_of image.now).count p) }
    ensures { result ≡ child_at (file_of image.now) p cells right i }
{
    if i < cells {
        image::child_of(image, h, p, kind, i)
    } else {
        right
    }
}

// Names a child; a root has its name already.
fn name_child(
    h: Header,
    p: u32,
    child: u32,
    root: bool,
    kinds: &mut [u8],
    namers: &mut [u32],
) -> Result<(), Refusal>
    requires { Open h.pages kinds.old namers.old }
    ensures { (m : Option Mark) (l : ℕ) → run h.pages (state kinds.old namers.old m l) (name_of root p child)
        ≡ outcome_at m l result kinds.new namers.new }
{
    if root {
        return Ok(());
    }
    ledger::enter(h.pages, p, child, 6, kinds, namers)
}

// The order of an index interior page's cell c, where it is asked for.
fn inner_last(
    image: &[u8],
    h: Header,
    p: u32,
    mode: Mode,
    c: Cell,
    t: Tree,
    work: &mut [u8],
) -> Result<Tree, Refusal>
    requires { Fetchable image.now h p c 65536 × (reads_of (cell_bytes image.now p c) ≡ true) × Room h mode work.old }
    ensures { (ks ns : List ℕ) → run (file_of image.now).N (state_of image.now ks ns t)
        (entry_of (is_ordered (mode_of mode)) false p (file_cell image.now p c)) ≡ outcome image.now result ks ns }
{
    match mode {
        Mode::Ordered => keys::take_entry(image, h, p, c, t, work),
        Mode::Plain | Mode::Schema => Ok(t),
    }
}

// The key of a table page's cell i, or its row number.
fn key_at(image: &[u8], h: Header, p: u32, kind: u8, i: usize) -> u64
    requires { SoundAt image.now h p kind × (i < (file_of image.now).count p) }
    ensures { result ≡ ((file_of image.now).cell p i).row }
{
    if kind == 5 {
        return image::key_of(image, h, p, i);
    }
    image::tree_cell(image, h, p, kind, i).row
}

// After the child of turn i: a table cell's key, or an index cell's payload and order; after the right child nothing.
fn after_child(
    image: &[u8],
    h: Header,
    p: u32,
    kind: u8,
    mode: Mode,
    cells: usize,
    i: usize,
    t: Tree,
    work: &mut [u8],
    kinds: &mut [u8],
    namers: &mut [u32],
) -> Result<Tree, Refusal>
    requires { (i < cells → SoundAt image.now h p kind × (cells ≡ (file_of image.now).count p))
        × Open h.pages kinds.old namers.old × Room h mode work.old }
    ensures { run (file_of image.now).N (state_of image.now kinds.old namers.old t) (after_at (file_of image.now) (mode_of mode) p cells i)
        ≡ outcome image.now result kinds.new namers.new }
{
    if cells <= i {
        return Ok(t);
    }
    if is_table(kind) {
        let key = key_at(image, h, p, kind, i);
        return ledger::take_key(p, key, t);
    }
    let c = image::tree_cell(image, h, p, kind, i);
    cells::walk_payload(image, h, p, c, work, kinds, namers)?;
    inner_last(image, h, p, mode, c, t, work)
}

// What the schema row in cell c of page p says, read through its overflow chain: copied into `work`, cut to the payload's length, or where that has no room
// apart. It calls itself, so it is not inlined: else every `walk_children` would have the array of `row_apart` in its frame (1.4 times as slow).
pub fn row_at(
    image: &[u8],
    h: Header,
    p: u32,
    c: Cell,
    work: &mut [u8],
) -> Result<Option<u32>, Rule>
    requires { Fetchable image.now h p c 65536 }
    ensures { result ≡ row_is h.pages (column4_of (cell_bytes image.now p c)) }
{
    let whole = c.payload;
    let room = work.len();
    if room < whole {
        return row_apart(image, h, p, c);
    }
    if whole < room {
        return row_at(image, h, p, c, &mut work[..whole]);
    }
    row_in(image, h, p, c, work)
}

// Copied into room of its own.
fn row_apart(image: &[u8], h: Header, p: u32, c: Cell) -> Result<Option<u32>, Rule>
    requires { Fetchable image.now h p c 65536 }
    ensures { result ≡ row_is h.pages (column4_of (cell_bytes image.now p c)) }
{
    let mut room = [0u8; 65536];
    row_in(image, h, p, c, &mut room)
}

// Copied into `work`.
fn row_in(image: &[u8], h: Header, p: u32, c: Cell, work: &mut [u8]) -> Result<Option<u32>, Rule>
    requires { Fetchable image.now h p c (length work.old) }
    ensures { result ≡ row_is h.pages (column4_of (cell_bytes image.now p c)) }
{
    payload::copy_payload(image, h, p, c, work);
    schema::schema_row(&work[..c.payload], h.pages)
}

// A leaf's cell c with index i after its payload: its order, where that is asked for, or in the schema tree its row.
fn leaf_last(
    image: &[u8],
    h: Header,
    p: u32,
    kind: u8,
    mode: Mode,
    i: usize,
    c: Cell,
    t: Tree,
    work: &mut [u8],
) -> Result<Tree, Refusal>
    requires { SoundAt image.now h p kind × Room h mode work.old × (i < (file_of image.now).count p) × (c ≡ cell_in image.now p i)
        × Fetchable image.now h p c 65536 × (reads_of (cell_bytes image.now p c) ≡ true) }
    ensures { (ks ns : List ℕ) → run (file_of image.now).N (state_of image.now ks ns t)
        (leaf_last (file_of image.now) (mode_of mode) p i) ≡ outcome image.now result ks ns }
{
    match mode {
        Mode::Plain => Ok(t),
        Mode::Ordered => {
            if is_table(kind) {
                return Ok(t);
            }
            keys::take_entry(image, h, p, c, t, work)
        }
        Mode::Schema => match row_at(image, h, p, c, work) {
            Ok(_) => Ok(t),
            Err(rule) => Err(Refusal { rule, page: p }),
        },
    }
}

// A leaf's cell c with index i after its row number: its payload, then its order or schema row.
fn leaf_rest(
    image: &[u8],
    h: Header,
    p: u32,
    kind: u8,
    mode: Mode,
    i: usize,
    c: Cell,
    t: Tree,
    work: &mut [u8],
    kinds: &mut [u8],
    namers: &mut [u32],
) -> Result<Tree, Refusal>
    requires { SoundAt image.now h p kind × Open h.pages kinds.old namers.old × Room h mode work.old
        × (i < (file_of image.now).count p) × (c ≡ cell_in image.now p i) }
    ensures { run (file_of image.now).N (state_of image.now kinds.old namers.old t) (leaf_rest (file_of image.now) (mode_of mode) p i)
        ≡ outcome image.now result kinds.new namers.new }
{
    cells::walk_payload(image, h, p, c, work, kinds, namers)?;
    leaf_last(image, h, p, kind, mode, i, c, t, work)
}

// A leaf's cell with index i: row number, payload, order, schema row.
fn leaf_cell(
    image: &[u8],
    h: Header,
    p: u32,
    kind: u8,
    mode: Mode,
    i: usize,
    t: Tree,
    work: &mut [u8],
    kinds: &mut [u8],
    namers: &mut [u32],
) -> Result<Tree, Refusal>
    requires { SoundAt image.now h p kind × Open h.pages kinds.old namers.old × Room h mode work.old
        × (i < (file_of image.now).count p) }
    ensures { run (file_of image.now).N (state_of image.now kinds.old namers.old t)
        (leaf_cell (file_of image.now) (mode_of mode) p i ((file_of image.now).cell p i))
        ≡ outcome image.now result kinds.new namers.new }
{
    let c = image::tree_cell(image, h, p, kind, i);
    let table = is_table(kind);
    let next = ledger::take_row(table, p, c.row, t)?;
    leaf_rest(image, h, p, kind, mode, i, c, next, work, kinds, namers)
}

// All cells of a leaf.
fn walk_rows(
    image: &[u8],
    h: Header,
    p: u32,
    kind: u8,
    mode: Mode,
    cells: usize,
    t: Tree,
    work: &mut [u8],
    kinds: &mut [u8],
    namers: &mut [u32],
) -> Result<Tree, Refusal>
    requires { SoundAt image.now h p kind × Open h.pages kinds.old namers.old × Room h mode work.old
        × (cells ≡ (file_of image.now).count p) }
    ensures { run (file_of image.now).N (state_of image.now kinds.old namers.old t)
        (leaf_events (file_of image.now) (mode_of mode) p 0 (cells_of (file_of image.now) p))
        ≡ outcome image.now result kinds.new namers.new }
{
    let mut last = t;
    for i in 0..cells {
        last = leaf_cell(image, h, p, kind, mode, i, last, work, kinds, namers)?;
    }
    Ok(last)
}

// The payloads of cells from..to of a sound page.
fn walk_payloads(
    image: &[u8],
    h: Header,
    p: u32,
    kind: u8,
    from: usize,
    to: usize,
    work: &mut [u8],
    kinds: &mut [u8],
    namers: &mut [u32],
) -> Result<(), Refusal>
    requires { SoundAt image.now h p kind × Open h.pages kinds.old namers.old
        × (to ≤ (file_of image.now).count p) }
    ensures { (m : Option Mark) (l : ℕ) → run (file_of image.now).N (state kinds.old namers.old m l)
        (payloads_in (file_of image.now) p from (to - from)) ≡ outcome_at m l result kinds.new namers.new }
{
    for i in from..to {
        let c = image::tree_cell(image, h, p, kind, i);
        cells::walk_payload(image, h, p, c, work, kinds, namers)?;
    }
    Ok(())
}

// All cells of a calm leaf in a plain tree: their rows rise from one that may follow, so that the payloads of from..to are all that is left.
fn quick_rows(
    image: &[u8],
    h: Header,
    p: u32,
    kind: u8,
    cells: usize,
    least: u64,
    next: u64,
    from: usize,
    to: usize,
    t: Tree,
    work: &mut [u8],
    kinds: &mut [u8],
    namers: &mut [u32],
) -> Result<Tree, Refusal>
    requires { SoundAt image.now h p kind × Open h.pages kinds.old namers.old
        × (cells ≡ (file_of image.now).count p) × CalmAt (file_of image.now) p least next from to × Least t least }
    ensures { run (file_of image.now).N (state_of image.now kinds.old namers.old t)
        (leaf_events (file_of image.now) plain_tree p 0 (cells_of (file_of image.now) p))
        ≡ outcome image.now result kinds.new namers.new }
{
    if cells == 0 {
        return Ok(t);
    }
    walk_payloads(image, h, p, kind, from, to, work, kinds, namers)?;
    if !is_table(kind) {
        return Ok(t);
    }
    Ok(Tree {
        last: Last::Row(next - 1),
        ..t
    })
}

// A leaf, with so many levels left: evenness, then its cells.
fn walk_leaf(
    image: &[u8],
    h: Header,
    p: u32,
    kind: u8,
    mode: Mode,
    levels: u32,
    cells: usize,
    t: Tree,
    work: &mut [u8],
    kinds: &mut [u8],
    namers: &mut [u32],
) -> Result<Tree, Refusal>
    requires { SoundAt image.now h p kind × Open h.pages kinds.old namers.old × Room h mode work.old
        × (cells ≡ (file_of image.now).count p) }
    ensures { run (file_of image.now).N (state_of image.now kinds.old namers.old t)
        (leaf p levels ∷ leaf_events (file_of image.now) (mode_of mode) p 0 (cells_of (file_of image.now) p))
        ≡ outcome image.now result kinds.new namers.new }
{
    let next = ledger::take_leaf(p, levels, t)?;
    walk_rows(image, h, p, kind, mode, cells, next, work, kinds, namers)
}

// A calm leaf in a plain tree: evenness, then its cells.
fn walk_calm(
    image: &[u8],
    h: Header,
    p: u32,
    kind: u8,
    levels: u32,
    cells: usize,
    least: u64,
    next: u64,
    from: usize,
    to: usize,
    t: Tree,
    work: &mut [u8],
    kinds: &mut [u8],
    namers: &mut [u32],
) -> Result<Tree, Refusal>
    requires { SoundAt image.now h p kind × Open h.pages kinds.old namers.old
        × (cells ≡ (file_of image.now).count p) × CalmAt (file_of image.now) p least next from to × Least t least }
    ensures { run (file_of image.now).N (state_of image.now kinds.old namers.old t)
        (leaf p levels ∷ leaf_events (file_of image.now) plain_tree p 0 (cells_of (file_of image.now) p))
        ≡ outcome image.now result kinds.new namers.new }
{
    let after = ledger::take_leaf(p, levels, t)?;
    quick_rows(
        image, h, p, kind, cells, least, next, from, to, after, work, kinds, namers,
    )
}

// A tree page that has its name, with so many levels left, itself included: level, type, soundness; then its cells, and on an interior page last its right
// child.
pub fn walk_page(
    image: &[u8],
    h: Header,
    p: u32,
    spot: Spot,
    mode: Mode,
    levels: u32,
    t: Tree,
    work: &mut [u8],
    kinds: &mut [u8],
    namers: &mut [u32],
    short: &mut [u32],
) -> Result<Tree, Refusal>
    requires { PageAt image.now h p × Open h.pages kinds.old namers.old × Room h mode work.old
        × Short (file_of image.now) h.pages short.old }
    ensures { (run (file_of image.now).N (state_of image.now kinds.old namers.old t)
        (page_events (file_of image.now) (mode_of mode) levels (spot_of spot) p) ≡ outcome image.now result kinds.new namers.new)
        × Short (file_of image.now) h.pages short.new }
{
    walk_children(
        image, h, p, 0, spot, mode, levels, 0, p, true, t, work, kinds, namers, short,
    )
}

// The children of interior page p, which stand at `spot`: those of its cells, then the right one, with so many levels left. Or, where `root` says so, the one
// page `right`, which has its name already. The page walk has this loop around it, and calls itself for interior pages alone: `walk_cell` and `walk_one`, which
// are called once each, become a part of it.
#[cycle(walk_cell_walk_children_walk_one)]
fn walk_children(
    image: &[u8],
    h: Header,
    p: u32,
    kind: u8,
    spot: Spot,
    mode: Mode,
    levels: u32,
    cells: usize,
    right: u32,
    root: bool,
    t: Tree,
    work: &mut [u8],
    kinds: &mut [u8],
    namers: &mut [u32],
    short: &mut [u32],
) -> Result<Tree, Refusal>
    requires { Above image.now h p kind spot cells right root × Open h.pages kinds.old namers.old × Room h mode work.old
        × Short (file_of image.now) h.pages short.old }
    ensures { (run (file_of image.now).N (state_of image.now kinds.old namers.old t)
        (turns (file_of image.now) (mode_of mode) (page_events (file_of image.now) (mode_of mode) levels (spot_of spot)) root p cells right 0 (cells + 1))
        ≡ outcome image.now result kinds.new namers.new) × Short (file_of image.now) h.pages short.new }
{
    let mut last = t;
    for left in (0..cells + 1).rev() {
        last = walk_cell(
            image, h, p, kind, spot, mode, levels, cells, left, right, root, last, work, kinds,
            namers, short,
        )?;
    }
    Ok(last)
}

// One turn of that, with so many cells left (0: the right child): the child is named and walked, then comes the key or the payload.
#[cycle(walk_cell_walk_children_walk_one)]
fn walk_cell(
    image: &[u8],
    h: Header,
    p: u32,
    kind: u8,
    spot: Spot,
    mode: Mode,
    levels: u32,
    cells: usize,
    left: usize,
    right: u32,
    root: bool,
    t: Tree,
    work: &mut [u8],
    kinds: &mut [u8],
    namers: &mut [u32],
    short: &mut [u32],
) -> Result<Tree, Refusal>
    requires { Above image.now h p kind spot cells right root × Open h.pages kinds.old namers.old × Room h mode work.old
        × (left ≤ cells) × Short (file_of image.now) h.pages short.old }
    ensures { (run (file_of image.now).N (state_of image.now kinds.old namers.old t)
        (turn (file_of image.now) (mode_of mode) (page_events (file_of image.now) (mode_of mode) levels (spot_of spot)) root p cells right (cells - left))
        ≡ outcome image.now result kinds.new namers.new) × Short (file_of image.now) h.pages short.new }
{
    let i = cells - left;
    prefetch::look_ahead(image, h, p, kind, cells, i, work, kinds, namers, short);
    let child = child_at(image, h, p, kind, cells, i, right);
    name_child(h, p, child, root, kinds, namers)?;
    let next = walk_one(
        image, h, child, spot, mode, levels, t, work, kinds, namers, short,
    )?;
    after_child(image, h, p, kind, mode, cells, i, next, work, kinds, namers)
}

// A page that has its name: a calm leaf, any other leaf, or an interior page and all below it.
#[cycle(walk_cell_walk_children_walk_one)]
fn walk_one(
    image: &[u8],
    h: Header,
    p: u32,
    spot: Spot,
    mode: Mode,
    levels: u32,
    t: Tree,
    work: &mut [u8],
    kinds: &mut [u8],
    namers: &mut [u32],
    short: &mut [u32],
) -> Result<Tree, Refusal>
    requires { PageAt image.now h p × Open h.pages kinds.old namers.old × Room h mode work.old
        × Short (file_of image.now) h.pages short.old }
    ensures { (run (file_of image.now).N (state_of image.now kinds.old namers.old t)
        (page_events (file_of image.now) (mode_of mode) levels (spot_of spot) p) ≡ outcome image.now result kinds.new namers.new)
        × Short (file_of image.now) h.pages short.new }
{
    if levels == 0 {
        return Err(Refusal {
            rule: Rule::TreeLevel,
            page: p,
        });
    }
    if is_plain(mode) {
        let place = place_of(spot);
        let least = ledger::least_row(t);
        if let Some(leaf) = image::leaf_page(image, h, p, place, least, work) {
            note(p, short, h.pages);
            return walk_calm(
                image, h, p, leaf.kind, levels, leaf.cells, least, leaf.next, leaf.from, leaf.to,
                t, work, kinds, namers,
            );
        }
    }
    let page = check(image, h, p, spot, work)?;
    if is_leaf(page.kind) {
        return walk_leaf(
            image, h, p, page.kind, mode, levels, page.cells, t, work, kinds, namers,
        );
    }
    let below = child_spot(page.kind);
    walk_children(
        image,
        h,
        p,
        page.kind,
        below,
        mode,
        levels - 1,
        page.cells,
        page.right,
        false,
        t,
        work,
        kinds,
        namers,
        short,
    )
}
