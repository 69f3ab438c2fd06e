// The roots, in schema row order; `ordered` are those that the caller names as plain ascending. The schema tree, whose walk went through, is read again, and each root that a row names is walked.
#![tactic(auto)]

ghost use Rattle.std.specs.Prelude.{◌≡◌, Bool, true, false, List, [], ◌∷◌, ℕ, ◌+◌, ◌-◌, ◌≤◌, ◌<◌, length};
ghost use Rattle.dealing.specs.File.{File, level_limit, leaf_type, child_place, cells_of, table_type};
ghost use Rattle.dealing.specs.Walk.{mode_for, run, page_events, tree_events, root_events, root_at, named_by, leaf_roots, schema_roots};
ghost use Rattle.image.specs.Image.{file_of};
ghost use Rattle.image.specs.Schema.{column4_of};
ghost use Rattle.image.specs.Ready.{Opened, PageAt};
ghost use Rattle.ledger.specs.Ledger.{Open, state_of, outcome};
ghost use Rattle.payload.specs.Copy.{Fetchable};
ghost use Rattle.schema.specs.Row.{row_is};
ghost use Rattle.tree.specs.Spots.{spot_of, mode_of, Tests, SoundAt};
ghost use Rattle.spelling.specs.Count.{Short};
ghost use Rattle.roots.specs.Again.{RowsAt, Walked, Scratch};

use cell::Cell;
use header::Header;
use ledger::{Last, Tree};
use refusal::Refusal;
use tree::{Mode, Spot};

const ROOT: u8 = 1;

const LEVELS: u32 = 20;

// How a root's tree is walked: in order, where the caller names it.
fn mode_for(ordered: &[u32], root: u32) -> Mode
    ensures { mode_of result ≡ mode_for ordered.now root }
{
    if names::is_named(ordered, root) {
        Mode::Ordered
    } else {
        Mode::Plain
    }
}

// A root is named by the leaf with its schema row, and its tree is walked.
fn walk_tree(
    image: &[u8],
    h: Header,
    ordered: &[u32],
    holder: u32,
    root: u32,
    work: &mut [u8],
    kinds: &mut [u8],
    namers: &mut [u32],
    short: &mut [u32],
) -> Result<Tree, Refusal>
    requires { Opened image.now h × Open h.pages kinds.old namers.old × Scratch h ordered.now work.old
        × Short (file_of image.now) h.pages short.old }
    ensures { ((t : Tree) → run (file_of image.now).N (state_of image.now kinds.old namers.old t)
        (tree_events ordered.now (file_of image.now) holder root)
        ≡ outcome image.now result kinds.new namers.new) × Short (file_of image.now) h.pages short.new }
{
    let mode = mode_for(ordered, root);
    ledger::enter(h.pages, holder, root, ROOT, kinds, namers)?;
    let t = Tree {
        last: Last::Nothing,
        leaf_at: 0,
    };
    tree::walk_page(
        image,
        h,
        root,
        Spot::Root,
        mode,
        LEVELS,
        t,
        work,
        kinds,
        namers,
        short,
    )
}

// The root that the row of cell i names, if it names one.
fn walk_row(
    image: &[u8],
    h: Header,
    ordered: &[u32],
    p: u32,
    kind: u8,
    i: usize,
    t: Tree,
    work: &mut [u8],
    kinds: &mut [u8],
    namers: &mut [u32],
    short: &mut [u32],
) -> Result<Tree, Refusal>
    requires { SoundAt image.now h p kind × RowsAt (file_of image.now) p × (i < (file_of image.now).count p)
        × Open h.pages kinds.old namers.old × Scratch h ordered.now work.old
        × Short (file_of image.now) h.pages short.old }
    ensures { (run (file_of image.now).N (state_of image.now kinds.old namers.old t)
        (root_events ordered.now (file_of image.now) (root_at p (named_by ((file_of image.now).column4 p i))))
        ≡ outcome image.now result kinds.new namers.new) × Short (file_of image.now) h.pages short.new }
{
    let c = image::tree_cell(image, h, p, kind, i);
    match tree::row_at(image, h, p, c, work) {
        Ok(Some(root)) => walk_tree(image, h, ordered, p, root, work, kinds, namers, short),
        Ok(None) => Ok(t),
        Err(rule) => Err(Refusal { rule, page: p }),
    }
}

// The roots that the rows of a schema leaf name.
fn walk_rows(
    image: &[u8],
    h: Header,
    ordered: &[u32],
    p: u32,
    kind: u8,
    cells: usize,
    t: Tree,
    work: &mut [u8],
    kinds: &mut [u8],
    namers: &mut [u32],
    short: &mut [u32],
) -> Result<Tree, Refusal>
    requires { SoundAt image.now h p kind × RowsAt (file_of image.now) p × (cells ≡ (file_of image.now).count p)
        × Open h.pages kinds.old namers.old × Scratch h ordered.now work.old
        × Short (file_of image.now) h.pages short.old }
    ensures { (run (file_of image.now).N (state_of image.now kinds.old namers.old t)
        (root_events ordered.now (file_of image.now) (leaf_roots (file_of image.now) p 0 (cells_of (file_of image.now) p)))
        ≡ outcome image.now result kinds.new namers.new) × Short (file_of image.now) h.pages short.new }
{
    let mut last = t;
    for i in 0..cells {
        last = walk_row(
            image, h, ordered, p, kind, i, last, work, kinds, namers, short,
        )?;
    }
    Ok(last)
}

// The roots that the rows under page p of the schema tree name, from left to right, with so many levels left.
pub fn walk_roots(
    image: &[u8],
    h: Header,
    ordered: &[u32],
    p: u32,
    spot: Spot,
    levels: u32,
    t: Tree,
    work: &mut [u8],
    kinds: &mut [u8],
    namers: &mut [u32],
    short: &mut [u32],
) -> Result<Tree, Refusal>
    requires { PageAt image.now h p × Walked (file_of image.now) levels (spot_of spot) p
        × Open h.pages kinds.old namers.old × Scratch h ordered.now work.old
        × Short (file_of image.now) h.pages short.old }
    ensures { (run (file_of image.now).N (state_of image.now kinds.old namers.old t)
        (root_events ordered.now (file_of image.now) (schema_roots (file_of image.now) levels p))
        ≡ outcome image.now result kinds.new namers.new) × Short (file_of image.now) h.pages short.new }
{
    let page = tree::check(image, h, p, spot, work)?;
    if tree::is_leaf(page.kind) {
        return walk_rows(
            image, h, ordered, p, page.kind, page.cells, t, work, kinds, namers, short,
        );
    }
    let below = tree::child_spot(page.kind);
    let mut last = t;
    for i in 0..page.cells {
        let c = image::tree_cell(image, h, p, page.kind, i);
        last = walk_roots(
            image,
            h,
            ordered,
            c.child,
            below,
            levels - 1,
            last,
            work,
            kinds,
            namers,
            short,
        )?;
    }
    walk_roots(
        image,
        h,
        ordered,
        page.right,
        below,
        levels - 1,
        last,
        work,
        kinds,
        namers,
        short,
    )
}
