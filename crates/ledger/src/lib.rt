// The two ledgers, and the events that every part of the walk has: a page is named, a number of a tree is read, a chain is followed.
#![tactic(auto)]

ghost use Rattle.std.specs.Prelude.{◌≡◌, true, List, [], ◌∷◌, ℕ, ◌+◌, ◌-◌, ◌≤◌, ◌<◌, length};
ghost use Rattle.std.proofs.Math.Option.{Option};
ghost use Rattle.dealing.specs.File.{File};
ghost use Rattle.dealing.specs.Good.{Mark};
ghost use Rattle.dealing.specs.Walk.{name, key, leaf, row_of, chain_of, state, run};
ghost use Rattle.image.specs.Image.{file_of};
ghost use Rattle.image.specs.Ready.{PageAt};
ghost use Rattle.ledger.specs.Ledger.{Open, state_of, outcome, outcome_at, Least};

use header::Header;
use refusal::{Refusal, Rule};

// The payload of an index cell by its place: its page, where its local bytes begin, how many there are, how long it is, its first overflow page. Small, since the walk hands it on.
#[derive(Clone, Copy)]
pub struct Held {
    pub page: u32,
    pub start: u32,
    pub local: u32,
    pub payload: u32,
    pub first: u32,
}

// What was read last in a tree: a leaf's row number or an interior page's key, moved up by 2^63; or the record of an index cell, by its place.
#[derive(Clone, Copy)]
pub enum Last {
    Nothing,
    Row(u64),
    Key(u64),
    Entry(Held),
}

impl Last {
    ghost use Rattle.dealing.specs.Good.{a_row, a_key};
    ghost use Rattle.dealing.specs.Walk.{follows};
    ghost use Rattle.ledger.specs.Ledger.{mark_of};

    // Whether a leaf's row number may come next.
    fn is_before_row(self, row: u64) -> bool
        ensures { (b : List ℕ) → result ≡ follows (mark_of b self) (a_row row) }
    {
        match self {
            Last::Nothing => true,
            Last::Row(x) | Last::Key(x) => x < row,
            Last::Entry(_) => false,
        }
    }

    // Whether an interior page's key may come next.
    fn is_before_key(self, value: u64) -> bool
        ensures { (b : List ℕ) → result ≡ follows (mark_of b self) (a_key value) }
    {
        match self {
            Last::Nothing => true,
            Last::Row(x) => x <= value,
            Last::Key(x) => x < value,
            Last::Entry(_) => false,
        }
    }
}

// What the walk carries through a tree: what was read last, and the levels left at the first leaf (0: none yet).
// Kept: (d) 0 is how the run's state says none; an Option could also say a leaf at level 0, which that state cannot.
#[derive(Clone, Copy)]
pub struct Tree {
    pub last: Last,
    pub leaf_at: u32,
}

// Page `t` is named by `holder`: its range (20), then that it is new (21). This function alone writes the ledgers.
pub fn enter(
    n: usize,
    holder: u32,
    t: u32,
    kind: u8,
    kinds: &mut [u8],
    namers: &mut [u32],
) -> Result<(), Refusal>
    requires { Open n kinds.old namers.old }
    ensures { (m : Option Mark) (l : ℕ) → run n (state kinds.old namers.old m l) (name holder t kind ∷ [])
        ≡ outcome_at m l result kinds.new namers.new }
{
    if t == 0 || n < t as usize {
        return Err(Refusal {
            rule: Rule::PointerRange,
            page: holder,
        });
    }
    let at = t as usize - 1;
    if kinds[at] != 0 {
        return Err(Refusal {
            rule: Rule::NamedTwice,
            page: t,
        });
    }
    kinds[at] = kind;
    namers[at] = holder;
    Ok(())
}

// A leaf's row number (25); index leaves have none.
pub fn take_row(table: bool, page: u32, row: u64, t: Tree) -> Result<Tree, Refusal>
    ensures { (n : ℕ) (b ks ns : List ℕ) → run n (state_of b ks ns t) (row_of table page row) ≡ outcome b result ks ns }
{
    if !table {
        return Ok(t);
    }
    if !t.last.is_before_row(row) {
        return Err(Refusal {
            rule: Rule::RowOrder,
            page,
        });
    }
    Ok(Tree {
        last: Last::Row(row),
        ..t
    })
}

// The least row number that may come next on a table leaf, of all but the greatest: any from there on may come, which is all that is asked.
pub fn least_row(t: Tree) -> u64
    ensures { Least t result }
{
    match t.last {
        Last::Nothing => 0,
        Last::Row(x) | Last::Key(x) => x.saturating_add(1),
        Last::Entry(_) => u64::MAX,
    }
}

// A table interior page's key (25).
pub fn take_key(page: u32, value: u64, t: Tree) -> Result<Tree, Refusal>
    ensures { (n : ℕ) (b ks ns : List ℕ) → run n (state_of b ks ns t) (key page value ∷ []) ≡ outcome b result ks ns }
{
    if !t.last.is_before_key(value) {
        return Err(Refusal {
            rule: Rule::RowOrder,
            page,
        });
    }
    Ok(Tree {
        last: Last::Key(value),
        ..t
    })
}

// A leaf, with so many levels left: evenness (24).
pub fn take_leaf(page: u32, levels: u32, t: Tree) -> Result<Tree, Refusal>
    ensures { (n : ℕ) (b ks ns : List ℕ) → run n (state_of b ks ns t) (leaf page levels ∷ []) ≡ outcome b result ks ns }
{
    if t.leaf_at != 0 && t.leaf_at != levels {
        return Err(Refusal {
            rule: Rule::TreeLevel,
            page,
        });
    }
    Ok(Tree {
        leaf_at: levels,
        ..t
    })
}

// The overflow chain of a cell of page p: `links` pages, of which `first` is the first.
pub fn walk_chain(
    image: &[u8],
    h: Header,
    p: u32,
    links: usize,
    first: u32,
    kinds: &mut [u8],
    namers: &mut [u32],
) -> Result<(), Refusal>
    requires { PageAt image.now h p × Open h.pages kinds.old namers.old }
    ensures { (m : Option Mark) (l : ℕ) → run (file_of image.now).N (state kinds.old namers.old m l) (chain_of (file_of image.now) p links first)
        ≡ outcome_at m l result kinds.new namers.new }
{
    if links == 0 {
        return Ok(());
    }
    let n = h.pages;
    let mut holder = p;
    let mut kind = 4;
    let mut left = links;
    let mut t = first;
    while 0 < left {
        // Mostly the pages of a chain follow one another: then `place` is counted, and no read waits for the one before it.
        let mut place = t;
        while t == place && 0 < left {
            if place == 0 {
                return Err(Refusal {
                    rule: Rule::ChainLength,
                    page: holder,
                });
            }
            enter(n, holder, place, kind, kinds, namers)?;
            holder = place;
            kind = 5;
            t = image::word_at(image, h, place, 0);
            left -= 1;
            place += 1;
        }
    }
    if t != 0 {
        return Err(Refusal {
            rule: Rule::ChainLength,
            page: holder,
        });
    }
    Ok(())
}
