// The order of index keys, where the caller asks for it: a record against the one before it in its tree (33).
#![tactic(auto)]

ghost use Rattle.std.specs.Prelude.{◌≡◌, true, List, [], ◌∷◌, ℕ, ◌-◌, ◌≤◌, length, take};
ghost use Rattle.std.proofs.Math.Option.{some};
ghost use Rattle.number.specs.Bytes.{part};
ghost use Rattle.dealing.specs.File.{File};
ghost use Rattle.dealing.specs.Good.{a_record};
ghost use Rattle.dealing.specs.Walk.{entry, follows, run};
ghost use Rattle.record.specs.Record.{reads_of};
ghost use Rattle.compare.specs.Values.{values_of, list_of, order_of};
ghost use Rattle.image.specs.Payload.{cell_bytes};
ghost use Rattle.image.specs.Ready.{Opened};
ghost use Rattle.image.specs.Image.{file_of};
ghost use Rattle.payload.specs.Copy.{Fetchable};
ghost use Rattle.ledger.specs.Ledger.{on_page, copies, holding, cell_from, held_in, held_mark, state_of, outcome};
ghost use Rattle.keys.specs.Keys.{less_in};

use cell::Cell;
use header::Header;
use ledger::{Held, Last, Tree};
use refusal::{Refusal, Rule};
use std::cmp::Ordering;

// The second record of a comparison lies from here on.
const HALF: usize = 65536;

// Whether cell c lies on page p, and its payload is within the limit.
fn on_page(h: Header, p: u32, c: Cell) -> bool
    ensures { result ≡ on_page h.pages h.usable p c }
{
    if p == 0 || h.pages < p as usize {
        return false;
    }
    if c.payload < c.local || 65536 < c.payload {
        return false;
    }
    c.start <= h.usable && c.local <= h.usable - c.start
}

// Whether the payload of cell c of page p can be copied. That of a cell which the walk has met can: it is tested again, so
// that the walk carries no more than its place.
fn can_copy(image: &[u8], h: Header, p: u32, c: Cell) -> bool
    requires { Opened image.now h }
    ensures { result ≡ copies image.now p c }
{
    if !on_page(h, p, c) {
        return false;
    }
    let links = cell::cell_links(h.usable, c);
    lookup::follow_chain(image, h, p, links, c.first).is_ok()
}

// Whether the record in the first m bytes is less than the one from HALF on.
fn rises(both: &[u8], m: usize) -> bool
    requires { (m ≤ 65536) × (65536 ≤ length both.now) }
    ensures { result ≡ less_in (order_of (take m both.now) (part both.now 65536 (length both.now - 65536))) }
{
    matches!(
        compare::order(&both[..m], &both[HALF..]),
        Ok(Ordering::Less)
    )
}

// Whether the record of cell d of page q is less than that of cell c of page p. `work` is scratch, for both.
fn precedes(image: &[u8], h: Header, q: u32, d: Cell, p: u32, c: Cell, work: &mut [u8]) -> bool
    requires { Fetchable image.now h q d 65536 × Fetchable image.now h p c 65536 × (131072 ≤ length work.old) }
    ensures { result ≡ less_in (order_of (cell_bytes image.now q d) (cell_bytes image.now p c)) }
{
    payload::copy_at(image, h, q, d, work, 0);
    payload::copy_at(image, h, p, c, work, HALF);
    rises(&work[..HALF + c.payload], d.payload)
}

// Whether the record held, that of cell d of page q, is less than that of cell c of page p.
fn rises_from(image: &[u8], h: Header, q: u32, d: Cell, p: u32, c: Cell, work: &mut [u8]) -> bool
    requires { Fetchable image.now h p c 65536 × (131072 ≤ length work.old) }
    ensures { result ≡ follows (some (held_mark (held_in image.now q d))) (a_record (list_of (values_of (cell_bytes image.now p c)))) }
{
    can_copy(image, h, q, d) && precedes(image, h, q, d, p, c, work)
}

// Cell c of page p, as it is held.
fn hold(image: &[u8], h: Header, p: u32, c: Cell) -> Held
    requires { Fetchable image.now h p c 65536 }
    ensures { result ≡ holding p c }
{
    Held {
        page: p,
        start: c.start as u32,
        local: c.local as u32,
        payload: c.payload as u32,
        first: c.first,
    }
}

fn cell_from(e: Held) -> Cell
    ensures { result ≡ cell_from e }
{
    Cell {
        fault: 0,
        child: 0,
        payload: e.payload as usize,
        row: 0,
        start: e.start as usize,
        local: e.local as usize,
        first: e.first,
        end: 0,
        long: 0,
    }
}

// Whether the record held is less than that of cell c of page p.
fn rises_after(image: &[u8], h: Header, e: Held, p: u32, c: Cell, work: &mut [u8]) -> bool
    requires { Fetchable image.now h p c 65536 × (131072 ≤ length work.old) }
    ensures { result ≡ follows (some (held_mark (held_in image.now e.page (cell_from e))))
        (a_record (list_of (values_of (cell_bytes image.now p c)))) }
{
    rises_from(image, h, e.page, cell_from(e), p, c, work)
}

// The record of an index cell c of page p, where order is asked for: it is more than the last one (33).
pub fn take_entry(
    image: &[u8],
    h: Header,
    p: u32,
    c: Cell,
    t: Tree,
    work: &mut [u8],
) -> Result<Tree, Refusal>
    requires { Fetchable image.now h p c 65536 × (reads_of (cell_bytes image.now p c) ≡ true) × (131072 ≤ length work.old) }
    ensures { (ks ns : List ℕ) → run (file_of image.now).N (state_of image.now ks ns t)
        (entry p (list_of (values_of (cell_bytes image.now p c))) ∷ []) ≡ outcome image.now result ks ns }
{
    let next = Tree {
        last: Last::Entry(hold(image, h, p, c)),
        ..t
    };
    let refusal = Refusal {
        rule: Rule::KeyOrder,
        page: p,
    };
    match t.last {
        Last::Nothing => Ok(next),
        Last::Row(_) | Last::Key(_) => Err(refusal),
        Last::Entry(e) => {
            if rises_after(image, h, e, p, c, work) {
                Ok(next)
            } else {
                Err(refusal)
            }
        }
    }
}
