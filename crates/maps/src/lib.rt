// Pages that have their kind by their place: the lock-byte page and the pointer maps. Before the walk they get their kinds; after it the
// maps' entries (31) and the largest root (32) are compared with the ledgers.
#![tactic(auto)]

ghost use Rattle.std.specs.Prelude.{◌≡◌, ◌≢◌, false, cond, List, ℕ, ◌+◌, ◌-◌, ◌*◌, ◌/◌, ◌≤◌, ◌<◌, eqb, length};
ghost use Rattle.number.specs.Bytes.{byte_at, be};
ghost use Rattle.header.specs.declared.Header.{Header};
ghost use Rattle.paging.specs.Pages.{lock_page};
ghost use Rattle.dealing.specs.Good.{type_for, number_for};
ghost use Rattle.dealing.specs.Walk.{kind_at, kinds_to, largest_root, final, settle};
ghost use Rattle.dealing.specs.Walk as Walk;
ghost use Rattle.image.specs.Pages.{page_in};
ghost use Rattle.image.specs.Maps.{vacuum_in, past_map};
ghost use Rattle.image.specs.Image.{file_of};
ghost use Rattle.image.specs.Ready.{Opened, PageAt};
ghost use Rattle.ledger.specs.Ledger.{Open};
ghost use Rattle.maps.specs.Settled.{settled};

use header::Header;
use refusal::{Refusal, Rule};

// How many pages page p stands past its map: 0 for a map. A map that would stand on the lock-byte page stands on the next.
fn past_map(size: usize, lock: usize, usable: usize, p: usize) -> usize
    requires { (lock ≡ lock_page size) × (2 ≤ p) }
    ensures { (result ≡ past_map size usable p) × (result ≤ usable / 5) × (result + 2 ≤ p) }
{
    let past_place = (p - 2) % (usable / 5 + 1);
    if past_place != 0 && p - past_place == lock {
        past_place - 1
    } else {
        past_place
    }
}

// The kind of page p before the walk: page 1 is a root, the lock-byte page and the maps have theirs, the others have none yet.
fn kind_at(size: usize, usable: usize, lock: usize, vacuum: u32, p: usize) -> u8
    requires { (lock ≡ lock_page size) × (1 ≤ p) }
    ensures { (b : List ℕ) (h : Header) → Opened b h → size ≡ h.size → usable ≡ h.usable → vacuum ≡ vacuum_in b → result ≡ kind_at (file_of b) p }
{
    match p {
        1 => 1,
        _ if p == lock => 8,
        _ if vacuum != 0 && past_map(size, lock, usable, p) == 0 => 7,
        _ => 0,
    }
}

// Every page's kind before the walk.
pub fn fill_kinds(image: &[u8], h: Header, kinds: &mut [u8])
    requires { Opened image.now h × (length kinds.old ≡ h.pages) }
    ensures { kinds.new ≡ kinds_to (file_of image.now) (file_of image.now).N }
{
    let lock = paging::lock_page(h.size);
    let vacuum = number::be32(image, 52);
    for i in 0..h.pages {
        kinds[i] = kind_at(h.size, h.usable, lock, vacuum, i + 1);
    }
}

// The type and the number that the entry about a page of that kind and namer has.
fn type_for(kind: u8) -> u8
    ensures { result ≡ type_for kind }
{
    match kind {
        1 => 1,
        4 => 3,
        5 => 4,
        6 => 5,
        _ => 2,
    }
}

fn number_for(kind: u8, namer: u32) -> u32
    ensures { result ≡ number_for kind namer }
{
    match kind {
        1 | 2 | 3 => 0,
        _ => namer,
    }
}

// Whether the entry at `at` of map m has that type and number.
fn entry_is(image: &[u8], h: Header, m: usize, at: usize, sort: u8, number: u32) -> bool
    requires { PageAt image.now h m × (at + 5 ≤ h.usable) }
    ensures { result ≡ cond (eqb (byte_at (page_in image.now m) at) sort) (eqb (be 4 (page_in image.now m) (at + 1)) number) false }
{
    let page = header::page_of(image, h.size, m);
    page[at] == sort && number::be32(page, at + 1) == number
}

// Whether the entry about page p agrees with its kind and namer. There is none about page 1, and none is read about the lock-byte page or a map.
fn agrees(image: &[u8], h: Header, lock: usize, p: usize, kind: u8, namer: u32) -> bool
    requires { PageAt image.now h p × (lock ≡ lock_page h.size) × (vacuum_in image.now ≢ 0) }
    ensures { result ≡ Walk.agrees (file_of image.now) p kind namer }
{
    if p == 1 || p == lock {
        return true;
    }
    let past = past_map(h.size, lock, h.usable, p);
    past == 0
        || entry_is(
            image,
            h,
            p - past,
            5 * (past - 1),
            type_for(kind),
            number_for(kind, namer),
        )
}

// The largest of the first n pages that is a root, or 0.
fn largest_root(kinds: &[u8], n: usize) -> usize
    requires { n ≤ length kinds.now }
    ensures { result ≡ largest_root kinds.now n }
{
    for at in (0..n).rev() {
        if kinds[at] == 1 {
            return at + 1;
        }
    }
    0
}

// Where the number at 52 is not zero: each entry, lowest page first (31), then the largest root (32).
pub fn check_maps(image: &[u8], h: Header, kinds: &[u8], namers: &[u32]) -> Result<(), Refusal>
    requires { Opened image.now h × Open h.pages kinds.now namers.now }
    ensures { settle (final (file_of image.now) kinds.now namers.now) kinds.now namers.now
        ≡ settled result kinds.now namers.now }
{
    let vacuum = number::be32(image, 52);
    if vacuum == 0 {
        return Ok(());
    }
    let lock = paging::lock_page(h.size);
    for i in 0..h.pages {
        if !agrees(image, h, lock, i + 1, kinds[i], namers[i]) {
            return Err(Refusal {
                rule: Rule::MapEntry,
                page: i as u32 + 1,
            });
        }
    }
    if largest_root(kinds, h.pages) != vacuum as usize {
        return Err(Refusal {
            rule: Rule::LargestRoot,
            page: 1,
        });
    }
    Ok(())
}
