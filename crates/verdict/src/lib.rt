// The verdict on an image: refusals 1 to 12 and 34, then the walk through its pages, with the office, the namer and the step of every page in three lent ledgers.
#![tactic(auto)]

ghost use Rattle.std.specs.Prelude.{◌≡◌, List, [], ℕ, ◌≤◌, length, replicate, set};
ghost use Rattle.dealing.specs.File.{File};
ghost use Rattle.dealing.specs.Walk.{run, events, blank, settle, verdict_for};
ghost use Rattle.maps.specs.Settled.{settled};
ghost use Rattle.refusal.specs.Rule.{number_of};
ghost use Rattle.image.specs.Image.{file_of};
ghost use Rattle.image.specs.Ready.{Opened, PageAt};
ghost use Rattle.ledger.specs.Ledger.{Open, state_of, outcome};
ghost use Rattle.roots.specs.Again.{Scratch};
ghost use Rattle.spelling.specs.Count.{Short};
ghost use Rattle.verdict.specs.Verdict.{dismissed, last_checks, verdict_is, kinds_at, namers_at, steps_at};
ghost use Rattle.verdict.specs.Answer.{told};
ghost use Rattle.verdict.specs.Judgement.{judged};
ghost use Rattle.verdict.specs.Means.{Means, Accepts};
ghost use Rattle.verdict.specs.Judged.{SchemaWalked, Judged, Told, Answers};

use header::Header;
use ledger::{Last, Tree};
use refusal::{Refusal, Rule};
use tree::{Mode, Spot};

// What is told of an image that is accepted: its number of pages, and how many numbers in its cells are spelled long.
#[derive(Clone, Copy, Debug, PartialEq, Eq)]
pub struct Accepted {
    pub pages: u32,
    pub long: u64,
}

const LEVELS: u32 = 20;

// The ledgers before the walk: page 1 and the pages that have theirs by their place have their kinds, the others have none.
fn begin(image: &[u8], h: Header, kinds: &mut [u8], namers: &mut [u32])
    requires { Opened image.now h × Open h.pages kinds.old namers.old }
    ensures { (kinds.new ≡ (blank (file_of image.now)).kinds) × (namers.new ≡ (blank (file_of image.now)).namers) }
{
    maps::fill_kinds(image, h, kinds);
    ledger_entries::clear_namers(namers, h.pages);
}

// The whole walk: the schema tree, the freelist, each root in schema row order.
fn walk(
    image: &[u8],
    h: Header,
    ordered: &[u32],
    work: &mut [u8],
    kinds: &mut [u8],
    namers: &mut [u32],
    short: &mut [u32],
) -> Result<Tree, Refusal>
    requires { Opened image.now h × Open h.pages kinds.old namers.old × Scratch h ordered.now work.old
        × Short (file_of image.now) h.pages short.old }
    ensures { (run (file_of image.now).N (blank (file_of image.now)) (events ordered.now (file_of image.now))
        ≡ outcome image.now result kinds.new namers.new)
        × Short (file_of image.now) h.pages short.new }
{
    begin(image, h, kinds, namers);
    let none = Tree {
        last: Last::Nothing,
        leaf_at: 0,
    };
    let t = tree::walk_page(
        image,
        h,
        1,
        Spot::Schema,
        Mode::Schema,
        LEVELS,
        none,
        work,
        kinds,
        namers,
        short,
    )?;
    walk_rest(image, h, ordered, t, work, kinds, namers, short)
}

// The walk after the schema tree.
fn walk_rest(
    image: &[u8],
    h: Header,
    ordered: &[u32],
    t: Tree,
    work: &mut [u8],
    kinds: &mut [u8],
    namers: &mut [u32],
    short: &mut [u32],
) -> Result<Tree, Refusal>
    requires { Opened image.now h × SchemaWalked image.now kinds.old namers.old t
        × Open h.pages kinds.old namers.old × Scratch h ordered.now work.old
        × Short (file_of image.now) h.pages short.old }
    ensures { (run (file_of image.now).N (blank (file_of image.now)) (events ordered.now (file_of image.now))
        ≡ outcome image.now result kinds.new namers.new)
        × Short (file_of image.now) h.pages short.new }
{
    freelist::walk_freelist(image, h, kinds, namers)?;
    roots::walk_roots(
        image,
        h,
        ordered,
        1,
        Spot::Schema,
        LEVELS,
        t,
        work,
        kinds,
        namers,
        short,
    )
}

// A refusal by the walk or after it zeroes the ledgers.
fn refuse(n: usize, refusal: Refusal, kinds: &mut [u8], namers: &mut [u32]) -> Result<u32, Refusal>
    requires { Open n kinds.old namers.old }
    ensures { (judged result ≡ dismissed (number_of refusal.rule) refusal.page) × (kinds.new ≡ replicate n 0) × (namers.new ≡ replicate n 0) }
{
    ledger_entries::clear_kinds(kinds, n);
    ledger_entries::clear_namers(namers, n);
    Err(refusal)
}

// What is checked of the finished ledgers: 31, then 32, then each name (35).
fn check_last(
    image: &[u8],
    h: Header,
    ordered: &[u32],
    kinds: &[u8],
    namers: &[u32],
) -> Result<(), Refusal>
    requires { Opened image.now h × Open h.pages kinds.now namers.now }
    ensures { settle (last_checks ordered.now (file_of image.now) kinds.now namers.now) kinds.now namers.now
        ≡ settled result kinds.now namers.now }
{
    maps::check_maps(image, h, kinds, namers)?;
    names::check_names(image, h, kinds, ordered)
}

// These checks; a refusal zeroes the ledgers.
fn conclude(
    image: &[u8],
    h: Header,
    ordered: &[u32],
    kinds: &mut [u8],
    namers: &mut [u32],
) -> Result<u32, Refusal>
    requires { Opened image.now h × Open h.pages kinds.old namers.old }
    ensures { Judged (file_of image.now).N
        (settle (last_checks ordered.now (file_of image.now) kinds.old namers.old) kinds.old namers.old)
        (judged result) kinds.new namers.new }
{
    match check_last(image, h, ordered, kinds, namers) {
        Err(refusal) => refuse(h.pages, refusal, kinds, namers),
        Ok(()) => Ok(h.pages as u32),
    }
}

// The walk, then the lowest page that was never named (30), then what is checked of the finished ledgers. They have an entry for each page and no more.
fn judge(
    image: &[u8],
    h: Header,
    ordered: &[u32],
    work: &mut [u8],
    kinds: &mut [u8],
    namers: &mut [u32],
    short: &mut [u32],
) -> Result<u32, Refusal>
    requires { Opened image.now h × Open h.pages kinds.old namers.old × Scratch h ordered.now work.old
        × Short (file_of image.now) h.pages short.old }
    ensures { Judged (file_of image.now).N (verdict_for ordered.now (file_of image.now)) (judged result) kinds.new namers.new
        × Short (file_of image.now) h.pages short.new }
{
    let n = h.pages;
    match walk(image, h, ordered, work, kinds, namers, short) {
        Err(refusal) => {
            return refuse(n, refusal, kinds, namers);
        }
        Ok(_) => {}
    }
    let first = ledger_entries::first_zero(kinds, n);
    if first < n {
        let page = first as u32 + 1;
        let rule = Rule::NeverNamed;
        return refuse(n, Refusal { rule, page }, kinds, namers);
    }
    conclude(image, h, ordered, kinds, namers)
}

// The judgement, and on acceptance the count of numbers that are spelled long and each page's step. Until then `steps` notes the pages that have none.
fn tell(
    image: &[u8],
    h: Header,
    ordered: &[u32],
    work: &mut [u8],
    kinds: &mut [u8],
    namers: &mut [u32],
    steps: &mut [u32],
) -> Result<Accepted, Refusal>
    requires { Opened image.now h × Open h.pages kinds.old namers.old × (length steps.old ≡ h.pages) × Scratch h ordered.now work.old }
    ensures { Told ordered.now (file_of image.now) (told result) kinds.new namers.new steps.new }
{
    let n = h.pages;
    ledger_entries::clear_namers(steps, n);
    match judge(image, h, ordered, work, kinds, namers, steps) {
        Err(refusal) => {
            ledger_entries::clear_namers(steps, n);
            Err(refusal)
        }
        Ok(pages) => {
            let long = spelling::count_long(image, h, kinds, steps);
            steps::fill_steps(n, namers, steps);
            Ok(Accepted { pages, long })
        }
    }
}

// The verdict on an image that passes 1 to 11, with scratch that is lent: 34, room for the ledgers (12), then the walk.
fn decide(
    image: &[u8],
    h: Header,
    ordered: &[u32],
    work: &mut [u8],
    kinds: &mut [u8],
    namers: &mut [u32],
    steps: &mut [u32],
) -> Result<Accepted, Refusal>
    requires { Opened image.now h × Scratch h ordered.now work.old }
    ensures { Answers image.now ordered.now kinds.old namers.old steps.old
        (told result) kinds.new namers.new steps.new }
{
    if names::wrong_encoding(image, ordered) {
        return Err(Rule::TextEncoding.into());
    }
    let n = h.pages;
    if kinds.len() < n || namers.len() < n || steps.len() < n {
        return Err(Rule::SmallLedgers.into());
    }
    tell(
        image,
        h,
        ordered,
        work,
        &mut kinds[..n],
        &mut namers[..n],
        &mut steps[..n],
    )
}

// Whether the image is a whole, consistent database, in which the keys under each root of `ordered` rise. Kind, namer and step of page p stand in entry p - 1 of the ledgers.
pub fn verdict(
    image: &[u8],
    ordered: &[u32],
    kinds: &mut [u8],
    namers: &mut [u32],
    steps: &mut [u32],
) -> Result<Accepted, Refusal>
    ensures answer { told result ≡ verdict_is image.now ordered.now (length kinds.old) (length namers.old) (length steps.old) }
    ensures kinds { kinds.new
        ≡ kinds_at image.now ordered.now kinds.old (length namers.old) (length steps.old) }
    ensures namers { namers.new
        ≡ namers_at image.now ordered.now (length kinds.old) namers.old (length steps.old) }
    ensures steps { steps.new
        ≡ steps_at image.now ordered.now (length kinds.old) (length namers.old) steps.old }
    ensures meaning { Means image.now ordered.now kinds.old namers.old steps.old (Accepts (told result))
        kinds.new namers.new steps.new }
{
    if ordered.is_empty() {
        return plain(image, kinds, namers, steps);
    }
    let h = header::check_header(image)?;
    let mut work = [0u8; 131072];
    decide(image, h, ordered, &mut work, kinds, namers, steps)
}

// The same where no root is named, with scratch by the size of a page.
pub fn plain(
    image: &[u8],
    kinds: &mut [u8],
    namers: &mut [u32],
    steps: &mut [u32],
) -> Result<Accepted, Refusal>
    ensures answer { told result ≡ verdict_is image.now [] (length kinds.old) (length namers.old) (length steps.old) }
    ensures kinds { kinds.new ≡ kinds_at image.now [] kinds.old (length namers.old) (length steps.old) }
    ensures namers { namers.new ≡ namers_at image.now [] (length kinds.old) namers.old (length steps.old) }
    ensures steps { steps.new ≡ steps_at image.now [] (length kinds.old) (length namers.old) steps.old }
    ensures meaning { Means image.now [] kinds.old namers.old steps.old (Accepts (told result))
        kinds.new namers.new steps.new }
{
    let h = header::check_header(image)?; // 1 to 11
    if h.usable <= 4096 {
        let mut work = [0u8; 4096];
        return decide(image, h, &[], &mut work, kinds, namers, steps);
    }
    if h.usable <= 16384 {
        let mut work = [0u8; 16384];
        return decide(image, h, &[], &mut work, kinds, namers, steps);
    }
    let mut work = [0u8; 65536];
    decide(image, h, &[], &mut work, kinds, namers, steps)
}
