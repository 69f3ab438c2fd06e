ghost use Rattle.std.specs.Prelude.{◌≡◌, [], length};
ghost use Rattle.dealing.specs.Good.{Dealing};
ghost use Rattle.image.specs.Payload.{payload_of};
ghost use Rattle.image.specs.Good.{GoodDealing, TableRoot, PayloadCell};
ghost use Rattle.lookup.specs.Found.{told_found};
ghost use Rattle.lookup.specs.Fetched.{told_fetched};
ghost use Rattle.lookup.specs.Answers.{lookup_of, fetched_of, out_of};
ghost use Rattle.lookup.specs.Means.{Finds, Fetches};
ghost use Rattle.verdict.specs.Answer as Verdict;
ghost use Rattle.verdict.specs.Verdict.{verdict_is, kinds_at, namers_at, steps_at};
ghost use Rattle.verdict.specs.Means.{Means};
ghost use Rattle.urkibasko.specs.Image.{verdict_c, AcceptsC, found_c, ShowsC, NothingC, RefusesC, payload_c, CopiedC, NoRoomC};

use crate::answers::{UrkFound, UrkPayload, UrkVerdict};
use lookup::At;
use refusal::Refusal;
use verdict::Accepted;

fn told(answer: Result<Accepted, Refusal>) -> UrkVerdict
    ensures { result ≡ verdict_c (Verdict.told answer) }
{
    match answer {
        Ok(accepted) => UrkVerdict {
            refusal: 0,
            page: 0,
            pages: accepted.pages,
            long_spellings: accepted.long,
        },
        Err(refusal) => UrkVerdict {
            refusal: refusal.rule.number(),
            page: refusal.page,
            pages: 0,
            long_spellings: 0,
        },
    }
}

// The verdict on an image, with kind, namer and step of page p in entry p - 1 of the ledgers.
#[unsafe(no_mangle)]
pub extern "C" fn urk_check(
    image: &[u8],
    kinds: &mut [u8],
    namers: &mut [u32],
    steps: &mut [u32],
) -> UrkVerdict
    ensures answer { result ≡ verdict_c (verdict_is image.now [] (length kinds.old) (length namers.old) (length steps.old)) }
    ensures kinds { kinds.new
        ≡ kinds_at image.now [] kinds.old (length namers.old) (length steps.old) }
    ensures namers { namers.new
        ≡ namers_at image.now [] (length kinds.old) namers.old (length steps.old) }
    ensures steps { steps.new
        ≡ steps_at image.now [] (length kinds.old) (length namers.old) steps.old }
    ensures meaning { Means image.now [] kinds.old namers.old steps.old (AcceptsC result)
        kinds.new namers.new steps.new }
{
    told(verdict::plain(image, kinds, namers, steps))
}

// The same for a caller who names roots: the keys under each rise strictly, by the order of urk_record_order.
#[unsafe(no_mangle)]
pub extern "C" fn urk_check_ordered(
    image: &[u8],
    ordered: &[u32],
    kinds: &mut [u8],
    namers: &mut [u32],
    steps: &mut [u32],
) -> UrkVerdict
    ensures answer { result ≡ verdict_c (verdict_is image.now ordered.now (length kinds.old) (length namers.old) (length steps.old)) }
    ensures kinds { kinds.new
        ≡ kinds_at image.now ordered.now kinds.old (length namers.old) (length steps.old) }
    ensures namers { namers.new
        ≡ namers_at image.now ordered.now (length kinds.old) namers.old (length steps.old) }
    ensures steps { steps.new
        ≡ steps_at image.now ordered.now (length kinds.old) (length namers.old) steps.old }
    ensures meaning { Means image.now ordered.now kinds.old namers.old steps.old (AcceptsC result)
        kinds.new namers.new steps.new }
{
    told(verdict::verdict(image, ordered, kinds, namers, steps))
}

// What looking for a row answers, as C sees it.
impl From<Result<Option<At>, Refusal>> for UrkFound {
    ghost from_gives = { λ found answer. answer ≡ found_c (told_found found) };

    fn from(found: Result<Option<At>, Refusal>) -> UrkFound {
        match found {
            Ok(None) => UrkFound {
                refusal: 0,
                page: 0,
                found: 0,
                cell: 0,
                length: 0,
            },
            Ok(Some(at)) => UrkFound {
                refusal: 0,
                page: at.page,
                found: 1,
                cell: at.cell,
                length: at.length,
            },
            Err(e) => UrkFound {
                refusal: e.rule.number(),
                page: e.page,
                found: 0,
                cell: 0,
                length: 0,
            },
        }
    }
}

// What fetching a payload answers, as C sees it.
impl From<Result<u32, Refusal>> for UrkPayload {
    ghost from_gives = { λ fetched answer. answer ≡ payload_c (told_fetched fetched) };

    fn from(fetched: Result<u32, Refusal>) -> UrkPayload {
        match fetched {
            Ok(length) => UrkPayload {
                refusal: 0,
                page: 0,
                length,
            },
            Err(e) => UrkPayload {
                refusal: e.rule.number(),
                page: e.page,
                length: 0,
            },
        }
    }
}

// Where the row with that number is in the table tree under `root`.
#[unsafe(no_mangle)]
pub extern "C" fn urk_lookup(image: &[u8], root: u32, row: i64) -> UrkFound
    ensures answer { result ≡ found_c (lookup_of image.now root row) }
    ensures good { (d : Dealing) → GoodDealing image.now d → TableRoot image.now d root
        → Finds image.now d root row (ShowsC result) (NothingC result) (RefusesC result) }
{
    lookup::lookup(image, root, row).into()
}

// Copies the payload of a cell, counted from 0, to the start of the output.
#[unsafe(no_mangle)]
pub extern "C" fn urk_payload_fetch(
    image: &[u8],
    page: u32,
    cell: u32,
    out: &mut [u8],
) -> UrkPayload
    ensures answer { result ≡ payload_c (fetched_of image.now page cell (length out.old)) }
    ensures bytes { out.new ≡ out_of (fetched_of image.now page cell (length out.old)) (payload_of image.now page cell) out.old }
    ensures good { (d : Dealing) → GoodDealing image.now d → PayloadCell image.now d page cell
        → Fetches image.now d page cell out.old out.new (CopiedC result) (NoRoomC result) }
{
    lookup::payload(image, page, cell, out).into()
}
