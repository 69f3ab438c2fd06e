ghost use Rattle.std.specs.Prelude.{◌≡◌, [], length};
ghost use Rattle.verdict.specs.Verdict.{verdict_is, kinds_at, namers_at, steps_at};
ghost use Rattle.wire.specs.Write.{written_of, out_of};
ghost use Rattle.proposal.specs.Check.{checked_of};
ghost use Rattle.proposal.specs.Means.{Checks};
ghost use Rattle.urkibasko.specs.Ledger.{ledger_c, YesC, ledger_written_c};

use crate::answers::{UrkLedgerAnswer, UrkLedgerWritten};

// Whether a proposal made elsewhere is the ledger of an image that the verdict accepts, no root named; its ledgers at exit are those of urk_check.
#[unsafe(no_mangle)]
pub extern "C" fn urk_ledger_check(
    image: &[u8],
    proposal: &[u8],
    kinds: &mut [u8],
    namers: &mut [u32],
    steps: &mut [u32],
) -> UrkLedgerAnswer
    ensures answer { result ≡ ledger_c (checked_of proposal.now
        (verdict_is image.now [] (length kinds.old) (length namers.old) (length steps.old))
        kinds.new namers.new steps.new) }
    ensures kinds { kinds.new ≡ kinds_at image.now [] kinds.old (length namers.old) (length steps.old) }
    ensures namers { namers.new ≡ namers_at image.now [] (length kinds.old) namers.old (length steps.old) }
    ensures steps { steps.new ≡ steps_at image.now [] (length kinds.old) (length namers.old) steps.old }
    ensures meaning { Checks image.now proposal.now kinds.old namers.old steps.old (YesC result)
        kinds.new namers.new steps.new }
{
    match proposal::check(image, proposal, kinds, namers, steps) {
        Ok(None) => UrkLedgerAnswer {
            yes: 1,
            refusal: 0,
            page: 0,
        },
        Ok(Some(page)) => UrkLedgerAnswer {
            yes: 0,
            refusal: 0,
            page,
        },
        Err(refusal) => UrkLedgerAnswer {
            yes: 0,
            refusal: refusal.rule.number(),
            page: refusal.page,
        },
    }
}

// Writes the first `pages` entries of three ledgers as they are sent to the start of the output.
#[unsafe(no_mangle)]
pub extern "C" fn urk_ledger_write(
    pages: u32,
    kinds: &[u8],
    namers: &[u32],
    steps: &[u32],
    out: &mut [u8],
) -> UrkLedgerWritten
    ensures answer { result ≡ ledger_written_c (written_of pages (length kinds.now) (length namers.now) (length steps.now) (length out.old)) }
    ensures bytes { out.new ≡ out_of (written_of pages (length kinds.now) (length namers.now) (length steps.now) (length out.old))
        pages kinds.now namers.now steps.now out.old }
{
    match wire::write(pages as usize, kinds, namers, steps, out) {
        Ok(length) => UrkLedgerWritten {
            refusal: 0,
            length: length as u64,
        },
        Err(rule) => UrkLedgerWritten {
            refusal: rule.number(),
            length: 0,
        },
    }
}
