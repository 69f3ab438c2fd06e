// The checker of ledgers made elsewhere: whether a proposal is the ledger of an image that the verdict accepts, no root named.
#![tactic(auto)]

ghost use Rattle.std.specs.Prelude.{◌≡◌, [], length};
ghost use Rattle.verdict.specs.Verdict.{verdict_is, kinds_at, namers_at, steps_at};
ghost use Rattle.proposal.specs.Checked.{told};
ghost use Rattle.proposal.specs.Check.{checked_of};
ghost use Rattle.proposal.specs.Means.{Checks, Says};

use refusal::Refusal;

// The verdict on the image with its ledgers, and whether the proposal is they: else the first page that differs, 0 where its length or version does.
pub fn check(
    image: &[u8],
    proposal: &[u8],
    kinds: &mut [u8],
    namers: &mut [u32],
    steps: &mut [u32],
) -> Result<Option<u32>, Refusal>
    ensures answer { told result ≡ checked_of proposal.now
        (verdict_is image.now [] (length kinds.old) (length namers.old) (length steps.old))
        kinds.new namers.new steps.new }
    ensures kinds { kinds.new
        ≡ kinds_at image.now [] kinds.old (length namers.old) (length steps.old) }
    ensures namers { namers.new
        ≡ namers_at image.now [] (length kinds.old) namers.old (length steps.old) }
    ensures steps { steps.new
        ≡ steps_at image.now [] (length kinds.old) (length namers.old) steps.old }
    ensures meaning { Checks image.now proposal.now kinds.old namers.old steps.old (Says (told result))
        kinds.new namers.new steps.new }
{
    let accepted = verdict::plain(image, kinds, namers, steps)?;
    let n = accepted.pages as usize;
    Ok(wire::compare(proposal, n, kinds, namers, steps))
}
