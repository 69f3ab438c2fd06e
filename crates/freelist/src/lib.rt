// The freelist: trunk pages, each with a next, a count and that many leaf pages, from the number at 32 of the image on.
#![tactic(auto)]

ghost use Rattle.std.specs.Prelude.{◌≡◌, List, ℕ, ◌+◌, ◌≤◌, length, eqb};
ghost use Rattle.std.proofs.Math.Option.{Option};
ghost use Rattle.number.specs.Bytes.{be};
ghost use Rattle.dealing.specs.Good.{Mark};
ghost use Rattle.dealing.specs.Walk.{check, trunk_leaves, free_events, state, run};
ghost use Rattle.image.specs.Image.{file_of};
ghost use Rattle.image.specs.Ready.{Opened, PageAt};
ghost use Rattle.ledger.specs.Ledger.{Open, outcome_at};

use header::Header;
use refusal::{Refusal, Rule};

// Names the leaves of trunk p, in order.
fn walk_trunk(
    image: &[u8],
    h: Header,
    p: u32,
    kinds: &mut [u8],
    namers: &mut [u32],
) -> Result<(), Refusal>
    requires { PageAt image.now h p × Open h.pages kinds.old namers.old × ((file_of image.now).trunk_count p ≤ (file_of image.now).trunk_room) }
    ensures { (m : Option Mark) (l : ℕ) → run (file_of image.now).N (state kinds.old namers.old m l)
        (trunk_leaves (file_of image.now) p ((file_of image.now).trunk_count p) 0)
        ≡ outcome_at m l result kinds.new namers.new }
{
    let count = image::word_at(image, h, p, 4) as usize;
    for j in 0..count {
        let t = image::word_at(image, h, p, 8 + 4 * j);
        ledger::enter(h.pages, p, t, 3, kinds, namers)?;
    }
    Ok(())
}

// Trunks and leaves are as many as the number at 36 says (29).
fn check_total(image: &[u8], total: usize) -> Result<(), Refusal>
    requires { 40 ≤ length image.now }
    ensures { (n : ℕ) (ks ns : List ℕ) (m : Option Mark) (l : ℕ)
        → run n (state ks ns m l) (check (eqb total (be 4 image.now 36)) 29 1) ≡ outcome_at m l result ks ns }
{
    if total != number::be32(image, 36) as usize {
        return Err(Refusal {
            rule: Rule::Freelist,
            page: 1,
        });
    }
    Ok(())
}

// The whole freelist. Of more than n trunks one is named twice, so n + 1 turns are enough.
pub fn walk_freelist(
    image: &[u8],
    h: Header,
    kinds: &mut [u8],
    namers: &mut [u32],
) -> Result<(), Refusal>
    requires { Opened image.now h × Open h.pages kinds.old namers.old }
    ensures { (m : Option Mark) (l : ℕ) → run (file_of image.now).N (state kinds.old namers.old m l)
        (free_events (file_of image.now))
        ≡ outcome_at m l result kinds.new namers.new }
{
    let room = h.usable / 4 - 2;
    let mut holder = 1;
    let mut t = number::be32(image, 32);
    let mut total = 0;
    for turn in 0..h.pages + 1 {
        if t == 0 {
            break;
        }
        ledger::enter(h.pages, holder, t, 2, kinds, namers)?;
        let count = image::word_at(image, h, t, 4) as usize;
        if room < count {
            return Err(Refusal {
                rule: Rule::Freelist,
                page: t,
            });
        }
        walk_trunk(image, h, t, kinds, namers)?;
        total += count + 1;
        holder = t;
        t = image::word_at(image, h, holder, 0);
    }
    check_total(image, total)
}
