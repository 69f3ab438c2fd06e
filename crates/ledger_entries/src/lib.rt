// The entries of lent ledgers before and after the walk: the first n set to zero, and the first of them that is zero.
#![tactic(auto)]

ghost use Rattle.std.specs.Prelude.{◌≡◌, ◌++◌, ℕ, ◌≤◌, ◌<◌, length, get_or, take, drop, replicate};
ghost use Rattle.dealing.specs.Walk.{first_zero};

// Sets the first n kinds to zero.
pub fn clear_kinds(kinds: &mut [u8], n: usize)
    requires { n ≤ length kinds.old }
    ensures { kinds.new ≡ replicate n 0 ++ drop n kinds.old }
{
    kinds[..n].fill(0);
}

// Sets the first n namers to zero.
pub fn clear_namers(namers: &mut [u32], n: usize)
    requires { n ≤ length namers.old }
    ensures { namers.new ≡ replicate n 0 ++ drop n namers.old }
{
    namers[..n].fill(0);
}

// No more than any of the kinds: their least, or 255. A loop with one way out: the compiler takes many kinds at once.
fn least(kinds: &[u8]) -> u8
    ensures { (j : ℕ) → j < length kinds.now → result ≤ get_or kinds.now j 0 }
{
    let mut low = 255;
    for &kind in kinds {
        low = low.min(kind);
    }
    low
}

// The index of the first of n kinds that is zero, or n: the page after it is the lowest that was never named (30).
pub fn first_zero(kinds: &[u8], n: usize) -> usize
    requires { n ≤ length kinds.now }
    ensures { (result ≡ first_zero (take n kinds.now)) × (result ≤ n) }
{
    let kinds = &kinds[..n];
    // Nearly always none is.
    if least(kinds) != 0 {
        return n;
    }
    kinds.iter().position(|&kind| kind == 0).unwrap_or(n)
}
