// Ledgers as they are sent: a 4-byte length of what follows, version byte 1, then for each page one kind byte, 4 bytes namer,
// 4 bytes step. Compared with ledgers, and written from them.
#![tactic(auto)]

ghost use Rattle.std.specs.Prelude.{◌≡◌, ℕ, suc, ◌+◌, ◌*◌, ◌%◌, ◌≤◌, ◌<◌, length};
ghost use Rattle.number.specs.Bytes.{part};
ghost use Rattle.wire.specs.Wire.{frame, entry, entry_of};
ghost use Rattle.wire.specs.Compare.{same, compared_of};
ghost use Rattle.wire.specs.Write.{most_pages, written_of, out_of};
ghost use Rattle.wire.specs.Laid.{Laid};

use refusal::Rule;

const MOST_PAGES: usize = 477218588;

// What stands in front of n entries.
fn frame_of(n: usize) -> [u8; 5]
    requires { n ≤ most_pages }
    ensures { result ≡ frame n }
{
    let [a, b, c, d] = (1 + n as u32 * 9).to_be_bytes();
    [a, b, c, d, 1]
}

// A page's entry.
fn entry_of(kind: u8, namer: u32, step: u32) -> [u8; 9]
    ensures { result ≡ entry kind namer step }
{
    let [a, b, c, d] = namer.to_be_bytes();
    let [e, f, g, h] = step.to_be_bytes();
    [kind, a, b, c, d, e, f, g, h]
}

// The entry of the page with that index.
fn entry_at(i: usize, kinds: &[u8], namers: &[u32], steps: &[u32]) -> [u8; 9]
    requires { (i < length kinds.now) × (i < length namers.now) × (i < length steps.now) }
    ensures { result ≡ entry_of kinds.now namers.now steps.now (suc i) }
{
    entry_of(kinds[i], namers[i], steps[i])
}

// Whether the bytes of w from `at` on are those of `want`.
fn same_at(w: &[u8], at: usize, want: &[u8]) -> bool
    requires { at + length want.now ≤ length w.now }
    ensures { result ≡ same (part w.now at (length want.now)) want.now }
{
    &w[at..at + want.len()] == want
}

// A proposal beside the first n entries of three ledgers: the page of the first that differs, 0 where the length, the length in front or the version
// does.
pub fn compare(
    proposal: &[u8],
    n: usize,
    kinds: &[u8],
    namers: &[u32],
    steps: &[u32],
) -> Option<u32>
    requires { (n ≤ most_pages) × (n ≤ length kinds.now) × (n ≤ length namers.now) × (n ≤ length steps.now) }
    ensures { result ≡ compared_of proposal.now n kinds.now namers.now steps.now }
{
    if proposal.len() != 5 + n * 9 {
        return Some(0);
    }
    let front = frame_of(n);
    if !same_at(proposal, 0, &front) {
        return Some(0);
    }
    for i in 0..n {
        let want = entry_at(i, kinds, namers, steps);
        if !same_at(proposal, 5 + i * 9, &want) {
            return Some(i as u32 + 1);
        }
    }
    None
}

// The entries of the first n pages laid down behind what stands in front.
fn lay_entries(n: usize, kinds: &[u8], namers: &[u32], steps: &[u32], out: &mut [u8])
    requires { (n ≤ most_pages) × (n ≤ length kinds.now) × (n ≤ length namers.now) × (n ≤ length steps.now) × (5 + n * 9 ≤ length out.old) }
    ensures { Laid out.old kinds.now namers.now steps.now n out.new }
{
    for i in 0..n {
        let next = entry_at(i, kinds, namers, steps);
        paging::lay(out, 5 + i * 9, &next);
    }
}

// Writes the first n entries of three ledgers to the start of the output.
pub fn write(
    n: usize,
    kinds: &[u8],
    namers: &[u32],
    steps: &[u32],
    out: &mut [u8],
) -> Result<usize, Rule>
    ensures answer { result ≡ written_of n (length kinds.now) (length namers.now)
        (length steps.now) (length out.old) }
    ensures bytes { out.new ≡ out_of result n kinds.now namers.now steps.now out.old }
{
    if MOST_PAGES < n {
        return Err(Rule::TooManyPages);
    }
    if kinds.len() < n || namers.len() < n || steps.len() < n {
        return Err(Rule::SmallLedgers);
    }
    let length = 5 + n * 9;
    if out.len() < length {
        return Err(Rule::SmallOutput);
    }
    let front = frame_of(n);
    paging::lay(out, 0, &front);
    lay_entries(n, kinds, namers, steps, out);
    Ok(length)
}
