// Pages that the walk comes to soon, looked at together: the processor then fetches at once what it would wait for one by one. No answer depends on it:
// what comes out is put into the scratch, so that the reads are not idle.
#![tactic(auto)]

ghost use Rattle.std.specs.Prelude.{◌≡◌, ◌+◌, ◌≤◌, ◌<◌, length};
ghost use Rattle.image.specs.Image.{file_of};
ghost use Rattle.image.specs.Ready.{Opened, PageAt};

use header::Header;

// The pages of an image with fewer bytes lie in the processor's cache.
const LARGE: usize = 4194304;

// So many children are looked at together.
const TOGETHER: usize = 16;

// A byte of each 64 of a page's first 512.
fn lines(page: &[u8]) -> u64
    requires { 512 ≤ length page.now }
    ensures { result ≤ 2040 }
{
    let first = u64::from(page[0])
        + u64::from(page[64])
        + u64::from(page[128])
        + u64::from(page[192]);
    first
        + u64::from(page[256])
        + u64::from(page[320])
        + u64::from(page[384])
        + u64::from(page[448])
}

// A page's entries in the ledgers.
fn entries(kinds: &[u8], namers: &[u32], short: &[u32], at: usize) -> u64
    requires { (at < length kinds.now) × (at < length namers.now) × (at < length short.now) }
    ensures { result ≤ 8589934845 }
{
    u64::from(kinds[at]) + u64::from(namers[at]) + u64::from(short[at])
}

// Some of page p and its entries, where p is a page that has no kind yet; but not where it lies right behind page `before`: the processor fetches that by
// itself.
fn page_and_entries(
    image: &[u8],
    h: Header,
    p: u32,
    before: u32,
    kinds: &[u8],
    namers: &[u32],
    short: &[u32],
) -> u64
    requires { Opened image.now h × (length kinds.now ≡ h.pages) × (length namers.now ≡ h.pages) × (length short.now ≡ h.pages) }
    ensures { result ≤ 8589936885 }
{
    let p = p as usize;
    if p == 0 || h.pages < p {
        return 0;
    }
    // The lock-byte page, pointer maps and pages that were named have a kind already: no byte of them is read.
    if kinds[p - 1] != 0 || p - 1 == before as usize {
        return 0;
    }
    lines(header::page_of(image, h.size, p)) + entries(kinds, namers, short, p - 1)
}

// Looks at the children of the next cells of interior page p from cell i on: in a large image, at each sixteenth cell.
pub fn look_ahead(
    image: &[u8],
    h: Header,
    p: u32,
    kind: u8,
    cells: usize,
    i: usize,
    work: &mut [u8],
    kinds: &[u8],
    namers: &[u32],
    short: &[u32],
)
    requires { (i < cells → PageAt image.now h p × (kind ≡ (file_of image.now).type p) × ((file_of image.now).broken p ≡ 0)
        × (cells ≡ (file_of image.now).count p)) × (1 ≤ length work.old)
        × (length kinds.now ≡ h.pages) × (length namers.now ≡ h.pages) × (length short.now ≡ h.pages) }
{
    if image.len() < LARGE || i % TOGETHER != 0 || cells <= i {
        return;
    }
    let end = i + (cells - i).min(TOGETHER);
    let mut sum: u64 = 0;
    let mut before: u32 = 0;
    for next in i..end {
        let child = image::child_of(image, h, p, kind, next);
        // Halves, so that the compiler leaves the loop as it is.
        sum = sum / 2 + page_and_entries(image, h, child, before, kinds, namers, short);
        before = child;
    }
    work[0] = (sum % 256) as u8;
}
