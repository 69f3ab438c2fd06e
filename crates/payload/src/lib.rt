// A payload copied out of an image: the local bytes of its cell, then those of its chain's pages.
#![tactic(auto)]

ghost use Rattle.std.specs.Prelude.{◌≡◌, ◌++◌, ◌+◌, ◌-◌, ◌≤◌, length, drop};
ghost use Rattle.number.specs.Bytes.{part};
ghost use Rattle.paging.specs.Pages.{over};
ghost use Rattle.image.specs.Pages.{page_in};
ghost use Rattle.image.specs.Payload.{cell_bytes};
ghost use Rattle.image.specs.Ready.{Opened, PageAt};
ghost use Rattle.payload.specs.Copy.{rest_bytes, Chained, Fetchable};

use cell::Cell;
use header::Header;

// Lays n bytes of page p, from `from` on, over `out` from `at` on.
fn lay_part(image: &[u8], h: Header, p: u32, from: usize, n: usize, out: &mut [u8], at: usize)
    requires { PageAt image.now h p × (from + n ≤ h.usable) × (at + n ≤ length out.old) }
    ensures { out.new ≡ over out.old at (part (page_in image.now p) from n) }
{
    let page = header::page_of(image, h.size, p as usize);
    paging::lay(out, at, &page[from..from + n]);
}

// Lays the rest of a payload over out[from..end], from the chain that begins with page `first`.
fn copy_chain(image: &[u8], h: Header, first: u32, from: usize, end: usize, out: &mut [u8])
    requires { Opened image.now h × Chained image.now (end - from) first × (from ≤ end) × (end ≤ length out.old) }
    ensures { out.new ≡ over out.old from (rest_bytes image.now (end - from) first) }
{
    let room = h.usable - 4;
    let mut at = from;
    let mut t = first;
    while at < end {
        let n = room.min(end - at);
        lay_part(image, h, t, 4, n, out, at);
        t = image::word_at(image, h, t, 0);
        at += n;
    }
}

// Copies the payload of a cell of page p to the start of `out`.
pub fn copy_payload(image: &[u8], h: Header, p: u32, c: Cell, out: &mut [u8])
    requires { Fetchable image.now h p c (length out.old) }
    ensures { out.new ≡ cell_bytes image.now p c ++ drop c.payload out.old }
{
    lay_part(image, h, p, c.start, c.local, out, 0);
    copy_chain(image, h, c.first, c.local, c.payload, out);
}

// Copies the payload of a cell of page p over `out` from `at` on.
pub fn copy_at(image: &[u8], h: Header, p: u32, c: Cell, out: &mut [u8], at: usize)
    requires { Fetchable image.now h p c 65536 × (at + 65536 ≤ length out.old) }
    ensures { out.new ≡ over out.old at (cell_bytes image.now p c) }
{
    copy_payload(image, h, p, c, &mut out[at..]);
}
