// How many pages there may be, page sizes, the lock-byte page, bytes laid over a part of a lent slice, and one mark a page, a bit each.
#![tactic(auto)]

ghost use Rattle.std.specs.Prelude.{◌≡◌, ◌+◌, ◌*◌, ◌<◌, ◌≤◌, length};
ghost use Rattle.paging.specs.Pages.{page_limit, lock_page, over, size_fits};
ghost use Rattle.paging.specs.Laying.{lay_lock, lay_image};
ghost use Rattle.paging.specs.Bits.{bit_at, Put, Noted, lacks};

// At most so many pages.
pub const PAGE_LIMIT: usize = 2200000;

// The number of the lock-byte page.
pub fn lock_page(size: usize) -> usize
    requires { 1 ≤ size }
    ensures { result ≡ lock_page size }
{
    1073741824 / size + 1
}

// Lays `src` over `out` from `at` on.
pub fn lay(out: &mut [u8], at: usize, src: &[u8])
    requires { at + length src.now ≤ length out.old }
    ensures { out.new ≡ over out.old at src.now }
{
    out[at..at + src.len()].copy_from_slice(src);
}

// Lays zeros down for the lock-byte page, where it is of 1 to n and does not lie wholly within an image of `long` bytes.
fn lay_lock(out: &mut [u8], long: usize, size: usize, n: usize)
    requires { (1 ≤ size) × (n * size ≤ length out.old) }
    ensures { out.new ≡ lay_lock size n long out.old }
{
    let lock = lock_page(size);
    if lock <= n && long < lock * size {
        out[(lock - 1) * size..lock * size].fill(0);
    }
}

// Lays the first n pages of an image down, as far as it has them; of the lock-byte page zeros, where the image has not all of it.
pub fn lay_image(out: &mut [u8], image: &[u8], size: usize, n: usize)
    requires { (1 ≤ size) × (n * size ≤ length out.old) }
    ensures { out.new ≡ lay_image size n image.now out.old }
{
    let most = (n * size).min(image.len());
    lay(out, 0, &image[..most]);
    lay_lock(out, image.len(), size, n);
}

// Whether a page or a sector may have that size: a power of two from 512 to 65536.
pub fn size_fits(size: u32) -> bool
    ensures { result ≡ size_fits size }
{
    matches!(
        size,
        512 | 1024 | 2048 | 4096 | 8192 | 16384 | 32768 | 65536
    )
}

// Whether bit i is set.
pub fn has_bit(marks: &[u8], i: usize) -> bool
    requires { i < 8 * length marks.now }
    ensures { result ≡ bit_at marks.now i }
{
    marks[i / 8] >> (i % 8) & 1 != 0
}

// Sets bit i.
pub fn put_bit(marks: &mut [u8], i: usize)
    requires { i < 8 * length marks.old }
    ensures { Put marks.old i marks.new }
{
    marks[i / 8] |= 1 << (i % 8);
}

// Marks page p, where it is of 1 to n: its bit is p - 1.
pub fn note(marks: &mut [u8], n: usize, p: usize)
    requires { n ≤ 8 * length marks.old }
    ensures { Noted n marks.old p marks.new }
{
    if 1 <= p && p <= n {
        put_bit(marks, p - 1);
    }
}

// Whether a page of 1 to n has no mark and does not lie within the `long` bytes of an image.
pub fn is_missing(marks: &[u8], long: usize, size: usize, n: usize) -> bool
    requires { (size ≤ 65536) × (n ≤ page_limit) × (n ≤ 8 * length marks.now) }
    ensures { result ≡ lacks marks.now long size n }
{
    for k in 0..n {
        if !has_bit(marks, k) && long < (k + 1) * size {
            return true;
        }
    }
    false
}
