// The write-ahead log: which frames count, the last commit, and what is shown of each page.
#![tactic(auto)]

ghost use Rattle.std.specs.Prelude.{◌≡◌, ℕ, max, ◌+◌, ◌-◌, ◌*◌, ◌<◌, ◌≤◌, ◌^◌, true, false, length};
ghost use Rattle.refusal.specs.Rule.{number_of};
ghost use Rattle.number.specs.Bytes.{part};
ghost use Rattle.wal.specs.Sums.{is_big, le, word_at, mixed, sums_over};
ghost use Rattle.wal.specs.Frames.{frame_at, salted, marked, carries, header_sums, scan_of, last_frame};
ghost use Rattle.wal.specs.State.{state_of, state_in, state_at};
ghost use Rattle.paging.specs.Pages.{page_limit};
ghost use Rattle.paging.specs.Bits.{Clear};
ghost use Rattle.wal.specs.Whole.{Marks, lay_frame, lay_frames, Laid};
ghost use Rattle.wal.specs.View.{pair_state, image_part, page_at, page_of, view_of, recover_of, out_of};
ghost use Rattle.wal.specs.Bounds.{Bounds};
ghost use Rattle.wal.specs.Told.{order_of, Finds, state_told, number_from, part_or, part_told, refusal_told, recovered_told};

use refusal::Rule;

pub const LITTLE: u32 = 0x377f0682;

pub const BIG: u32 = 0x377f0683;

pub const VERSION: u32 = 3007000;

// The order of bytes in the words of the sums.
#[derive(Clone, Copy, Debug, PartialEq, Eq)]
pub enum Order {
    Little,
    Big,
}

// The order that a log's magic gives.
#[tactic(auto, unfolding(crate::specs::Told::order_of))]
pub fn order_of(magic: u32) -> Option<Order>
    ensures { result ≡ order_of magic }
{
    match magic {
        LITTLE => Some(Order::Little),
        BIG => Some(Order::Big),
        _ => None,
    }
}

// A checksum word.
pub fn word(b: &[u8], at: usize, order: Order) -> u32
    requires { at + 4 ≤ length b.now }
    ensures { result ≡ word_at (is_big order) b.now at }
{
    match order {
        Order::Little => u32::from_le_bytes([b[at], b[at + 1], b[at + 2], b[at + 3]]),
        Order::Big => number::be32(b, at),
    }
}

// One sum carried on: modulo 2^32, with no branch.
pub fn mix(s: u32, a: u32, t: u32) -> u32
    ensures { result ≡ mixed s a t }
{
    s.wrapping_add(a).wrapping_add(t)
}

// The two sums.
#[derive(Clone, Copy, Debug, PartialEq, Eq)]
pub struct Sums {
    pub s0: u32,
    pub s1: u32,
}

impl Sums {
    // Carried on over the word pair at `at`.
    pub fn over(self, b: &[u8], at: usize, order: Order) -> Sums
        requires { at + 8 ≤ length b.now }
        ensures { sums_over (is_big order) b.now at 1 (self.s0, self.s1) ≡ (result.s0, result.s1) }
    {
        let s0 = mix(self.s0, word(b, at, order), self.s1);
        let s1 = mix(self.s1, word(b, at + 4, order), s0);
        Sums { s0, s1 }
    }
}

// The sums over a header's first 24 bytes.
pub fn header_sums(log: &[u8], order: Order) -> Sums
    requires { 24 ≤ length log.now }
    ensures { header_sums (is_big order) log.now ≡ (result.s0, result.s1) }
{
    let p = Sums { s0: 0, s1: 0 }.over(log, 0, order);
    let q = p.over(log, 8, order);
    q.over(log, 16, order)
}

// The frame's salts are the header's.
#[tactic(auto, unfolding(crate::specs::Frames::salted))]
pub fn is_salted(log: &[u8], at: usize) -> bool
    requires { (32 ≤ length log.now) × (at + 24 ≤ length log.now) }
    ensures { result ≡ salted log.now at }
{
    number::be32(log, at + 8) == number::be32(log, 16)
        && number::be32(log, at + 12) == number::be32(log, 20)
}

// The frame's number is neither 0 nor the lock-byte page's, and its salts are the header's.
#[tactic(auto, unfolding(crate::specs::Frames::marked, crate::specs::Frames::salted))]
fn is_marked(log: &[u8], at: usize, size: usize) -> bool
    requires { (32 ≤ length log.now) × (at + 24 ≤ length log.now) × (1 ≤ size) }
    ensures { result ≡ marked size log.now at }
{
    let page = number::be32(log, at) as usize;
    page != 0 && page != paging::lock_page(size) && is_salted(log, at)
}

// The frame carries these sums; of the header, whose sums stand at 24, `at` is 8.
#[tactic(auto, unfolding(crate::specs::Frames::carries))]
fn is_carried(log: &[u8], at: usize, sums: Sums) -> bool
    requires { at + 24 ≤ length log.now }
    ensures { result ≡ carries log.now at (sums.s0, sums.s1) }
{
    number::be32(log, at + 16) == sums.s0 && number::be32(log, at + 20) == sums.s1
}

// The sums over the header's first 24 bytes are those that it carries.
pub fn is_headed(log: &[u8], order: Order) -> bool
    requires { 32 ≤ length log.now }
    ensures { result ≡ carries log.now 8 (header_sums (is_big order) log.now) }
{
    is_carried(log, 8, header_sums(log, order))
}

// How many frames count, and the number of the last commit among them, 0 for none.
#[derive(Clone, Copy, Debug, PartialEq, Eq)]
pub struct Found {
    pub counting: usize,
    pub commit: usize,
}

// Stops at the first frame that fails.
pub fn scan(log: &[u8], order: Order, size: usize) -> Found
    requires { (32 ≤ length log.now) × (1 ≤ size) × (size ≤ 65536) × (carries log.now 8 (header_sums (is_big order) log.now) ≡ true) }
    ensures { result ≡ scan_of (is_big order) size log.now }
{
    match order {
        Order::Little => scan_words(log, Order::Little, size),
        Order::Big => scan_words(log, Order::Big, size),
    }
}

// The same, inlined for each order: in one loop for both the order is chosen anew at each word, with 2.5 times the instructions.
#[inline(always)]
fn scan_words(log: &[u8], order: Order, size: usize) -> Found
    requires { (32 ≤ length log.now) × (1 ≤ size) × (size ≤ 65536) × (carries log.now 8 (header_sums (is_big order) log.now) ≡ true) }
    ensures { result ≡ scan_of (is_big order) size log.now }
{
    let stride = 24 + size;
    let pairs = size / 8;
    let mut sums = Sums {
        s0: number::be32(log, 24),
        s1: number::be32(log, 28),
    };
    let mut at: usize = 32;
    let mut counting: usize = 0;
    let mut commit: usize = 0;
    let found = 'frames: loop {
        if log.len() - at < stride || !is_marked(log, at, size) {
            break 'frames Found { counting, commit };
        }
        sums = sums.over(log, at, order);
        let mut i: usize = 0;
        // In a straight line only two adds a pair wait for each other, in a turn of its own three.
        // Kept: (b) four pairs a turn, in the loop itself: as a function with two callers it was called (docs/SPEED.md, "The sums of a log").
        while i + 4 <= pairs {
            let w = at + 24 + 8 * i;
            let p = sums.over(log, w, order);
            let q = p.over(log, w + 8, order);
            let r = q.over(log, w + 16, order);
            sums = r.over(log, w + 24, order);
            i += 4;
        }
        for k in i..pairs {
            sums = sums.over(log, at + 24 + 8 * k, order);
        }
        if !is_carried(log, at, sums) {
            break 'frames Found { counting, commit };
        }
        counting += 1;
        if number::be32(log, at + 4) != 0 {
            commit = counting;
        }
        at += stride;
    };
    found
}

// Where frame k begins.
#[tactic(auto, unfolding(crate::specs::Frames::frame_at))]
pub fn frame_at(size: usize, k: usize) -> usize
    requires { (size ≤ 65536) × (frame_at size k < 2 ^ 64) }
    ensures { result ≡ frame_at size k }
{
    32 + k * (24 + size)
}

// The first `frames` frames of a log are in force, and the file has `pages` pages of `size` bytes.
#[derive(Clone, Copy, Debug, PartialEq, Eq)]
pub struct State {
    pub size: usize,
    pub frames: usize,
    pub pages: usize,
}

// The state that the first m frames give, the last of them a commit.
#[tactic(auto, unfolding(crate::specs::State::state_at))]
fn state_at(log: &[u8], size: usize, m: usize) -> Result<Option<State>, Rule>
    requires { (size ≤ 65536) × (frame_at size m ≤ length log.now) }
    ensures { Finds result (state_at size log.now m) }
{
    if m == 0 {
        return Ok(None);
    }
    let pages = number::be32(log, frame_at(size, m - 1) + 4) as usize;
    if paging::PAGE_LIMIT < pages {
        return Err(Rule::RecoveredPages);
    }
    Ok(Some(State {
        size,
        frames: m,
        pages,
    }))
}

// The log in the word order that its magic gives.
#[tactic(auto, unfolding(crate::specs::State::state_in))]
fn state_in(log: &[u8], order: Order) -> Result<Option<State>, Rule>
    requires { 32 ≤ length log.now }
    ensures { Finds result (state_in (is_big order) log.now) }
{
    if !is_headed(log, order) {
        return Ok(None);
    }
    if number::be32(log, 4) != VERSION {
        return Err(Rule::LogVersion);
    }
    let size = number::be32(log, 8);
    if !paging::size_fits(size) {
        return Err(Rule::RecoverySize);
    }
    let found = scan(log, order, size as usize);
    state_at(log, size as usize, found.commit)
}

// What the log says; nothing, where there is nothing to recover.
#[tactic(auto, unfolding(crate::specs::State::state_of))]
pub fn log_state(log: &[u8]) -> Result<Option<State>, Rule>
    ensures { Finds result (state_of log.now) }
{
    if log.len() < 32 {
        return Ok(None);
    }
    match order_of(number::be32(log, 0)) {
        Some(order) => state_in(log, order),
        None => Ok(None),
    }
}

// The state of log and image: with nothing to recover, the image alone, of no frames.
pub fn state_of(log: &[u8], image: &[u8]) -> Result<State, Rule>
    ensures { state_told result ≡ pair_state log.now image.now }
{
    match log_state(log)? {
        Some(state) => Ok(state),
        None => {
            let alone = header::check_size(image)?;
            Ok(State {
                size: alone.size,
                frames: 0,
                pages: alone.pages,
            })
        },
    }
}

// Where a page is shown from.
#[derive(Clone, Copy, Debug, PartialEq, Eq)]
pub enum Source {
    Log,
    Image,
}

// What is shown of one page: a part of the log or else of the image.
#[derive(Clone, Copy, Debug, PartialEq, Eq)]
pub struct Part {
    pub source: Source,
    pub start: usize,
    pub length: usize,
}

// Page p of the image, where it lies wholly within it; whoever asks says what it is refused with where it does not.
#[tactic(auto, unfolding(crate::specs::View::image_part))]
pub fn image_part(image: &[u8], size: usize, p: usize) -> Option<Part>
    requires { (1 ≤ p) × (p * size < 2 ^ 64) }
    ensures { (refusal : ℕ) → part_or refusal result ≡ image_part refusal size image.now p }
{
    if image.len() < p * size {
        return None;
    }
    Some(Part {
        source: Source::Image,
        start: (p - 1) * size,
        length: size,
    })
}

// A log and an image in the state that they give.
#[derive(Clone, Copy)]
pub struct View<'a> {
    pub log: &'a [u8],
    pub image: &'a [u8],
    pub state: State,
    ghost bounds: { Bounds log.now state.size state.frames state.pages },
}

impl<'a> View<'a> {
    // The last frame in force for a page.
    fn last_frame(&self, page: u32) -> Option<usize>
        ensures { number_from result ≡ last_frame self.now.state.size self.now.log.now page self.now.state.frames }
    {
        for k in (0..self.state.frames).rev() {
            if number::be32(self.log, frame_at(self.state.size, k)) == page {
                return Some(k);
            }
        }
        None
    }

    // Where a page is shown from.
    #[tactic(auto, unfolding(crate::specs::View::page_at))]
    fn page(&self, page: u32) -> Result<Part, Rule>
        ensures { part_told result ≡ page_at self.now.state.size self.now.log.now self.now.image.now self.now.state.frames self.now.state.pages page }
    {
        let size = self.state.size;
        let p = page as usize;
        if p == 0 || self.state.pages < p {
            return Err(Rule::NoSuchPlace);
        }
        if p == paging::lock_page(size) {
            return image_part(self.image, size, p).ok_or(Rule::NoSuchPlace);
        }
        match self.last_frame(page) {
            Some(k) => Ok(Part {
                source: Source::Log,
                start: frame_at(size, k) + 24,
                length: size,
            }),
            None => image_part(self.image, size, p).ok_or(Rule::PageNowhere),
        }
    }

    // Marks the pages that a frame in force holds; no mark is set before.
    fn mark_frames(&self, marks: &mut [u8])
        requires { (self.now.state.pages ≤ 8 * length marks.old) × Clear marks.old }
        ensures { Marks self.now.state.size self.now.log.now self.now.state.frames self.now.state.pages marks.new }
    {
        for k in 0..self.state.frames {
            let page = number::be32(self.log, frame_at(self.state.size, k));
            paging::note(marks, self.state.pages, page as usize);
        }
    }

    // Lays the page at `from` down as page p, where it is of 1 to n.
    #[tactic(auto, unfolding(crate::specs::Whole::lay_frame))]
    fn lay_frame(&self, p: usize, from: usize, out: &mut [u8])
        requires { (from + self.now.state.size ≤ length self.now.log.now) × (self.now.state.pages * self.now.state.size ≤ length out.old) }
        ensures { out.new ≡ lay_frame self.now.state.size self.now.state.pages p (part self.now.log.now from self.now.state.size) out.old }
    {
        if p == 0 || self.state.pages < p {
            return;
        }
        let size = self.state.size;
        paging::lay(out, (p - 1) * size, &self.log[from..from + size]);
    }

    // Lays the frames in force down one after the other: the last of a page stays.
    fn lay_frames(&self, out: &mut [u8])
        requires { self.now.state.pages * self.now.state.size ≤ length out.old }
        ensures { out.new ≡ lay_frames self.now.state.size self.now.log.now self.now.state.pages out.old self.now.state.frames }
    {
        for k in 0..self.state.frames {
            let at = frame_at(self.state.size, k);
            let page = number::be32(self.log, at);
            self.lay_frame(page as usize, at + 24, out);
        }
    }

    // Recovery with marks for all pages, of which none is set.
    fn recover_with(&self, marks: &mut [u8], out: &mut [u8]) -> Result<(), Rule>
        requires { (self.now.state.pages ≤ 8 * length marks.old) × Clear marks.old }
        ensures { Laid self.now.state.size self.now.log.now self.now.image.now self.now.state.frames self.now.state.pages out.old (refusal_told result) out.new }
    {
        let size = self.state.size;
        let pages = self.state.pages;
        self.mark_frames(marks);
        paging::note(marks, pages, paging::lock_page(size));
        if paging::is_missing(marks, self.image.len(), size, pages) {
            return Err(Rule::PageNowhere);
        }
        if out.len() < pages * size {
            return Err(Rule::SmallOutput);
        }
        paging::lay_image(out, self.image, size, pages);
        self.lay_frames(out);
        Ok(())
    }

    // Recovery of all pages. The marks are no longer than the pages need: clearing them takes time.
    fn recover(&self, out: &mut [u8]) -> Result<(), Rule>
        ensures { Laid self.now.state.size self.now.log.now self.now.image.now self.now.state.frames self.now.state.pages out.old (refusal_told result) out.new }
    {
        if self.state.pages <= 65536 {
            let mut marks = [0u8; 8192];
            return self.recover_with(&mut marks, out);
        }
        let mut marks = [0u8; 275000];
        self.recover_with(&mut marks, out)
    }
}

// Where a page is shown from, or the refusal.
pub fn locate(log: &[u8], image: &[u8], page: u32) -> Result<Part, Rule>
    ensures { part_told result ≡ page_of log.now image.now page }
{
    let state = state_of(log, image)?;
    View { log, image, state }.page(page)
}

// A page, as a part of the log or of the image; empty on refusal.
// Kept: (a) no Result: it cannot fail.
pub fn page_view<'a>(log: &'a [u8], image: &'a [u8], page: u32) -> &'a [u8]
    ensures { result.now ≡ view_of log.now image.now page }
{
    match locate(log, image, page) {
        Ok(part) => {
            let end = part.start + part.length;
            match part.source {
                Source::Log => &log[part.start..end],
                Source::Image => &image[part.start..end],
            }
        },
        Err(_) => &image[..0],
    }
}

// What recovery of the whole file did.
#[derive(Clone, Copy, Debug, PartialEq, Eq)]
pub struct Recovered {
    pub pages: usize,
    pub length: usize,
}

// Recovers the whole file into `out`, which changes only on success and only in the recovered length.
pub fn recover(log: &[u8], image: &[u8], out: &mut [u8]) -> Result<Recovered, Rule>
    ensures answer { recovered_told result ≡ recover_of log.now image.now (length out.old) }
    ensures output { out.new ≡ out_of log.now image.now out.old }
{
    let state = state_of(log, image)?;
    View { log, image, state }.recover(out)?;
    Ok(Recovered {
        pages: state.pages,
        length: state.pages * state.size,
    })
}
