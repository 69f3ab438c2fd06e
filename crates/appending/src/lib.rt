// A writer of write-ahead logs: the tail of a log, the header of a fresh log, and the frames of one commit behind the last commit in force.
#![tactic(auto)]

ghost use Rattle.std.specs.Prelude.{◌≡◌, ◌++◌, true, false, ℕ, Bool, List, ◌+◌, ◌-◌, ◌*◌, ◌<◌, ◌≤◌, ◌^◌, ◌/◌, length, drop, OnOk, IfOk};
ghost use Rattle.paging.specs.Pages.{over};
ghost use Rattle.wal.specs.Sums.{is_big, sums_over};
ghost use Rattle.wal.specs.Frames.{frame_at};
ghost use Rattle.wal.specs.Told.{refusal_told};
ghost use Rattle.appending.specs.Written.{be_bytes, word4, header_fields, field_sums, header_bytes, sums_on, frame_bytes, commit_for, frames_from, sums_from};
ghost use Rattle.appending.specs.Tail.{tail_is, IsTail};
ghost use Rattle.appending.specs.Promises.{Opens, Appends};
ghost use Rattle.appending.specs.Answers.{is_headed, scan_of, scan_tail, begin_of, begin_out, begin_tail, seal_at};
ghost use Rattle.appending.specs.Answers.{tail_fits, number_fits, numbers_fit, given_fits, added_length, append_refusal, append_of, append_out, append_tail};
ghost use Rattle.appending.specs.Told.{Tells, tail_told, appended_told, appended_is};

use refusal::Rule;
use wal::{Order, State, Sums};

// What a log's tail tells.
#[derive(Clone, Copy, Debug, PartialEq, Eq)]
pub struct Tail {
    pub page_size: u32,
    pub frames: u32,
    pub pages: u32,
}

// What is to be written to a log: `length` bytes at `at`.
#[derive(Clone, Copy, Debug, PartialEq, Eq)]
pub struct Appended {
    pub at: usize,
    pub length: usize,
}

// The order of the words of the sums, by whether it is the big-endian one.
fn order_by(big: bool) -> Order
    ensures { is_big result ≡ big }
{
    if big { Order::Big } else { Order::Little }
}

// A number in 4 bytes.
fn put_word(out: &mut [u8], at: usize, n: u32)
    requires { at + 4 ≤ length out.old }
    ensures { out.new ≡ over out.old at (be_bytes 4 n) }
{
    paging::lay(out, at, &n.to_be_bytes());
}

// Two numbers in 4 bytes each.
fn put_two(out: &mut [u8], at: usize, a: u32, b: u32)
    requires { at + 8 ≤ length out.old }
    ensures { out.new ≡ over out.old at (word4 a ++ word4 b) }
{
    put_word(out, at, a);
    put_word(out, at + 4, b);
}

// A tail in the first 8 words.
fn put_tail(
    tail: &mut [u32],
    size: u32,
    order: Order,
    salt1: u32,
    salt2: u32,
    s: Sums,
    frames: u32,
    pages: u32,
)
    requires { 8 ≤ length tail.old }
    ensures { tail.new ≡ tail_is size (is_big order) salt1 salt2 (s.s0, s.s1) frames pages ++ drop 8 tail.old }
{
    tail[0] = size;
    tail[1] = match order {
        Order::Little => 0,
        Order::Big => 1,
    };
    tail[2] = salt1;
    tail[3] = salt2;
    tail[4] = s.s0;
    tail[5] = s.s1;
    tail[6] = frames;
    tail[7] = pages;
}

// The first 24 bytes of a header.
fn put_fields(out: &mut [u8], size: u32, sequence: u32, salt1: u32, salt2: u32)
    requires { 24 ≤ length out.old }
    ensures { out.new ≡ over out.old 0 (header_fields size sequence salt1 salt2) }
{
    put_two(out, 0, wal::LITTLE, wal::VERSION);
    put_two(out, 8, size, sequence);
    put_two(out, 16, salt1, salt2);
}

// A header; the sums that it carries.
fn put_header(out: &mut [u8], size: u32, sequence: u32, salt1: u32, salt2: u32) -> Sums
    requires { 32 ≤ length out.old }
    ensures sums { field_sums size sequence salt1 salt2 ≡ (result.s0, result.s1) }
    ensures output { out.new ≡ header_bytes size sequence salt1 salt2 ++ drop 32 out.old }
{
    put_fields(out, size, sequence, salt1, salt2);
    let sums = wal::header_sums(out, Order::Little);
    put_two(out, 24, sums.s0, sums.s1);
    sums
}

// A fresh log: its header, to be written at 0, and its tail. 41: no page size; 44: no room for the tail's 8 words, or for the header's 32 bytes.
// Whatever bytes stand behind a fresh header, frames with other salts are none of its own.
#[tactic(auto, unfolding(crate::specs::Answers::begin_refusal, crate::specs::Answers::begin_of, crate::specs::Answers::begin_tail, crate::specs::Answers::begin_out))]
pub fn log_begin(
    size: u32,
    sequence: u32,
    salt1: u32,
    salt2: u32,
    tail: &mut [u32],
    out: &mut [u8],
) -> Result<Appended, Rule>
    ensures answer { appended_told result ≡ begin_of size (length tail.old) (length out.old) }
    ensures words { tail.new ≡ begin_tail size sequence salt1 salt2 (length out.old) tail.old }
    ensures output { out.new ≡ begin_out size sequence salt1 salt2 (length tail.old) out.old }
    ensures opens { OnOk result (Opens salt1 salt2 tail.new out.new) }
{
    if !paging::size_fits(size) {
        return Err(Rule::RecoverySize);
    }
    if tail.len() < 8 || out.len() < 32 {
        return Err(Rule::SmallOutput);
    }
    let sums = put_header(out, size, sequence, salt1, salt2);
    put_tail(tail, size, Order::Little, salt1, salt2, sums, 0, 0);
    Ok(Appended { at: 0, length: 32 })
}

// Whether a log has a header with a magic and its sums.
#[tactic(auto, unfolding(crate::specs::Answers::is_headed))]
fn is_headed(log: &[u8]) -> bool
    ensures { result ≡ is_headed log.now }
{
    if log.len() < 32 {
        return false;
    }
    match wal::order_of(number::be32(log, 0)) {
        Some(order) => wal::is_headed(log, order),
        None => false,
    }
}

// The state that a log's tail tells, of no frames and no pages where there is nothing to recover; or 50, what the log's reader says, 47, 44.
#[tactic(auto, using(crate::proofs::TailLaws::headed_frames), unfolding(crate::specs::Answers::scan_refusal))]
fn tail_state(log: &[u8], words: usize) -> Result<State, Rule>
    ensures { Tells log.now words result }
{
    if !is_headed(log) {
        return Err(Rule::NoLogHeader);
    }
    let state = match wal::log_state(log)? {
        Some(state) => state,
        None => State {
            size: 0,
            frames: 0,
            pages: 0,
        },
    };
    if 4294967295 < state.frames {
        return Err(Rule::SmallTable);
    }
    if words < 8 {
        return Err(Rule::SmallOutput);
    }
    Ok(state)
}

// Where the sums over m frames are carried, 16 bytes on.
#[tactic(auto, unfolding(crate::specs::Answers::seal_at))]
fn seal_at(size: usize, m: usize) -> usize
    requires { (size ≤ 65536) × (frame_at size m < 2 ^ 64) }
    ensures { result ≡ seal_at size m }
{
    if m == 0 {
        return 8;
    }
    wal::frame_at(size, m - 1)
}

// The tail of a log, by one scan. 50: the log has no header that carries its sums; 40, 41, 42: as a reader of it says; 47: more frames in force than a tail tells;
// 44: no room for its 8 words.
#[tactic(auto, using(crate::proofs::TailLaws::scan_bounds), unfolding(crate::specs::Answers::scan_of, crate::specs::Answers::scan_tail))]
pub fn log_tail(log: &[u8], tail: &mut [u32]) -> Result<Tail, Rule>
    ensures answer { tail_told result ≡ scan_of log.now (length tail.old) }
    ensures words { tail.new ≡ scan_tail log.now tail.old }
    ensures told { OnOk result (IsTail tail.new log.now) }
{
    let state = tail_state(log, tail.len())?;
    let page_size = number::be32(log, 8);
    let order = order_by(number::be32(log, 0) == wal::BIG);
    let seal = seal_at(page_size as usize, state.frames);
    let sums = Sums {
        s0: number::be32(log, seal + 16),
        s1: number::be32(log, seal + 20),
    };
    let frames = state.frames as u32;
    let pages = state.pages as u32;
    put_tail(
        tail,
        page_size,
        order,
        number::be32(log, 16),
        number::be32(log, 20),
        sums,
        frames,
        pages,
    );
    Ok(Tail {
        page_size,
        frames,
        pages,
    })
}

// The sums carried on over a page.
fn page_sums(page: &[u8], order: Order, sums: Sums) -> Sums
    ensures { sums_over (is_big order) page.now 0 (length page.now / 8) (sums.s0, sums.s1) ≡ (result.s0, result.s1) }
{
    let pairs = page.len() / 8;
    let mut sums = sums;
    let mut i: usize = 0;
    // In a straight line only two adds a pair wait for each other, in a turn of its own three.
    // Kept: (b) as in `scan` of `wal`: as a function with two callers it was called, and its sums came back through memory.
    while i + 4 <= pairs {
        let w = 8 * i;
        let p = sums.over(page, w, order);
        let q = p.over(page, w + 8, order);
        let r = q.over(page, w + 16, order);
        sums = r.over(page, w + 24, order);
        i += 4;
    }
    for k in i..pairs {
        sums = sums.over(page, 8 * k, order);
    }
    sums
}

// A frame, the sums carried on from s; the sums that it carries.
fn put_frame(
    out: &mut [u8],
    at: usize,
    order: Order,
    salt1: u32,
    salt2: u32,
    p: u32,
    commit: u32,
    page: &[u8],
    s: Sums,
) -> Sums
    requires { at + (24 + length page.now) ≤ length out.old }
    ensures sums { sums_on (is_big order) (length page.now) p commit page.now (s.s0, s.s1) ≡ (result.s0, result.s1) }
    ensures output { out.new ≡ over out.old at (frame_bytes (word4 salt1 ++ word4 salt2) p commit page.now (result.s0, result.s1)) }
{
    put_two(out, at, p, commit);
    let h = s.over(out, at, order);
    let t = page_sums(page, order, h);
    put_two(out, at + 8, salt1, salt2);
    put_two(out, at + 16, t.s0, t.s1);
    paging::lay(out, at + 24, page);
    t
}

// The size after commit of a frame that `left` frames follow.
fn commit_for(n: u32, left: usize) -> u32
    ensures { result ≡ commit_for n left }
{
    if left == 0 { n } else { 0 }
}

// The frames of a commit, at the front of `out`; the sums that the last of them carries.
#[tactic(auto, using(crate::proofs::WritingLaws::writing_room))]
fn put_frames(
    out: &mut [u8],
    order: Order,
    size: usize,
    salt1: u32,
    salt2: u32,
    numbers: &[u32],
    pages: &[u8],
    n: u32,
    s: Sums,
) -> Sums
    requires small { size ≤ 65536 }
    requires whole { length pages.now ≡ length numbers.now * size }
    requires room { added_length size numbers.now ≤ length out.old }
    ensures sums { sums_from (is_big order) size n numbers.now pages.now (s.s0, s.s1) ≡ (result.s0, result.s1) }
    ensures output { out.new ≡ frames_from (is_big order) size (word4 salt1 ++ word4 salt2) n numbers.now pages.now (s.s0, s.s1)
        ++ drop (added_length size numbers.now) out.old }
{
    let mut at = 0;
    let mut from = 0;
    let mut t = s;
    for i in 0..numbers.len() {
        let commit = commit_for(n, numbers.len() - i - 1);
        t = put_frame(
            out,
            at,
            order,
            salt1,
            salt2,
            numbers[i],
            commit,
            &pages[from..from + size],
            t,
        );
        at += 24 + size;
        from += size;
    }
    t
}

// Whether a tail's page size is one, and its word order 0 or 1.
#[tactic(auto, unfolding(crate::specs::Answers::tail_fits))]
fn tail_fits(tail: &[u32]) -> bool
    requires { 8 ≤ length tail.now }
    ensures { result ≡ tail_fits tail.now }
{
    paging::size_fits(tail[0]) && (tail[1] == 0 || tail[1] == 1)
}

// Whether a frame of a commit of n pages may hold page p.
#[tactic(auto, unfolding(crate::specs::Answers::number_fits))]
fn number_fits(size: usize, n: u32, p: u32) -> bool
    requires { 1 ≤ size }
    ensures { result ≡ number_fits size n p }
{
    p != 0 && p <= n && p as usize != paging::lock_page(size)
}

// Whether its frames may hold those pages.
#[tactic(auto, using(crate::proofs::GivenLaws::numbers_step, crate::proofs::GivenLaws::numbers_end))]
fn numbers_fit(size: usize, n: u32, numbers: &[u32]) -> bool
    requires { 1 ≤ size }
    ensures { result ≡ numbers_fit size n numbers.now }
{
    for number in numbers {
        if !number_fits(size, n, *number) {
            return false;
        }
    }
    true
}

// Whether there are some, with so many bytes for them.
#[tactic(auto, using(crate::proofs::GivenLaws::divided), unfolding(crate::specs::Answers::given_fits))]
fn given_fits(size: usize, n: u32, numbers: &[u32], long: usize) -> bool
    requires { 1 ≤ size }
    ensures { result ≡ given_fits size n numbers.now long }
{
    !numbers.is_empty()
        && long / size == numbers.len()
        && long % size == 0
        && numbers_fit(size, n, numbers)
}

// What refuses a commit: 44, 41, 42, 51, 47 or 44.
#[tactic(auto, using(crate::proofs::GivenLaws::given_long, crate::proofs::GivenLaws::tail_size), unfolding(crate::specs::Answers::append_refusal))]
fn check_commit(tail: &[u32], n: u32, numbers: &[u32], long: usize, room: usize) -> Result<(), Rule>
    requires { long < 2 ^ 63 }
    ensures { refusal_told result ≡ append_refusal tail.now n numbers.now long room }
{
    if tail.len() < 8 {
        return Err(Rule::SmallOutput);
    }
    if !tail_fits(tail) {
        return Err(Rule::RecoverySize);
    }
    if paging::PAGE_LIMIT < n as usize {
        return Err(Rule::RecoveredPages);
    }
    if !given_fits(tail[0] as usize, n, numbers, long) {
        return Err(Rule::BadCommit);
    }
    if 4294967295 < tail[6] as usize + numbers.len() {
        return Err(Rule::SmallTable);
    }
    if room < long + 24 * numbers.len() {
        return Err(Rule::SmallOutput);
    }
    Ok(())
}

// A commit of n pages: the frames for those pages, to be written behind the last commit in force of the log whose tail is given, and the tail behind them. Its time is
// that of its own frames. 44: the tail has not 8 words; 41: word 0 is no page size, or word 1 neither 0 nor 1; 42: too many pages; 51: no pages, a number that no
// frame may hold, or not their bytes; 47: more frames in force than a tail tells; 44: no room for the frames.
// The log is to be cut at the answer's place, and that to be synced, before they are written: behind a frame that was torn old bytes may match its sums by chance.
// Whoever grows a file gives every new page: one that is not given shows what an older frame or the image has there.
#[tactic(auto, using(crate::proofs::GivenLaws::append_bounds), unfolding(crate::specs::Answers::append_of, crate::specs::Answers::append_tail, crate::specs::Answers::append_out))]
pub fn log_append(
    tail: &mut [u32],
    numbers: &[u32],
    pages: &[u8],
    n: u32,
    out: &mut [u8],
) -> Result<Appended, Rule>
    ensures answer { appended_told result ≡ append_of tail.old n numbers.now (length pages.now) (length out.old) }
    ensures words { tail.new ≡ append_tail tail.old n numbers.now pages.now (length out.old) }
    ensures output { out.new ≡ append_out tail.old n numbers.now pages.now out.old }
    ensures appends { (log : List ℕ) → IsTail tail.old log
        → IfOk result (λ done. Appends log n numbers.now pages.now (appended_is done) tail.new out.new) }
{
    check_commit(tail, n, numbers, pages.len(), out.len())?;
    let size = tail[0];
    let order = order_by(tail[1] == 1);
    let salt1 = tail[2];
    let salt2 = tail[3];
    let before = Sums {
        s0: tail[4],
        s1: tail[5],
    };
    let m = tail[6] as usize;
    let at = wal::frame_at(size as usize, m);
    let after = put_frames(
        out,
        order,
        size as usize,
        salt1,
        salt2,
        numbers,
        pages,
        n,
        before,
    );
    let frames = (m + numbers.len()) as u32;
    put_tail(tail, size, order, salt1, salt2, after, frames, n);
    Ok(Appended {
        at,
        length: pages.len() + 24 * numbers.len(),
    })
}
