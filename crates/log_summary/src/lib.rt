// What a log says of itself: frames whole, counting and in force, and why the scan stopped.
#![tactic(auto)]

ghost use Rattle.std.specs.Prelude.{◌≡◌, Bool, true, ◌+◌, ◌≤◌, ◌<◌, ◌^◌, length};
ghost use Rattle.wal.specs.Sums.{is_big};
ghost use Rattle.wal.specs.Frames.{frame_at, carries, header_sums};
ghost use Rattle.wal.specs.State.{state_of};
ghost use Rattle.wal.specs.Promises.{Accepted};
ghost use Rattle.frames.specs.Table.{whole_frames};
ghost use Rattle.log_summary.specs.Summary.{size_after, stop_at, over_limit, untold, told, summary_in, log_summary_of};
ghost use Rattle.log_summary.specs.Told.{rule_number, header_number, stop_number, summary_told};
ghost use Rattle.log_summary.specs.Promises.{Agrees, Stops};

use refusal::Rule;
use wal::Order;

// Whether a header is accepted: one under 32 bytes, with a wrong magic or with wrong sums is not.
#[derive(Clone, Copy, Debug, PartialEq, Eq)]
pub enum Header {
    Accepted = 0,
    Short = 1,
    BadMagic = 2,
    BadSums = 3,
}

impl Header {
    // The number that C sees.
    pub fn number(self) -> u32
        ensures { result ≡ header_number self }
    {
        self as u32
    }
}

// What is found at the frame after the last that counts: the log ends there; the frame is cut; its number is 0; its salts are not the
// header's; its sums do not match; its number is the lock-byte page's.
#[derive(Clone, Copy, Debug, PartialEq, Eq)]
pub enum Stop {
    End = 0,
    Cut = 1,
    ZeroNumber = 2,
    OtherSalts = 3,
    OtherSums = 4,
    LockByte = 5,
}

impl Stop {
    // The number that C sees.
    pub fn number(self) -> u32
        ensures { result ≡ stop_number self }
    {
        self as u32
    }
}

// What refuses the log, and what it tells: with no accepted header, or refused with another rule than `RecoveredPages`, nothing.
#[derive(Clone, Copy, Debug, PartialEq, Eq)]
pub struct Summary {
    pub refusal: Option<Rule>,
    pub header: Header,
    pub page_size: u32,
    pub pages: u32,
    pub frames: usize,
    pub counting: usize,
    pub in_force: usize,
    pub stop: Stop,
}

// Why the scan stopped at `at`.
#[tactic(auto, unfolding(crate::specs::Summary::stop_at))]
fn stop_at(log: &[u8], size: usize, at: usize) -> Stop
    requires { (32 ≤ length log.now) × (1 ≤ size) × (size ≤ 65536) × (at ≤ length log.now) }
    ensures { stop_number result ≡ stop_at size log.now at }
{
    if log.len() == at {
        return Stop::End;
    }
    if log.len() < at + (24 + size) {
        return Stop::Cut;
    }
    let page = number::be32(log, at) as usize;
    if page == 0 {
        return Stop::ZeroNumber;
    }
    if page == paging::lock_page(size) {
        return Stop::LockByte;
    }
    if wal::is_salted(log, at) {
        Stop::OtherSums
    } else {
        Stop::OtherSalts
    }
}

// n, where the first m frames are in force.
#[tactic(auto, unfolding(crate::specs::Summary::size_after))]
fn size_after(log: &[u8], size: usize, m: usize) -> u32
    requires { (size ≤ 65536) × (frame_at size m ≤ length log.now) }
    ensures { result ≡ size_after size log.now m }
{
    if m == 0 {
        return 0;
    }
    number::be32(log, wal::frame_at(size, m - 1) + 4)
}

// Refuses more pages than there may be.
#[tactic(auto, unfolding(crate::specs::Summary::over_limit))]
fn over_limit(n: u32) -> Option<Rule>
    ensures { rule_number result ≡ over_limit n }
{
    if paging::PAGE_LIMIT < n as usize {
        Some(Rule::RecoveredPages)
    } else {
        None
    }
}

fn whole_frames(log: &[u8], size: usize) -> usize
    requires { (32 ≤ length log.now) × (size ≤ 65536) }
    ensures { result ≡ whole_frames size log.now }
{
    (log.len() - 32) / (24 + size)
}

// The log behind a header that is accepted.
fn tell(log: &[u8], order: Order, size: u32) -> Summary
    requires { (32 ≤ length log.now) × (1 ≤ size) × (size ≤ 65536) × (carries log.now 8 (header_sums (is_big order) log.now) ≡ true) }
    ensures { summary_told result ≡ told (is_big order) size log.now }
{
    let wide = size as usize;
    let found = wal::scan(log, order, wide);
    let in_force = found.commit;
    let pages = size_after(log, wide, in_force);
    Summary {
        refusal: over_limit(pages),
        header: Header::Accepted,
        page_size: size,
        pages,
        frames: whole_frames(log, wide),
        counting: found.counting,
        in_force,
        stop: stop_at(log, wide, wal::frame_at(wide, found.counting)),
    }
}

// The log is refused, or its header is not accepted.
fn untold(refusal: Option<Rule>, header: Header) -> Summary
    ensures { summary_told result ≡ untold (rule_number refusal) (header_number header) }
{
    Summary {
        refusal,
        header,
        page_size: 0,
        pages: 0,
        frames: 0,
        counting: 0,
        in_force: 0,
        stop: Stop::End,
    }
}

// The log in the word order that its magic gives.
#[tactic(auto, unfolding(crate::specs::Summary::summary_in))]
fn inspect_in(log: &[u8], order: Order) -> Summary
    requires { 32 ≤ length log.now }
    ensures { summary_told result ≡ summary_in (is_big order) log.now }
{
    if !wal::is_headed(log, order) {
        return untold(None, Header::BadSums);
    }
    if number::be32(log, 4) != wal::VERSION {
        return untold(Some(Rule::LogVersion), Header::Accepted);
    }
    let size = number::be32(log, 8);
    if !paging::size_fits(size) {
        return untold(Some(Rule::RecoverySize), Header::Accepted);
    }
    tell(log, order, size)
}

// What the log says of itself.
pub fn inspect(log: &[u8]) -> Summary
    ensures answer { summary_told result ≡ log_summary_of log.now }
    ensures recovery { Agrees (state_of log.now) (summary_told result) }
    ensures stop { (big : Bool) → Accepted big log.now → Stops big log.now (summary_told result) }
{
    if log.len() < 32 {
        return untold(None, Header::Short);
    }
    match wal::order_of(number::be32(log, 0)) {
        Some(order) => inspect_in(log, order),
        None => untold(None, Header::BadMagic),
    }
}
