// What a journal says of itself: segments, records counting and laid down, and why reading stopped.
#![tactic(auto)]

ghost use Rattle.std.specs.Prelude.{◌≡◌, ◌+◌, ◌≤◌, ◌<◌, ◌^◌, length};
ghost use Rattle.paging.specs.Pages.{page_limit};
ghost use Rattle.journal.specs.Header.{headed};
ghost use Rattle.journal.specs.Records.{laid, twice};
ghost use Rattle.journal_summary.specs.Summary.{header_stop, record_stop, layable, tally_of, capped, refusal_of, untold, told, journal_summary_of};
ghost use Rattle.journal_summary.specs.Told.{header_number, stop_number, rule_number, tally_numbers, numbers_of};
ghost use Rattle.journal_summary.specs.Promises.{Agrees};

use journal::Journal;
use refusal::Rule;

// Whether the first header is there.
#[derive(Clone, Copy, Debug, PartialEq, Eq)]
pub enum Header {
    There = 0,
    Short = 1,
    OtherMagic = 2,
}

impl Header {
    // The number that C sees.
    pub fn number(self) -> u32
        ensures { result ≡ header_number self }
    {
        self as u32
    }
}

// Why reading stopped.
#[derive(Clone, Copy, Debug, PartialEq, Eq)]
pub enum Stop {
    // No further header fits.
    NoHeader = 0,
    // The next header's magic is wrong.
    OtherMagic = 1,
    // Its page or sector size differs.
    OtherSizes = 2,
    // A record is cut.
    Cut = 3,
    // Its number is 0.
    NumberZero = 4,
    // Its sum does not match.
    OtherSum = 5,
    // Its number is the lock-byte page's.
    LockPage = 6,
    // The file ends after whole records that ffffffff counts.
    AllRead = 7,
}

impl Stop {
    // The number that C sees.
    pub fn number(self) -> u32
        ensures { result ≡ stop_number self }
    {
        self as u32
    }
}

// What the journal says of itself: with no first header, or refused with `RecoverySize`, nothing.
#[derive(Clone, Copy, Debug, PartialEq, Eq)]
pub struct Summary {
    pub refusal: Option<Rule>,
    pub header: Header,
    pub page_size: u32,
    pub sector_size: u32,
    pub pages: u32,
    pub segments: u32,
    pub counting: usize,
    pub laid: usize,
    pub stop: Stop,
}

#[derive(Clone, Copy)]
pub struct Tally {
    pub segments: usize,
    pub counting: usize,
    pub laid: usize,
    pub stop: Stop,
}

// Why there is no header at s.
fn header_stop(bytes: &[u8], s: usize) -> Stop
    requires { s + 28 < 2 ^ 64 }
    ensures { stop_number result ≡ header_stop bytes.now s }
{
    if bytes.len() < s + 28 {
        Stop::NoHeader
    } else if journal::is_magic(bytes, s) {
        Stop::OtherSizes
    } else {
        Stop::OtherMagic
    }
}

// Why the record at `at`, of the segment whose header is at s, ends the records.
fn record_stop(journal: &Journal<'_>, s: usize, at: usize) -> Stop
    requires { (s + 28 ≤ length journal.now.bytes.now) × (at + 131072 < 2 ^ 64) }
    ensures { stop_number result ≡ record_stop journal.now.bytes.now s at }
{
    let long = journal.bytes.len();
    if long < at + (journal.size + 8) {
        if at < long {
            return Stop::Cut;
        }
        if number::be32(journal.bytes, s + 8) == 0xffffffff {
            return Stop::AllRead;
        }
        return Stop::Cut;
    }
    let p = number::be32(journal.bytes, at) as usize;
    if p == 0 {
        return Stop::NumberZero;
    }
    if p == paging::lock_page(journal.size) {
        return Stop::LockPage;
    }
    Stop::OtherSum
}

// One for a record that is laid down.
fn layable(n: u32, p: u32) -> usize
    ensures { (result ≡ layable n p) × (result ≤ 1) }
{
    usize::from(p <= n)
}

// Whether a header stands at s.
fn is_headed(journal: &Journal<'_>, s: usize) -> bool
    requires { s + 28 < 2 ^ 64 }
    ensures { result ≡ headed journal.now.bytes.now s }
{
    s + 28 <= journal.bytes.len()
        && journal::headed_at(journal.bytes, journal.size, journal.sector, s)
}

// Counts the headers and records that are read.
fn count_up(journal: &Journal<'_>) -> Tally
    ensures { tally_numbers result ≡ tally_of journal.now.bytes.now }
{
    let mut s: usize = 0;
    let mut at = journal.sector;
    let mut left = journal::most_at(journal.bytes, 0);
    let mut nonce = journal.nonce_at(0);
    let mut segments: usize = 1;
    let mut counting: usize = 0;
    let mut laid: usize = 0;
    loop {
        while left != 0 {
            if journal.ends_at(nonce, at) {
                return Tally {
                    segments,
                    counting,
                    laid,
                    stop: record_stop(journal, s, at),
                };
            }
            laid += layable(journal.pages, number::be32(journal.bytes, at));
            counting += 1;
            left -= 1;
            at += journal.size + 8;
        }
        s = at + journal.gap(at);
        if !is_headed(journal, s) {
            return Tally {
                segments,
                counting,
                laid,
                stop: header_stop(journal.bytes, s),
            };
        }
        segments += 1;
        left = journal::most_at(journal.bytes, s);
        nonce = journal.nonce_at(s);
        at = s + journal.sector;
    }
}

// Whether a page stands twice among the records laid down. The marks are no longer than the pages need: clearing them takes time.
fn is_twice(journal: &Journal<'_>) -> bool
    requires { journal.now.pages ≤ page_limit }
    ensures { result ≡ twice (laid journal.now.bytes.now) }
{
    if journal.pages <= 65536 {
        let mut marks = [0u8; 8192];
        return journal.scan(&mut marks);
    }
    let mut marks = [0u8; 275000];
    journal.scan(&mut marks)
}

fn refusal_of(journal: &Journal<'_>) -> Option<Rule>
    ensures { rule_number result ≡ refusal_of journal.now.bytes.now }
{
    if paging::PAGE_LIMIT < journal.pages as usize {
        Some(Rule::RecoveredPages)
    } else if is_twice(journal) {
        Some(Rule::RecordedTwice)
    } else {
        None
    }
}

fn capped(n: usize) -> u32
    ensures { result ≡ capped n }
{
    n.min(0xffffffff) as u32
}

// The journal behind a first header that fits.
fn tell(journal: &Journal<'_>) -> Summary
    ensures { numbers_of result ≡ told journal.now.bytes.now }
{
    let read = count_up(journal);
    Summary {
        refusal: refusal_of(journal),
        header: Header::There,
        page_size: journal.size as u32,
        sector_size: journal.sector as u32,
        pages: journal.pages,
        segments: capped(read.segments),
        counting: read.counting,
        laid: read.laid,
        stop: read.stop,
    }
}

// There is no journal, or it is refused.
fn untold(refusal: Option<Rule>, header: Header) -> Summary
    ensures { numbers_of result ≡ untold (rule_number refusal) (header_number header) }
{
    Summary {
        refusal,
        header,
        page_size: 0,
        sector_size: 0,
        pages: 0,
        segments: 0,
        counting: 0,
        laid: 0,
        stop: Stop::NoHeader,
    }
}

// What the journal says of itself.
pub fn inspect(bytes: &[u8]) -> Summary
    ensures answer { numbers_of result ≡ journal_summary_of bytes.now }
    ensures recovery { Agrees bytes.now (numbers_of result) }
{
    if bytes.len() < 28 {
        return untold(None, Header::Short);
    }
    if !journal::is_magic(bytes, 0) {
        return untold(None, Header::OtherMagic);
    }
    match Journal::new(bytes) {
        Ok(journal) => tell(&journal),
        Err(rule) => untold(Some(rule), Header::There),
    }
}
