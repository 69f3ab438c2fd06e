// Recovery of an image from its rollback journal.
#![tactic(auto)]

ghost use Rattle.std.specs.Prelude.{◌≡◌, ◌+◌, ◌-◌, ◌*◌, ◌/◌, ◌%◌, ◌<◌, ◌≤◌, true, false, length, IfOk, IfErr};
ghost use Rattle.refusal.specs.Rule.{number_of};
ghost use Rattle.paging.specs.Pages.{page_limit};
ghost use Rattle.paging.specs.Bits.{Clear};
ghost use Rattle.journal.specs.Header.{absent, is_magic, headed, most_at, nonce_at, size_of};
ghost use Rattle.journal.specs.Fields.{Sizes, Fields, sizes_fit};
ghost use Rattle.journal.specs.Records.{sum_of, ends, rest_from, laid};
ghost use Rattle.journal.specs.Recovery.{recovery, restored, restored_output, copied, copied_output, output};
ghost use Rattle.journal.specs.Told.{told};
ghost use Rattle.journal.specs.Marks.{Scan, lay_all};

use refusal::Rule;

// What recovery did: with no journal no pages are counted.
#[derive(Clone, Copy, Debug, PartialEq, Eq)]
pub struct Recovered {
    pub pages: u32,
    pub length: usize,
}

// Where reading stands: `left` records of a segment with that nonce are still to come, from `at` on.
#[derive(Clone, Copy, Debug, PartialEq, Eq)]
pub struct Reader {
    pub at: usize,
    pub left: usize,
    pub nonce: u32,
}

// The sum of the page at `at`: the nonce and the bytes at its size less 200, 400 and so on.
fn page_sum(journal: &[u8], nonce: u32, at: usize, size: usize) -> u32
    requires { (1 ≤ size) × (size ≤ 65536) × (at + size ≤ length journal.now) }
    ensures { result ≡ sum_of journal.now nonce at size ((size - 1) / 200) }
{
    let mut sum = nonce;
    let mut offset = size;
    while 200 < offset {
        offset -= 200;
        sum = sum.wrapping_add(u32::from(journal[at + offset]));
    }
    sum
}

// Whether the record at `at` ends the records: a missing byte, number 0 or the lock-byte page's, or a wrong sum.
pub fn ends_at(journal: &[u8], size: usize, nonce: u32, at: usize) -> bool
    requires { (512 ≤ size) × (size ≤ 65536) × (size ≡ size_of journal.now) }
    ensures { result ≡ ends journal.now nonce at }
{
    let long = journal.len();
    if long < at || long - at < size + 8 {
        return true;
    }
    let p = number::be32(journal, at) as usize;
    if p == 0 || p == paging::lock_page(size) {
        return true;
    }
    let stored = number::be32(journal, at + 4 + size);
    stored != page_sum(journal, nonce, at + 4, size)
}

// How far it is from `at` to the first multiple of the sector size.
pub fn gap(at: usize, sector: usize) -> usize
    requires { 1 ≤ sector }
    ensures { (result ≡ (sector - at % sector) % sector) × (result < sector) }
{
    (sector - at % sector) % sector
}

// The nonce of the segment whose header is at s.
pub fn nonce_at(journal: &[u8], s: usize) -> u32
    requires { s + 28 ≤ length journal.now }
    ensures { result ≡ nonce_at journal.now s }
{
    number::be32(journal, s + 12)
}

// At most so many records are read of the segment whose header is at s.
pub fn most_at(journal: &[u8], s: usize) -> usize
    requires { s + 28 ≤ length journal.now }
    ensures { result ≡ most_at journal.now s }
{
    match number::be32(journal, s + 8) {
        0xffffffff => journal.len(),
        count => count as usize,
    }
}

// Whether a later segment's header stands at s: the magic, and the first header's sector and page size.
pub fn headed_at(journal: &[u8], size: usize, sector: usize, s: usize) -> bool
    requires { Sizes journal.now size sector × (s + 28 ≤ length journal.now) }
    ensures { result ≡ headed journal.now s }
{
    is_magic(journal, s)
        && number::be32(journal, s + 20) as usize == sector
        && number::be32(journal, s + 24) as usize == size
}

// A journal whose first header is there, with sizes that fit; `pages` is the image's size before.
#[derive(Clone, Copy)]
pub struct Journal<'a> {
    pub bytes: &'a [u8],
    pub size: usize,
    pub sector: usize,
    pub pages: u32,
    pub ghost whole: { 28 ≤ length bytes.now },
    pub ghost fields: { Fields bytes.now size sector pages },
}

// A record that is laid down: the page's number, and where the page begins in the journal.
#[derive(Clone, Copy, Debug, PartialEq, Eq)]
pub struct Record {
    pub number: u32,
    pub place: usize,
}

// The records that are laid down from `at` on: `left` more of a segment with that nonce are counted.
#[derive(Clone, Copy)]
pub struct Records<'a> {
    journal: Journal<'a>,
    at: usize,
    left: usize,
    nonce: u32,
}

// Whether the magic stands at `at`.
pub fn is_magic(bytes: &[u8], at: usize) -> bool
    requires { at + 8 ≤ length bytes.now }
    ensures { result ≡ is_magic bytes.now at }
{
    number::be32(bytes, at) == 0xd9d505f9 && number::be32(bytes, at + 4) == 0x20a163d7
}

// Whether there is no journal: under 28 bytes or wrong magic.
fn is_absent(bytes: &[u8]) -> bool
    ensures { result ≡ absent bytes.now }
{
    bytes.len() < 28 || !is_magic(bytes, 0)
}

impl<'a> Journal<'a> {
    ghost use Rattle.journal.specs.Reading.{NextHeader, rest_of};

    // The journal whose first header is there, where its sizes fit.
    pub fn new(bytes: &'a [u8]) -> Result<Journal<'a>, Rule>
        requires { 28 ≤ length bytes.now }
        ensures ok { IfOk result (λ journal. (journal.bytes.now ≡ bytes.now) × (sizes_fit bytes.now ≡ true)) }
        ensures err { IfErr result (λ rule. (number_of rule ≡ 41) × (sizes_fit bytes.now ≡ false)) }
    {
        let size = number::be32(bytes, 24);
        let sector = number::be32(bytes, 20);
        if !paging::size_fits(size) || !paging::size_fits(sector) {
            return Err(Rule::RecoverySize);
        }
        Ok(Journal {
            bytes,
            size: size as usize,
            sector: sector as usize,
            pages: number::be32(bytes, 16),
        })
    }

    // The nonce of the segment whose header is at s.
    pub fn nonce_at(&self, s: usize) -> u32
        requires { s + 28 ≤ length self.now.bytes.now }
        ensures { result ≡ nonce_at self.now.bytes.now s }
    {
        nonce_at(self.bytes, s)
    }

    // Whether the record at `at` ends the records: a missing byte, number 0 or the lock-byte page's, or a wrong sum.
    pub fn ends_at(&self, nonce: u32, at: usize) -> bool
        ensures { result ≡ ends self.now.bytes.now nonce at }
    {
        ends_at(self.bytes, self.size, nonce, at)
    }

    // How far it is from `at` to the first multiple of the sector size.
    pub fn gap(&self, at: usize) -> usize
        ensures { (result ≡ (self.now.sector - at % self.now.sector) % self.now.sector) × (result < self.now.sector) }
    {
        gap(at, self.sector)
    }

    // Where the segment begins that follows records which end at `at`. Where its first sector is not whole, nothing stands behind it.
    fn next_header(&self, at: usize) -> Option<usize>
        ensures { NextHeader self.now.bytes.now at result }
    {
        let long = self.bytes.len();
        if long < at {
            return None;
        }
        let skipped = self.gap(at);
        if long - at < skipped + self.sector {
            return None;
        }
        let s = at + skipped;
        if headed_at(self.bytes, self.size, self.sector, s) {
            Some(s)
        } else {
            None
        }
    }

    // The reader at the first record.
    fn first(&self) -> Reader
        ensures { rest_from self.now.bytes.now result.nonce result.left result.at ≡ laid self.now.bytes.now }
    {
        Reader {
            at: self.sector,
            left: most_at(self.bytes, 0),
            nonce: self.nonce_at(0),
        }
    }

    // The records that are laid down from `start` on.
    pub fn records_from(&self, start: Reader) -> Records<'a>
        ensures { rest_of result ≡ rest_from self.now.bytes.now start.nonce start.left start.at }
    {
        Records {
            journal: *self,
            at: start.at,
            left: start.left,
            nonce: start.nonce,
        }
    }

    // The records that are laid down.
    pub fn records(&self) -> Records<'a>
        ensures { rest_of result ≡ laid self.now.bytes.now }
    {
        self.records_from(self.first())
    }

    // Marks the pages that the records carry: whether one of them stands twice.
    pub fn scan(&self, marks: &mut [u8]) -> bool
        requires { self.now.pages ≤ 8 * length marks.old }
        ensures { Scan self.now.pages (laid self.now.bytes.now) marks.old marks.new result }
    {
        self.scan_from(self.first(), marks)
    }

    // Marks the pages that the records from `start` on carry: whether one of them stands twice.
    fn scan_from(&self, start: Reader, marks: &mut [u8]) -> bool
        requires { self.now.pages ≤ 8 * length marks.old }
        ensures { Scan self.now.pages (rest_from self.now.bytes.now start.nonce start.left start.at) marks.old marks.new result }
    {
        for record in self.records_from(start) {
            let i = (record.number - 1) as usize;
            if paging::has_bit(marks, i) {
                return true; // page i + 1 stands twice
            }
            paging::put_bit(marks, i);
        }
        false
    }

    // Lays the records over the output, which has room for the pages.
    fn lay_records(&self, out: &mut [u8])
        requires { self.now.pages * self.now.size ≤ length out.old }
        ensures { out.new ≡ lay_all self.now.bytes.now self.now.size out.old (laid self.now.bytes.now) }
    {
        for record in self.records() {
            let at = (record.number - 1) as usize * self.size;
            paging::lay(out, at, &self.bytes[record.place..record.place + self.size]);
        }
    }

    // Recovery by the records, with marks for the pages of which none is set.
    fn restore_in(&self, image: &[u8], marks: &mut [u8], out: &mut [u8]) -> Result<Recovered, Rule>
        requires { (self.now.pages ≤ page_limit) × (self.now.pages ≤ 8 * length marks.old) × Clear marks.old }
        ensures answer { told result ≡ restored self.now.bytes.now image.now (length out.old) }
        ensures bytes { out.new ≡ restored_output self.now.bytes.now image.now out.old }
    {
        if self.scan(marks) {
            return Err(Rule::RecordedTwice);
        }
        let n = self.pages as usize;
        paging::note(marks, n, paging::lock_page(self.size));
        if paging::is_missing(marks, image.len(), self.size, n) {
            return Err(Rule::PageNowhere);
        }
        let length = n * self.size;
        if out.len() < length {
            return Err(Rule::SmallOutput);
        }
        paging::lay_image(out, image, self.size, n);
        self.lay_records(out);
        Ok(Recovered {
            pages: self.pages,
            length,
        })
    }

    // The marks are no longer than the pages need: clearing them takes time.
    fn restore(&self, image: &[u8], out: &mut [u8]) -> Result<Recovered, Rule>
        requires { self.now.pages ≤ page_limit }
        ensures answer { told result ≡ restored self.now.bytes.now image.now (length out.old) }
        ensures bytes { out.new ≡ restored_output self.now.bytes.now image.now out.old }
    {
        if self.pages <= 65536 {
            let mut marks = [0u8; 8192];
            return self.restore_in(image, &mut marks, out);
        }
        let mut marks = [0u8; 275000];
        self.restore_in(image, &mut marks, out)
    }
}

impl<'a> Records<'a> {
    ghost use Rattle.journal.specs.Reading.{Settled};

    // Goes over headers to the next record that counts: whether there is one.
    fn settle(&mut self) -> bool
        ensures { Settled self.old self.new result }
    {
        while self.left == 0 {
            let Some(s) = self.journal.next_header(self.at) else {
                return false;
            };
            self.at = s + self.journal.sector;
            self.left = most_at(self.journal.bytes, s);
            self.nonce = self.journal.nonce_at(s);
        }
        !self.journal.ends_at(self.nonce, self.at)
    }
}

impl<'a> Iterator for Records<'a> {
    ghost use Rattle.std.specs.Iterator.{YieldsFirstBy, item_count};
    ghost use Rattle.journal.specs.Reading.{record_of, rest_of};

    type Item = Record;

    ghost next_gives = { YieldsFirstBy record_of rest_of };

    ghost remaining = { item_count rest_of };

    fn next(&mut self) -> Option<Record> {
        while self.settle() {
            let at = self.at;
            let number = number::be32(self.journal.bytes, at);
            self.at = at + self.journal.size + 8;
            self.left -= 1;
            if number <= self.journal.pages {
                return Some(Record {
                    number,
                    place: at + 4,
                });
            }
        }
        None
    }
}

// Marks the pages that the records from `start` on carry: whether one of them stands twice.
pub fn scan(
    journal: &[u8],
    size: usize,
    sector: usize,
    n: u32,
    start: Reader,
    marks: &mut [u8],
) -> bool
    requires { Fields journal.now size sector n × (n ≤ 8 * length marks.old) }
    ensures { Scan n (rest_from journal.now start.nonce start.left start.at) marks.old marks.new result }
{
    if journal.len() < 28 {
        return false; // no record is whole, and no header stands
    }
    let journal = Journal {
        bytes: journal,
        size,
        sector,
        pages: n,
    };
    journal.scan_from(start, marks)
}

// With no journal the image is handed on as it is.
fn copy_image(image: &[u8], out: &mut [u8]) -> Result<Recovered, Rule>
    ensures answer { told result ≡ copied image.now (length out.old) }
    ensures bytes { out.new ≡ copied_output image.now out.old }
{
    let length = image.len();
    if out.len() < length {
        return Err(Rule::SmallOutput);
    }
    paging::lay(out, 0, image);
    Ok(Recovered { pages: 0, length })
}

// The image as it was before the transaction that the journal belongs to, into a lent output.
pub fn recover(journal: &[u8], image: &[u8], out: &mut [u8]) -> Result<Recovered, Rule>
    ensures answer { told result ≡ recovery journal.now image.now (length out.old) }
    ensures bytes { out.new ≡ output journal.now image.now out.old }
{
    if is_absent(journal) {
        return copy_image(image, out);
    }
    let journal = Journal::new(journal)?;
    if paging::PAGE_LIMIT < journal.pages as usize {
        return Err(Rule::RecoveredPages);
    }
    journal.restore(image, out)
}
