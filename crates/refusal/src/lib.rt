// Why something is refused: the rule that it breaks, and the page that is reported.
#![tactic(auto)]

ghost use Rattle.std.specs.Prelude.{◌≡◌, Some};
ghost use Rattle.refusal.specs.Rule.{number_of};
ghost use Rattle.refusal.specs.Text.{text_of, refusal_text};

use std::error::Error;
use std::fmt;

// The rules, by the numbers that C sees.
#[derive(Clone, Copy, Debug, PartialEq, Eq)]
pub enum Rule {
    ShortImage = 1,
    BadMagic = 2,
    BadPageSize = 3,
    PartialPage = 4,
    TooManyPages = 5,
    SmallUsableSize = 6,
    BadFractions = 7,
    BadReadVersion = 8,
    BadPageCount = 9,
    IncrementalVacuum = 10,
    ReservedHeader = 11,
    SmallLedgers = 12,
    LongInput = 13,
    PointerRange = 20,
    NamedTwice = 21,
    PageType = 22,
    NotSound = 23,
    TreeLevel = 24,
    RowOrder = 25,
    LongPayload = 26,
    ChainLength = 27,
    BadRecord = 28,
    Freelist = 29,
    NeverNamed = 30,
    MapEntry = 31,
    LargestRoot = 32,
    KeyOrder = 33,
    TextEncoding = 34,
    NoIndexRoot = 35,
    LogVersion = 40,
    RecoverySize = 41,
    RecoveredPages = 42,
    PageNowhere = 43,
    SmallOutput = 44,
    RecordedTwice = 45,
    NoSuchPlace = 46,
    SmallTable = 47,
    BadRows = 48,
    StaleCursor = 49,
    NoLogHeader = 50,
    BadCommit = 51,
    NoTableRoot = 53,
    DoesNotFit = 54,
}

impl Rule {
    // The number that C sees.
    pub fn number(self) -> u32
        ensures { result ≡ number_of self }
    {
        self as u32
    }

    // What it says of an image, a log, a journal or what was asked.
    fn text(self) -> &'static str
        ensures { result.now ≡ text_of self }
    {
        match self {
            Rule::ShortImage => "the image has fewer than 512 bytes",
            Rule::BadMagic => "the image does not begin with \"SQLite format 3\" and a zero",
            Rule::BadPageSize =>
                "the page size at offset 16 is neither a power of two from 512 to 32768 nor 1 (for 65536)",
            Rule::PartialPage => "the image's length is no whole number of pages",
            Rule::TooManyPages => "the database has over 2,200,000 pages",
            Rule::SmallUsableSize => "the page size less the reserved bytes is under 480",
            Rule::BadFractions => "the payload fractions at offsets 21 to 23 are not 64, 32, 32",
            Rule::BadReadVersion => "the read version at offset 19 is not 1 or 2",
            Rule::BadPageCount => "fewer pages are present than the count at offset 28 says",
            Rule::IncrementalVacuum =>
                "the number at offset 64 (incremental vacuum) is set while the one at 52 (auto-vacuum) is zero",
            Rule::ReservedHeader => "the reserved bytes 72 to 91 of the header are not all zero",
            Rule::SmallLedgers => "a ledger has fewer entries than the database has pages",
            Rule::LongInput => "standard input has over 65,536 bytes",
            Rule::PointerRange => "a pointer names a page that the image does not have",
            Rule::NamedTwice =>
                "the page is named a second time (page 1, a pointer map or the lock-byte page by its very first pointer)",
            Rule::PageType => "the page's type byte does not suit its place",
            Rule::NotSound =>
                "the page's cells, freeblocks and fragments do not account for each of its bytes",
            Rule::TreeLevel =>
                "the page would be level 21 of its tree, or is a leaf at another level than the leaves before it",
            Rule::RowOrder => "the page's row numbers are out of order",
            Rule::LongPayload => "the page has a payload of over 65,536 bytes",
            Rule::ChainLength => "an overflow chain ends too early or too late",
            Rule::BadRecord =>
                "the page has a cell whose payload does not read as a record; or a schema row that has not five columns, or whose root is no page from 2 on",
            Rule::Freelist =>
                "a trunk's count is too large, or the freelist's total is not the number at offset 36",
            Rule::NeverNamed => "nothing names the page",
            Rule::MapEntry =>
                "the pointer map's entry about the page says another kind, or another number than its namer (0 for a root or a free page)",
            Rule::LargestRoot => "the number at offset 52 is not the largest root page",
            Rule::KeyOrder =>
                "the page has a key, of an index that was named, that is not more than the key before it",
            Rule::TextEncoding =>
                "an index was named, and the text encoding at offset 56 is not 1 (UTF-8)",
            Rule::NoIndexRoot => "the page that was named as an index is no index root",
            Rule::LogVersion => "the log's version is not 3007000",
            Rule::RecoverySize =>
                "a page size or sector size is no power of two from 512 to 65536, or the words of a tail have no page size or no order of bytes",
            Rule::RecoveredPages => "the recovered database would have over 2,200,000 pages",
            Rule::PageNowhere =>
                "a page of the recovered database, not the lock-byte page, is in neither of the two files",
            Rule::SmallOutput => "the lent output, cursor, tail or room is too small",
            Rule::RecordedTwice => "the journal has two records for one page",
            Rule::NoSuchPlace => "the page or cell that was asked for does not exist",
            Rule::SmallTable =>
                "the table of frames has fewer entries than the database has pages; or it, or a log's tail, would hold a frame numbered past 4,294,967,295",
            Rule::BadRows =>
                "the rows to be built do not rise by number, are over 4,096, or come in lists that disagree in length",
            Rule::StaleCursor =>
                "the cursor's path does not stand in the image, does not end at a leaf cell, or has a page that fails a test",
            Rule::NoLogHeader =>
                "the log has no header that is accepted: it has under 32 bytes, another magic, or wrong sums",
            Rule::BadCommit =>
                "the commit to be appended has no pages, one that it may not hold, or other bytes than its list of pages says",
            Rule::NoTableRoot =>
                "the root is page 1, or no root by the ledger that was lent; or the row's leaf is page 1",
            Rule::DoesNotFit =>
                "the row has an overflow chain, or the record to be set would need one, or the page has no room for it",
        }
    }
}

impl fmt::Display for Rule {
    ghost output = { λ rule. Some (text_of rule) };

    fn fmt<W: fmt::Write>(&self, f: &mut fmt::Formatter<W>) -> fmt::Result {
        f.write_str(self.text())
    }
}

impl Error for Rule {}

// A rule that is broken, and the page that is reported, 0 where it is about none.
#[derive(Clone, Copy, Debug, PartialEq, Eq)]
pub struct Refusal {
    pub rule: Rule,
    pub page: u32,
}

impl fmt::Display for Refusal {
    ghost output = { λ refusal. Some (refusal_text refusal) };

    fn fmt<W: fmt::Write>(&self, f: &mut fmt::Formatter<W>) -> fmt::Result {
        write!(
            f,
            "refused {}, page {}: {}",
            self.rule as u32, self.page, self.rule
        )
    }
}

impl Error for Refusal {}

// A rule about no page.
impl From<Rule> for Refusal {
    ghost from_gives = { λ rule refusal. refusal ≡ record { rule = rule; page = 0 } };

    fn from(rule: Rule) -> Refusal {
        Refusal { rule, page: 0 }
    }
}
