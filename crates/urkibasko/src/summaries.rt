// What a log and a journal say of themselves.
ghost use Rattle.std.specs.Prelude.{◌≡◌, Bool};
ghost use Rattle.wal.specs.State.{state_of};
ghost use Rattle.wal.specs.Promises.{Accepted};
ghost use Rattle.log_summary.specs.Summary.{log_summary_of};
ghost use Rattle.log_summary.specs.Promises as Log;
ghost use Rattle.journal_summary.specs.Summary.{journal_summary_of};
ghost use Rattle.journal_summary.specs.Promises as Journal;
ghost use Rattle.urkibasko.specs.Summaries.{log_summary_c, of_log_c, journal_summary_c, of_journal_c};

// Header 0 accepted, 1 under 32 bytes, 2 wrong magic, 3 wrong sums. Stop 0 the log ends, 1 a frame is cut, 2 its number is 0, 3 its salts are
// not the header's, 4 its sums do not match, 5 its number is the lock-byte page's.
#[repr(C)]
#[derive(Clone, Copy)]
pub struct UrkLogSummary {
    pub refusal: u32,
    pub header: u32,
    pub page_size: u32,
    pub pages: u32,
    pub frames: u64,
    pub counting: u64,
    pub in_force: u64,
    pub stop: u32,
}

// Header 0 there, 1 under 28 bytes, 2 wrong magic. Stop 0 no further header fits, 1 its magic is wrong, 2 its sizes differ, 3 a record is cut,
// 4 its number is 0, 5 its sum does not match, 6 its number is the lock-byte page's, 7 the file ends after records that ffffffff counts.
#[repr(C)]
#[derive(Clone, Copy)]
pub struct UrkJournalSummary {
    pub refusal: u32,
    pub header: u32,
    pub page_size: u32,
    pub sector_size: u32,
    pub pages: u32,
    pub segments: u32,
    pub counting: u64,
    pub laid: u64,
    pub stop: u32,
}

// How far recovery reads a log, and why no further.
#[unsafe(no_mangle)]
pub extern "C" fn urk_log_inspect(log: &[u8]) -> UrkLogSummary
    ensures answer { result ≡ log_summary_c (log_summary_of log.now) }
    ensures recovery { Log.Agrees (state_of log.now) (of_log_c result) }
    ensures stop { (big : Bool) → Accepted big log.now → Log.Stops big log.now (of_log_c result) }
{
    let found = log_summary::inspect(log);
    UrkLogSummary {
        refusal: match found.refusal {
            Some(rule) => rule.number(),
            None => 0,
        },
        header: found.header.number(),
        page_size: found.page_size,
        pages: found.pages,
        frames: found.frames as u64,
        counting: found.counting as u64,
        in_force: found.in_force as u64,
        stop: found.stop.number(),
    }
}

// How far recovery reads a journal, and why no further.
#[unsafe(no_mangle)]
pub extern "C" fn urk_journal_inspect(journal: &[u8]) -> UrkJournalSummary
    ensures answer { result ≡ journal_summary_c (journal_summary_of journal.now) }
    ensures recovery { Journal.Agrees journal.now (of_journal_c result) }
{
    let found = journal_summary::inspect(journal);
    UrkJournalSummary {
        refusal: found.refusal.map_or(0, |rule| rule.number()),
        header: found.header.number(),
        page_size: found.page_size,
        sector_size: found.sector_size,
        pages: found.pages,
        segments: found.segments,
        counting: found.counting as u64,
        laid: found.laid as u64,
        stop: found.stop.number(),
    }
}
