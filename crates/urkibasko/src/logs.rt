ghost use Rattle.std.specs.Prelude.{◌≡◌, length};
ghost use Rattle.wal.specs.View.{page_of, recover_of, out_of};
ghost use Rattle.wal.specs.Told.{part_told};
ghost use Rattle.frames.specs.Table.{fill_of, table_of, part_by};
ghost use Rattle.urkibasko.specs.Recovery.{flag_c, part_c, filled_c, ServesC, log_c};

use crate::answers::{UrkFilled, UrkPart, UrkRecovered};
use refusal::Rule;
use wal::{Part, Source};

pub fn flag(b: bool) -> u32
    ensures { result ≡ flag_c b }
{
    u32::from(b)
}

fn part_of(found: Result<Part, Rule>) -> UrkPart
    ensures { result ≡ part_c (part_told found) }
{
    match found {
        Ok(part) => UrkPart {
            refusal: 0,
            from_log: match part.source {
                Source::Log => 1,
                Source::Image => 0,
            },
            start: part.start as u64,
            length: part.length as u64,
        },
        Err(rule) => UrkPart {
            refusal: rule.number(),
            from_log: 0,
            start: 0,
            length: 0,
        },
    }
}

// Where a page of the recovered database stands.
#[unsafe(no_mangle)]
pub extern "C" fn urk_log_page(log: &[u8], image: &[u8], page: u32) -> UrkPart
    ensures { result ≡ part_c (page_of log.now image.now page) }
{
    part_of(wal::locate(log, image, page))
}

// Fills a table of frames, one entry a page, once for a log and an image.
#[unsafe(no_mangle)]
pub extern "C" fn urk_log_fill(log: &[u8], image: &[u8], table: &mut [u32]) -> UrkFilled
    ensures answer { result ≡ filled_c (fill_of log.now image.now (length table.old)) }
    ensures table { table.new ≡ table_of log.now image.now table.old }
    ensures pages { ServesC log.now image.now table.new result }
{
    match frames::fill(log, image, table) {
        Ok(filled) => UrkFilled {
            refusal: 0,
            pages: filled.pages as u32,
            page_size: filled.size as u32,
        },
        Err(rule) => UrkFilled {
            refusal: rule.number(),
            pages: 0,
            page_size: 0,
        },
    }
}

// Where a page of the recovered database stands, by a table, n and a page size, whatever they are: the log is not scanned.
#[unsafe(no_mangle)]
pub extern "C" fn urk_log_page_by(
    log: &[u8],
    image: &[u8],
    table: &[u32],
    pages: u32,
    size: u32,
    page: u32,
) -> UrkPart
    ensures { result ≡ part_c (part_by log.now image.now table.now pages size page) }
{
    part_of(frames::page_by(log, image, table, pages, size, page))
}

// All pages of the recovered database, laid over the output.
#[unsafe(no_mangle)]
pub extern "C" fn urk_log_recover(log: &[u8], image: &[u8], out: &mut [u8]) -> UrkRecovered
    ensures answer { result ≡ log_c (recover_of log.now image.now (length out.old)) }
    ensures bytes { out.new ≡ out_of log.now image.now out.old }
{
    match wal::recover(log, image, out) {
        Ok(done) => UrkRecovered {
            refusal: 0,
            pages: done.pages as u32,
            length: done.length as u64,
        },
        Err(rule) => UrkRecovered {
            refusal: rule.number(),
            pages: 0,
            length: 0,
        },
    }
}
