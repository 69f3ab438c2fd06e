// A table's signal levels summed up: one column of all its rows, as the cursor shows them from the first.
#![tactic(auto)]

ghost use Rattle.std.specs.Prelude.{◌≡◌, cond, is_nan, length};
ghost use Rattle.dealing.specs.Good.{Dealing};
ghost use Rattle.image.specs.Good.{GoodDealing, TableRoot};
ghost use Rattle.record.specs.Record.{column_at};
ghost use Rattle.report.specs.Summary.{none, added, told_of};
ghost use Rattle.report.specs.Summary as Sm;
ghost use Rattle.report.specs.Level.{told_level};
ghost use Rattle.report.specs.Told.{summary_in, met_in, taken, sum_told, nan_told, totals_told, told};
ghost use Rattle.report.specs.Rows.{value_level, level_of, laid_over};
ghost use Rattle.report.specs.Report.{report_of, room_of};
ghost use Rattle.report.specs.Means.{Reports, Tells, Is, Refuses};

use cursor::Cursor;
use record::{Column, NoValue};
use refusal::{Refusal, Rule};

// The least, the greatest and the sum of the reals met so far, and how many they were, modulo 2^64.
#[derive(Clone, Copy)]
pub struct Summary {
    pub least: f64,
    pub greatest: f64,
    pub sum: f64,
    pub count: u64,
}

// The summary of all reals; where its sum turned to NaN it has none.
#[derive(Clone, Copy)]
pub struct Totals {
    pub least: f64,
    pub greatest: f64,
    pub sum: Option<f64>,
    pub count: u64,
}

// The lesser of two, the earlier of equals.
// Kept: (d) f64::min says nothing of which of two equal zeros it answers.
fn lesser(earlier: f64, x: f64) -> f64
    ensures { result ≡ Sm.lesser earlier x }
{
    if x < earlier { x } else { earlier }
}

// The greater of two, the earlier of equals.
// Kept: (d) as lesser.
fn greater(earlier: f64, x: f64) -> f64
    ensures { result ≡ Sm.greater earlier x }
{
    if earlier < x { x } else { earlier }
}

// One real more, the first where none was met before. The sum starts at +0.
fn with_real(s: Option<Summary>, x: f64) -> Summary
    ensures { result ≡ added (met_in s) (summary_in s) x }
{
    match s {
        None => Summary {
            least: x,
            greatest: x,
            sum: 0.0 + x,
            count: 1,
        },
        Some(s) => Summary {
            least: lesser(s.least, x),
            greatest: greater(s.greatest, x),
            sum: s.sum + x,
            count: s.count.wrapping_add(1),
        },
    }
}

// With what a row gives.
fn with_level(s: Option<Summary>, level: Option<f64>) -> Option<Summary>
    ensures { result ≡ taken s level }
{
    match level {
        None => s,
        Some(x) => Some(with_real(s, x)),
    }
}

// A sum, none where it turned to NaN.
fn real_sum(sum: f64) -> Option<f64>
    ensures told { sum_told result ≡ cond (is_nan sum) Sm.zero_bits sum }
    ensures nan { nan_told result ≡ is_nan sum }
{
    if sum.is_nan() { None } else { Some(sum) }
}

// All rows were met. Where none has a real all is zero.
fn finished(s: Option<Summary>) -> Totals
    ensures { totals_told result ≡ told_of (summary_in s) }
{
    let all = s.unwrap_or(Summary {
        least: 0.0,
        greatest: 0.0,
        sum: 0.0,
        count: 0,
    });
    Totals {
        least: all.least,
        greatest: all.greatest,
        sum: real_sum(all.sum),
        count: all.count,
    }
}

// What a column of a record gives, which is the payload of a cell of that page: a real, or nothing that counts.
fn level_in(payload: &[u8], column: u64, page: u32) -> Result<Option<f64>, Refusal>
    ensures { told_level result ≡ value_level page (column_at payload.now column) }
{
    match record::column_at(payload, column) {
        Ok(Column::Real(x)) => Ok(Some(x)),
        Ok(_) => Ok(None),
        Err(NoValue::Missing) => Ok(None),
        Err(NoValue::DoesNotRead) => Err(Refusal {
            rule: Rule::BadRecord,
            page,
        }),
    }
}

// What a row gives, by its leaf cell: the payload is laid over what the room held.
fn level_of(
    image: &[u8],
    page: u32,
    cell: u32,
    column: u64,
    room: &mut [u8],
) -> Result<Option<f64>, Refusal>
    ensures { (told_level result ≡ level_of image.now column page cell (length room.old))
        × (room.new ≡ laid_over image.now page cell room.old) }
{
    let length = lookup::payload(image, page, cell, room)?;
    level_in(&room[..length as usize], column, page)
}

// The reals in a column of the table tree under `root`, from its first row on. `room` is lent for the payloads.
pub fn report(image: &[u8], root: u32, column: u64, room: &mut [u8]) -> Result<Totals, Refusal>
    ensures answer { told result ≡ report_of image.now root column room.old }
    ensures buffer { room.new ≡ room_of image.now root column room.old }
    ensures good { (d : Dealing) → GoodDealing image.now d → TableRoot image.now d root
        → Reports image.now d root column (length room.old) (Tells (told result)) (Is (told result)) (Refuses (told result)) }
{
    let mut s = None;
    let mut at = Cursor::first(image, root);
    while let Some(row) = at.shown? {
        let level = level_of(image, row.page, row.cell, column, room)?;
        s = with_level(s, level);
        at = at.cursor.step(image);
    }
    Ok(finished(s))
}
