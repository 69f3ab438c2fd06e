ghost use Rattle.std.specs.Prelude.{◌≡◌, length};
ghost use Rattle.dealing.specs.Good.{Dealing};
ghost use Rattle.image.specs.Good.{GoodDealing, TableRoot};
ghost use Rattle.report.specs.Report.{report_of, room_of};
ghost use Rattle.report.specs.Told.{told};
ghost use Rattle.report.specs.Means.{Reports};
ghost use Rattle.urkibasko.specs.Report.{summary_c, TellsC, IsC, RefusesC};

use crate::answers::UrkSummary;
use refusal::Refusal;
use report::Totals;

// What a report answers, as C sees it: a sum that turned to NaN is 0 with a flag.
impl From<Result<Totals, Refusal>> for UrkSummary {
    ghost from_gives = { λ reported answer. answer ≡ summary_c (told reported) };

    fn from(reported: Result<Totals, Refusal>) -> UrkSummary {
        match reported {
            Ok(totals) => UrkSummary {
                refusal: 0,
                page: 0,
                count: totals.count,
                least: totals.least,
                greatest: totals.greatest,
                sum: totals.sum.unwrap_or(0.0),
                sum_is_nan: u32::from(totals.sum.is_none()),
            },
            Err(e) => UrkSummary {
                refusal: e.rule.number(),
                page: e.page,
                count: 0,
                least: 0.0,
                greatest: 0.0,
                sum: 0.0,
                sum_is_nan: 0,
            },
        }
    }
}

// The reals in a column of the table tree under `root`, summed up. Each payload is laid over the last at the room's start.
#[unsafe(no_mangle)]
pub extern "C" fn urk_report(image: &[u8], root: u32, column: u64, room: &mut [u8]) -> UrkSummary
    ensures answer { result ≡ summary_c (report_of image.now root column room.old) }
    ensures bytes { room.new ≡ room_of image.now root column room.old }
    ensures good { (d : Dealing) → GoodDealing image.now d → TableRoot image.now d root
        → Reports image.now d root column (length room.old) (TellsC result) (IsC result) (RefusesC result) }
{
    report::report(image, root, column, room).into()
}
