ghost use Rattle.std.specs.Prelude.{◌≡◌, ℕ, suc, ◌≤◌, length};
ghost use Rattle.number.specs.Bytes.{bias_of};
ghost use Rattle.dealing.specs.Good.{Dealing};
ghost use Rattle.image.specs.Good.{GoodDealing, TableRoot};
ghost use Rattle.cursor.specs.Answers.{last_page, last_index, first_of, seek_of, step_of};
ghost use Rattle.cursor.specs.Means.{row_in, Stands};
ghost use Rattle.cursor_words.specs.Words.{cursor_in, shown_or, words_or};
ghost use Rattle.cursor_words.specs.Told.{told_shown};
ghost use Rattle.urkibasko.specs.Rows.{row_c, RowsC};

use crate::answers::UrkRow;
use cursor::Row;
use refusal::Refusal;

// What is shown, as C sees it.
impl From<Result<Option<Row>, Refusal>> for UrkRow {
    ghost from_gives = { λ shown answer. answer ≡ row_c (told_shown shown) };

    fn from(shown: Result<Option<Row>, Refusal>) -> UrkRow {
        match shown {
            Ok(None) => UrkRow {
                refusal: 0,
                page: 0,
                found: 0,
                cell: 0,
                length: 0,
                row: 0,
            },
            Ok(Some(row)) => UrkRow {
                refusal: 0,
                page: row.page,
                found: 1,
                cell: row.cell,
                length: row.length,
                row: row.number,
            },
            Err(e) => UrkRow {
                refusal: e.rule.number(),
                page: e.page,
                found: 0,
                cell: 0,
                length: 0,
                row: 0,
            },
        }
    }
}

// The first row of the table tree under `root`, with the cursor that stands there in the words.
#[unsafe(no_mangle)]
pub extern "C" fn urk_rows_first(image: &[u8], root: u32, words: &mut [u32]) -> UrkRow
    ensures answer { result ≡ row_c (shown_or image.now words.old (first_of image.now root)) }
    ensures words { words.new ≡ words_or words.old (first_of image.now root) }
    ensures good { (d : Dealing) → GoodDealing image.now d → TableRoot image.now d root → 41 ≤ length words.old
        → RowsC image.now d root 0 result words.new }
{
    cursor_words::first(image, root, words).into()
}

// The first row whose number is not below `row`.
#[unsafe(no_mangle)]
pub extern "C" fn urk_rows_seek(image: &[u8], root: u32, row: i64, words: &mut [u32]) -> UrkRow
    ensures answer { result ≡ row_c (shown_or image.now words.old (seek_of image.now root row)) }
    ensures words { words.new ≡ words_or words.old (seek_of image.now root row) }
    ensures good { (d : Dealing) → GoodDealing image.now d → TableRoot image.now d root → 41 ≤ length words.old
        → RowsC image.now d root (bias_of row) result words.new }
{
    cursor_words::seek(image, root, row, words).into()
}

// The row after the one where the cursor in the words stands.
#[unsafe(no_mangle)]
pub extern "C" fn urk_rows_step(image: &[u8], words: &mut [u32]) -> UrkRow
    ensures answer { result ≡ row_c (shown_or image.now words.old (step_of image.now (cursor_in words.old))) }
    ensures words { words.new ≡ words_or words.old (step_of image.now (cursor_in words.old)) }
    ensures good { (d : Dealing) (root : ℕ) → GoodDealing image.now d → TableRoot image.now d root → 41 ≤ length words.old
        → Stands image.now root (cursor_in words.old)
        → RowsC image.now d root (suc (row_in image.now (last_page (cursor_in words.old)) (last_index (cursor_in words.old))))
        result words.new }
{
    cursor_words::step(image, words).into()
}
