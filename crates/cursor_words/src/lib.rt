// A cursor as 41 words that the caller lends, for C: word 0 is the number of levels, then come a page and an index for each of 20 levels.
#![tactic(auto)]

ghost use Rattle.std.specs.Prelude.{◌≡◌, ℕ, suc, ◌≤◌, length};
ghost use Rattle.number.specs.Bytes.{bias_of};
ghost use Rattle.dealing.specs.Good.{Dealing};
ghost use Rattle.image.specs.Good.{GoodDealing, TableRoot};
ghost use Rattle.refusal.specs.Rule.{number_of};
ghost use Rattle.cursor.specs.Answers.{last_page, last_index, stepped, first_of, seek_of, step_of};
ghost use Rattle.cursor.specs.Shown.{Refused};
ghost use Rattle.cursor.specs.Told.{told_stepped};
ghost use Rattle.cursor.specs.Means.{row_in, Stands, RowsOn};
ghost use Rattle.cursor_words.specs.Words.{cursor_in, laid_in, kept_in, no_room, shown_or, words_or};
ghost use Rattle.cursor_words.specs.Told.{told_shown};

use cursor::{Cursor, Row, Stepped};
use refusal::{Refusal, Rule};

// The cursor that the words hold.
fn read(words: &[u32]) -> Cursor
    requires { 41 ≤ length words.now }
    ensures { result ≡ cursor_in words.now }
{
    let levels = words[0];
    let mut pages = [0; 20];
    let mut cells = [0; 20];
    for k in 0..20 {
        pages[k] = words[2 * k + 1];
        cells[k] = words[2 * k + 2];
    }
    Cursor {
        levels,
        pages,
        cells,
    }
}

// Lays a cursor into the words.
fn write(c: Cursor, words: &mut [u32])
    requires { 41 ≤ length words.old }
    ensures { words.new ≡ laid_in c words.old }
{
    let pages = c.pages;
    let cells = c.cells;
    words[0] = c.levels;
    for k in 0..20 {
        words[2 * k + 1] = pages[k];
        words[2 * k + 2] = cells[k];
    }
}

// What is shown; the cursor that comes with it goes into the words, except with a refusal.
fn keep(s: Stepped, words: &mut [u32]) -> Result<Option<Row>, Refusal>
    requires { 41 ≤ length words.old }
    ensures answer { told_shown result ≡ (told_stepped s).shown }
    ensures words { words.new ≡ kept_in (told_stepped s) words.old }
{
    match s.shown {
        Ok(Some(_)) => {
            write(s.cursor, words);
        }
        Ok(None) => {
            write(s.cursor, words);
        }
        Err(_) => {}
    }
    s.shown
}

// The refusal where there are fewer than 41 words: 44, after 1 to 11.
fn no_room(image: &[u8]) -> Refusal
    ensures { Refused (number_of result.rule) result.page ≡ no_room image.now }
{
    match header::check_header(image) {
        Ok(_) => Refusal::from(Rule::SmallOutput),
        Err(rule) => Refusal::from(rule),
    }
}

// The first row of the table tree under `root`.
pub fn first(image: &[u8], root: u32, words: &mut [u32]) -> Result<Option<Row>, Refusal>
    ensures answer { told_shown result ≡ shown_or image.now words.old (first_of image.now root) }
    ensures words { words.new ≡ words_or words.old (first_of image.now root) }
    ensures good { (d : Dealing) → GoodDealing image.now d → TableRoot image.now d root → 41 ≤ length words.old
        → RowsOn image.now d root 0 (stepped (told_shown result) (cursor_in words.new)) }
{
    if words.len() < 41 {
        return Err(no_room(image));
    }
    keep(Cursor::first(image, root), words)
}

// The first row whose number is not below `row`.
pub fn seek(image: &[u8], root: u32, row: i64, words: &mut [u32]) -> Result<Option<Row>, Refusal>
    ensures answer { told_shown result ≡ shown_or image.now words.old (seek_of image.now root row) }
    ensures words { words.new ≡ words_or words.old (seek_of image.now root row) }
    ensures good { (d : Dealing) → GoodDealing image.now d → TableRoot image.now d root → 41 ≤ length words.old
        → RowsOn image.now d root (bias_of row) (stepped (told_shown result) (cursor_in words.new)) }
{
    if words.len() < 41 {
        return Err(no_room(image));
    }
    keep(Cursor::seek(image, root, row), words)
}

// The row after the one where the cursor in the words stands.
pub fn step(image: &[u8], words: &mut [u32]) -> Result<Option<Row>, Refusal>
    ensures answer { told_shown result ≡ shown_or image.now words.old (step_of image.now (cursor_in words.old)) }
    ensures words { words.new ≡ words_or words.old (step_of image.now (cursor_in words.old)) }
    ensures good { (d : Dealing) (root : ℕ) → GoodDealing image.now d → TableRoot image.now d root → 41 ≤ length words.old
        → Stands image.now root (cursor_in words.old)
        → RowsOn image.now d root (suc (row_in image.now (last_page (cursor_in words.old)) (last_index (cursor_in words.old))))
        (stepped (told_shown result) (cursor_in words.new)) }
{
    if words.len() < 41 {
        return Err(no_room(image));
    }
    keep(read(words).step(image), words)
}
