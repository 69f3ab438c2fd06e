// A schema row: a record of five columns whose fourth is null, 0 or the page number of a root.
#![tactic(auto)]

ghost use Rattle.std.specs.Prelude.{◌≡◌, ◌<◌, ◌^◌};
ghost use Rattle.dealing.specs.File.{integer};
ghost use Rattle.image.specs.Schema.{column4_of};
ghost use Rattle.schema.specs.Row.{row_is};

use record::Column;
use refusal::Rule;

// The root that a schema row names, if it names one, in an image of n pages.
pub fn schema_row(row: &[u8], n: usize) -> Result<Option<u32>, Rule>
    requires { n < 2 ^ 32 }
    ensures { result ≡ row_is n (column4_of row.now) }
{
    let Some(count) = record::column_count(row) else {
        return Err(Rule::BadRecord);
    };
    if count != 5 {
        return Err(Rule::BadRecord);
    }
    // If column four is not an integer or null, the row is refused.
    let Ok(column) = record::column_at(row, 4) else {
        return Err(Rule::BadRecord);
    };
    if let Column::Null = column {
        return Ok(None);
    }
    let Column::Int(page) = column else {
        return Err(Rule::BadRecord);
    };
    root_of(page, n)
}

// An integer in column four: 0 names no root, 2 to n one, any other is refused.
fn root_of(page: i64, n: usize) -> Result<Option<u32>, Rule>
    requires { n < 2 ^ 32 }
    ensures { result ≡ row_is n (integer page) }
{
    match u32::try_from(page) {
        Ok(0) => Ok(None),
        Ok(root) if 2 <= root && root as usize <= n => Ok(Some(root)),
        _ => Err(Rule::BadRecord),
    }
}
