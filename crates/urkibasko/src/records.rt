ghost use Rattle.std.specs.Prelude.{◌≡◌};
ghost use Rattle.record.specs.Record.{columns_of, column_at};
ghost use Rattle.compare.specs.Values.{order_of};
ghost use Rattle.urkibasko.specs.Record.{columns_c, column_c, no_value, value_c, order_c};

use crate::answers::{UrkColumn, UrkColumns, UrkOrder};
use compare::Unread;
use record::{Column, NoValue};
use std::cmp::Ordering;

// The number of columns of a record.
#[unsafe(no_mangle)]
pub extern "C" fn urk_record_columns(record: &[u8]) -> UrkColumns
    ensures { result ≡ columns_c (columns_of «record».now) }
{
    match record::column_count(record) {
        None => UrkColumns {
            status: 1,
            count: 0,
        },
        Some(count) => UrkColumns {
            status: 0,
            count: count as u64,
        },
    }
}

// A column as C sees it.
fn answer_of(column: Column) -> UrkColumn
    ensures { result ≡ column_c column }
{
    let null = no_value(0);
    match column {
        Column::Null => null,
        Column::Int(integer) => UrkColumn {
            kind: 1,
            integer,
            ..null
        },
        Column::Real(real) => UrkColumn {
            kind: 2,
            real,
            ..null
        },
        Column::Text { place, length } => UrkColumn {
            kind: 3,
            place: place as u64,
            length: length as u64,
            ..null
        },
        Column::Blob { place, length } => UrkColumn {
            kind: 4,
            place: place as u64,
            length: length as u64,
            ..null
        },
    }
}

fn no_value(status: u32) -> UrkColumn
    ensures { result ≡ no_value status }
{
    UrkColumn {
        status,
        kind: 0,
        integer: 0,
        real: 0.0,
        place: 0,
        length: 0,
    }
}

// The value of a column, counted from 1.
#[unsafe(no_mangle)]
pub extern "C" fn urk_record_column(record: &[u8], column: u64) -> UrkColumn
    ensures { result ≡ value_c (column_at «record».now column) }
{
    match record::column_at(record, column) {
        Err(NoValue::DoesNotRead) => no_value(1),
        Err(NoValue::Missing) => no_value(2),
        Ok(column) => answer_of(column),
    }
}

// How two records compare in the order of an index.
#[unsafe(no_mangle)]
pub extern "C" fn urk_record_order(a: &[u8], b: &[u8]) -> UrkOrder
    ensures { result ≡ order_c (order_of a.now b.now) }
{
    let (status, order) = match compare::order(a, b) {
        Err(Unread::First) => (1, 0),
        Err(Unread::Second) => (2, 0),
        Ok(Ordering::Less) => (0, -1),
        Ok(Ordering::Equal) => (0, 0),
        Ok(Ordering::Greater) => (0, 1),
    };
    UrkOrder { status, order }
}
