// Reads records and writes, for each, its bytes, the number of its columns, and its columns from 0 on up to the first that is missing past 0.
// The expected output was written by another reader, from the rules alone.
#![tactic(auto)]

use record::{Column, NoValue};
use std::io;
use vectors::{say, text};

fn main(rt: HostRuntime) -> io::Result<()> {
    short_integers(&rt)?;
    integers(&rt)?;
    long_integers(&rt)?;
    reals(&rt)?;
    texts_and_blobs(&rt)?;
    rows(&rt)?;
    bad_headers(&rt)?;
    bad_types(&rt)?;
    bad_values(&rt)?;
    bad_sizes(&rt)
}

fn short_integers(rt: &impl Print) -> io::Result<()> {
    // no column
    show(rt, b"\x01")?;
    // null
    show(rt, b"\x02\x00")?;
    // 1 byte
    show(rt, b"\x02\x01\x7f")?;
    show(rt, b"\x02\x01\x80")?;
    show(rt, b"\x02\x01\x00")?;
    // 2 bytes
    show(rt, b"\x02\x02\x7f\xff")?;
    show(rt, b"\x02\x02\x80\x00")?;
    show(rt, b"\x02\x02\x01\x00")
}

fn integers(rt: &impl Print) -> io::Result<()> {
    // 3 bytes
    show(rt, b"\x02\x03\x7f\xff\xff")?;
    show(rt, b"\x02\x03\x80\x00\x00")?;
    show(rt, b"\x02\x03\x01\x02\x03")?;
    // 4 bytes
    show(rt, b"\x02\x04\x7f\xff\xff\xff")?;
    show(rt, b"\x02\x04\x80\x00\x00\x00")?;
    // 6 bytes
    show(rt, b"\x02\x05\x7f\xff\xff\xff\xff\xff")?;
    show(rt, b"\x02\x05\x80\x00\x00\x00\x00\x00")?;
    show(rt, b"\x02\x05\x01\x02\x03\x04\x05\x06")
}

fn long_integers(rt: &impl Print) -> io::Result<()> {
    // 8 bytes
    show(rt, b"\x02\x06\x7f\xff\xff\xff\xff\xff\xff\xff")?;
    show(rt, b"\x02\x06\x80\x00\x00\x00\x00\x00\x00\x00")?;
    show(rt, b"\x02\x06\xff\xff\xff\xff\xff\xff\xff\xff")?;
    // the integers 0 and 1
    show(rt, b"\x02\x08")?;
    show(rt, b"\x02\x09")
}

fn reals(rt: &impl Print) -> io::Result<()> {
    // reals: 1, minus zero, the least, both infinities
    show(rt, b"\x02\x07\x3f\xf0\x00\x00\x00\x00\x00\x00")?;
    show(rt, b"\x02\x07\x80\x00\x00\x00\x00\x00\x00\x00")?;
    show(rt, b"\x02\x07\x00\x00\x00\x00\x00\x00\x00\x01")?;
    show(rt, b"\x02\x07\x7f\xf0\x00\x00\x00\x00\x00\x00")?;
    show(rt, b"\x02\x07\xff\xf0\x00\x00\x00\x00\x00\x00")?;
    // NaNs are null
    show(rt, b"\x02\x07\x7f\xf8\x00\x00\x00\x00\x00\x00")?;
    show(rt, b"\x02\x07\xff\xf0\x00\x00\x00\x00\x00\x01")?;
    show(rt, b"\x02\x07\x7f\xf0\x00\x00\x00\x00\x00\x01")
}

fn texts_and_blobs(rt: &impl Print) -> io::Result<()> {
    // blobs and texts
    show(rt, b"\x02\x0c")?;
    show(rt, b"\x02\x0d")?;
    show(rt, b"\x02\x0e\x41")?;
    show(rt, b"\x02\x0f\x41")?;
    show(rt, b"\x02\x10\x41\x42")?;
    show(rt, b"\x02\x1b\x41\x42\x43\x44\x45\x46\x47")
}

fn rows(rt: &impl Print) -> io::Result<()> {
    // five columns, as a schema row has
    show(
        rt,
        b"\x06\x17\x0f\x0f\x09\x0f\x74\x61\x62\x6c\x65\x61\x61\x62",
    )?;
    // several at once
    show(
        rt,
        b"\x08\x00\x01\x07\x0d\x0e\x09\x0f\x2a\x40\x00\x00\x00\x00\x00\x00\x00\xff\x41",
    )?;
    // longer spellings of a type and of H
    show(rt, b"\x03\x80\x01\x05")?;
    show(rt, b"\x80\x03\x01\x05")?;
    show(rt, b"\x80\x80\x04\x01\x05")?;
    show(rt, b"\x80\x80\x80\x80\x80\x80\x80\x80\x0a\x01\x05")?;
    show(rt, b"\x0a\x80\x80\x80\x80\x80\x80\x80\x80\x01\x05")
}

fn bad_headers(rt: &impl Print) -> io::Result<()> {
    // empty
    show(rt, b"")?;
    // H below its own bytes
    show(rt, b"\x00")?;
    show(rt, b"\x80\x01")?;
    show(rt, b"\x80\x00")?;
    // H past the end
    show(rt, b"\x02")?;
    show(rt, b"\x05\x01\x05")?;
    show(rt, b"\xff\xff\xff\xff\xff\xff\xff\xff\xff")?;
    show(rt, b"\x7f")
}

fn bad_types(rt: &impl Print) -> io::Result<()> {
    // H that ends short
    show(rt, b"\x80")?;
    show(rt, b"\x81\x82")?;
    // a type that runs past H
    show(rt, b"\x02\x81\x00")?;
    show(rt, b"\x02\x80\x01\x05")?;
    show(rt, b"\x03\x00\x80\x01")?;
    // 10 and 11
    show(rt, b"\x02\x0a")?;
    show(rt, b"\x02\x0b")?;
    show(rt, b"\x02\x0a\x00")?;
    show(rt, b"\x03\x0b\x01\x05")
}

fn bad_values(rt: &impl Print) -> io::Result<()> {
    // values that run past the end
    show(rt, b"\x02\x01")?;
    show(rt, b"\x02\x06\x01\x02\x03\x04\x05\x06\x07")?;
    show(rt, b"\x02\x0f")?;
    show(rt, b"\x03\x01\x01\x05")?;
    // values that end early
    show(rt, b"\x02\x01\x05\x06")?;
    show(rt, b"\x02\x00\x00")?;
    show(rt, b"\x01\x00")?;
    show(rt, b"\x02\x0d\x41")
}

fn bad_sizes(rt: &impl Print) -> io::Result<()> {
    // negative types
    show(rt, b"\x0a\xff\xff\xff\xff\xff\xff\xff\xff\xff")?;
    show(rt, b"\x0a\xc0\x80\x80\x80\x80\x80\x80\x80\x00")?;
    // the largest type
    show(rt, b"\x0a\xbf\xff\xff\xff\xff\xff\xff\xff\xff")?;
    // sizes whose sum is 2^64
    show(
        rt,
        b"\x26\xbf\xff\xff\xff\xff\xff\xff\xff\xff\xbf\xff\xff\xff\xff\xff\xff\xff\xff\xbf\xff\xff\xff\xff\xff\xff\xff\xff\xbf\xff\xff\xff\xff\xff\xff\xff\xff\x45",
    )
}

// Its bytes, the number of its columns, and its columns.
fn show(rt: &impl Print, b: &[u8]) -> io::Result<()> {
    vectors::say_bytes(rt, b, b"")?;
    show_count(rt, record::column_count(b))?;
    show_column(rt, record::column_at(b, 0))?;
    show_columns(rt, b)?;
    text(rt, b"\n")
}

// The columns from 1 on, up to the first that is missing.
fn show_columns(rt: &impl Print, b: &[u8]) -> io::Result<()> {
    for i in 1..16 {
        let value = record::column_at(b, i);
        show_column(rt, value)?;
        if value.is_err() {
            break;
        }
    }
    Ok(())
}

fn show_count(rt: &impl Print, columns: Option<usize>) -> io::Result<()> {
    match columns {
        None => text(rt, b": does not read"),
        Some(n) => say(rt, b": columns ", n as u64),
    }
}

fn show_column(rt: &impl Print, value: Result<Column, NoValue>) -> io::Result<()> {
    match value {
        Err(NoValue::DoesNotRead) => text(rt, b"; does not read"),
        Err(NoValue::Missing) => text(rt, b"; missing"),
        Ok(column) => {
            text(rt, b"; ")?;
            show_value(rt, column)
        }
    }
}

fn show_value(rt: &impl Print, column: Column) -> io::Result<()> {
    match column {
        Column::Null => text(rt, b"null"),
        Column::Int(v) => {
            text(rt, b"int ")?;
            vectors::say_signed(rt, v)
        }
        Column::Real(x) => {
            text(rt, b"real ")?;
            show_real(rt, x)
        }
        Column::Text { place, length } => {
            text(rt, b"text ")?;
            show_span(rt, place, length)
        }
        Column::Blob { place, length } => {
            text(rt, b"blob ")?;
            show_span(rt, place, length)
        }
    }
}

fn show_real(rt: &impl Print, x: f64) -> io::Result<()> {
    if x.is_nan() {
        return text(rt, b"NaN");
    }
    let bits = x.to_bits();
    print!(rt; "{bits:016x}")
}

fn show_span(rt: &impl Print, place: usize, length: usize) -> io::Result<()> {
    say(rt, b"", place as u64)?;
    say(rt, b"+", length as u64)
}
