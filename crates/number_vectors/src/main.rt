// Runs the varint reader and writer on worked lines, all nine lengths, longer spellings, short input and lent bytes that are too few.
#![tactic(auto)]

use number::Varint;
use std::io;
use vectors::{say, say_bytes, say_signed, text};

fn say_shortest(rt: &impl Print, shortest: bool) -> io::Result<()> {
    if !shortest {
        text(rt, b", long")?;
    }
    Ok(())
}

fn say_varint(rt: &impl Print, read: Option<Varint>) -> io::Result<()> {
    match read {
        None => text(rt, b"short"),
        Some(v) => {
            say_signed(rt, v.value)?;
            say(rt, b" in ", v.length as u64)?;
            say_shortest(rt, v.shortest)
        }
    }
}

fn read(rt: &impl Print, b: &[u8], at: usize, end: usize) -> io::Result<()> {
    say_bytes(rt, b, b" ")?;
    say(rt, b"from ", at as u64)?;
    say(rt, b" to ", end as u64)?;
    text(rt, b": ")?;
    say_varint(rt, number::varint_read(b, at, end))?;
    text(rt, b"\n")
}

fn whole(rt: &impl Print, b: &[u8]) -> io::Result<()> {
    read(rt, b, 0, b.len())
}

fn say_written(rt: &impl Print, written: Option<usize>) -> io::Result<()> {
    match written {
        None => text(rt, b", no room: "),
        Some(n) => {
            say(rt, b", ", n as u64)?;
            text(rt, b" written: ")
        }
    }
}

// Writes with room for the first bytes of `out`, shows all of them, and reads back.
fn write_into(rt: &impl Print, value: i64, most: usize, out: &mut [u8]) -> io::Result<()> {
    let room = vectors::within(most, out);
    say_signed(rt, value)?;
    say(rt, b" with room for ", room as u64)?;
    say_written(rt, number::varint_write(value, &mut out[..room]))?;
    say_bytes(rt, out, b" ")?;
    text(rt, b"read ")?;
    say_varint(rt, number::varint_read(out, 0, room))?;
    text(rt, b"\n")
}

fn write(rt: &impl Print, value: i64, room: usize) -> io::Result<()> {
    write_into(rt, value, room, &mut [0xaa; 10])
}

// The worked lines.
fn worked(rt: &impl Print) -> io::Result<()> {
    whole(rt, b"\x5b")?;
    whole(rt, b"\x84\x60")?;
    whole(rt, b"\x80\x01")?;
    whole(rt, b"\xff\xff\xff\xff\xff\xff\xff\xff\xff")
}

// The least and the greatest number of each length.
fn lengths(rt: &impl Print) -> io::Result<()> {
    whole(rt, b"\x00")?;
    whole(rt, b"\x7f")?;
    whole(rt, b"\x81\x00")?;
    whole(rt, b"\xff\x7f")?;
    whole(rt, b"\x81\x80\x00")?;
    whole(rt, b"\xff\xff\x7f")?;
    whole(rt, b"\x81\x80\x80\x00")?;
    whole(rt, b"\xff\xff\xff\x7f")?;
    whole(rt, b"\x81\x80\x80\x80\x00")?;
    whole(rt, b"\xff\xff\xff\xff\x7f")?;
    whole(rt, b"\x81\x80\x80\x80\x80\x00")?;
    whole(rt, b"\xff\xff\xff\xff\xff\x7f")?;
    whole(rt, b"\x81\x80\x80\x80\x80\x80\x00")?;
    whole(rt, b"\xff\xff\xff\xff\xff\xff\x7f")?;
    whole(rt, b"\x81\x80\x80\x80\x80\x80\x80\x00")?;
    whole(rt, b"\xff\xff\xff\xff\xff\xff\xff\x7f")?;
    whole(rt, b"\x80\xc0\x80\x80\x80\x80\x80\x80\x00")
}

// Nine bytes on both sides of the sign.
fn signs(rt: &impl Print) -> io::Result<()> {
    whole(rt, b"\xbf\xff\xff\xff\xff\xff\xff\xff\xff")?;
    whole(rt, b"\xc0\x80\x80\x80\x80\x80\x80\x80\x00")?;
    whole(rt, b"\xc0\x80\x80\x80\x80\x80\x80\x80\x01")?;
    whole(rt, b"\xff\xff\xff\xff\xff\xff\xff\xff\xfe")?;
    whole(rt, b"\xff\xff\xff\xff\xff\xff\xff\xff\x80")
}

// One and 127 in every longer spelling.
fn longer(rt: &impl Print) -> io::Result<()> {
    whole(rt, b"\x80\x01")?;
    whole(rt, b"\x80\x80\x01")?;
    whole(rt, b"\x80\x80\x80\x01")?;
    whole(rt, b"\x80\x80\x80\x80\x01")?;
    whole(rt, b"\x80\x80\x80\x80\x80\x01")?;
    whole(rt, b"\x80\x80\x80\x80\x80\x80\x01")?;
    whole(rt, b"\x80\x80\x80\x80\x80\x80\x80\x01")?;
    whole(rt, b"\x80\x80\x80\x80\x80\x80\x80\x80\x01")?;
    whole(rt, b"\x80\x7f")?;
    whole(rt, b"\x80\x80\x80\x80\x80\x80\x80\x80\x7f")?;
    whole(rt, b"\x80\x80\x80\x80\x80\x80\x80\x80\x00")
}

// Input that ends inside a varint, or before it.
fn shorts(rt: &impl Print) -> io::Result<()> {
    whole(rt, b"")?;
    whole(rt, b"\x80")?;
    whole(rt, b"\xff\xff\xff\xff\xff\xff\xff\xff")?;
    read(rt, b"\x84\x60", 0, 1)?;
    read(rt, b"\x84\x60", 2, 9)?;
    read(rt, b"\x84\x60", 3, 9)?;
    read(rt, b"\x05", 1, 0)?;
    read(rt, b"\x81\x81\x81\x81\x81\x81\x81\x81\x81", 1, 9)?;
    read(rt, b"\x5b", 0, 0)
}

// A varint amid other bytes; an end past the bytes.
fn places(rt: &impl Print) -> io::Result<()> {
    read(rt, b"\xff\x84\x60\xff", 1, 3)?;
    read(rt, b"\xff\x84\x60\xff", 1, 100)?;
    read(rt, b"\x01\x02\x03", 2, 3)?;
    read(rt, b"\x00\xff\xff\xff\xff\xff\xff\xff\xff\xff\x07", 1, 10)?;
    read(rt, b"\x00\xff\xff\xff\xff\xff\xff\xff\xff\xff\x07", 1, 11)?;
    read(rt, b"\x00\xff\xff\xff\xff\xff\xff\xff\xff\xff\x07", 10, 11)?;
    whole(rt, b"\x80\x80\x80\x80\x80\x80\x80\x80\x80\x05")?;
    read(rt, b"\x80\x80\x80\x80\x80\x80\x80\x80\x80\x05", 1, 10)
}

// Shortest spellings, with room for ten bytes.
fn writes(rt: &impl Print) -> io::Result<()> {
    write(rt, 0, 10)?;
    write(rt, 1, 10)?;
    write(rt, 127, 10)?;
    write(rt, 128, 10)?;
    write(rt, 608, 10)?;
    write(rt, 16383, 10)?;
    write(rt, 16384, 10)?;
    write(rt, 2097151, 10)?;
    write(rt, 2097152, 10)?;
    write(rt, 268435456, 10)?;
    write(rt, 34359738368, 10)?;
    write(rt, 4398046511104, 10)?;
    write(rt, 562949953421312, 10)?;
    write(rt, 72057594037927935, 10)?;
    write(rt, 72057594037927936, 10)?;
    write(rt, 9223372036854775807, 10)?;
    write(rt, -9223372036854775808, 10)?;
    write(rt, -2, 10)?;
    write(rt, -1, 10)
}

// Just enough room, and one byte too few.
fn rooms(rt: &impl Print) -> io::Result<()> {
    write(rt, 91, 1)?;
    write(rt, 91, 0)?;
    write(rt, 608, 2)?;
    write(rt, 608, 1)?;
    write(rt, 72057594037927935, 8)?;
    write(rt, 72057594037927935, 7)?;
    write(rt, 72057594037927936, 9)?;
    write(rt, 72057594037927936, 8)?;
    write(rt, -1, 9)?;
    write(rt, -1, 8)?;
    write(rt, -1, 0)?;
    write(rt, 0, 1)
}

fn main(rt: HostRuntime) -> io::Result<()> {
    worked(&rt)?;
    lengths(&rt)?;
    signs(&rt)?;
    longer(&rt)?;
    shorts(&rt)?;
    places(&rt)?;
    writes(&rt)?;
    rooms(&rt)
}
