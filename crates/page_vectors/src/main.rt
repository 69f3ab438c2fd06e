// Checks pages of small files that sqlite3 made, whole and damaged (data/README.md). Arguments come in threes: file, page number, place
// (s schema root, r any root, t table page, i index page, p page with payloads). Each gives a line with the answer, and a line for each cell.
#![tactic(auto)]

ghost use Rattle.std.specs.Prelude.{◌≡◌, ◌≤◌, length};
ghost use Rattle.page.specs.Header.{page_type, pointer_place};

use cell::Cell;
use page::{Place, TreePage};
use refusal::Rule;
use std::io;
use std::rt::{Env, Files};
use vectors::{say, text};

// The row number is printed as its 64 bits, moved up by 2^63.
fn say_cell(rt: &impl Print, c: Cell) -> io::Result<()> {
    say(rt, b"  child ", u64::from(c.child))?;
    say(rt, b" payload ", c.payload as u64)?;
    say(rt, b" row ", c.row)?;
    say(rt, b" local ", c.local as u64)?;
    say(rt, b" at ", c.start as u64)?;
    say(rt, b" first ", u64::from(c.first))?;
    say(rt, b" end ", c.end as u64)?;
    text(rt, b"\n")
}

fn say_cells(rt: &impl Print, p: &[u8], u: usize, head: usize, kind: u8, n: usize) -> io::Result<()>
    requires { (480 ≤ u) × (u ≤ 65536) × (u ≤ length p.now) × (head ≤ 100) × (kind ≡ page_type p.now head) × (pointer_place p.now head n ≤ u) }
{
    for i in 0..n {
        say_cell(rt, page::cell_of(p, u, head, kind, i))?;
    }
    Ok(())
}

fn place_of(c: u8) -> Place {
    match c {
        b's' => Place::SchemaRoot,
        b't' => Place::TablePage,
        b'i' => Place::IndexPage,
        b'p' => Place::PayloadPage,
        _ => Place::AnyRoot,
    }
}

fn head_of(page: usize) -> usize
    ensures { result ≤ 100 }
{
    if page == 1 { 100 } else { 0 }
}

// The usable bytes of a page of 512.
fn usable(reserved: u8) -> usize
    ensures { (480 ≤ result) × (result ≤ 512) }
{
    512 - usize::from(reserved.min(32))
}

fn say_refused(rt: &impl Print, rule: Rule) -> io::Result<()> {
    say(rt, b" refused ", u64::from(rule.number()))?;
    text(rt, b"\n")
}

fn say_page(rt: &impl Print, page: TreePage) -> io::Result<()> {
    say(rt, b" type ", u64::from(page.kind))?;
    say(rt, b" cells ", page.cells as u64)?;
    say(rt, b" right ", u64::from(page.right))?;
    text(rt, b"\n")
}

fn check(
    rt: &impl Print,
    p: &[u8],
    u: usize,
    head: usize,
    place: Place,
    marks: &mut [u8],
) -> io::Result<()>
    requires { (480 ≤ u) × (u ≤ 65536) × (u ≤ length p.now) × (head ≤ 100) × (u ≤ length marks.old) }
{
    match page::check_page(p, u, head, place, marks) {
        Err(rule) => say_refused(rt, rule),
        Ok(page) => {
            say_page(rt, page)?;
            say_cells(rt, p, u, head, page.kind, page.cells)
        }
    }
}

// One page of an image with pages of 512 bytes.
fn try_page(
    rt: &impl Print,
    image: &[u8],
    number: usize,
    place: Place,
    marks: &mut [u8],
) -> io::Result<()>
    requires { 512 ≤ length marks.old }
{
    if number < 1 || image.len() / 512 < number {
        return Ok(());
    }
    let u = usable(image[20]);
    let head = head_of(number);
    let at = (number - 1) * 512;
    check(rt, &image[at..at + 512], u, head, place, marks)
}

// Arguments i, i + 1, i + 2.
fn one(
    rt: &(impl Env + Files + Print + Eprint + Alloc),
    i: usize,
    marks: &mut [u8],
) -> io::Result<()>
    requires { (i ≤ 4096) × (512 ≤ length marks.old) }
{
    let mut image = [0; 65536];
    let number = vectors::arg_number(rt, i + 1, 0);
    let place = place_of(vectors::arg_byte(rt, i + 2));
    vectors::say_arg(rt, i, b" page ")?;
    say(rt, b"", number)?;
    let length = vectors::read_file(rt, i, &mut image);
    try_page(rt, &image[..length], number as usize, place, marks)
}

fn main(rt: HostRuntime) -> io::Result<()> {
    let mut marks = [0; 65536];
    let n = vectors::args(&rt);
    for i in (1..n).step_by(3) {
        one(&rt, i, &mut marks)?;
    }
    Ok(())
}
