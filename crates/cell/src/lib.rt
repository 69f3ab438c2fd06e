// A cell of a tree page, read at a place: how its payload is split, and where its fields stand.
#![tactic(auto)]

ghost use Rattle.std.specs.Prelude.{◌≡◌, ◌+◌, ◌-◌, ◌<◌, ◌≤◌, length};
ghost use Rattle.refusal.specs.Rule.{number_of};
ghost use Rattle.cell.specs.Split.{max_local, min_local, local_size, chain_length};
ghost use Rattle.cell.specs.Cell.{child_width, child_at, refused_cell, at_least4, local_end, first_at};
ghost use Rattle.cell.specs.Cell.{key_cell, body_cell, payload_cell, cell_at, cell_links};

use number::{be32, bias, long_of, varint_word};
use refusal::Rule;

// The types of tree pages.
pub const INDEX_INTERIOR: u8 = 2;

pub const TABLE_INTERIOR: u8 = 5;

pub const INDEX_LEAF: u8 = 10;

pub const TABLE_LEAF: u8 = 13;

// The longest payload.
pub const PAYLOAD_LIMIT: u64 = 65536;

// One cell. Where `fault` is 23 or 26 the other fields are 0; else it is 0.
#[derive(Clone, Copy)]
pub struct Cell {
    pub fault: u32,
    // The left child, on interior pages.
    pub child: u32,
    // The payload's length P.
    pub payload: usize,
    // A table leaf's row number or a table interior page's key, moved up by 2^63: unsigned order is then the signed order.
    pub row: u64,
    // Where the local bytes begin, and how many there are.
    pub start: usize,
    pub local: usize,
    // The chain's first overflow page, where there is a rest.
    pub first: u32,
    // Where the cell ends.
    pub end: usize,
    // How many of the payload's length and the row number or key are spelled long.
    pub long: u32,
}

// X: the longest payload that is all local.
pub fn max_local(u: usize, kind: u8) -> usize
    requires { (480 ≤ u) × (u ≤ 65536) }
    ensures { result ≡ max_local u kind }
{
    if kind == TABLE_LEAF {
        u - 35
    } else {
        (u - 12) * 64 / 255 - 23
    }
}

// M: the fewest local bytes of a payload with a rest.
fn min_local(u: usize) -> usize
    requires { (480 ≤ u) × (u ≤ 65536) }
    ensures { result ≡ min_local u }
{
    (u - 12) * 32 / 255 - 23
}

// How many bytes of a payload are local, on a page of that type with u usable bytes.
pub fn local_size(u: usize, kind: u8, payload: usize) -> usize
    requires { (480 ≤ u) × (u ≤ 65536) × (payload ≤ 65536) }
    ensures { result ≡ local_size u kind payload }
{
    let most = max_local(u, kind);
    if payload <= most {
        return payload;
    }
    let least = min_local(u);
    let full = least + (payload - least) % (u - 4);
    if full <= most {
        return full;
    }
    least
}

// How many overflow pages the rest of a payload takes.
pub fn chain_length(u: usize, rest: usize) -> usize
    requires { (480 ≤ u) × (u ≤ 65536) × (rest ≤ 65536) }
    ensures { result ≡ chain_length u rest }
{
    (rest + (u - 5)) / (u - 4)
}

// A cell that is refused.
fn refused(rule: Rule) -> Cell
    ensures { result ≡ refused_cell (number_of rule) }
{
    Cell {
        fault: rule.number(),
        child: 0,
        payload: 0,
        row: 0,
        start: 0,
        local: 0,
        first: 0,
        end: 0,
        long: 0,
    }
}

// How many bytes of a cell its child takes.
pub fn child_width(kind: u8) -> usize
    ensures { result ≡ child_width kind }
{
    if kind == INDEX_INTERIOR || kind == TABLE_INTERIOR {
        4
    } else {
        0
    }
}

fn child_of(p: &[u8], kind: u8, at: usize) -> u32
    requires { at + child_width kind ≤ length p.now }
    ensures { result ≡ child_at p.now kind at }
{
    if child_width(kind) == 0 {
        0
    } else {
        be32(p, at)
    }
}

fn first_of(p: &[u8], start: usize, local: usize, payload: usize) -> u32
    requires { local_end start local payload ≤ length p.now }
    ensures { result ≡ first_at p.now start local payload }
{
    if local == payload {
        0
    } else {
        be32(p, start + local)
    }
}

fn local_end(start: usize, local: usize, payload: usize) -> usize
    requires { (start ≤ 65536) × (local ≤ 65536) }
    ensures { result ≡ local_end start local payload }
{
    if local == payload {
        start + local
    } else {
        start + local + 4
    }
}

// A cell takes at least 4 bytes.
fn at_least_4(at: usize, end: usize) -> usize
    requires { at ≤ 65536 }
    ensures { result ≡ at_least4 at end }
{
    if end < at + 4 { at + 4 } else { end }
}

// The cell at `at` whose local bytes begin at `start`.
fn body_cell(
    p: &[u8],
    u: usize,
    kind: u8,
    at: usize,
    payload: usize,
    row: u64,
    start: usize,
    long: u32,
) -> Cell
    requires { (480 ≤ u) × (u ≤ 65536) × (u ≤ length p.now) × (at + child_width kind ≤ u) × (payload ≤ 65536) × (start ≤ u) }
    ensures { result ≡ body_cell p.now u kind at payload row start long }
{
    let local = local_size(u, kind, payload);
    let end = at_least_4(at, local_end(start, local, payload));
    if u < end {
        return refused(Rule::NotSound);
    }
    let child = child_of(p, kind, at);
    let first = first_of(p, start, local, payload);
    Cell {
        fault: 0,
        child,
        payload,
        row,
        start,
        local,
        first,
        end,
        long,
    }
}

// A cell of a table interior page.
fn key_cell(p: &[u8], u: usize, at: usize) -> Cell
    requires { (u ≤ 65536) × (u ≤ length p.now) × (at + 4 ≤ u) }
    ensures { result ≡ key_cell p.now u at }
{
    let w = varint_word(p, at + 4, u);
    if w.length == 0 {
        return refused(Rule::NotSound);
    }
    let child = be32(p, at);
    let row = bias(w.bits);
    let long = long_of(w);
    Cell {
        fault: 0,
        child,
        payload: 0,
        row,
        start: 0,
        local: 0,
        first: 0,
        end: at + 4 + w.length,
        long,
    }
}

// The cell at `at` whose payload's length ends at `next`; `long` is 1 where that is spelled long.
fn payload_cell(
    p: &[u8],
    u: usize,
    kind: u8,
    at: usize,
    payload: u64,
    next: usize,
    long: u32,
) -> Cell
    requires { (480 ≤ u) × (u ≤ 65536) × (u ≤ length p.now) × (at + child_width kind ≤ u) × (next ≤ u) × (long ≤ 1) }
    ensures { result ≡ payload_cell p.now u kind at payload next long }
{
    if PAYLOAD_LIMIT < payload {
        return refused(Rule::LongPayload);
    }
    let size = payload as usize;
    if kind != TABLE_LEAF {
        return body_cell(p, u, kind, at, size, 0, next, long);
    }
    let w = varint_word(p, next, u);
    if w.length == 0 {
        return refused(Rule::NotSound);
    }
    let row = bias(w.bits);
    let both = long + long_of(w);
    body_cell(p, u, kind, at, size, row, next + w.length, both)
}

// The cell at `at` of a page of that type with u usable bytes.
pub fn read_cell(p: &[u8], u: usize, kind: u8, at: usize) -> Cell
    requires { (480 ≤ u) × (u ≤ 65536) × (u ≤ length p.now) × (at ≤ 65536) }
    ensures { result ≡ cell_at p.now u kind at }
{
    let from = at + child_width(kind);
    if u < from {
        return refused(Rule::NotSound);
    }
    if kind == TABLE_INTERIOR {
        return key_cell(p, u, at);
    }
    let w = varint_word(p, from, u);
    if w.length == 0 {
        return refused(Rule::NotSound);
    }
    payload_cell(p, u, kind, at, w.bits, from + w.length, long_of(w))
}

// How many overflow pages hold the rest of a cell's payload.
pub fn cell_links(u: usize, c: Cell) -> usize
    requires { (480 ≤ u) × (u ≤ 65536) × (c.payload ≤ 65536) }
    ensures { result ≡ cell_links u c }
{
    chain_length(u, c.payload.saturating_sub(c.local))
}
