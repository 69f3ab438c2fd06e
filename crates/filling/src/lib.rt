// How rows and children are put on pages, and the pages written side by side.
#![tactic(auto)]

ghost use Rattle.std.specs.Prelude.{◌≡◌, [], map, ◌+◌, ◌-◌, ◌*◌, ◌^◌, ◌≤◌, ◌<◌, length};
ghost use Rattle.paging.specs.Pages.{over};
ghost use Rattle.writing.specs.Pages.{joined, tree_page};
ghost use Rattle.cell.specs.Split.{table_interior};
ghost use Rattle.writing.specs.Rows.{leaf_page, chain_of};
ghost use Rattle.number.specs.Bytes.{part};
ghost use Rattle.writing.specs.Given.{links_for, keys_from, KeysRoom, ChainRoom};
ghost use Rattle.filling.specs.Fill.{sum_from, links_from, Limits, rows_grouped, rows_weight, keys_taken, keys_grouped, keys_size};
ghost use Rattle.filling.specs.Fill.{row_counts, key_counts, last_rows, last_keys, inners_from, leaves_from, chains_from, local_at};
ghost use Rattle.filling.specs.Fill.{InnersRoom, LeavesRoom, ChainsRoom};

// The rows of a leaf: how many, and how many bytes they take, pointers included.
#[derive(Clone, Copy)]
pub struct Group {
    pub count: usize,
    pub used: usize,
}

// The lengths of k payloads from the i-th on, added up.
pub fn sum_of(lengths: &[u32], i: usize, k: usize) -> usize
    requires { (i + k ≤ length lengths.now) × (k ≤ 4096) }
    ensures { result ≡ sum_from lengths.now k i }
{
    let mut sum = 0;
    for m in 0..k {
        sum += lengths[i + m] as usize;
    }
    sum
}

// Their overflow pages.
pub fn links_sum(lengths: &[u32], i: usize, k: usize) -> usize
    requires { (i + k ≤ length lengths.now) × (k ≤ 4096) × Limits lengths.now }
    ensures { result ≡ links_from lengths.now k i }
{
    let mut sum = 0;
    for m in 0..k {
        sum += writing::links_of(lengths[i + m] as usize);
    }
    sum
}

// The bytes of k interior cells, whose keys are those from the i-th on.
fn keys_size(keys: &[u64], i: usize, k: usize) -> usize
    requires { (i + k ≤ length keys.now) × (k ≤ 4096) }
    ensures { result ≡ keys_size keys.now k i }
{
    let mut sum = 0;
    for m in 0..k {
        sum += 4 + number::varint_size(keys[i + m]);
    }
    sum
}

// The leaf that begins with the i-th row takes as many as fit.
fn leaf_group(rows: &[i64], lengths: &[u32], i: usize) -> Group
    requires { (length lengths.now ≡ length rows.now) × Limits lengths.now × (i ≤ length rows.now) }
    ensures { (result.count ≡ rows_grouped rows.now lengths.now (length rows.now - i) i)
        × (result.used ≡ rows_weight rows.now lengths.now result.count i) × (result.used ≤ 1016) }
{
    let mut used = 0;
    for j in i..rows.len() {
        let weight = 2 + writing::cell_size(rows[j], lengths[j] as usize);
        if 1016 < used + weight {
            return Group { count: j - i, used };
        }
        used += weight;
    }
    Group {
        count: rows.len() - i,
        used,
    }
}

// The largest number on each leaf, by its bits; how many leaves there are, none where there are no rows.
pub fn leaf_keys(rows: &[i64], lengths: &[u32], keys: &mut [u64]) -> usize
    requires { (length lengths.now ≡ length rows.now) × Limits lengths.now × (length rows.now ≤ length keys.old) }
    ensures { (result ≡ length (row_counts rows.now lengths.now))
        × (keys.new ≡ over keys.old 0 (last_rows rows.now (row_counts rows.now lengths.now))) }
{
    let n = rows.len();
    let mut leaves = 0;
    let mut i = 0;
    while i < n {
        let group = leaf_group(rows, lengths, i);
        let count = group.count;
        keys[leaves] = number::word_of(rows[i + count - 1]);
        i += count;
        leaves += 1;
    }
    leaves
}

// Of k children from the i-th on, so many fit an interior page.
fn inner_taken(keys: &[u64], i: usize, k: usize) -> usize
    requires { i + k ≤ length keys.now }
    ensures { result ≡ keys_taken keys.now k i 0 }
{
    let mut used = 0;
    for m in 0..k {
        if 1012 < used {
            return m;
        }
        used += 6 + number::varint_size(keys[i + m]);
    }
    k
}

// It takes as many, but one less where one alone would be left.
fn inner_group(keys: &[u64], i: usize, k: usize) -> usize
    requires { i + k ≤ length keys.now }
    ensures { result ≡ keys_grouped keys.now k i }
{
    let taken = inner_taken(keys, i, k);
    if k - taken == 1 { taken - 1 } else { taken }
}

// The largest number under each interior page above k children; how many pages there are.
pub fn top_keys(keys: &[u64], k: usize, tops: &mut [u64]) -> usize
    requires { (k ≤ length keys.now) × (k ≤ length tops.old) }
    ensures { (result ≡ length (key_counts keys.now k)) × (tops.new ≡ over tops.old 0 (last_keys keys.now (key_counts keys.now k))) }
{
    let mut inners = 0;
    let mut i = 0;
    while i < k {
        let count = inner_group(keys, i, k - i);
        tops[inners] = keys[i + count - 1];
        i += count;
        inners += 1;
    }
    inners
}

// An interior page for `count` children from the i-th on.
fn put_group(out: &mut [u8], page: usize, keys: &[u64], i: usize, cells: usize, child: u32)
    requires { KeysRoom keys.now (length out.old) page (1024 - keys_size keys.now cells i) i cells child }
    ensures { out.new ≡ over out.old page (tree_page 1024 [] table_interior (child + cells) (keys_from keys.now cells i child)) }
{
    let start = 1024 - keys_size(keys, i, cells);
    writing::put_inner(out, page, start, keys, i, cells, child);
}

// Interior pages side by side from `at` on, for k children from page `child` on.
pub fn put_inners(out: &mut [u8], at: usize, keys: &[u64], k: usize, child: u32)
    requires { InnersRoom keys.now (length out.old) at k child }
    ensures { out.new ≡ over out.old at (joined (inners_from keys.now (key_counts keys.now k) 0 child)) }
{
    let mut place = at;
    let mut i = 0;
    let mut next = child;
    while i < k {
        let count = inner_group(keys, i, k - i);
        put_group(out, place, keys, i, count - 1, next);
        i += count;
        next += count as u32;
        place += 1024;
    }
}

// The leaves side by side from `at` on; the first chain begins on page t.
pub fn put_leaves(out: &mut [u8], at: usize, rows: &[i64], lengths: &[u32], payloads: &[u8], t: u32)
    requires { LeavesRoom rows.now lengths.now payloads.now (length out.old) at t }
    ensures { out.new ≡ over out.old at (joined (map (leaf_page 1024 [])
        (leaves_from rows.now lengths.now payloads.now (row_counts rows.now lengths.now) 0 0 t))) }
{
    let n = rows.len();
    let mut place = at;
    let mut i = 0;
    let mut off = 0;
    let mut next = t;
    while i < n {
        let group = leaf_group(rows, lengths, i);
        let count = group.count;
        let start = 1024 - (group.used - 2 * count);
        writing::put_leaf(
            out, place, start, rows, lengths, payloads, i, count, off, next,
        );
        off += sum_of(lengths, i, count);
        next += links_sum(lengths, i, count) as u32;
        i += count;
        place += 1024;
    }
}

// What is not local of a payload that begins at `off`, from page `first` on, which begins at `at`; how many pages it takes.
fn put_rest(
    out: &mut [u8],
    at: usize,
    first: u32,
    payloads: &[u8],
    off: usize,
    size: usize,
) -> usize
    requires { (size ≤ 65536) × (off + size ≤ length payloads.now) × (at + 1024 * links_for size ≤ length out.old) × (first + links_for size < 2 ^ 32) }
    ensures { (result ≡ links_for size)
        × (out.new ≡ over out.old at (joined (chain_of 1024 (links_for size) first (part payloads.now (off + local_at size) (off + size - (off + local_at size)))))) }
{
    let local = cell::local_size(1024, 13, size);
    let links = writing::links_of(size);
    writing::put_chain(out, at, first, links, payloads, off + local, off + size);
    links
}

// The chains from `at` on, which is page t.
pub fn put_chains(out: &mut [u8], at: usize, lengths: &[u32], payloads: &[u8], t: u32)
    requires { ChainsRoom lengths.now payloads.now (length out.old) at t }
    ensures { out.new ≡ over out.old at (joined (chains_from lengths.now payloads.now (length lengths.now) 0 0 t)) }
{
    let mut place = at;
    let mut off = 0;
    let mut next = t;
    for length in lengths {
        let size = *length as usize;
        let links = put_rest(out, place, next, payloads, off, size);
        off += size;
        next += links as u32;
        place += 1024 * links;
    }
}
