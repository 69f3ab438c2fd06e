// A fresh file from rows and one schema record: what is refused, how the rows are put on pages, and the image written page by page.
#![tactic(auto)]

ghost use Rattle.std.specs.Prelude.{◌≡◌, true, false, ℕ, ◌+◌, ◌-◌, ◌*◌, ◌^◌, ◌<◌, ◌≤◌, pos, length, get_or, cond, ltb, OnOk};
ghost use Rattle.record.specs.Record.{reads_of};
ghost use Rattle.builder.specs.Build.{AllFit, rises_from, over_from, unread_from, bad_schema, bad_lists, given_refusal};
ghost use Rattle.filling.specs.Fill.{sum_from};
ghost use Rattle.paging.specs.Pages.{over};
ghost use Rattle.builder.specs.Plan.{several, at_least1, Sound, Planned, pages_of, table_bytes, laid_bytes, TableRoom, ImageRoom};
ghost use Rattle.header.specs.Told.{told_number};
ghost use Rattle.builder.specs.Built.{told};
ghost use Rattle.builder.specs.Build.{built_of, out_at};
ghost use Rattle.builder.specs.Fresh.{FreshFile};
ghost use Rattle.writing.specs.Given.{rows_given};

use refusal::Rule;

// Whether each number is above the one before it.
fn rises(rows: &[i64]) -> bool
    ensures { (result ≡ rises_from rows.now (length rows.now - 1) 0) × (result ≡ true → AllFit rows.now) }
{
    if rows.is_empty() {
        return true;
    }
    let most = rows.len() - 1;
    let mut last = number::bias_of(rows[0]);
    for i in 0..most {
        let next = number::bias_of(rows[i + 1]);
        if next <= last {
            return false;
        }
        last = next;
    }
    true
}

// Whether a payload is over the limit.
fn over_limit(lengths: &[u32]) -> bool
    ensures { result ≡ over_from lengths.now (length lengths.now) 0 }
{
    for length in lengths {
        if 65536 < *length {
            return true;
        }
    }
    false
}

// Whether a payload does not read as a record.
fn unread(lengths: &[u32], payloads: &[u8]) -> bool
    requires { sum_from lengths.now (length lengths.now) 0 ≡ length payloads.now }
    ensures { result ≡ unread_from lengths.now payloads.now (length lengths.now) 0 0 }
{
    let mut off = 0;
    for length in lengths {
        let end = off + *length as usize;
        if !record::reads(&payloads[off..end]) {
            return true;
        }
        off = end;
    }
    false
}

// Whether the schema record is refused.
fn bad_schema(schema: &[u8]) -> bool
    ensures { result ≡ bad_schema schema.now }
{
    911 < schema.len() || !matches!(schema::schema_row(schema, 2), Ok(Some(_)))
}

// 48: the lists differ in length, too many rows, the lengths do not add up to the payloads, or the numbers do not rise.
fn bad_lists(rows: &[i64], lengths: &[u32], payloads: &[u8]) -> bool
    ensures { (result ≡ bad_lists rows.now lengths.now payloads.now) × (result ≡ false → AllFit rows.now) }
{
    lengths.len() != rows.len()
        || 4096 < rows.len()
        || filling::sum_of(lengths, 0, rows.len()) != payloads.len()
        || !rises(rows)
}

// The refusals that the inputs alone give: 48, 26, 28.
fn check_given(schema: &[u8], rows: &[i64], lengths: &[u32], payloads: &[u8]) -> Result<(), Rule>
    ensures refusal { told_number result ≡ given_refusal schema.now rows.now lengths.now payloads.now }
    ensures fit { OnOk result (AllFit rows.now) }
{
    if bad_lists(rows, lengths, payloads) {
        return Err(Rule::BadRows);
    }
    if over_limit(lengths) {
        return Err(Rule::LongPayload);
    }
    if unread(lengths, payloads) {
        return Err(Rule::BadRecord);
    }
    if bad_schema(schema) {
        return Err(Rule::BadRecord);
    }
    Ok(())
}

// What is counted before anything is written: the leaves, the children of interior pages above them, those pages,
// the children of the root above these if there is one, the roots so counted (0 or 1), the overflow pages.
#[derive(Clone, Copy)]
struct Plan {
    leaves: usize,
    low: usize,
    inners: usize,
    high: usize,
    roots: usize,
    links: usize,
}

// One page alone has no level above it.
fn several(n: usize) -> usize
    ensures { result ≡ several n }
{
    if n < 2 { 0 } else { n }
}

fn at_least_1(n: usize) -> usize
    ensures { result ≡ at_least1 n }
{
    n.max(1)
}

// Interior pages above the leaves have one root above them where they are several.
fn roots_above(inners: usize) -> usize
    ensures { result ≡ cond (ltb inners 2) 0 1 }
{
    if inners < 2 { 0 } else { 1 }
}

fn counted(rows: &[i64], lengths: &[u32], keys: &mut [u64], tops: &mut [u64]) -> Plan
    requires { Sound rows.now lengths.now × (length rows.now ≤ length keys.old) × (length rows.now ≤ length tops.old) }
    ensures { Planned rows.now lengths.now keys.new tops.new result }
{
    let found = filling::leaf_keys(rows, lengths, keys);
    let low = several(found);
    let inners = filling::top_keys(keys, low, tops);
    let links = filling::links_sum(lengths, 0, rows.len());
    let leaves = at_least_1(found);
    let high = several(inners);
    let roots = roots_above(inners);
    Plan {
        leaves,
        low,
        inners,
        high,
        roots,
        links,
    }
}

// The leaves side by side from `at` on: an empty one where there are no rows.
fn put_table(out: &mut [u8], at: usize, rows: &[i64], lengths: &[u32], payloads: &[u8], t: u32)
    requires { TableRoom rows.now lengths.now payloads.now (length out.old) at t }
    ensures { out.new ≡ over out.old at (table_bytes rows.now lengths.now payloads.now t) }
{
    if rows.is_empty() {
        writing::put_leaf(out, at, 1024, rows, lengths, payloads, 0, 0, 0, t);
        return;
    }
    filling::put_leaves(out, at, rows, lengths, payloads, t);
}

// The whole image: page 1, the interior pages by levels, the leaves, the chains.
fn put_image(
    out: &mut [u8],
    schema: &[u8],
    rows: &[i64],
    lengths: &[u32],
    payloads: &[u8],
    keys: &[u64],
    tops: &[u64],
    p: Plan,
)
    requires { ImageRoom schema.now rows.now lengths.now payloads.now keys.now tops.now (length out.old) p }
    ensures { out.new ≡ over out.old 0
        (laid_bytes schema.now rows.now lengths.now payloads.now keys.now tops.now p) }
{
    let roots = p.roots;
    let inners = p.inners;
    let leaves = p.leaves;
    let tree = roots + inners + leaves;
    let n = 1 + tree + p.links;
    let t = (2 + tree) as u32;
    writing::put_first(out, n as u32, schema);
    filling::put_inners(out, 1024, tops, p.high, 3);
    filling::put_inners(
        out,
        1024 * (1 + roots),
        keys,
        p.low,
        (2 + roots + inners) as u32,
    );
    put_table(out, 1024 * (1 + roots + inners), rows, lengths, payloads, t);
    filling::put_chains(out, 1024 * (1 + tree), lengths, payloads, t);
}

// A fresh file from rows and one schema record: how many pages it has. A refusal leaves the output as it was.
pub fn build(
    schema: &[u8],
    rows: &[i64],
    lengths: &[u32],
    payloads: &[u8],
    out: &mut [u8],
) -> Result<usize, Rule>
    ensures answer { told result ≡ built_of schema.now rows.now lengths.now payloads.now (length out.old) }
    ensures output { out.new ≡ out_at schema.now rows.now lengths.now payloads.now out.old }
    ensures good { OnOk result (FreshFile schema.now (rows_given rows.now lengths.now payloads.now)) }
{
    check_given(schema, rows, lengths, payloads)?;
    let mut keys = [0; 4096];
    let mut tops = [0; 4096];
    let p = counted(rows, lengths, &mut keys, &mut tops);
    let n = 1 + (p.roots + p.inners + p.leaves) + p.links;
    if 4096 < n {
        return Err(Rule::TooManyPages);
    }
    if out.len() < n * 1024 {
        return Err(Rule::SmallOutput);
    }
    put_image(out, schema, rows, lengths, payloads, &keys, &tops, p);
    Ok(n)
}
