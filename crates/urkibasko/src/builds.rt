ghost use Rattle.std.specs.Prelude.{◌≡◌, length};
ghost use Rattle.writing.specs.Given.{rows_given};
ghost use Rattle.builder.specs.Build.{built_of, out_at};
ghost use Rattle.builder.specs.Fresh.{FreshFile};
ghost use Rattle.urkibasko.specs.Built.{built_c};

use crate::answers::UrkBuilt;

// A fresh file from row numbers and payloads in rising order and one schema record, laid out as docs/LAYOUT.md says.
#[unsafe(no_mangle)]
pub extern "C" fn urk_build(
    schema: &[u8],
    rows: &[i64],
    lengths: &[u32],
    payloads: &[u8],
    out: &mut [u8],
) -> UrkBuilt
    ensures answer { result ≡ built_c (built_of schema.now rows.now lengths.now payloads.now (length out.old)) }
    ensures output { out.new ≡ out_at schema.now rows.now lengths.now payloads.now out.old }
    ensures good { result.refusal ≡ 0 → FreshFile schema.now (rows_given rows.now lengths.now payloads.now) }
{
    match builder::build(schema, rows, lengths, payloads, out) {
        Ok(pages) => UrkBuilt {
            refusal: 0,
            pages: pages as u32,
            length: pages as u64 * 1024,
        },
        Err(rule) => UrkBuilt {
            refusal: rule.number(),
            pages: 0,
            length: 0,
        },
    }
}
