ghost use Rattle.std.specs.Prelude.{◌≡◌, length};
ghost use Rattle.journal.specs.Recovery.{recovery, output};
ghost use Rattle.urkibasko.specs.Recovery.{journal_c};

use crate::answers::UrkRecovered;

// The image rolled back by its journal, laid over the output.
#[unsafe(no_mangle)]
pub extern "C" fn urk_journal_recover(journal: &[u8], image: &[u8], out: &mut [u8]) -> UrkRecovered
    ensures answer { result ≡ journal_c (recovery journal.now image.now (length out.old)) }
    ensures bytes { out.new ≡ output journal.now image.now out.old }
{
    match journal::recover(journal, image, out) {
        Ok(done) => UrkRecovered {
            refusal: 0,
            pages: done.pages,
            length: done.length as u64,
        },
        Err(rule) => UrkRecovered {
            refusal: rule.number(),
            pages: 0,
            length: 0,
        },
    }
}
