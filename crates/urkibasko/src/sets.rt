ghost use Rattle.std.specs.Prelude.{◌≡◌};
ghost use Rattle.dealing.specs.Good.{Dealing};
ghost use Rattle.image.specs.Good.{GoodDealing};
ghost use Rattle.setting.specs.Answers.{set_of, image_after, Own, Means};
ghost use Rattle.urkibasko.specs.Set.{set_c};

use crate::answers::UrkFound;
use crate::logs::flag;

// Sets a row of a table to a record: its leaf is laid anew in the image. `kinds` is the ledger of kinds that the verdict gave for the image.
#[unsafe(no_mangle)]
pub extern "C" fn urk_row_set(
    image: &mut [u8],
    kinds: &[u8],
    root: u32,
    row: i64,
    record: &[u8],
) -> UrkFound
    ensures answer { result ≡ set_c (set_of image.old kinds.now root row «record».now) }
    ensures image { image.new ≡ image_after image.old kinds.now root row «record».now }
    ensures untouched { result.found ≡ 0 → image.new ≡ image.old }
    ensures good { (d : Dealing) → GoodDealing image.old d → Own image.old d kinds.now root
        → Means image.old image.new d root row «record».now (set_of image.old kinds.now root row «record».now) }
{
    let done = setting::set(image, kinds, root, row, record);
    UrkFound {
        refusal: done.refusal,
        page: done.page,
        found: flag(done.found),
        cell: done.cell,
        length: done.length,
    }
}
