ghost use Rattle.std.specs.Prelude.{◌≡◌, length};
ghost use Rattle.dealing.specs.Good.{Dealing};
ghost use Rattle.image.specs.Payload.{payload_of};
ghost use Rattle.image.specs.Good.{GoodDealing, TableRoot, PayloadCell};
ghost use Rattle.lookup.specs.Answers.{out_of};
ghost use Rattle.lookup.specs.Means.{Finds, Fetches};
ghost use Rattle.quick.specs.Answers.{find_of, quick_of};
ghost use Rattle.urkibasko.specs.Image.{found_c, ShowsC, NothingC, RefusesC, payload_c, CopiedC, NoRoomC};

use crate::answers::{UrkFound, UrkPayload};

// Where the row with that number is, in an image that was accepted: pages are not tested for soundness.
#[unsafe(no_mangle)]
pub extern "C" fn urk_find(image: &[u8], root: u32, row: i64) -> UrkFound
    ensures answer { result ≡ found_c (find_of image.now root row) }
    ensures good { (d : Dealing) → GoodDealing image.now d → TableRoot image.now d root
        → Finds image.now d root row (ShowsC result) (NothingC result) (RefusesC result) }
{
    quick::find(image, root, row).into()
}

// Copies the payload of a cell, counted from 0, of an image that was accepted to the start of the output.
#[unsafe(no_mangle)]
pub extern "C" fn urk_payload_quick(
    image: &[u8],
    page: u32,
    cell: u32,
    out: &mut [u8],
) -> UrkPayload
    ensures answer { result ≡ payload_c (quick_of image.now page cell (length out.old)) }
    ensures bytes { out.new ≡ out_of (quick_of image.now page cell (length out.old)) (payload_of image.now page cell) out.old }
    ensures good { (d : Dealing) → GoodDealing image.now d → PayloadCell image.now d page cell
        → Fetches image.now d page cell out.old out.new (CopiedC result) (NoRoomC result) }
{
    quick::payload_quick(image, page, cell, out).into()
}
