ghost use Rattle.std.specs.Prelude.{◌≡◌, length};
ghost use Rattle.number.specs.Varint.{varint_at, answer_of, written_of, laid_over};
ghost use Rattle.urkibasko.specs.Varint.{varint_c, written_c};

use crate::answers::UrkVarint;
use crate::logs::flag;

// The varint at the start of the bytes.
#[unsafe(no_mangle)]
pub extern "C" fn urk_varint_read(bytes: &[u8]) -> UrkVarint
    ensures { result ≡ varint_c (answer_of (varint_at bytes.now 0 (length bytes.now))) }
{
    match number::varint_read(bytes, 0, bytes.len()) {
        None => UrkVarint {
            length: 0,
            shortest: 0,
            value: 0,
        },
        Some(v) => UrkVarint {
            length: v.length as u32,
            shortest: flag(v.shortest),
            value: v.value,
        },
    }
}

// Writes the shortest spelling, and answers its length; 0 where there is no room, and nothing is written.
#[unsafe(no_mangle)]
pub extern "C" fn urk_varint_write(value: i64, out: &mut [u8]) -> u32
    ensures answer { result ≡ written_c (written_of value (length out.old)) }
    ensures bytes { out.new ≡ laid_over value out.old }
{
    match number::varint_write(value, out) {
        None => 0,
        Some(n) => n as u32,
    }
}
