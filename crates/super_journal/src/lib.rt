// The name of the super-journal that a rollback journal ends with, where its transaction was over several files.
#![tactic(auto)]

ghost use Rattle.std.specs.Prelude.{◌≡◌};
ghost use Rattle.super_journal.specs.Name.{signed_byte, signed_sum, name_of};

// Where the name stands in the journal.
#[derive(Clone, Copy, Debug, PartialEq, Eq)]
pub struct Name {
    pub start: usize,
    pub length: usize,
}

// A byte taken as signed, modulo 2^32.
fn signed_byte(x: u8) -> u32
    ensures { result ≡ signed_byte x }
{
    i32::from(x.cast_signed()).cast_unsigned()
}

// The sum of a name's bytes taken as signed, modulo 2^32.
fn name_sum(name: &[u8]) -> u32
    ensures { result ≡ signed_sum name.now }
{
    let mut sum: u32 = 0;
    for byte in name {
        sum = sum.wrapping_add(signed_byte(*byte));
    }
    sum
}

// The name's place.
#[tactic(auto, unfolding(crate::specs::Name::is_named))]
pub fn name_of(journal: &[u8]) -> Option<Name>
    ensures { result ≡ name_of journal.now }
{
    if journal.len() < 16 {
        return None;
    }
    let end = journal.len() - 16;
    if !journal::is_magic(journal, end + 8) {
        return None;
    }
    let length = number::be32(journal, end) as usize;
    if length == 0 || 512 < length || end < length {
        return None;
    }
    let start = end - length;
    let name = &journal[start..end];
    if name[0] == 0 || name_sum(name) != number::be32(journal, end + 4) {
        return None;
    }
    Some(Name { start, length })
}
