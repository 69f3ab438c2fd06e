ghost use Rattle.std.specs.Prelude.{◌≡◌};
ghost use Rattle.super_journal.specs.Name.{name_of};
ghost use Rattle.urkibasko.specs.Super.{name_c};

use crate::answers::UrkName;

// The name of the super-journal that a journal ends with, where its transaction was over several files.
#[unsafe(no_mangle)]
pub extern "C" fn urk_journal_super(journal: &[u8]) -> UrkName
    ensures { result ≡ name_c (name_of journal.now) }
{
    match super_journal::name_of(journal) {
        Some(name) => UrkName {
            found: 1,
            start: name.start as u64,
            length: name.length as u64,
        },
        None => UrkName {
            found: 0,
            start: 0,
            length: 0,
        },
    }
}
