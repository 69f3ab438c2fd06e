// The roots that the caller names as plain ascending: whether a root is one of them, the text encoding that
// they ask for (34), and whether each of them is an index root (35).
#![tactic(auto)]

ghost use Rattle.std.specs.Prelude.{◌≡◌, Bool, List, ℕ, ◌≤◌, length};
ghost use Rattle.dealing.specs.File.{File, index_type};
ghost use Rattle.dealing.specs.Walk.{is_named, is_index_root, name_checks, settle};
ghost use Rattle.image.specs.Image.{file_of};
ghost use Rattle.image.specs.Ready.{Opened, PageAt};
ghost use Rattle.maps.specs.Settled.{settled};
ghost use Rattle.names.specs.Names.{bad34};

use header::Header;
use refusal::{Refusal, Rule};

const ROOT: u8 = 1;

// Whether a root is named though the text encoding is not 1 (34).
pub fn wrong_encoding(image: &[u8], ordered: &[u32]) -> bool
    requires { 512 ≤ length image.now }
    ensures { result ≡ bad34 ordered.now image.now }
{
    !ordered.is_empty() && number::be32(image, 56) != 1
}

// Names are looked at one by one: they are few.
pub fn is_named(ordered: &[u32], root: u32) -> bool
    ensures { result ≡ is_named ordered.now root }
{
    ordered.contains(&root)
}

// Whether page r has the type of an index page.
fn is_index(image: &[u8], h: Header, r: u32) -> bool
    requires { PageAt image.now h r }
    ensures { result ≡ index_type ((file_of image.now).type r) }
{
    let page = header::page_of(image, h.size, r as usize);
    matches!(page[image::head_of(r)], 2 | 10)
}

// Whether page r is an index root, by the finished ledger of kinds.
fn is_index_root(image: &[u8], h: Header, kinds: &[u8], r: u32) -> bool
    requires { Opened image.now h × (length kinds.now ≡ h.pages) }
    ensures { result ≡ is_index_root (file_of image.now) kinds.now r }
{
    if r == 0 || h.pages < r as usize {
        return false;
    }
    kinds[r as usize - 1] == ROOT && is_index(image, h, r)
}

// The first name, in the caller's order, that is no index root (35).
pub fn check_names(image: &[u8], h: Header, kinds: &[u8], ordered: &[u32]) -> Result<(), Refusal>
    requires { Opened image.now h × (length kinds.now ≡ h.pages) }
    ensures { (ns : List ℕ) → settle (name_checks (file_of image.now) kinds.now ordered.now) kinds.now ns
        ≡ settled result kinds.now ns }
{
    for &name in ordered {
        if !is_index_root(image, h, kinds, name) {
            return Err(Refusal {
                rule: Rule::NoIndexRoot,
                page: name,
            });
        }
    }
    Ok(())
}
