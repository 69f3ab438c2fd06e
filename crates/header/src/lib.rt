// The header of an image: refusals 1 to 11, page size, usable size and number of pages.
#![tactic(auto)]

ghost use Rattle.std.specs.Prelude.{◌≡◌, ℕ, ◌≤◌, length};
ghost use Rattle.header.specs.Header.{bad_version, bad_vacuum, size_for, size_of, present_of, counted, pages_of, usable_of, late_refusal};
ghost use Rattle.header.specs.Header.{count_refusal, field_refusal, form_in, pages_in, header_in, page_of, Within};
ghost use Rattle.header.specs.Told.{told_number, told_pages, told};

use refusal::Rule;

// What tests of an image's length answer: page size and pages present.
#[derive(Clone, Copy)]
pub struct Pages {
    pub size: usize,
    pub pages: usize,
}

// What a header says that passes refusals 1 to 11; `pages` is N.
#[derive(Clone, Copy)]
pub struct Header {
    pub size: usize,
    pub usable: usize,
    pub pages: usize,
}

const PAGE_LIMIT: usize = paging::PAGE_LIMIT;

// The page size that the number at 16 stands for, or 0.
fn size_for(field: usize) -> usize
    ensures { result ≡ size_for field }
{
    match field {
        1 => 65536,
        512 | 1024 | 2048 | 4096 | 8192 | 16384 | 32768 => field,
        _ => 0,
    }
}

fn size_of(image: &[u8]) -> usize
    requires { 512 ≤ length image.now }
    ensures { result ≡ size_of image.now }
{
    size_for(number::be16(image, 16))
}

// Refusals 1 to 4, page size and pages present.
fn check_form(image: &[u8]) -> Result<Pages, Rule>
    ensures { told_pages result ≡ form_in image.now }
{
    if image.len() < 512 {
        return Err(Rule::ShortImage);
    }
    if !image.starts_with(b"SQLite format 3\0") {
        return Err(Rule::BadMagic);
    }
    let size = size_of(image);
    if size == 0 {
        return Err(Rule::BadPageSize);
    }
    if image.len() % size != 0 {
        return Err(Rule::PartialPage);
    }
    let pages = image.len() / size;
    Ok(Pages { size, pages })
}

// An image that recovery shows alone: refusals 1 to 4, then 5 over the pages present.
pub fn check_size(image: &[u8]) -> Result<Pages, Rule>
    ensures { told_pages result ≡ pages_in image.now }
{
    let form = check_form(image)?;
    if PAGE_LIMIT < form.pages {
        return Err(Rule::TooManyPages);
    }
    Ok(form)
}

fn usable_of(image: &[u8], size: usize) -> usize
    requires { (512 ≤ length image.now) × (512 ≤ size) × (size ≡ size_of image.now) }
    ensures { result ≡ usable_of image.now }
{
    size - usize::from(image[20])
}

fn bad_version(version: u8) -> bool
    ensures { result ≡ bad_version version }
{
    !matches!(version, 1 | 2)
}

// Whether the count at 28 holds.
fn count_holds(image: &[u8]) -> bool
    requires { 512 ≤ length image.now }
    ensures { result ≡ counted image.now }
{
    number::be32(image, 28) != 0 && number::be32(image, 24) == number::be32(image, 92)
}

// N, of an image with so many pages present.
fn pages_of(image: &[u8], present: usize) -> usize
    requires { (512 ≤ length image.now) × (present ≡ present_of image.now) }
    ensures { result ≡ pages_of image.now }
{
    if count_holds(image) {
        number::be32(image, 28) as usize
    } else {
        present
    }
}

fn bad_vacuum(vacuum: u32, incremental: u32) -> bool
    ensures { result ≡ bad_vacuum vacuum incremental }
{
    vacuum == 0 && incremental != 0
}

// Refusals 10 and 11.
fn check_late(image: &[u8]) -> Result<(), Rule>
    requires { 512 ≤ length image.now }
    ensures { told_number result ≡ late_refusal image.now }
{
    if bad_vacuum(number::be32(image, 52), number::be32(image, 64)) {
        return Err(Rule::IncrementalVacuum);
    }
    if !image[72..].starts_with(&[0; 20]) {
        return Err(Rule::ReservedHeader);
    }
    Ok(())
}

// Refusals 9, 5, 10 and 11.
fn check_count(image: &[u8], present: usize, pages: usize) -> Result<(), Rule>
    requires { (512 ≤ length image.now) × (present ≡ present_of image.now) × (pages ≡ pages_of image.now) }
    ensures { told_number result ≡ count_refusal image.now }
{
    if present < pages {
        return Err(Rule::BadPageCount);
    }
    if PAGE_LIMIT < pages {
        return Err(Rule::TooManyPages);
    }
    check_late(image)
}

// Refusals 6, 7, 8, 9, 5, 10 and 11.
fn check_fields(image: &[u8], size: usize, present: usize, pages: usize) -> Result<(), Rule>
    requires { (512 ≤ length image.now) × (512 ≤ size) × (size ≡ size_of image.now) × (present ≡ present_of image.now) × (pages ≡ pages_of image.now) }
    ensures { told_number result ≡ field_refusal image.now }
{
    if usable_of(image, size) < 480 {
        return Err(Rule::SmallUsableSize);
    }
    if !image[21..].starts_with(&[64, 32, 32]) {
        return Err(Rule::BadFractions);
    }
    if bad_version(image[19]) {
        return Err(Rule::BadReadVersion);
    }
    check_count(image, present, pages)
}

// Refusals 1 to 11, page size, usable size and number of pages.
pub fn check_header(image: &[u8]) -> Result<Header, Rule>
    ensures { told result ≡ header_in image.now }
{
    let form = check_form(image)?;
    let pages = pages_of(image, form.pages);
    check_fields(image, form.size, form.pages, pages)?;
    let usable = usable_of(image, form.size);
    Ok(Header {
        size: form.size,
        usable,
        pages,
    })
}

// Page p of the image.
pub fn page_of(image: &[u8], size: usize, p: usize) -> &[u8]
    requires { Within image.now size p }
    ensures { (result.now ≡ page_of image.now size p) × (length result.now ≡ size) }
{
    let start = (p - 1) * size;
    &image[start..start + size]
}
