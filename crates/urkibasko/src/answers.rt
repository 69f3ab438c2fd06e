// What the functions answer, by value, laid out as C does. A field that does not apply is 0.

// Length 0: short. `shortest` is 1 where the spelling is the shortest.
#[repr(C)]
#[derive(Clone, Copy)]
pub struct UrkVarint {
    pub length: u32,
    pub shortest: u32,
    pub value: i64,
}

// Status 0 reads, 1 does not read.
#[repr(C)]
#[derive(Clone, Copy)]
pub struct UrkColumns {
    pub status: u32,
    pub count: u64,
}

// Status 0 value, 1 does not read, 2 missing; kind 0 null, 1 integer, 2 real, 3 text, 4 blob.
#[repr(C)]
#[derive(Clone, Copy)]
pub struct UrkColumn {
    pub status: u32,
    pub kind: u32,
    pub integer: i64,
    pub real: f64,
    pub place: u64,
    pub length: u64,
}

// Status 0 both read, 1 the first does not, 2 the second does not; order -1 the first is less, 0 they are the same, 1 it is more.
#[repr(C)]
#[derive(Clone, Copy)]
pub struct UrkOrder {
    pub status: u32,
    pub order: i32,
}

// Refusal 0: accepted, with the number of pages and of numbers spelled long; else the page reported.
#[repr(C)]
#[derive(Clone, Copy)]
pub struct UrkVerdict {
    pub refusal: u32,
    pub page: u32,
    pub pages: u32,
    pub long_spellings: u64,
}

// Yes 1: the verdict accepts, and the proposal is its ledger. Yes 0: the verdict's refusal with its page, or refusal 0 and the first page that differs (0: length or version).
#[repr(C)]
#[derive(Clone, Copy)]
pub struct UrkLedgerAnswer {
    pub yes: u32,
    pub refusal: u32,
    pub page: u32,
}

// The bytes written; none on a refusal.
#[repr(C)]
#[derive(Clone, Copy)]
pub struct UrkLedgerWritten {
    pub refusal: u32,
    pub length: u64,
}

// Refusal 0: found 1 with the page, cell and length of the payload, or found 0 and the rest 0.
#[repr(C)]
#[derive(Clone, Copy)]
pub struct UrkFound {
    pub refusal: u32,
    pub page: u32,
    pub found: u32,
    pub cell: u32,
    pub length: u32,
}

// Refusal 0: found 1 with a row's page, cell, length of the payload and number, or found 0 at the end, and the rest 0.
#[repr(C)]
#[derive(Clone, Copy)]
pub struct UrkRow {
    pub refusal: u32,
    pub page: u32,
    pub found: u32,
    pub cell: u32,
    pub length: u32,
    pub row: i64,
}

// The length of the payload; 0 on a refusal, which has its page.
#[repr(C)]
#[derive(Clone, Copy)]
pub struct UrkPayload {
    pub refusal: u32,
    pub page: u32,
    pub length: u32,
}

// A part of the log (from_log 1) or of the image (0); empty on a refusal.
#[repr(C)]
#[derive(Clone, Copy)]
pub struct UrkPart {
    pub refusal: u32,
    pub from_log: u32,
    pub start: u64,
    pub length: u64,
}

// The pages and the page size in force; both 0 on a refusal.
#[repr(C)]
#[derive(Clone, Copy)]
pub struct UrkFilled {
    pub refusal: u32,
    pub pages: u32,
    pub page_size: u32,
}

// Pages and bytes recovered; none on a refusal.
#[repr(C)]
#[derive(Clone, Copy)]
pub struct UrkRecovered {
    pub refusal: u32,
    pub pages: u32,
    pub length: u64,
}

// The reals met, their least, greatest and sum; sum_is_nan 1: the sum turned to NaN, and is 0. All 0 on a refusal, which has its page.
#[repr(C)]
#[derive(Clone, Copy)]
pub struct UrkSummary {
    pub refusal: u32,
    pub page: u32,
    pub count: u64,
    pub least: f64,
    pub greatest: f64,
    pub sum: f64,
    pub sum_is_nan: u32,
}

// Pages and bytes of a file built; none on a refusal.
#[repr(C)]
#[derive(Clone, Copy)]
pub struct UrkBuilt {
    pub refusal: u32,
    pub pages: u32,
    pub length: u64,
}

// Found 1: the place of a super-journal's name in a journal; else all is 0.
#[repr(C)]
#[derive(Clone, Copy)]
pub struct UrkName {
    pub found: u32,
    pub start: u64,
    pub length: u64,
}

// What a log's tail tells: its page size, the frames in force and the pages of the last commit in force; all 0 on a refusal.
#[repr(C)]
#[derive(Clone, Copy)]
pub struct UrkTail {
    pub refusal: u32,
    pub page_size: u32,
    pub frames: u32,
    pub pages: u32,
}

// What is to be written to a log: `length` bytes at `at`; nothing on a refusal.
#[repr(C)]
#[derive(Clone, Copy)]
pub struct UrkAppended {
    pub refusal: u32,
    pub at: u64,
    pub length: u64,
}
