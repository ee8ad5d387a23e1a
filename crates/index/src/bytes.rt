// The bytes of a file: its 16-bit numbers, how many records they make, and a record as a part of them.
ghost use Rattle.std.specs.Prelude.{◌≡◌, ◌+◌, ◌*◌, ◌≤◌, length};
ghost use Rattle.index.specs.Bytes.{nth, most_records, whole_records, record_start, record_bytes, Part};
ghost use Rattle.index.specs.Index.{is_record};

use ground::rectangle::Rectangle;

// Bytes of a record: two for each word of a rectangle.
pub const RECORD: usize = 2 * Rectangle::WIDE * Rectangle::HIGH;

// Records that the index takes.
pub const INDEX: usize = 6;

// The most records that a file may have.
pub const MOST_RECORDS: usize = 4096;

// What a byte past the last whole record counts for, 2^54: with it a length is turned by 10 of its 64
// bits, which is one instruction.
const PER_BYTE_PAST: usize = 18014398509481984;

// The position that holds the highest record number.
pub const LAST: usize = 3072;

// The n-th number of the bytes, counted from 1, high byte first: position n of a file's index, or
// word n of a record.
#[tactic(auto, unfolding(crate::specs::Bytes::nth))]
pub fn nth(bytes: &[u8], n: usize) -> u16
    requires { (1 ≤ n) × (2 * n ≤ length bytes.now) }
    ensures { result ≡ nth bytes.now n }
{
    let at = 2 * (n - 1);
    u16::from_be_bytes([bytes[at], bytes[at + 1]])
}

// Whether the file's length is that of 6 to 4096 whole records. One comparison tells: each byte past the
// last whole record counts for more records than a file can have, and below 6 the difference wraps.
pub fn is_whole(file: &[u8]) -> bool
    ensures { result ≡ whole_records file.now }
{
    let records = file.len() / RECORD + PER_BYTE_PAST * (file.len() % RECORD);
    std::num::wrapping_sub_usize(records, INDEX) <= MOST_RECORDS - INDEX
}

// Whether the number is that of one of the first `past` records past the index, from 7 to 6 + past. One
// comparison tells: below 7 the difference wraps to a number above every count of records.
pub fn is_record(number: usize, past: usize) -> bool
    requires { past ≤ most_records }
    ensures { result ≡ is_record number (6 + past) }
{
    std::num::wrapping_sub_usize(number, INDEX + 1) < past
}

// Record r of the file, any one past the index, as a part of it.
pub fn cut(file: &[u8], r: usize) -> &[u8]
    requires { (7 ≤ r) × (1024 * r ≤ length file.now) }
    ensures { Part file.entry result (record_start r) (record_bytes file.now r) }
{
    let start = RECORD * (r - 1);
    let end = start + RECORD;
    &file[start..end]
}
