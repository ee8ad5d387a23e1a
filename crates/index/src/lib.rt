// The index of a terrain file: which record holds each rectangle, and the rules that it keeps.
#![tactic(auto)]

ghost use Rattle.std.specs.Prelude.{◌≡◌, ◌≤◌, true};
ghost use Rattle.index.specs.Bytes.{nth, whole_records};
ghost use Rattle.index.specs.Index.{highest_passes, index_passes};

use bytes::{INDEX, RECORD};
use ground::rectangle::Rectangle;

pub mod bytes;
mod entries;
mod marks;

// Whether M is from 6 to the record count. One comparison tells: below 6 the difference wraps to a number
// above every count of records.
pub fn highest_passes(file: &[u8], highest: u32) -> bool
    requires { (whole_records file.now ≡ true) × (highest ≡ nth file.now 3072) }
    ensures { result ≡ highest_passes file.now }
{
    let most = file.len() / RECORD - INDEX;
    std::num::wrapping_sub_u32(highest, INDEX as u32) <= most as u32
}

// Whether the index of a file of whole records, with this many rows of rectangles, keeps the rules. M
// has passed its own test.
pub fn passes(file: &[u8], highest: usize, rows: u32) -> bool
    requires { (whole_records file.now ≡ true) × ((highest_passes file.now ≡ true) × ((highest ≡ nth file.now 3072) × ((1 ≤ rows) × (rows ≤ 30)))) }
    ensures { result ≡ index_passes file.now rows }
{
    let end = Rectangle::IN_A_ROW * rows as usize;
    if !entries::all_pass(file, highest, end) {
        return false;
    }
    entries::rest_is_empty(file, end)
}
