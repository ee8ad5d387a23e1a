// The terrain files, by zone. Each begins with its index; all ground is bare and at 100 m, but in zone 18.
//     17   7 records; rectangle 50 is covered
//     18   the same, with a ridge of 130 m from south to north, and no height at the north-east corner
//     19   damaged: the record of rectangle 50 is also that of rectangle 51
//     20   60 records and a byte; rectangles 50 to 63 are covered
//     22   60 records, the most that are taken
//     23   61 records
// The file of any other zone cannot be read.
ghost use Rattle.std.specs.Prelude.{◌≤◌, IfSome};

// Bytes of the longest file, of 61 records.
pub(crate) const LONGEST: usize = 62464;

// The position that holds the highest record number, the last number of the index.
const LAST: u32 = 3072;

// Words of a record.
const WORDS: u32 = 512;

// The first rectangle that is covered, and the first record after the index.
const RECTANGLE: u32 = 50;

const RECORD: u32 = 7;

// Rectangles that the long files cover.
const MANY: u32 = 14;

// A word of bare ground at 0 m, and one without a height.
const BARE: u32 = 8192 * 2;

const NO_HEIGHT: u32 = BARE + 8191;

// What is found under the name of a file: how many bytes it has, and how many rectangles it covers.
#[derive(Clone, Copy)]
struct Found {
    length: usize,
    rectangles: u32,
}

// Writes the n-th 16-bit number of the file, counted from 1, high byte first, where it has one.
fn put(file: &mut [u8], n: u32, number: u32) {
    let end = 2 * n as usize;
    if 0 < n {
        if let Some(place) = file.get_mut(end - 2..end) {
            place.copy_from_slice(&((number % 65536) as u16).to_be_bytes());
        }
    }
}

// Writes the index of a file that covers so many rectangles.
fn index(file: &mut [u8], rectangles: u32)
    requires { rectangles ≤ 14 }
{
    for i in 0..MANY {
        let record = if i < rectangles { RECORD + i } else { 0 };
        put(file, RECTANGLE + i, record);
    }
    put(file, LAST, RECORD - 1 + rectangles);
}

// Writes bare ground at 100 m into every word of so many records after the index.
fn level(file: &mut [u8], records: u32)
    requires { records ≤ 14 }
{
    for i in 0..WORDS * records {
        put(file, LAST + 1 + i, BARE + 100);
    }
}

// Writes the ridge into column 7 of the first record, and the missing height into its last word.
fn hill(file: &mut [u8]) {
    for row in 0..32 {
        put(file, LAST + 16 * row + 8, BARE + 130);
    }
    put(file, LAST + WORDS, NO_HEIGHT);
}

// What is found under the name of a file of a zone, where it can be read.
fn look(zone: u32) -> Option<Found>
    ensures { IfSome result (λ found. (found.length ≤ 62464) × (found.rectangles ≤ 14)) }
{
    let (length, rectangles) = match zone {
        17 | 18 | 19 => (7168, 1),
        20 => (61441, MANY),
        22 => (61440, MANY),
        23 => (LONGEST, MANY),
        _ => return None,
    };
    Some(Found { length, rectangles })
}

// Builds the file of a zone, over another or over zeros, and gives its length, where it can be read.
pub(crate) fn build(file: &mut [u8], zone: u32) -> Option<usize>
    ensures { IfSome result (λ length. length ≤ 62464) }
{
    let found = look(zone)?;
    index(file, found.rectangles);
    level(file, found.rectangles);
    if zone == 18 {
        hill(file);
    } else if zone == 19 {
        put(file, RECTANGLE + 1, RECORD);
    }
    Some(found.length)
}
