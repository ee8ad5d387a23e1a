// The bytes of a terrain file: its index, and a record for each of two rectangles. They are a row of
// 16-bit numbers, counted from 1, of which number n is position n of the index.
ghost use Rattle.std.specs.Prelude.{◌≡◌, ◌-◌, ◌*◌, ◌≤◌};

// The base of the files.
pub(crate) const BASE: u32 = 40;

// The zone of the files.
pub(crate) const ZONE: u32 = 17;

// Bytes of a file of eight records.
const LENGTH: usize = 8192;

// The position that holds the highest record number; no rectangle has it.
pub(crate) const LAST: u32 = 3072;

// Words of a record.
pub(crate) const WORDS: u32 = 512;

// A record after the index, by its number.
#[derive(Clone, Copy)]
pub(crate) enum Record {
    First = 7,
    Second = 8,
}

// A rectangle, by its position in the index.
#[derive(Clone, Copy)]
pub(crate) struct Rectangle {
    number: u32,
    ghost in_index: { (1 ≤ number) × (number ≤ 3072) },
}

impl Rectangle {
    // The rectangle at this position.
    pub(crate) fn new(number: u32) -> Self
        requires { (1 ≤ number) × (number ≤ 3072) }
    {
        Rectangle { number }
    }

    // The rectangle's position.
    pub(crate) fn number(self) -> u32 {
        self.number
    }

    // The byte at which the rectangle's entry starts.
    pub(crate) fn byte(self) -> u32
        ensures { result ≤ 6142 }
    {
        byte_of(self.number)
    }
}

// The byte at which number n of a file starts.
fn byte_of(n: u32) -> u32
    requires { (1 ≤ n) × (n ≤ 4096) }
    ensures { result ≡ 2 * (n - 1) }
{
    2 * (n - 1)
}

// A file of eight records, at 0 m but for the words that are set.
#[derive(Drop)]
pub(crate) struct File([u8; LENGTH]);

impl File {
    // A file that covers nothing.
    pub(crate) fn empty() -> Self {
        let mut file = File([0; LENGTH]);
        file.put(LAST, Record::Second as u16);
        file
    }

    // A file that covers the rectangle alone, by the first record.
    pub(crate) fn covering(rectangle: Rectangle) -> Self {
        let mut file = File::empty();
        file.put(rectangle.number, Record::First as u16);
        file
    }

    // A file that covers rectangles 50 and 51, by the first record and the second.
    pub(crate) fn level() -> Self {
        let mut file = File::covering(Rectangle::new(50));
        file.put(51, Record::Second as u16);
        file
    }

    // The bytes of the file.
    pub(crate) fn bytes(&self) -> &[u8] {
        &self.0
    }

    // Writes number n of the file, high byte first.
    fn put(&mut self, n: u32, number: u16)
        requires { (1 ≤ n) × (n ≤ 4096) }
    {
        let at = byte_of(n) as usize;
        [self.0[at], self.0[at + 1]] = number.to_be_bytes();
    }

    // Writes word w of a record.
    pub(crate) fn set(&mut self, record: Record, w: u32, word: u16)
        requires { (1 ≤ w) × (w ≤ 512) }
    {
        self.put(WORDS * (record as u32 - 1) + w, word);
    }

    // Writes the elevation, in metres, into every word of a record.
    pub(crate) fn flatten(&mut self, record: Record, metres: u16) {
        for w in 1..=WORDS {
            self.set(record, w, metres);
        }
    }
}
