// The bytes of a terrain file of nine records, for base 40 and zone 17.

// The base of the file.
pub(crate) const BASE: u32 = 40;

// The zone of the file.
pub(crate) const ZONE: u32 = 17;

// Bytes of a file of nine records.
pub(crate) const LENGTH: usize = 9216;

// The position that holds M, the highest record number.
pub(crate) const LAST: usize = 3072;

// The 16-bit numbers before record 7, that of rectangle 51, to the east.
pub(crate) const RECORD_7: usize = 512 * 6;

// The 16-bit numbers before record 8, that of rectangle 50.
pub(crate) const RECORD_8: usize = 512 * 7;

// The 16-bit numbers before record 9, that of rectangle 150, to the north.
pub(crate) const RECORD_9: usize = 512 * 8;

// What a surface code counts for in a word; the elevation in metres is added to it.
pub(crate) const CODE: u16 = 8192;

// The 16-bit numbers that are not 0: which one, counted from 1, and the number. First the index, and then
// words of the records.
const NUMBERS: [(usize, u16); 23] = [
    (50, 8),
    (51, 7),
    (150, 9),
    (LAST, 9),
    (RECORD_7 + 1, CODE * 4 + 7),
    (RECORD_7 + 48, CODE * 2 + 30),
    (RECORD_7 + 64, CODE * 2 + 50),
    (RECORD_7 + 497, CODE * 6 + 25),
    (RECORD_7 + 512, CODE * 4 + 8),
    (RECORD_8 + 1, CODE * 2),
    (RECORD_8 + 4, CODE * 2 + 1),
    (RECORD_8 + 33, CODE * 2 + 100),
    (RECORD_8 + 34, CODE * 3 + 110),
    (RECORD_8 + 49, CODE * 5 + 120),
    (RECORD_8 + 50, CODE * 6 + 150),
    (RECORD_8 + 161, CODE + 40),
    (RECORD_8 + 162, CODE + 8191),
    (RECORD_8 + 512, CODE + 9),
    (RECORD_9 + 1, CODE * 7 + 50),
    (RECORD_9 + 16, CODE * 3 + 20),
    (RECORD_9 + 497, CODE + 70),
    (RECORD_9 + 498, CODE + 90),
    (RECORD_9 + 512, CODE * 7 + 60),
];

// A file of nine records.
#[derive(Clone, Copy)]
pub(crate) struct File([u8; LENGTH]);

impl File {
    // The file.
    pub(crate) fn built() -> Self {
        let mut file = File([0; LENGTH]);
        for (n, number) in NUMBERS {
            file.put(n, number);
        }
        file
    }

    // The bytes of the file.
    pub(crate) fn bytes(&self) -> &[u8] {
        &self.0
    }

    // The file with this as its n-th 16-bit number.
    pub(crate) fn with(&self, n: usize, number: u16) -> Self {
        let mut file = *self;
        file.put(n, number);
        file
    }

    // Writes the n-th 16-bit number of the file, high byte first, where the file has one.
    pub(crate) fn put(&mut self, n: usize, number: u16) {
        if (1..=LENGTH / 2).contains(&n) {
            let end = 2 * n;
            [self.0[end - 2], self.0[end - 1]] = number.to_be_bytes();
        }
    }
}
