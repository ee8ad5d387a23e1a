// The check of the file, whole and damaged in one place each.
use crate::file::{BASE, File, LAST, ZONE};
use std::io;

// Prints base and zone, and the refusal, place and M of the check of these bytes.
fn check(rt: &impl Print, bytes: &[u8], base: u32, zone: u32) -> io::Result<()> {
    let answer = janlishuk::janlishuk_check(bytes, base, zone);
    println!(rt;
        "check {base} {zone} {} {} {}",
        answer.refusal, answer.place, answer.highest
    )
}

// Prints the check of the file's first bytes.
fn cut(rt: &impl Print, file: &File, length: usize) -> io::Result<()> {
    println!(rt; "bytes {length}")?;
    let whole = file.bytes();
    check(rt, whole.get(..length).unwrap_or(whole), BASE, ZONE)
}

// Prints the check of the file with this number at this position of its index.
fn damaged(rt: &impl Print, file: &File, position: usize, number: u16) -> io::Result<()> {
    println!(rt; "position {position} {number}")?;
    check(rt, file.with(position, number).bytes(), BASE, ZONE)
}

// Prints the check of the file: whole; cut; M above the records, below an entry and below 6; an entry
// that stands twice, one of 6, one where no rectangle is; and an entry taken out.
pub(crate) fn checks(rt: &impl Print, file: &File) -> io::Result<()> {
    for (base, zone) in [(BASE, ZONE), (44, ZONE), (42, ZONE), (BASE, 61)] {
        check(rt, file.bytes(), base, zone)?;
    }
    for length in [0, 7168, 9215] {
        cut(rt, file, length)?;
    }
    let damages = [
        (LAST, 10),
        (LAST, 8),
        (LAST, 5),
        (52, 7),
        (53, 6),
        (2800, 9),
        (50, 0),
    ];
    for (position, number) in damages {
        damaged(rt, file, position, number)?;
    }
    Ok(())
}
