// Questions about surveys: lists that fit and lists that do not, of the file whole and damaged.
use crate::file::{BASE, File, ZONE};
use crate::say::Numbers;
use std::fmt::Display;
use std::io;

// Room of each list, one entry more than a survey may have points.
const ROOM: usize = 257;

// The eastings of the points that have one of their own. Points 1, 2 and 3 are refused with 6, 5 and 4,
// and point 255, the last that a survey may have, with 5; point 4 is read at a place of its own, all others
// at one place.
const EASTINGS: [(u8, u32); 5] = [
    (1, 500001),
    (2, 499999),
    (3, 875000),
    (4, 500500),
    (255, 499999),
];

// The northings of the points that have one of their own.
const NORTHINGS: [(u8, u32); 2] = [(1, 4438000), (4, 4434500)];

// How many entries are lent of the lists of eastings, northings, heights, codes and refusals: surveys of
// no, one, five and the most points, with and without room to spare; and lists that do not fit, each for
// one reason.
const WHOLE: [[usize; 5]; 10] = [
    [0, 0, 0, 0, 0],
    [1, 1, 1, 1, 1],
    [5, 5, 7, 7, 7],
    [256, 256, 256, 256, 256],
    [257, 257, 257, 257, 257],
    [5, 4, 7, 7, 7],
    [4, 5, 7, 7, 7],
    [5, 5, 4, 7, 7],
    [5, 5, 7, 4, 7],
    [5, 5, 7, 7, 4],
];

// The same for the damaged file: lists that fit, and lists that do not.
const DAMAGED: [[usize; 5]; 2] = [[5, 5, 7, 7, 7], [5, 4, 7, 7, 7]];

// A list of this number, but for the entries with one of their own.
fn list(number: u32, own: &[(u8, u32)]) -> [u32; ROOM] {
    let mut list = [number; ROOM];
    for &(i, number) in own {
        list[usize::from(i)] = number;
    }
    list
}

// Prints the name of a list, its first eight entries and its last three.
fn held<T: Display>(rt: &impl Print, name: &str, list: &[T; ROOM]) -> io::Result<()> {
    let list = &list[..];
    println!(rt; "  {name}{}{}", Numbers(&list[..8]), Numbers(&list[254..]))
}

// Prints how many entries are lent of the lists, which is at most all; refusal and place of the upload; and
// what the lists of heights, codes and refusals hold afterwards.
fn survey(rt: &impl Print, file: &File, lent: [usize; 5]) -> io::Result<()> {
    println!(rt; "survey{}", Numbers(&lent))?;
    let [e, n, h, c, r] = lent.map(|length| length.min(ROOM));
    let mut heights = [77; ROOM];
    let mut codes = [77; ROOM];
    let mut refusals = [77; ROOM];
    let answer = janlishuk::janlishuk_upload(
        file.bytes(),
        BASE,
        ZONE,
        &list(500250, &EASTINGS)[..e],
        &list(4434250, &NORTHINGS)[..n],
        &mut heights[..h],
        &mut codes[..c],
        &mut refusals[..r],
    );
    println!(rt; "  upload {} {}", answer.refusal, answer.place)?;
    held(rt, "heights", &heights)?;
    held(rt, "codes", &codes)?;
    held(rt, "refusals", &refusals)
}

// Prints the surveys of the file, whole and damaged.
pub(crate) fn surveys(rt: &impl Print, file: &File) -> io::Result<()> {
    for lent in WHOLE {
        survey(rt, file, lent)?;
    }
    let damaged = file.with(53, 6);
    for lent in DAMAGED {
        survey(rt, &damaged, lent)?;
    }
    Ok(())
}
