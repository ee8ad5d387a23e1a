// P1: the names of files.
use crate::file::{BASE, ZONE};
use std::io;

// Prints the name of the file of the zone.
fn name(rt: &impl Print, zone: u32) -> io::Result<()> {
    rt.write_all(&janlishuk::janlishuk_name(BASE, zone).name)
}

// Prints P1: the names of the files of two zones.
pub(crate) fn p1(rt: &impl Print) -> io::Result<()> {
    let other = 7;
    print!(rt; "P1: base {BASE}, zone {ZONE}: ")?;
    name(rt, ZONE)?;
    print!(rt; "; zone {other}: ")?;
    name(rt, other)?;
    println!(rt)
}
