// Questions about names and bases, at the bounds of bases and zones and beside them.
use std::io;

// Prints the names and the bases.
pub(crate) fn names(rt: &impl Print) -> io::Result<()> {
    for (base, zone) in [(40, 17), (80, 60), (84, 1), (0, 61)] {
        name(rt, base, zone)?;
    }
    for northing in [883499, 883500, 4866999, 4867000, 9330999, 9331000] {
        base(rt, northing)?;
    }
    Ok(())
}

// Prints base and zone, the refusal and place, and the name of their file where it is given.
fn name(rt: &impl Print, base: u32, zone: u32) -> io::Result<()> {
    let answer = janlishuk::janlishuk_name(base, zone);
    println!(rt; "name {base} {zone} {} {}", answer.refusal, answer.place)?;
    if answer.refusal == 0 {
        rt.write_all(&answer.name)?;
        println!(rt)?;
    }
    Ok(())
}

// Prints a northing; refusal, place, base.
fn base(rt: &impl Print, northing: u32) -> io::Result<()> {
    let answer = janlishuk::janlishuk_base(northing);
    println!(rt;
        "base {northing} {} {} {}",
        answer.refusal, answer.place, answer.base
    )
}
