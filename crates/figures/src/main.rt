// Works the checked figures P1 to P12 through the library, on files that it builds, and prints each
// as one line.
#![tactic(auto)]

use say::Output;
use std::io;

mod call;
mod file;
mod height;
mod name;
mod place;
mod plans;
mod point;
mod samples;
mod say;
mod verdict;

// Prints the twelve figures, or gives back the output's error.
fn figures(rt: &impl Print) -> io::Result<()> {
    name::p1(rt)?;
    place::p2(rt)?;
    place::p3(rt)?;
    place::p4(rt)?;
    place::p5(rt)?;
    height::p6(rt)?;
    height::p7(rt)?;
    height::p8(rt)?;
    samples::p9(rt)?;
    verdict::p10(rt)?;
    plans::p11(rt)?;
    plans::p12(rt)
}

// Prints the figures. A write that fails loses what it was to write, and the rest is tried all the same; the
// status is 0.
fn main(rt: HostRuntime) {
    let _ = figures(&Output(&rt));
}
