// Asks the library of a file that it builds, whole and damaged, and prints every answer: the record
// as a part of the file, the point as an enum, and each exported call. It runs what the other programs
// leave out, and for every must-fail edit it asks a question that the edited library answers otherwise.
#![tactic(auto)]

use say::Output;
use std::io;

mod damage;
mod file;
mod links;
mod names;
mod points;
mod say;
mod seams;
mod spots;
mod surveys;
mod votes;

// Prints the answers to all questions, or gives back the output's error.
fn answers(rt: &impl Print) -> io::Result<()> {
    let file = file::File::built();
    names::names(rt)?;
    damage::checks(rt, &file)?;
    points::points(rt, &file)?;
    seams::seams(rt, &file)?;
    votes::votes(rt, &file)?;
    spots::spots(rt, &file)?;
    surveys::surveys(rt, &file)?;
    links::paths(rt, &file)
}

// Prints the answers. A write that fails loses what it was to write, and the rest is tried all the same; the
// status is 0.
fn main(rt: HostRuntime) {
    let _ = answers(&Output(&rt));
}
