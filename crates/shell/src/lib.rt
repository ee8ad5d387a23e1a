// The plan shell: lines in, answers out. What it remembers from line to line is a `Shell`, which the caller
// lends, beside the bytes of the file in use, which the caller keeps.
#![tactic(auto)]

pub mod answer;
pub mod command;
pub mod feed;
pub mod sites;
