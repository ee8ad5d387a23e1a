// A terrain file: its check, its records, and the words that they hold.
#![tactic(auto)]

pub mod check;
pub mod record;
pub mod word;
