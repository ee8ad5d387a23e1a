// The link between two points: what each sample needs, and whether two masts see each other.
#![tactic(auto)]

pub mod clear;
