// The reading of a point in a terrain file: the corners around it, their mean and their vote, and the
// point for the prediction engine.
#![tactic(auto)]

mod edge;
pub mod engine;
pub mod point;
mod vote;
