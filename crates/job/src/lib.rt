#![tactic(auto)]

// The job that `combine` reads, and what it writes. Nothing is promised but that the functions are safe and end.
pub mod inner;
