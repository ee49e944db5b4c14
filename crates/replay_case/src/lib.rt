#![tactic(auto)]

// What a stored case holds and what a call makes of it, for `replay`. Nothing is promised but that the functions are safe and end.
pub mod inner;
