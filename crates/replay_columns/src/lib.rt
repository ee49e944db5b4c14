#![tactic(auto)]

// The calls on columns with the arguments of a stored case, for `replay`. Nothing is promised but that the functions are safe and end.
pub mod inner;
