#![tactic(auto)]

// Where keys stand: one key after another, or by a table of the positions of many.
pub mod inner;
