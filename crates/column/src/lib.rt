#![tactic(auto)]

pub mod answer;
pub mod error;
pub mod inner;
pub mod mask;
pub mod sequence;
