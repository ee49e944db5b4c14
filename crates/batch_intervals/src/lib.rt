#![tactic(auto)]

// The slices of intervals, each of a key: definitions and laws alone.
