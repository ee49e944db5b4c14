#![tactic(auto)]

// The seams of document 01 that are marked *, as a table of rows (proofs/Seams.antt) over the definitions that the contracts cite. Nothing of it runs.
