#![tactic(auto)]

// Cutting a job never shows: a claim about the definitions that the contracts cite (specs/Claim.antt, proved in proofs/Demand.antt). Nothing of it runs.
