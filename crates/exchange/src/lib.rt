// No code: demand 3, one claim about every list of calls (specs/Demand.antt), proved in proofs/Demand3.antt.
#![tactic(auto)]
