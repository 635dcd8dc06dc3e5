// No code: every entry of the card as a call (specs/Calls.antt), and what holds of each (proofs).
#![tactic(auto)]
