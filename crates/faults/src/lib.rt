// No code: the theorem that no failed probe is ever a temperature (specs/NoTemperature.antt), proved in proofs/Failed.antt.
#![tactic(auto)]
