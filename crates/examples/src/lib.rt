// No code: document 01's checked examples as one table over the written meanings (specs/Rows.antt), and the cases of document 02
// (specs/Requests.antt); proved in proofs/Checked.antt.
#![tactic(auto)]
