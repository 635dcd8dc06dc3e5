// No code: the theorems of the masters of LECOM, Love and LucidControl, over the written meanings. docs/MASTERS.md walks through them.
#![tactic(auto)]
