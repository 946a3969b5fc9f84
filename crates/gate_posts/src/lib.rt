// The gate-post examples (RULES 9), as one table with one statement: in specs/, proved in proofs/. It has no code.

#![tactic(auto)]
