// Lists by rule and their laws, for the proofs of every crate above: specs/ has the definitions, proofs/ the laws. There is no code.

#![tactic(auto)]
