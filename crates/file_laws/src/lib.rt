// What holds of every model file: specs/ has a flipped bit and what a reader is refused for, proofs/ the laws. There is no code.

#![tactic(auto)]
