// What holds of every rival: specs/ has the tie rule among some states only, proofs/ the laws of a model in which one state is barred at
// one sample. There is no code.

#![tactic(auto)]
