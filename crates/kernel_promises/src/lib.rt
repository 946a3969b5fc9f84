// What is promised of the kernels, and of an entry's bits. There is no code.

#![tactic(auto)]
