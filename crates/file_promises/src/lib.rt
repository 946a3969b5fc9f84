// What is promised of model files. There is no code.

#![tactic(auto)]
