// What is promised of paths: the best one, the way out, the strongest rival, and how likely the samples are beside it. There is no code.

#![tactic(auto)]
