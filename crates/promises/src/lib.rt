// What every call promises: that it always answers, that one result meets its promise, and that no NaN comes out of it. There is no code.

#![tactic(auto)]
