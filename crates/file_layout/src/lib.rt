// The bytes of a model file: what each of them has to be for a shape, and whether a row of bytes is a file.

#![tactic(auto)]

pub mod inspect;
pub mod layout;
