// The example of a training pass: Z4.
use crate::models::{lend, shape};
use baum_welch::baum_welch;
use program_io::lines::Shown;
use std::io;

// Z4: model Z, one sample, no end state. The state is never left, so that there is nothing to divide by.
pub fn no_mass(rt: &impl Print) -> io::Result<()> {
    let mut new_transition = [0.0; 4];
    let mut new_emission = [0.0; 4];
    let mut new_initial = [0.0; 2];
    let mut new_end = [0.0; 2];
    let mut alpha = [0.0; 2];
    let mut beta = [0.0; 2];
    let pass = baum_welch(
        &lend(
            shape(2, false),
            &[0.0; 4],
            &[0.0; 4],
            &[0.0; 2],
            &[0.0; 2],
            &[0],
        ),
        &mut new_transition,
        &mut new_emission,
        &mut new_initial,
        &mut new_end,
        &mut alpha,
        &mut beta,
    );
    println!(rt; "Z4: {}", Shown(pass))
}
