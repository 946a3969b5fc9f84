// The examples of `forward` and `backward`: Z2, A1 and A2.
use crate::models::{TINY, lend, shape, single};
use likelihood::{backward, forward};
use model::Lent;
use program_io::lines::Shown;
use std::io;

// Both walks, with two places for their values: a line for each answer.
fn both(rt: &impl Print, forward_label: &str, backward_label: &str, lent: &Lent) -> io::Result<()> {
    let mut values = [0.0; 2];
    let ahead = forward(lent, &mut values);
    println!(rt; "{forward_label}: {}", Shown(ahead))?;
    let back = backward(lent, &mut values);
    println!(rt; "{backward_label}: {}", Shown(back))
}

// Z2: model Z, one sample.
pub fn one_sample(rt: &impl Print) -> io::Result<()> {
    both(
        rt,
        "Z2 forward",
        "Z2 backward",
        &lend(
            shape(2, false),
            &[0.0; 4],
            &[0.0; 4],
            &[0.0; 2],
            &[0.0; 2],
            &[0],
        ),
    )
}

// A1 and A2: model A, two samples.
pub fn model_a(rt: &impl Print) -> io::Result<()> {
    both(
        rt,
        "A1 forward",
        "A2",
        &lend(single(), &[TINY], &[TINY], &[-1.0], &[0.0], &[0, 0]),
    )
}
