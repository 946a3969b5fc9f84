// The examples of `rival`: R1 to R6.
use crate::models::{EMISSION, INITIAL, TRANSITION, lend, shape, single};
use crate::print::states;
use model::Lent;
use program_io::lines::{Bits, Shown};
use rival::rival;
use std::io;

// A model's rival at a sample: the answer and the rival's states, then the chosen state, and the best path's value and states. No state is
// 255, so that both paths show what is not written.
fn tell(rt: &impl Print, label: &str, lent: &Lent, index: usize) -> io::Result<()> {
    let mut path = [255; 3];
    let mut rival_path = [255; 3];
    let mut values = [0.0; 6];
    let mut from = [0; 6];
    let rivalry = rival(
        lent,
        index,
        &mut path,
        &mut rival_path,
        &mut values,
        &mut from,
    );
    print!(rt; "{label}: {}", Shown(rivalry.answer))?;
    states(rt, &rival_path, lent.samples.len())?;
    print!(rt; "; {} {}", rivalry.chosen, Bits(rivalry.best))?;
    states(rt, &path, lent.samples.len())?;
    println!(rt)
}

// Model P on the samples of P1.
fn tell_p(rt: &impl Print, label: &str, index: usize) -> io::Result<()> {
    tell(
        rt,
        label,
        &lend(
            shape(2, false),
            &TRANSITION,
            &EMISSION,
            &INITIAL,
            &[0.0; 2],
            &[0, 1, 1],
        ),
        index,
    )
}

// R1 to R4: there is no sample 3.
pub fn model_p(rt: &impl Print) -> io::Result<()> {
    tell_p(rt, "R1", 0)?;
    tell_p(rt, "R2", 1)?;
    tell_p(rt, "R3", 2)?;
    tell_p(rt, "R4", 3)
}

// R5: one state alone.
pub fn one_state(rt: &impl Print) -> io::Result<()> {
    let table = [0.0];
    tell(
        rt,
        "R5",
        &lend(single(), &table, &table, &table, &table, &[0]),
        0,
    )
}

// R6: model Z.
pub fn model_z(rt: &impl Print) -> io::Result<()> {
    let rows = [0.0; 4];
    let row = [0.0; 2];
    tell(
        rt,
        "R6",
        &lend(shape(2, false), &rows, &rows, &row, &row, &[0, 0]),
        0,
    )
}
