// The examples of `viterbi`: P1 to P6, E1 to E3, Z1, Z3 and A1.
use crate::models::{EMISSION, INITIAL, TINY, TRANSITION, lend, shape, single};
use crate::print::states;
use model::Lent;
use program_io::lines::Shown;
use std::io;
use viterbi::viterbi;

// A model, decoded: the answer, and the path where the call is done.
fn decode(rt: &impl Print, label: &str, lent: &Lent) -> io::Result<()> {
    let mut path = [0; 3];
    let mut values = [0.0; 9];
    let mut from = [0; 9];
    let a = viterbi(lent, &mut path, &mut values, &mut from);
    print!(rt; "{label}: {}", Shown(a))?;
    if a.is_done() {
        states(rt, &path, lent.samples.len())?;
    }
    println!(rt)
}

// Model P with a transition and an emission to replace its own.
fn decode_p(
    rt: &impl Print,
    label: &str,
    transition: f64,
    emission: f64,
    samples: &[u16],
) -> io::Result<()> {
    decode(
        rt,
        label,
        &lend(
            shape(2, false),
            &[transition, -2.0, -2.0, -1.0],
            &[-1.0, -3.0, -3.0, emission],
            &INITIAL,
            &[0.0, 0.0],
            samples,
        ),
    )
}

// P1 to P6. 5e-324 is 2^-1074.
pub fn model_p(rt: &impl Print) -> io::Result<()> {
    decode_p(rt, "P1", -1.0, -1.0, &[0, 1, 1])?;
    decode_p(rt, "P2", -1.0, -1.0, &[1])?;
    decode_p(rt, "P3", -1.0, -1.0, &[])?;
    decode_p(rt, "P4", -1.0, -1.0, &[0, 1, 2])?;
    decode_p(rt, "P5", f64::NAN, -1.0, &[0, 1, 1])?;
    decode_p(rt, "P6", -1.0, 5e-324, &[0, 1, 1])?;
    decode_p(rt, "P6 with -0.0", -1.0, -0.0, &[0, 1, 1])
}

// Model P with an end state, on the samples of P1.
fn decode_ending(rt: &impl Print, label: &str, end: &[f64]) -> io::Result<()> {
    decode(
        rt,
        label,
        &lend(
            shape(2, true),
            &TRANSITION,
            &EMISSION,
            &INITIAL,
            end,
            &[0, 1, 1],
        ),
    )
}

// Model Z with -0.0 for each initial and emission entry, with an end state or without one.
fn decode_minus_zeros(rt: &impl Print, label: &str, ends: bool) -> io::Result<()> {
    decode(
        rt,
        label,
        &lend(
            shape(2, ends),
            &[0.0; 4],
            &[-0.0; 4],
            &[-0.0; 2],
            &[0.0; 2],
            &[0],
        ),
    )
}

// E1 to E3: the way out.
pub fn way_out(rt: &impl Print) -> io::Result<()> {
    decode_ending(rt, "E1", &[0.0, -4.0])?;
    decode_ending(rt, "E2", &[-1.0, -4.0])?;
    decode_minus_zeros(rt, "E3", false)?;
    decode_minus_zeros(rt, "E3 with an end state", true)
}

// Z1, all zero.
pub fn model_z(rt: &impl Print) -> io::Result<()> {
    decode(
        rt,
        "Z1",
        &lend(
            shape(2, false),
            &[0.0; 4],
            &[0.0; 4],
            &[0.0; 2],
            &[0.0; 2],
            &[0, 0],
        ),
    )
}

// Z3: three states, none of which can be first.
pub fn no_beginning(rt: &impl Print) -> io::Result<()> {
    decode(
        rt,
        "Z3",
        &lend(
            shape(3, false),
            &[0.0; 9],
            &[0.0; 6],
            &[f64::NEG_INFINITY; 3],
            &[0.0; 3],
            &[0, 0],
        ),
    )
}

// A1: model A, two samples.
pub fn model_a(rt: &impl Print) -> io::Result<()> {
    decode(
        rt,
        "A1 viterbi",
        &lend(single(), &[TINY], &[TINY], &[-1.0], &[0.0], &[0, 0]),
    )
}
