// The tables of model P, the small entry of model A, and the shapes.
use model::{Lent, Shape, Tables};

pub const TRANSITION: [f64; 4] = [-1.0, -2.0, -2.0, -1.0];

pub const EMISSION: [f64; 4] = [-1.0, -3.0, -3.0, -1.0];

pub const INITIAL: [f64; 2] = [-1.0, -2.0];

// -2^-53, the transition and the emission entry of model A.
pub const TINY: f64 = -1.1102230246251565e-16;

// A shape of two symbols.
pub fn shape(states: usize, ends: bool) -> Shape {
    Shape {
        states,
        symbols: 2,
        ends,
    }
}

// One state and one symbol, without an end state.
pub fn single() -> Shape {
    Shape {
        states: 1,
        symbols: 1,
        ends: false,
    }
}

// A model and samples, as a call is lent them.
pub fn lend<'a>(
    shape: Shape,
    transition: &'a [f64],
    emission: &'a [f64],
    initial: &'a [f64],
    end: &'a [f64],
    samples: &'a [u16],
) -> Lent<'a> {
    let tables = Tables {
        shape,
        transition,
        emission,
        initial,
        end,
    };
    Lent { tables, samples }
}
