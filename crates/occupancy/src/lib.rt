// What both walks of a pass say of a model's states, arcs and symbols: how much of the time each one has. A caller lends the rows of both
// walks and shows that they stand; nothing is checked here and nothing is written.

#![tactic(auto)]

pub mod arc;
pub mod state;
pub mod symbol;

ghost use Rattle.std.specs.Prelude.{◌≡◌};
ghost use Rattle.occupancy.specs.inner.Rows.{rows_in};

use model::{Lent, Shape};

// The rows of both walks, with the shape, the number of samples and the likelihood of all samples.
#[derive(Clone, Copy)]
pub struct Rows<'a> {
    pub shape: Shape,
    pub samples: usize,
    pub alpha: &'a [f64],
    pub beta: &'a [f64],
    pub probx: f64,
}

// One pass: what it is lent, the rows of both walks, and the likelihood of all samples.
#[derive(Clone, Copy)]
pub struct Pass<'a> {
    pub lent: Lent<'a>,
    pub alpha: &'a [f64],
    pub beta: &'a [f64],
    pub probx: f64,
}

impl<'a> Pass<'a> {
    // What is asked of a pass by what reads neither its tables nor its samples.
    pub fn rows(&self) -> Rows<'a>
        ensures { result ≡ rows_in self.now }
    {
        Rows {
            shape: self.lent.tables.shape,
            samples: self.lent.samples.len(),
            alpha: self.alpha,
            beta: self.beta,
            probx: self.probx,
        }
    }
}
