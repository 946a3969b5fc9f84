// The mass of the states: every one is seen to have some before any table is written.
ghost use Rattle.occupancy.specs.inner.Rows.{Standing};
ghost use Rattle.baum_welch.specs.inner.Tables.{Weighed};

use answer::{Answer, Refusal, refused};
use floats::is_minus_infinity;
use occupancy::Pass;
use occupancy::state::{denominator, gamma, is_massless};

// What a state is measured by: the sum of its occupancies, and what the arcs out of it are divided by.
#[derive(Clone, Copy)]
pub struct Mass {
    pub gamma: f64,
    pub denominator: f64,
}

// The mass of each state, or refusal 9 where the samples cannot be at all, else at the first state that has no mass.
pub(crate) fn weigh(pass: &Pass) -> Result<[Mass; 64], Answer>
    requires { Standing pass.now }
    ensures { Weighed pass.now result }
{
    let states = pass.lent.tables.shape.states;
    if is_minus_infinity(pass.probx) {
        return Err(refused(Refusal::ZeroMass, 0, states));
    }
    let none = Mass {
        gamma: 0.0,
        denominator: 0.0,
    };
    let rows = pass.rows();
    let mut masses = [none; 64];
    for i in 0..states {
        let gamma = gamma(&rows, i);
        let denominator = denominator(&rows, i, gamma);
        if is_massless(gamma, denominator) {
            return Err(refused(Refusal::ZeroMass, 0, i));
        }
        masses[i] = Mass { gamma, denominator };
    }
    Ok(masses)
}
