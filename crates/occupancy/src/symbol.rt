// How much of a state's time goes to each symbol.
ghost use Rattle.std.specs.Prelude.{ℕ, ◌<◌};
ghost use Rattle.model.specs.Lent.{S, M, T};
ghost use Rattle.occupancy.specs.Occupancy.{emitted};
ghost use Rattle.occupancy.specs.inner.Rows.{lent_of, rows_of, Standing, Known, Holds};

use crate::Pass;
use crate::state::occupancy;
use floats::minus_infinity;
use sums::pair::ln_add;

// The occupancies of state i by symbol, each symbol's added up in time order. The caller shows that both walks have a row for each sample,
// and that every sample is a symbol.
pub fn emission_sums(pass: &Pass, i: usize) -> [f64; 256]
    requires { Standing pass.now × Known pass.now × (i < S (lent_of pass.now)) }
    ensures { Holds (M (lent_of pass.now))
        (λ (x : ℕ). emitted (rows_of pass.now) (lent_of pass.now).samples i x (T (lent_of pass.now))) result }
{
    let rows = pass.rows();
    let mut sums = [minus_infinity(); 256];
    for (t, x) in pass.lent.samples.iter().enumerate() {
        let x = *x as usize;
        sums[x] = ln_add(sums[x], occupancy(&rows, i, t));
    }
    sums
}
