// The tables of the new model, each written whole.
ghost use Rattle.std.specs.Prelude.{◌≡◌, ◌+◌, ◌*◌, ◌<◌, ◌≤◌, length};
ghost use Rattle.lists.specs.Lists.{tab, over};
ghost use Rattle.model.specs.Lent.{S, M};
ghost use Rattle.occupancy.specs.Occupancy as Occupancy;
ghost use Rattle.occupancy.specs.inner.Rows.{walks_in, RowsStand, lent_of, Standing, Known, Readable};
ghost use Rattle.baum_welch.specs.Pass as Spec;
ghost use Rattle.baum_welch.specs.inner.Tables.{shares_of, Masses, new_tables};

use crate::mass::Mass;
use occupancy::arc::arc_sums;
use occupancy::state::occupancy;
use occupancy::symbol::emission_sums;
use occupancy::{Pass, Rows};

// What is stored of a result: one above 0 is stored as 0.0.
#[tactic(auto, unfolding(crate::specs::Pass::at_most_zero))]
fn at_most_zero(x: f64) -> f64
    ensures { result ≡ Spec.at_most_zero x }
{
    if 0.0 < x { 0.0 } else { x }
}

// A row of shares: the sums divided by d, laid from place base on.
#[tactic(auto, using(lists::proofs::Over::over_tab_none, lists::proofs::Over::over_tab_more, crate::proofs::Shares::read_at))]
fn store_shares(out: &mut [f64], base: usize, sums: &[f64], d: f64)
    requires { base + length sums.now ≤ length out.old }
    ensures { out.new ≡ over base (tab (length sums.now) (shares_of sums.now d)) out.old }
{
    for (k, sum) in sums.iter().enumerate() {
        out[base + k] = at_most_zero(*sum - d);
    }
}

// The new transitions.
pub(crate) fn transitions(pass: &Pass, masses: &[Mass], out: &mut [f64])
    requires readable { Readable pass.now }
    requires holds { Masses (S (lent_of pass.now)) pass.now masses.now }
    requires states_in_bounds { S (lent_of pass.now) * S (lent_of pass.now) ≤ length out.old }
    ensures { out.new ≡ over 0 (new_tables pass.now).transition out.old }
{
    let states = pass.lent.tables.shape.states;
    for i in 0..states {
        let sums = arc_sums(pass, i);
        store_shares(out, i * states, &sums[..states], masses[i].denominator);
    }
}

// The new emissions.
pub(crate) fn emissions(pass: &Pass, masses: &[Mass], out: &mut [f64])
    requires standing { Standing pass.now × Known pass.now }
    requires holds { Masses (S (lent_of pass.now)) pass.now masses.now }
    requires symbols_in_bounds { S (lent_of pass.now) * M (lent_of pass.now) ≤ length out.old }
    ensures { out.new ≡ over 0 (new_tables pass.now).emission out.old }
{
    let shape = pass.lent.tables.shape;
    let symbols = shape.symbols;
    for i in 0..shape.states {
        let sums = emission_sums(pass, i);
        store_shares(out, i * symbols, &sums[..symbols], masses[i].gamma);
    }
}

// The new initial table.
#[tactic(auto, using(lists::proofs::Over::over_tab_none, lists::proofs::Over::over_tab_more), unfolding(crate::specs::Pass::new_initial))]
pub(crate) fn initials(pass: &Pass, out: &mut [f64])
    requires { Standing pass.now × (S (lent_of pass.now) ≤ length out.old) }
    ensures { out.new ≡ over 0 (new_tables pass.now).initial out.old }
{
    let rows = pass.rows();
    for i in 0..rows.shape.states {
        out[i] = at_most_zero(occupancy(&rows, i, 0));
    }
}

// The new end of state i, where gamma is its own.
#[tactic(auto, unfolding(crate::specs::Pass::new_end))]
fn new_end(rows: &Rows, i: usize, gamma: f64) -> f64
    requires standing { RowsStand rows.now × (i < rows.now.shape.states) }
    requires gamma_value { gamma ≡ Occupancy.gamma (walks_in rows.now) i }
    ensures { result ≡ Spec.new_end (walks_in rows.now) rows.now.shape.ends i }
{
    if !rows.shape.ends {
        return 0.0;
    }
    at_most_zero(occupancy(rows, i, rows.samples - 1) - gamma)
}

// The new end table.
#[tactic(auto, using(lists::proofs::Over::over_tab_none, lists::proofs::Over::over_tab_more))]
pub(crate) fn ends(pass: &Pass, masses: &[Mass], out: &mut [f64])
    requires standing { Standing pass.now × (S (lent_of pass.now) ≤ length out.old) }
    requires holds { Masses (S (lent_of pass.now)) pass.now masses.now }
    ensures { out.new ≡ over 0 (new_tables pass.now).end out.old }
{
    let rows = pass.rows();
    for i in 0..rows.shape.states {
        out[i] = new_end(&rows, i, masses[i].gamma);
    }
}
