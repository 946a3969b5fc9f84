// The whole walk on lent memory: every row of values and predecessors, then the best path. A state may be barred at one sample, or none
// is. A caller lends all memory and shows that it fits; nothing is checked here.

#![tactic(auto)]

ghost use Rattle.std.specs.Prelude.{Option};
ghost use Rattle.model.specs.Lent.{T, behind};
ghost use Rattle.model.specs.Model.{model_of};
ghost use Rattle.walk.specs.Barred.{barred_by};
ghost use Rattle.walk.specs.inner.Rows.{SeenAt, PlacedAt, RowLaid, AllWalkable, RowsLaid};
ghost use Rattle.walk.specs.inner.Path.{Decodable, Found};

use best_path::back::{close, last_state, trace};
use best_path::row::lay_row;
pub use emission::Bar;
use emission::lay_barred;
use model::Lent;

// Row t by its sample, laid from place `target` on, where the row before it stands at `source`. The caller shows that the tables fit, that
// the sample is a symbol, and that there is room; `emissions` is scratch.
pub fn lay_sample(
    lent: &Lent,
    bar: Option<Bar>,
    t: usize,
    source: usize,
    target: usize,
    emissions: &mut [f64],
    values: &mut [f64],
    from: &mut [u8],
)
    requires seen { SeenAt (behind lent.now) t emissions.old }
    requires placed { PlacedAt (behind lent.now) t source target values.old from.old }
    ensures { RowLaid (behind lent.now) bar t source target values.old values.new from.old from.new }
{
    lay_barred(lent, bar, t, emissions);
    let tables = lent.tables;
    let states = tables.shape.states;
    lay_row(
        states,
        tables.transition,
        tables.initial,
        &emissions[..states],
        t,
        source,
        target,
        values,
        from,
    );
}

// Every row. The caller shows that the tables fit, that every sample is a symbol, and that there is room.
pub fn rows(lent: &Lent, bar: Option<Bar>, values: &mut [f64], from: &mut [u8])
    requires { AllWalkable (behind lent.now) values.old from.old }
    ensures { RowsLaid (behind lent.now) bar values.old values.new from.old from.new }
{
    let states = lent.tables.shape.states;
    let mut emissions = [0.0; 64];
    let mut source = 0;
    for t in 0..lent.samples.len() {
        let target = t * states;
        lay_sample(lent, bar, t, source, target, &mut emissions, values, from);
        source = target;
    }
}

// The walk over one sample or more: the best path and its value. The rows take no end table; the last state and the value do.
pub fn decode(
    lent: &Lent,
    bar: Option<Bar>,
    path: &mut [u8],
    values: &mut [f64],
    from: &mut [u8],
) -> f64
    requires { Decodable (behind lent.now) path.old values.old from.old }
    ensures { Found (barred_by bar (model_of (behind lent.now))) (T (behind lent.now)) result
        path.old path.new values.old values.new from.old from.new }
{
    rows(lent, bar, values, from);
    let tables = lent.tables;
    let shape = tables.shape;
    let states = shape.states;
    let n = lent.samples.len();
    let start = (n - 1) * states;
    let stop = start + states;
    let row = &values[start..stop];
    let last = last_state(shape.ends, tables.end, row);
    trace(states, &from[..], n, last, 0, path);
    close(shape.ends, tables.end, row, last)
}
