// A walk that leaves no rows: the best path's value and the state that it has at one sample, in local memory of 64 places. Beside the row
// it carries each state's origin, the state that the best path to it has at that sample.
ghost use Rattle.std.specs.Prelude.{◌≡◌, ◌<◌, Option, length, get_or};
ghost use Rattle.lists.specs.Lists.{tab, over};
ghost use Rattle.model.specs.Lent.{T, behind};
ghost use Rattle.model.specs.Model.{model_of};
ghost use Rattle.model.specs.Accepted.{Accepted};
ghost use Rattle.walk.specs.Barred.{barred_by};
ghost use Rattle.rival.specs.inner.Origins.{CarriedTo, Followable, Following, Originated, previewed};

use best_path::back::{close, last_state};
use best_path::row::first_from;
use model::Lent;
use walk::{Bar, lay_sample};

// The best path's value, and the state that it has at the sample that was asked for.
#[derive(Clone, Copy)]
pub struct Outlook {
    pub value: f64,
    pub state: usize,
}

// Each state has the origin of its predecessor in the row before.
#[tactic(auto, using(lists::proofs::Over::over_tab_none, lists::proofs::Over::over_tab_more))]
fn follow(states: usize, from: &[u8], before: &[u8], origins: &mut [u8])
    requires { Followable states from.now before.now origins.old }
    ensures { origins.new ≡ over 0
        (tab states (λ j. get_or before.now (get_or from.now j 0) 0)) origins.old }
{
    for j in 0..states {
        origins[j] = before[from[j] as usize];
    }
}

// The origins once row t is laid: before the sample `index` there are none, at it each state is its own, and after it they are followed.
fn lay_origins(
    states: usize,
    t: usize,
    index: usize,
    from: &[u8],
    before: &[u8],
    origins: &mut [u8],
)
    requires { Following states from.now before.now origins.old }
    ensures { Originated states t index from.now before.now origins.new }
{
    if t < index {
        return;
    }
    if t == index {
        first_from(states, origins);
        return;
    }
    follow(states, from, before, origins);
}

// What the walk carries from sample to sample: the row, and the origins of its states.
#[derive(Clone, Copy)]
struct Carried {
    row: [f64; 64],
    origins: [u8; 64],
}

// Carries a row and its origins through all samples, one or more. Both are written where they are lent: a struct that is handed back is
// copied on the stack.
fn carry(lent: &Lent, bar: Option<Bar>, index: usize, carried: &mut Carried)
    requires accepted { Accepted (behind lent.now) }
    requires some_sample { 0 < T (behind lent.now) }
    requires sized { (length carried.old.row ≡ 64) × (length carried.old.origins ≡ 64) }
    ensures { CarriedTo (barred_by bar (model_of (behind lent.now))) (T (behind lent.now)) index carried.new }
{
    let states = lent.tables.shape.states;
    let mut emissions = [0.0; 64];
    let mut from = [0u8; 64];
    for t in 0..lent.samples.len() {
        lay_sample(
            lent,
            bar,
            t,
            0,
            0,
            &mut emissions,
            &mut carried.row,
            &mut from,
        );
        let before = carried.origins;
        lay_origins(states, t, index, &from, &before, &mut carried.origins);
    }
}

// The walk over one sample or more, where a state is barred at one of them, or none, asked for its state at the sample `index`. The caller
// shows that what is lent is accepted, and that there is such a sample.
pub fn preview(lent: &Lent, bar: Option<Bar>, index: usize) -> Outlook
    requires accepted { Accepted (behind lent.now) }
    requires index_in_bounds { index < T (behind lent.now) }
    ensures { result ≡ previewed (barred_by bar (model_of (behind lent.now))) (T (behind lent.now)) index }
{
    let mut carried = Carried {
        row: [0.0; 64],
        origins: [0; 64],
    };
    carry(lent, bar, index, &mut carried);
    let tables = lent.tables;
    let shape = tables.shape;
    let row = &carried.row[..shape.states];
    let last = last_state(shape.ends, tables.end, row);
    Outlook {
        value: close(shape.ends, tables.end, row, last),
        state: carried.origins[last] as usize,
    }
}
