// The strongest rival of the best path at a sample: the best of the paths that have another state there. It is the best path of the model
// in which the chosen state is barred at that sample.

#![tactic(auto)]

mod preview;

ghost use Rattle.std.specs.Prelude.{◌≡◌};
ghost use Rattle.model.specs.Lent.{behind};
ghost use Rattle.model.specs.Accepted.{Accepted};
ghost use Rattle.rival.specs.Call.{asked, outputs, Told};
ghost use Rattle.rival.specs.inner.Parts.{fault_for, nothing_told, told, Found, Walkable};

use crate::preview::preview;
use answer::{Answer, Checked, Refusal, done, refused};
use checks::{Room, check_lengths, check_rest};
use floats::{is_minus_infinity, minus_infinity};
use model::Lent;
use walk::{Bar, decode};

// What the call gives back: its answer, whose value is the rival's score, the state that the best path has at the sample, and the best
// path's value. Refused, the state is 0 and the value minus infinity.
#[derive(Clone, Copy)]
pub struct Rivalry {
    pub answer: Answer,
    pub chosen: usize,
    pub best: f64,
}

// What is told where the call is refused.
fn nothing(answer: Answer) -> Rivalry
    ensures { result ≡ nothing_told answer }
{
    Rivalry {
        answer,
        chosen: 0,
        best: minus_infinity(),
    }
}

// The checks 1 to 8, in their order; of the outputs only the lengths are needed.
fn check(lent: &Lent, path: usize, rival_path: usize, values: usize, from: usize) -> Checked
    ensures { result ≡ fault_for (behind lent.now) path rival_path values from }
{
    check_lengths(false, lent)?;
    let n = lent.samples.len();
    let places = n * lent.tables.shape.states;
    let outputs = [
        Room::of(n, path),
        Room::of(n, rival_path),
        Room::of(places, values),
        Room::of(places, from),
    ];
    check_rest(lent, &outputs)
}

// What there is to tell of a call that has passed the checks 1 to 8: 16 or 15, or the rival's score with the chosen state and the best
// value. No lent memory is written, so that a refusal leaves it alone.
fn foretell(lent: &Lent, index: usize) -> Rivalry
    requires { Accepted (behind lent.now) }
    ensures { result ≡ told (asked (behind lent.now) index) }
{
    if lent.samples.len() <= index {
        return nothing(refused(Refusal::BadIndex, 0, 0));
    }
    let best = preview(lent, None, index);
    let bar = Bar {
        index,
        state: best.state,
    };
    let rival = preview(lent, Some(bar), index);
    if is_minus_infinity(rival.value) {
        return nothing(refused(Refusal::NoRival, 0, 0));
    }
    Rivalry {
        answer: done(rival.value),
        chosen: best.state,
        best: best.value,
    }
}

// Both walks: the best path first, and then the rival, whose rows stay. The caller shows that the tables fit and that there is room.
fn walk_both(
    lent: &Lent,
    bar: Bar,
    path: &mut [u8],
    rival_path: &mut [u8],
    values: &mut [f64],
    from: &mut [u8],
)
    requires { Walkable (behind lent.now)
        (outputs path.old rival_path.old values.old from.old) }
    ensures { Found (behind lent.now) bar.index bar.state
        (outputs path.old rival_path.old values.old from.old)
        (outputs path.new rival_path.new values.new from.new) }
{
    decode(lent, None, path, values, from);
    decode(lent, Some(bar), rival_path, values, from);
}

// The strongest rival at the sample `index`: the best path in `path`, the rival in `rival_path`, and the value and the predecessor of every
// state at every sample, as the rival's walk has them, in `values` and `from`, T rows of S. Refused, nothing is written.
pub fn rival(
    lent: &Lent,
    index: usize,
    path: &mut [u8],
    rival_path: &mut [u8],
    values: &mut [f64],
    from: &mut [u8],
) -> Rivalry
    ensures { Told
        (asked (behind lent.now) index)
        (outputs path.old rival_path.old values.old from.old)
        result
        (outputs path.new rival_path.new values.new from.new) }
{
    if let Err(refusal) = check(lent, path.len(), rival_path.len(), values.len(), from.len()) {
        return nothing(refusal);
    }
    let rivalry = foretell(lent, index);
    let answer = rivalry.answer;
    if answer.is_done() {
        let bar = Bar {
            index,
            state: rivalry.chosen,
        };
        walk_both(lent, bar, path, rival_path, values, from);
    }
    rivalry
}
