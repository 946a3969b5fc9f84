// The best path through a model: Viterbi's walk, with every value and predecessor on the way left in lent memory.

#![tactic(auto)]

ghost use Rattle.std.specs.Prelude.{◌≡◌};
ghost use Rattle.model.specs.Lent.{behind};
ghost use Rattle.viterbi.specs.Call.{Decoded, outputs};
ghost use Rattle.viterbi.specs.inner.Parts.{fault_for};

use answer::{Answer, Checked, done};
use checks::{Room, check_lengths, check_rest};
use floats::minus_infinity;
use model::Lent;
use walk::decode;

// The checks 1 to 8, in their order; of the outputs only the lengths are needed.
fn check(lent: &Lent, path: usize, values: usize, from: usize) -> Checked
    ensures { result ≡ fault_for (behind lent.now) path values from }
{
    check_lengths(false, lent)?;
    let n = lent.samples.len();
    let places = n * lent.tables.shape.states;
    let outputs = [
        Room::of(n, path),
        Room::of(places, values),
        Room::of(places, from),
    ];
    check_rest(lent, &outputs)
}

// The best path through the model for these samples: its states in `path`, its value in the answer, and the value and the
// predecessor of every state at every sample in `values` and `from`, T rows of S. Without a sample the answer is minus infinity, and
// nothing is written. Refused, nothing is written either.
pub fn viterbi(lent: &Lent, path: &mut [u8], values: &mut [f64], from: &mut [u8]) -> Answer
    ensures { Decoded
        (behind lent.now)
        (outputs path.old values.old from.old)
        result
        (outputs path.new values.new from.new) }
{
    if let Err(refusal) = check(lent, path.len(), values.len(), from.len()) {
        return refusal;
    }
    if lent.samples.is_empty() {
        return done(minus_infinity());
    }
    done(decode(lent, None, path, values, from))
}
