// One pass of re-estimation, `baum_welch`: from a model and its samples to the tables of the model that fits them better.

#![tactic(auto)]

mod mass;
mod tables;

ghost use Rattle.std.specs.Prelude.{◌≡◌, ℕ, ◌≤◌, [], ◌∷◌, length};
ghost use Rattle.floats.specs.Float.{nought};
ghost use Rattle.lists.specs.Lists.{tab, over};
ghost use Rattle.model.specs.Lent.{behind, tables_of};
ghost use Rattle.occupancy.specs.inner.Rows.{Readable};
ghost use Rattle.baum_welch.specs.Call.{outputs, Trained};
ghost use Rattle.baum_welch.specs.inner.Tables.{fault_for, shape_of, Roomy, Retrained};

use answer::{Answer, Checked, done};
use checks::{Room, check_lengths, check_rest};
use likelihood::{backward, forward};
use mass::weigh;
use model::Lent;
use occupancy::Pass;
use tables::{emissions, ends, initials, transitions};

// Makes the first n places +0.0 again. The caller shows that there are so many.
fn wipe(scratch: &mut [f64], n: usize)
    requires { n ≤ length scratch.old }
    ensures { scratch.new ≡ over 0 (tab n (λ (k : ℕ). nought)) scratch.old }
{
    scratch[..n].fill(0.0);
}

// The checks 1 to 8, in their order; of the six outputs only the lengths are needed.
fn check(
    lent: &Lent,
    transition: usize,
    emission: usize,
    initial: usize,
    end: usize,
    alpha: usize,
    beta: usize,
) -> Checked
    ensures { result ≡ fault_for (behind lent.now)
        (transition ∷ emission ∷ initial ∷ end ∷ alpha ∷ beta ∷ []) }
{
    check_lengths(true, lent)?;
    let shape = lent.tables.shape;
    let states = shape.states;
    let places = lent.samples.len() * states;
    let outputs = [
        Room::of(states * states, transition),
        Room::of(states * shape.symbols, emission),
        Room::of(states, initial),
        Room::of(states, end),
        Room::of(places, alpha),
        Room::of(places, beta),
    ];
    check_rest(lent, &outputs)
}

// The new model where every state has mass: alpha and beta hold both walks, and the outputs have room.
fn estimate(
    pass: &Pass,
    new_transition: &mut [f64],
    new_emission: &mut [f64],
    new_initial: &mut [f64],
    new_end: &mut [f64],
) -> Answer
    requires readable { Readable pass.now }
    requires roomy { Roomy pass.now new_transition.old new_emission.old new_initial.old new_end.old }
    ensures { Retrained pass.now
        (tables_of (shape_of pass.now) new_transition.old new_emission.old new_initial.old new_end.old)
        (tables_of (shape_of pass.now) new_transition.new new_emission.new new_initial.new new_end.new)
        result }
{
    let masses = match weigh(pass) {
        Ok(masses) => masses,
        Err(refusal) => return refusal,
    };
    transitions(pass, &masses, new_transition);
    emissions(pass, &masses, new_emission);
    initials(pass, new_initial);
    ends(pass, &masses, new_end);
    done(pass.probx)
}

// One training pass: the model that fits the samples better than the lent one, in the four outputs, and the likelihood of the samples
// under the lent one as the value. The two scratch tables hold both walks meanwhile and are +0.0 after. Where the samples cannot be, or
// a state is never met or never left, the pass is refused with 9 and the outputs stay as they are.
pub fn baum_welch(
    lent: &Lent,
    new_transition: &mut [f64],
    new_emission: &mut [f64],
    new_initial: &mut [f64],
    new_end: &mut [f64],
    alpha: &mut [f64],
    beta: &mut [f64],
) -> Answer
    ensures { Trained
        (behind lent.now)
        (outputs new_transition.old new_emission.old new_initial.old new_end.old
        alpha.old beta.old)
        result
        (outputs new_transition.new new_emission.new new_initial.new new_end.new
        alpha.new beta.new) }
{
    if let Err(refusal) = check(
        lent,
        new_transition.len(),
        new_emission.len(),
        new_initial.len(),
        new_end.len(),
        alpha.len(),
        beta.len(),
    ) {
        return refusal;
    }
    let likelihood = forward(lent, alpha);
    backward(lent, beta);
    let pass = Pass {
        lent: *lent,
        alpha: &alpha[..],
        beta: &beta[..],
        probx: likelihood.value,
    };
    let answer = estimate(&pass, new_transition, new_emission, new_initial, new_end);
    let places = lent.samples.len() * lent.tables.shape.states;
    wipe(alpha, places);
    wipe(beta, places);
    answer
}
