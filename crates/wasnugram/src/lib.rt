// The C face: thin calls over the proved ones, which flatten an answer. The crate wasnugram_c exports each under its name, with the same
// promise. include/wasnugram.h is the manual.

#![tactic(auto)]

ghost use Rattle.std.specs.Prelude.{◌≡◌};
ghost use Rattle.answer.specs.declared.Answer.{Answer};
ghost use Rattle.kernels.specs.Calls.{exp_answer, ln_answer, ln1m_answer};
ghost use Rattle.probs.specs.Calls.{ln_sum_exp_answer, ln_add_exp_answer, ln_sub_exp_answer, cap_answer, Cumulated};
ghost use Rattle.model.specs.Lent.{tables_of, lent, behind};
ghost use Rattle.viterbi.specs.Call.{Decoded, outputs};
ghost use Rattle.rival.specs.declared.Rivalry.{Rivalry};
ghost use Rattle.rival.specs.Call.{asked, Told, outputs as rivals};
ghost use Rattle.likelihood.specs.Call.{Forward, Backward};
ghost use Rattle.baum_welch.specs.Call.{Trained, outputs as trained};
ghost use Rattle.model_file.specs.declared.Reading.{Reading};
ghost use Rattle.model_file.specs.Call.{Read, Written, length_of, outputs as tables};
ghost use Rattle.wasnugram.specs.Face.{shape_of, flat_shape, flattened, Answers, Reads, Tells};

use answer::Answer;
use model::{Lent, Shape, Tables};
use probs::LogProb;

// S states, M symbols, and whether the model has an end state: 0 for no, anything else for yes.
#[repr(C)]
#[derive(Clone, Copy)]
pub struct WasnugramShape {
    pub states: usize,
    pub symbols: usize,
    pub ends: u8,
}

// The refusal's number (0: done), its table, the place in it, and the value.
#[repr(C)]
#[derive(Clone, Copy)]
pub struct WasnugramAnswer {
    pub refusal: u8,
    pub table: u8,
    pub place: usize,
    pub value: f64,
}

// What a reader gives back: its answer, and the shape of the model that it read.
#[repr(C)]
#[derive(Clone, Copy)]
pub struct WasnugramReading {
    pub answer: WasnugramAnswer,
    pub shape: WasnugramShape,
}

// What `wasnugram_rival` gives back: its answer, the state that the best path has at the sample, and the best path's value.
#[repr(C)]
#[derive(Clone, Copy)]
pub struct WasnugramRivalry {
    pub answer: WasnugramAnswer,
    pub chosen: usize,
    pub best: f64,
}

// An answer as C takes it.
fn flat(answer: Answer) -> WasnugramAnswer
    ensures { result ≡ flattened answer }
{
    WasnugramAnswer {
        refusal: answer.refusal.number(),
        table: answer.table,
        place: answer.place,
        value: answer.value,
    }
}

// A shape as C takes it.
fn flat_shape(shape: Shape) -> WasnugramShape
    ensures { result ≡ flat_shape shape }
{
    WasnugramShape {
        states: shape.states,
        symbols: shape.symbols,
        ends: u8::from(shape.ends),
    }
}

// A shape as the library takes it.
fn shape_of(shape: WasnugramShape) -> Shape
    ensures { result ≡ shape_of shape }
{
    Shape {
        states: shape.states,
        symbols: shape.symbols,
        ends: shape.ends != 0,
    }
}

// What a call is lent, as the library takes it.
fn lent_of<'a>(
    shape: WasnugramShape,
    transition: &'a [f64],
    emission: &'a [f64],
    initial: &'a [f64],
    end: &'a [f64],
    samples: &'a [u16],
) -> Lent<'a>
    ensures { behind result ≡ lent (shape_of shape) transition.now emission.now initial.now end.now samples.now }
{
    let tables = Tables {
        shape: shape_of(shape),
        transition,
        emission,
        initial,
        end,
    };
    Lent { tables, samples }
}

// The best path.
pub fn wasnugram_viterbi(
    shape: WasnugramShape,
    transition: &[f64],
    emission: &[f64],
    initial: &[f64],
    end: &[f64],
    samples: &[u16],
    path: &mut [u8],
    values: &mut [f64],
    from: &mut [u8],
) -> WasnugramAnswer
    ensures { Answers (λ (a : Answer). Decoded
        (lent (shape_of shape) transition.now emission.now initial.now end.now
        samples.now)
        (outputs path.old values.old from.old)
        a
        (outputs path.new values.new from.new)) result }
{
    let lent = lent_of(shape, transition, emission, initial, end, samples);
    flat(viterbi::viterbi(&lent, path, values, from))
}

// The strongest rival of the best path at a sample.
pub fn wasnugram_rival(
    shape: WasnugramShape,
    transition: &[f64],
    emission: &[f64],
    initial: &[f64],
    end: &[f64],
    samples: &[u16],
    index: usize,
    path: &mut [u8],
    rival_path: &mut [u8],
    values: &mut [f64],
    from: &mut [u8],
) -> WasnugramRivalry
    ensures { Tells (λ (a : Rivalry). Told
        (asked
        (lent (shape_of shape) transition.now emission.now initial.now end.now
        samples.now)
        index)
        (rivals path.old rival_path.old values.old from.old)
        a
        (rivals path.new rival_path.new values.new from.new)) result }
{
    let lent = lent_of(shape, transition, emission, initial, end, samples);
    let rivalry = rival::rival(&lent, index, path, rival_path, values, from);
    WasnugramRivalry {
        answer: flat(rivalry.answer),
        chosen: rivalry.chosen,
        best: rivalry.best,
    }
}

// The forward walk: how likely the samples are.
pub fn wasnugram_forward(
    shape: WasnugramShape,
    transition: &[f64],
    emission: &[f64],
    initial: &[f64],
    end: &[f64],
    samples: &[u16],
    values: &mut [f64],
) -> WasnugramAnswer
    ensures { Answers (λ (a : Answer). Forward
        (lent (shape_of shape) transition.now emission.now initial.now end.now
        samples.now)
        values.old a values.new) result }
{
    let lent = lent_of(shape, transition, emission, initial, end, samples);
    flat(likelihood::forward(&lent, values))
}

// The same from the end: the backward walk.
pub fn wasnugram_backward(
    shape: WasnugramShape,
    transition: &[f64],
    emission: &[f64],
    initial: &[f64],
    end: &[f64],
    samples: &[u16],
    values: &mut [f64],
) -> WasnugramAnswer
    ensures { Answers (λ (a : Answer). Backward
        (lent (shape_of shape) transition.now emission.now initial.now end.now
        samples.now)
        values.old a values.new) result }
{
    let lent = lent_of(shape, transition, emission, initial, end, samples);
    flat(likelihood::backward(&lent, values))
}

// One training pass.
pub fn wasnugram_baum_welch(
    shape: WasnugramShape,
    transition: &[f64],
    emission: &[f64],
    initial: &[f64],
    end: &[f64],
    samples: &[u16],
    new_transition: &mut [f64],
    new_emission: &mut [f64],
    new_initial: &mut [f64],
    new_end: &mut [f64],
    alpha: &mut [f64],
    beta: &mut [f64],
) -> WasnugramAnswer
    ensures { Answers (λ (a : Answer). Trained
        (lent (shape_of shape) transition.now emission.now initial.now end.now
        samples.now)
        (trained new_transition.old new_emission.old new_initial.old new_end.old
        alpha.old beta.old)
        a
        (trained new_transition.new new_emission.new new_initial.new new_end.new
        alpha.new beta.new)) result }
{
    let lent = lent_of(shape, transition, emission, initial, end, samples);
    flat(baum_welch::baum_welch(
        &lent,
        new_transition,
        new_emission,
        new_initial,
        new_end,
        alpha,
        beta,
    ))
}

// Reads a model file into four lent tables.
pub fn wasnugram_read_model(
    file: &[u8],
    transition: &mut [f64],
    emission: &mut [f64],
    initial: &mut [f64],
    end: &mut [f64],
) -> WasnugramReading
    ensures { Reads (λ (a : Reading). Read
        file.now
        (tables transition.old emission.old initial.old end.old)
        a
        (tables transition.new emission.new initial.new end.new)) result }
{
    let reading = model_file::read_model(file, transition, emission, initial, end);
    WasnugramReading {
        answer: flat(reading.answer),
        shape: flat_shape(reading.shape),
    }
}

// Writes the file of a model.
pub fn wasnugram_write_model(
    shape: WasnugramShape,
    transition: &[f64],
    emission: &[f64],
    initial: &[f64],
    end: &[f64],
    file: &mut [u8],
) -> WasnugramAnswer
    ensures { Answers (λ (a : Answer). Written
        (tables_of (shape_of shape) transition.now emission.now initial.now end.now)
        file.old a file.new) result }
{
    let tables = lent_of(shape, transition, emission, initial, end, &[]).tables;
    flat(model_file::write_model(&tables, file))
}

// The bytes of a file of this shape.
pub fn wasnugram_model_file_length(shape: WasnugramShape) -> usize
    ensures { result ≡ length_of (shape_of shape) }
{
    model_file::file_length(shape_of(shape))
}

// exp(d), d at most 0.
pub fn wasnugram_exp(d: f64) -> WasnugramAnswer
    ensures { Answers (λ (a : Answer). a ≡ exp_answer d) result }
{
    flat(kernels::exp(d))
}

// ln(x), x at least 0.
pub fn wasnugram_ln(x: f64) -> WasnugramAnswer
    ensures { Answers (λ (a : Answer). a ≡ ln_answer x) result }
{
    flat(kernels::ln(x))
}

// ln(1 - exp(p)), p at most 0.
pub fn wasnugram_ln_one_minus_exp(p: f64) -> WasnugramAnswer
    ensures { Answers (λ (a : Answer). a ≡ ln1m_answer p) result }
{
    flat(LogProb(p).ln_one_minus_exp())
}

// ln of the sum of exp over a lent slice.
pub fn wasnugram_ln_sum_exp(probs: &[f64]) -> WasnugramAnswer
    ensures { Answers (λ (a : Answer). a ≡ ln_sum_exp_answer probs.now) result }
{
    flat(LogProb::ln_sum_exp(probs))
}

// ln(exp(p0) + exp(p1)).
pub fn wasnugram_ln_add_exp(p0: f64, p1: f64) -> WasnugramAnswer
    ensures { Answers (λ (a : Answer). a ≡ ln_add_exp_answer p0 p1) result }
{
    flat(LogProb(p0).ln_add_exp(LogProb(p1)))
}

// ln(exp(p0) - exp(p1)).
pub fn wasnugram_ln_sub_exp(p0: f64, p1: f64) -> WasnugramAnswer
    ensures { Answers (λ (a : Answer). a ≡ ln_sub_exp_answer p0 p1) result }
{
    flat(LogProb(p0).ln_sub_exp(LogProb(p1)))
}

// The running sums of a lent slice, into output 5.
pub fn wasnugram_ln_cumsum_exp(probs: &[f64], sums: &mut [f64]) -> WasnugramAnswer
    ensures { Answers (λ (a : Answer). Cumulated probs.now sums.old sums.new a) result }
{
    flat(LogProb::ln_cumsum_exp(probs, sums))
}

// The value, or 0.0 where it is above 0 by at most epsilon.
pub fn wasnugram_cap_numerical_overshoot(value: f64, epsilon: f64) -> WasnugramAnswer
    ensures { Answers (λ (a : Answer). a ≡ cap_answer value epsilon) result }
{
    flat(LogProb(value).cap_numerical_overshoot(epsilon))
}
