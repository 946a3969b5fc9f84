// Outputs as they are lent, and whether an answer or an output is another than a frozen case says, to the last bit.

#![tactic(auto)]

ghost use Rattle.std.specs.Prelude.{◌≡◌, ℕ, Bool, length, take, replicate};
ghost use Rattle.std.specs.Float.{nan};
ghost use Rattle.comparators.specs.Compare.{is_other, is_other_number, other_place, changed};
ghost use Rattle.comparators.specs.Compare.{answer_differs, shape_differs, choice_differs};
ghost use Rattle.frozen_list.specs.Cases.{list_of};

use answer::Answer;
use frozen_list::cases::{length, words};
use model::Shape;
use program_io::words::{FromWord, word_at};

// The most places of an output.
pub const MOST: usize = 1024;

// What a place of an output holds, and when it is another than a word says.
pub trait Place: FromWord {
    // What is read past the end of an output.
    ghost blank: { Self };

    // Whether the value is another than the word says.
    ghost differs: { Self → ℕ → Bool };

    fn is_other(self, word: u64) -> bool
        ensures { result ≡ differs self word };
}

impl Place for f64 {
    ghost blank = { nan };

    ghost differs = { is_other_number };

    // A NaN is another than any word.
    fn is_other(self, word: u64) -> bool {
        self.is_nan() || self.to_bits() != word
    }
}

impl Place for u8 {
    ghost blank = { 0 };

    ghost differs = { is_other };

    fn is_other(self, word: u64) -> bool {
        u64::from(self) != word
    }
}

// An output before the call: every byte of it is 0xa5.
pub fn untouched<P: FromWord>() -> [P; MOST]
    ensures { (1024 ≡ length result) × (result ≡ replicate 1024 (P.word_gives 0xa5a5_a5a5_a5a5_a5a5)) }
{
    [P::from_word(0xa5a5_a5a5_a5a5_a5a5); MOST]
}

// The part of an output that is lent: as many places as the k-th list has.
pub fn lent<'a, P>(output: &'a mut [P], case: &[u64], k: usize) -> &'a mut [P]
    ensures { result.now ≡ take (length (list_of case.now k)) output.old }
{
    let n = length(case, k).min(output.len());
    &mut output[..n]
}

// Whether the front of an output is another than the k-th list.
#[tactic(auto, unfolding(crate::specs::Compare::some_other))]
pub fn changed<P: Place>(output: &[P; MOST], case: &[u64], k: usize) -> bool
    ensures { result ≡ changed (other_place P.differs P.blank output.now) (list_of case.now k) }
{
    let list = words(case, k);
    if MOST < list.len() {
        return true;
    }
    for i in 0..list.len() {
        if output[i].is_other(list[i]) {
            return true;
        }
    }
    false
}

// Whether the answer is another than the case's.
pub fn answer_differs(case: &[u64], a: Answer) -> bool
    ensures { result ≡ answer_differs case.now a }
{
    a.refusal.number().is_other(word_at(case, 1))
        || a.table.is_other(word_at(case, 2))
        || a.place as u64 != word_at(case, 3)
        || a.value.is_other(word_at(case, 4))
}

// Whether the shape is another than the k-th list.
pub fn shape_differs(case: &[u64], k: usize, shape: Shape) -> bool
    ensures { result ≡ shape_differs (list_of case.now k) shape }
{
    let list = words(case, k);
    shape.states as u64 != word_at(list, 0)
        || shape.symbols as u64 != word_at(list, 1)
        || u64::from(shape.ends) != word_at(list, 2)
        || list.len() != 3
}

// Whether a state and the value of its path are others than the k-th list.
pub fn choice_differs(case: &[u64], k: usize, state: usize, value: f64) -> bool
    ensures { result ≡ choice_differs (list_of case.now k) state value }
{
    let list = words(case, k);
    state as u64 != word_at(list, 0) || value.is_other(word_at(list, 1)) || list.len() != 2
}
