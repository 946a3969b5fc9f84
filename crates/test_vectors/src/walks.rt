// The cases of the calls on a model: lists 0 to 5 are shape, transition, emission, initial, end and samples, the outputs come after them.
// `rival` has its index in list 6, and then, before its outputs, what it gives beside its answer.
use answer::Answer;
use baum_welch::baum_welch;
use comparators::{answer_differs, changed, choice_differs, lent, untouched};
use frozen_list::cases::{ends_with, table, unpack, words};
use model::{Lent, Shape, Tables};
use program_io::words::word_at;
use rival::rival;
use viterbi::viterbi;

// The shape of a case, whose words are the first three of its lists: states, symbols, and 1 for an end state.
pub fn shape_of(case: &[u64]) -> Shape {
    Shape {
        states: word_at(case, 6) as usize,
        symbols: word_at(case, 7) as usize,
        ends: word_at(case, 8) == 1,
    }
}

// What a case of a call on a model is lent.
pub fn lent_of<'a>(case: &[u64], tables: &'a [f64], samples: &'a [u16]) -> Lent<'a> {
    let tables = Tables {
        shape: shape_of(case),
        transition: table(case, tables, 1),
        emission: table(case, tables, 2),
        initial: table(case, tables, 3),
        end: table(case, tables, 4),
    };
    Lent { tables, samples }
}

// A case of `viterbi`: the outputs are path, values and from.
pub fn viterbi_differs(case: &[u64], tables: &[f64], samples: &[u16]) -> bool {
    let mut path = untouched();
    let mut values = untouched();
    let mut from = untouched();
    let a = viterbi(
        &lent_of(case, tables, samples),
        lent(&mut path, case, 6),
        lent(&mut values, case, 7),
        lent(&mut from, case, 8),
    );
    answer_differs(case, a)
        | changed(&path, case, 6)
        | changed(&values, case, 7)
        | changed(&from, case, 8)
        | !ends_with(case, 8)
}

// A case of `forward` or of `backward`: the output is values.
pub fn walk_differs<F>(case: &[u64], tables: &[f64], samples: &[u16], walk: F) -> bool
where
    F: FnOnce(&Lent, &mut [f64]) -> Answer,
    requires { F.IsAlwaysCallable walk }
{
    let mut values = untouched();
    let a = walk(&lent_of(case, tables, samples), lent(&mut values, case, 6));
    answer_differs(case, a) | changed(&values, case, 6) | !ends_with(case, 6)
}

// A case of `baum_welch`: the outputs are the four new tables, alpha and beta.
pub fn baum_welch_differs(case: &[u64], tables: &[f64], samples: &[u16]) -> bool {
    let mut new_transition = untouched();
    let mut new_emission = untouched();
    let mut new_initial = untouched();
    let mut new_end = untouched();
    let mut alpha = untouched();
    let mut beta = untouched();
    let a = baum_welch(
        &lent_of(case, tables, samples),
        lent(&mut new_transition, case, 6),
        lent(&mut new_emission, case, 7),
        lent(&mut new_initial, case, 8),
        lent(&mut new_end, case, 9),
        lent(&mut alpha, case, 10),
        lent(&mut beta, case, 11),
    );
    answer_differs(case, a)
        | changed(&new_transition, case, 6)
        | changed(&new_emission, case, 7)
        | changed(&new_initial, case, 8)
        | changed(&new_end, case, 9)
        | changed(&alpha, case, 10)
        | changed(&beta, case, 11)
        | !ends_with(case, 11)
}

// A case of `rival`: the outputs are path, rival_path, values and from.
pub fn rival_differs(case: &[u64], tables: &[f64], samples: &[u16]) -> bool {
    let mut path = untouched();
    let mut rival_path = untouched();
    let mut values = untouched();
    let mut from = untouched();
    let rivalry = rival(
        &lent_of(case, tables, samples),
        word_at(words(case, 6), 0) as usize,
        lent(&mut path, case, 8),
        lent(&mut rival_path, case, 9),
        lent(&mut values, case, 10),
        lent(&mut from, case, 11),
    );
    answer_differs(case, rivalry.answer)
        | choice_differs(case, 7, rivalry.chosen, rivalry.best)
        | changed(&path, case, 8)
        | changed(&rival_path, case, 9)
        | changed(&values, case, 10)
        | changed(&from, case, 11)
        | !ends_with(case, 11)
}
