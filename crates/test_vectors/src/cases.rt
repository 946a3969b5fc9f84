// Whether a case differs from what its call does.
use crate::{files, walks};
use answer::{Answer, done};
use comparators::{answer_differs, changed, lent, untouched};
use frozen_list::calls::Call;
use frozen_list::cases::{ends_with, table, unpack, words};
use kernels::{exp, ln};
use likelihood::{backward, forward};
use probs::{LogProb, PHREDProb, Prob};
use program_io::words::{FromWord, word_at};

// A case that has an answer and no output.
fn alone_differs(case: &[u64], a: Answer) -> bool {
    answer_differs(case, a) | !ends_with(case, 0)
}

// A case of `ln_cumsum_exp`: list 1 is the output.
fn sums_differ(case: &[u64], arguments: &[f64]) -> bool {
    let mut sums = untouched();
    let a = LogProb::ln_cumsum_exp(arguments, lent(&mut sums, case, 1));
    answer_differs(case, a) | changed(&sums, case, 1) | !ends_with(case, 1)
}

// A case of any call. List 0 of a leaf is its arguments.
fn call_differs(case: &[u64], tables: &[f64], samples: &[u16], call: Call) -> bool {
    let arguments = table(case, tables, 0);
    let x = f64::from_word(word_at(words(case, 0), 0));
    let y = f64::from_word(word_at(words(case, 0), 1));
    match call {
        Call::Viterbi => walks::viterbi_differs(case, tables, samples),
        Call::Forward => walks::walk_differs(case, tables, samples, forward),
        Call::Backward => walks::walk_differs(case, tables, samples, backward),
        Call::BaumWelch => walks::baum_welch_differs(case, tables, samples),
        Call::Exp => alone_differs(case, exp(x)),
        Call::Ln => alone_differs(case, ln(x)),
        Call::LnOneMinusExp => alone_differs(case, LogProb(x).ln_one_minus_exp()),
        Call::LnSumExp => alone_differs(case, LogProb::ln_sum_exp(arguments)),
        Call::LnAddExp => alone_differs(case, LogProb(x).ln_add_exp(LogProb(y))),
        Call::LnSubExp => alone_differs(case, LogProb(x).ln_sub_exp(LogProb(y))),
        Call::LnCumsumExp => sums_differ(case, arguments),
        Call::CapNumericalOvershoot => alone_differs(case, LogProb(x).cap_numerical_overshoot(y)),
        Call::IsValid => alone_differs(case, done(if LogProb(x).is_valid() { 1.0 } else { 0.0 })),
        Call::ProbChecked => alone_differs(case, Prob::checked(x)),
        Call::LogProbFromProb => alone_differs(case, LogProb::from_prob(Prob(x))),
        Call::ProbFromLogProb => alone_differs(case, Prob::from_log_prob(LogProb(x))),
        Call::PhredProbFromLogProb => alone_differs(case, PHREDProb::from_log_prob(LogProb(x))),
        Call::LogProbFromPhredProb => alone_differs(case, LogProb::from_phred_prob(PHREDProb(x))),
        Call::ReadModel => files::read_differs(case),
        Call::WriteModel => files::write_differs(case, tables),
        Call::FileLength => alone_differs(case, files::length_answer(case)),
        Call::Rival => walks::rival_differs(case, tables, samples),
    }
}

// Whether the case differs from what its call does. Its words are laid out as numbers, and list 5 as the samples of a call on a model; a
// case that has too many of either differs.
pub fn differs(case: &[u64], call: Call) -> bool {
    let list = words(case, 5);
    let mut tables = [0.0; 8192];
    let mut samples = [0; 4097];
    match (tables.get_mut(..case.len()), samples.get_mut(..list.len())) {
        (Some(tables), Some(samples)) => {
            unpack(case, tables);
            unpack(list, samples);
            call_differs(case, tables, samples, call)
        }
        _ => true,
    }
}
