// The calls of the frozen list, by their numbers, and their names.
ghost use Rattle.std.specs.Prelude.{◌≡◌, Some, slice_get};
ghost use Rattle.std.specs.Fmt.{padded};
ghost use Rattle.frozen_list.specs.Calls.{name_of};

use std::fmt;

#[derive(Clone, Copy)]
pub enum Call {
    Viterbi,
    Forward,
    Backward,
    BaumWelch,
    Exp,
    Ln,
    LnOneMinusExp,
    LnSumExp,
    LnAddExp,
    LnSubExp,
    LnCumsumExp,
    CapNumericalOvershoot,
    IsValid,
    ProbChecked,
    LogProbFromProb,
    ProbFromLogProb,
    PhredProbFromLogProb,
    LogProbFromPhredProb,
    ReadModel,
    WriteModel,
    FileLength,
    Rival,
}

// Each call at its number.
pub const CALLS: [Call; 22] = [
    Call::Viterbi,
    Call::Forward,
    Call::Backward,
    Call::BaumWelch,
    Call::Exp,
    Call::Ln,
    Call::LnOneMinusExp,
    Call::LnSumExp,
    Call::LnAddExp,
    Call::LnSubExp,
    Call::LnCumsumExp,
    Call::CapNumericalOvershoot,
    Call::IsValid,
    Call::ProbChecked,
    Call::LogProbFromProb,
    Call::ProbFromLogProb,
    Call::PhredProbFromLogProb,
    Call::LogProbFromPhredProb,
    Call::ReadModel,
    Call::WriteModel,
    Call::FileLength,
    Call::Rival,
];

impl Call {
    // The name that the library gives it.
    fn name(&self) -> &'static str
        ensures { result.now ≡ name_of self.now }
    {
        match self {
            Call::Viterbi => "viterbi",
            Call::Forward => "forward",
            Call::Backward => "backward",
            Call::BaumWelch => "baum_welch",
            Call::Exp => "exp",
            Call::Ln => "ln",
            Call::LnOneMinusExp => "ln_one_minus_exp",
            Call::LnSumExp => "ln_sum_exp",
            Call::LnAddExp => "ln_add_exp",
            Call::LnSubExp => "ln_sub_exp",
            Call::LnCumsumExp => "ln_cumsum_exp",
            Call::CapNumericalOvershoot => "cap_numerical_overshoot",
            Call::IsValid => "is_valid",
            Call::ProbChecked => "Prob::checked",
            Call::LogProbFromProb => "LogProb::from_prob",
            Call::ProbFromLogProb => "Prob::from_log_prob",
            Call::PhredProbFromLogProb => "PHREDProb::from_log_prob",
            Call::LogProbFromPhredProb => "LogProb::from_phred_prob",
            Call::ReadModel => "read_model",
            Call::WriteModel => "write_model",
            Call::FileLength => "file_length",
            Call::Rival => "rival",
        }
    }
}

// A call is shown by its name.
impl fmt::Display for Call {
    ghost output = { λ call. Some (name_of call) };

    ghost styled_output = { λ call spec. Some (padded spec (name_of call)) };

    fn fmt<W: fmt::Write>(&self, f: &mut fmt::Formatter<W>) -> fmt::Result {
        f.pad(self.name())
    }
}

// The call that has this number; none where no call has it.
#[tactic(auto, using(crate::proofs::Copied::copied_item))]
pub fn call_at(number: u64) -> Option<Call>
    ensures { result ≡ slice_get CALLS number }
{
    CALLS.get(number as usize).copied()
}
