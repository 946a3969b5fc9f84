// The answer of every public call: which refusal, which table, the place in it, and a value. What goes in is the case; what comes
// out is made in one place, so that a field added to the answer is one edit.

#![tactic(auto)]

ghost use Rattle.std.specs.Prelude.{◌≡◌};
ghost use Rattle.answer.specs.Answer as Spec;
ghost use Rattle.answer.specs.Answer.{number_of, refuse, is_done};

use floats::minus_infinity;

// Why a call was refused, in the order of the numbers (RULES 3.2).
#[derive(Clone, Copy, PartialEq, Eq)]
pub enum Refusal {
    // 0: not refused.
    Done,
    // 1: S is 0 or above 64.
    BadStates,
    // 2: M is 0 or above 256.
    BadSymbols,
    // 3: T is above 4,096.
    TooManySamples,
    // 4: T is 0 in forward or a training pass.
    NoSamples,
    // 5: a model table has a wrong length.
    WrongLength,
    // 6: an output or scratch is too short.
    OutputTooShort,
    // 7: an entry is not good, or a kernel's argument is outside its domain.
    NotGood,
    // 8: a sample is M or more.
    UnknownSymbol,
    // 9: a training pass meets zero mass.
    ZeroMass,
    // 10: ln_sub_exp is called with p0 < p1.
    NegativeDifference,
    // 11: a value overshoots 0 by more than epsilon.
    Overshoot,
    // 13: a model file has another layout than its shape gives.
    BadLayout,
    // 14: a sum of a model file is not that of its body.
    BadSum,
    // 15: every path with another state at the sample scores minus infinity.
    NoRival,
    // 16: the sample that is asked for is T or more.
    BadIndex,
}

// What every public call gives back, by value.
#[derive(Clone, Copy)]
pub struct Answer {
    pub refusal: Refusal,
    pub table: u8,
    pub place: usize,
    pub value: f64,
}

impl Refusal {
    // The number of a refusal (RULES 3.2).
    pub fn number(self) -> u8
        ensures { result ≡ number_of self }
    {
        match self {
            Refusal::Done => 0,
            Refusal::BadStates => 1,
            Refusal::BadSymbols => 2,
            Refusal::TooManySamples => 3,
            Refusal::NoSamples => 4,
            Refusal::WrongLength => 5,
            Refusal::OutputTooShort => 6,
            Refusal::NotGood => 7,
            Refusal::UnknownSymbol => 8,
            Refusal::ZeroMass => 9,
            Refusal::NegativeDifference => 10,
            Refusal::Overshoot => 11,
            Refusal::BadLayout => 13,
            Refusal::BadSum => 14,
            Refusal::NoRival => 15,
            Refusal::BadIndex => 16,
        }
    }
}

// The call is done, and this is its value.
pub fn done(value: f64) -> Answer
    ensures { result ≡ Spec.done value }
{
    Answer {
        refusal: Refusal::Done,
        table: 0,
        place: 0,
        value,
    }
}

// The call is refused: its value is minus infinity.
pub fn refused(refusal: Refusal, table: u8, place: usize) -> Answer
    ensures { result ≡ refuse refusal table place }
{
    Answer {
        refusal,
        table,
        place,
        value: minus_infinity(),
    }
}

impl Answer {
    // Whether it is no refusal.
    pub fn is_done(self) -> bool
        ensures { result ≡ is_done self }
    {
        self.refusal == Refusal::Done
    }
}

// What a check says: nothing, or the answer that refuses the call.
pub type Checked = Result<(), Answer>;
