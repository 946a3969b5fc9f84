// The model's shape, what a call on a model is lent, the read of an entry, and which entries are good.

#![tactic(auto)]

ghost use Rattle.std.specs.Prelude.{◌≡◌, ◌<◌, ◌||◌, length, ◌==◌};
ghost use Rattle.floats.specs.Float.{at};
ghost use Rattle.model.specs.Good.{good, good_end, good_bits};
ghost use Rattle.model.specs.inner.Marks.{is_set};

use floats::{is_number, is_plus_zero};

// S states, M symbols, and whether the model has an end state.
#[derive(Clone, Copy)]
pub struct Shape {
    pub states: usize,
    pub symbols: usize,
    pub ends: bool,
}

// A model as a call is lent it: its shape and the four tables by rows, numbered 0 to 3.
#[derive(Clone, Copy)]
pub struct Tables<'a> {
    pub shape: Shape,
    pub transition: &'a [f64],
    pub emission: &'a [f64],
    pub initial: &'a [f64],
    pub end: &'a [f64],
}

// And number 4, the samples.
#[derive(Clone, Copy)]
pub struct Lent<'a> {
    pub tables: Tables<'a>,
    pub samples: &'a [u16],
}

// Entry i of a table. The caller shows that the table has one: every read of a table in a walk is made here.
pub fn entry(table: &[f64], i: usize) -> f64
    requires { i < length table.now }
    ensures { result ≡ at table.now i }
{
    table[i]
}

// The mark of a word: its top bit is set where the word is 0 or has its own top bit set, as the bits of every number that is at most 0.
fn mark_of_bits(w: u64) -> u64
    ensures { is_set result ≡ (w == 0 || is_set w) }
{
    w | w.wrapping_sub(1)
}

// The mark of an entry: its top bit is set where the entry is good. It comes of the entry's bits, so that a processor which takes subnormal
// numbers for zero sees +2^-1074 too. The language has no bits of a NaN: its mark is 0, of which the compiler makes a select and no branch.
pub fn mark(x: f64) -> u64
    ensures { is_set result ≡ good x }
{
    if !is_number(x) {
        return 0;
    }
    mark_of_bits(x.to_bits())
}

// Whether a mark has its top bit set.
pub fn is_set(mark: u64) -> bool
    ensures { result ≡ is_set «mark» }
{
    0x8000000000000000 <= mark
}

// The mark of a word: its top bit is set where the word is that of a good entry. A word with its top bit set is one up to minus infinity's,
// where adding all bits of the fraction does not wrap; a word without it is one where it is 0, so that the word below it wraps. There is no
// comparison, which of whole numbers the processor cannot make for two words at once.
pub fn mark_of_word(w: u64) -> u64
    ensures { is_set result ≡ good_bits w }
{
    let below = w.wrapping_sub(1);
    let past = w.wrapping_add(0x000fffffffffffff);
    (w & past) | ((u64::MAX - w) & below)
}

// Whether a word is that of a good entry.
pub fn is_good_word(w: u64) -> bool
    ensures { result ≡ good_bits w }
{
    is_set(mark_of_word(w))
}

// Whether an entry is not NaN and at most 0.
pub fn is_good(x: f64) -> bool
    ensures { result ≡ good x }
{
    is_set(mark(x))
}

// Whether an entry of the end table is good: at most 0 where there is an end state, and +0.0 where there is none.
pub fn is_good_end(ends: bool, x: f64) -> bool
    ensures { result ≡ good_end ends x }
{
    if ends {
        return is_good(x);
    }
    is_plus_zero(x)
}
