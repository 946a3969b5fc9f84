// How numbers and answers stand on lines of standard output.
use answer::Answer;
use std::fmt;

// A number by its bits, as 16 hexadecimal digits, and a NaN by its name.
#[derive(Clone, Copy)]
pub struct Bits(pub f64);

impl fmt::Display for Bits {
    fn fmt<W: fmt::Write>(&self, f: &mut fmt::Formatter<W>) -> fmt::Result {
        if self.0.is_nan() {
            return write!(f, "nan");
        }
        write!(f, "{:016x}", self.0.to_bits())
    }
}

// An answer by its refusal's number, its table, its place and its value.
#[derive(Clone, Copy)]
pub struct Shown(pub Answer);

impl fmt::Display for Shown {
    fn fmt<W: fmt::Write>(&self, f: &mut fmt::Formatter<W>) -> fmt::Result {
        let Answer {
            refusal,
            table,
            place,
            value,
        } = self.0;
        write!(f, "{} {table} {place} {}", refusal.number(), Bits(value))
    }
}
