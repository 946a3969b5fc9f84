// Where everything stands in the file of a shape, as numbers and byte by byte.
ghost use Rattle.std.specs.Prelude.{◌≡◌, ◌≤◌, ◌<◌, get_or};
ghost use Rattle.file_layout.specs.Layout as Spec;
ghost use Rattle.model.specs.Accepted.{InRange};

use little_endian::byte_of;
use model::Shape;

// How many tables the file has.
pub fn count(shape: Shape) -> usize
    ensures { result ≡ Spec.count shape }
{
    if shape.ends { 4 } else { 3 }
}

// The end flag, as a number.
pub fn flag(shape: Shape) -> usize
    ensures { result ≡ Spec.flag shape }
{
    usize::from(shape.ends)
}

// The words of table i.
#[tactic(auto, unfolding(crate::specs::Layout::size))]
pub fn size(shape: Shape, i: usize) -> usize
    requires { InRange shape }
    ensures { result ≡ Spec.size shape i }
{
    match i {
        0 => shape.states * shape.states,
        1 => shape.states * shape.symbols,
        _ => shape.states,
    }
}

// The byte at which body i starts. Where the one after the last would start, the file ends.
#[tactic(auto, using(crate::proofs::Bounds::offsets))]
pub fn offset(shape: Shape, i: usize) -> usize
    requires { InRange shape × (i ≤ 4) }
    ensures { result ≡ Spec.offset shape i }
{
    let mut at = 8 + count(shape) * 16;
    for k in 0..i {
        at += 8 * size(shape, k);
    }
    at
}

// Byte p of the first four numbers.
#[tactic(auto, using(crate::proofs::ByteAt::byte_of_first))]
pub(crate) fn first_byte(shape: Shape, p: usize) -> u8
    requires { p < 8 }
    ensures { result ≡ get_or (Spec.first shape) p 0 }
{
    let numbers = [shape.states, shape.symbols, flag(shape), count(shape)];
    byte_of(numbers[p / 2] as u64, p % 2)
}

// Byte j of the label of entry i.
#[tactic(auto, using(crate::proofs::ByteAt::label_bytes))]
pub(crate) fn label_byte(shape: Shape, i: usize, j: usize) -> u8
    requires { InRange shape × (i < 4) × (j < 8) }
    ensures { result ≡ get_or (Spec.label shape i) j 0 }
{
    let number = if j < 4 { i } else { offset(shape, i) };
    byte_of(number as u64, j % 4)
}
