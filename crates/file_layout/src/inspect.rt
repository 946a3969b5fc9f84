// What is wrong with a file, if anything: its layout (1, 2, 13), its sums (14) and its words (7). Nothing is written.
ghost use Rattle.std.specs.Prelude.{◌≡◌, not, ◌+◌, ◌*◌, ◌≤◌, ◌<◌, eqb, length, get_or};
ghost use Rattle.lists.specs.Lists.{part, first_bad, some_bad};
ghost use Rattle.little_endian.specs.Bytes.{words, sum};
ghost use Rattle.answer.specs.Checks.{first_fault};
ghost use Rattle.model.specs.Good.{good_bits};
ghost use Rattle.file_layout.specs.Layout as Spec;
ghost use Rattle.file_layout.specs.Reading.{shape_of, body_at, sum_of};
ghost use Rattle.file_layout.specs.Checks.{any, meets, pattern, first_wrong, some_wrong, sum_tests, file_tests, word_tests};
ghost use Rattle.model.specs.Accepted.{InRange};
ghost use Rattle.file_layout.specs.inner.Found.{Found};
ghost use Rattle.file_layout.specs.inner.Whole.{Whole};

use crate::layout::{count, first_byte, label_byte, offset, size};
use answer::{Checked, Refusal, refused};
use checks::check_shape;
use little_endian::{sum_of, two_bytes_at, word_at};
use model::{Shape, is_good_word, is_set, mark_of_word};

// The shape that the first four numbers give.
#[tactic(auto, unfolding(crate::specs::Reading::shape_of))]
pub fn shape_of(file: &[u8]) -> Shape
    requires { 8 ≤ length file.now }
    ensures { result ≡ shape_of file.now }
{
    Shape {
        states: two_bytes_at(file, 0) as usize,
        symbols: two_bytes_at(file, 2) as usize,
        ends: file[4] == 1,
    }
}

// Whether byte b is right at place p, before the bodies.
#[tactic(auto, using(crate::proofs::Scanned::demanded))]
fn is_met(shape: Shape, p: usize, b: u8) -> bool
    requires { InRange shape × (p < 8 + Spec.count shape * 16) }
    ensures { result ≡ meets (get_or (pattern shape) p any) b }
{
    if p < 8 {
        return first_byte(shape, p) == b;
    }
    let i = (p - 8) / 16;
    let j = (p - 8) % 16;
    8 <= j || label_byte(shape, i, j) == b
}

// The place of the first byte that is wrong, missing or left over.
#[tactic(auto, using(crate::proofs::Scanned::scanned))]
fn first_wrong(shape: Shape, file: &[u8]) -> Option<usize>
    requires { InRange shape }
    ensures { Found (some_wrong (pattern shape) file.now) (first_wrong (pattern shape) file.now) result }
{
    let known = 8 + count(shape) * 16;
    for p in 0..known.min(file.len()) {
        if !is_met(shape, p, file[p]) {
            return Some(p);
        }
    }
    let whole = offset(shape, count(shape));
    if file.len() == whole {
        return None;
    }
    Some(whole.min(file.len()))
}

// Whether the sum of table i is right. The caller shows that the layout is right.
#[tactic(auto, using(crate::proofs::Within::standing), unfolding(crate::specs::Reading::body_at, crate::specs::Reading::sum_of))]
fn is_summed(shape: Shape, file: &[u8], i: usize) -> bool
    requires { Whole shape file.now × (i < Spec.count shape) }
    ensures { result ≡ eqb (sum (body_at shape file.now i)) (sum_of file.now i) }
{
    let right = sum_of(file, offset(shape, i), size(shape, i));
    right == word_at(file, 16 + i * 16)
}

// Refusal 14. The caller shows that the layout is right.
fn check_sums(shape: Shape, file: &[u8]) -> Checked
    requires { Whole shape file.now }
    ensures { result ≡ first_fault (sum_tests file.now) }
{
    for i in 0..count(shape) {
        if !is_summed(shape, file, i) {
            return Err(refused(Refusal::BadSum, i as u8, 0));
        }
    }
    Ok(())
}

// Refusals 1, 2, 13 and 14.
pub fn check_file(file: &[u8]) -> Checked
    ensures { result ≡ first_fault (file_tests file.now) }
{
    let len = file.len();
    if len < 8 {
        return Err(refused(Refusal::BadLayout, 0, len));
    }
    let shape = shape_of(file);
    check_shape(shape)?;
    if let Some(place) = first_wrong(shape, file) {
        return Err(refused(Refusal::BadLayout, 0, place));
    }
    check_sums(shape, file)
}

// Whether n words from byte `at` on are good. No word has a branch of its own: the marks are gathered, and their top bit is looked at once.
#[tactic(auto, using(crate::proofs::Words::gathered_marks))]
fn are_good_words(file: &[u8], at: usize, n: usize) -> bool
    requires { at + 8 * n ≤ length file.now }
    ensures { result ≡ not (some_bad good_bits (words n (part at (8 * n) file.now))) }
{
    let mut marks = u64::MAX;
    for i in 0..n {
        marks &= mark_of_word(word_at(file, at + 8 * i));
    }
    is_set(marks)
}

// The first of n words from byte `at` on that is not good.
#[tactic(auto, using(crate::proofs::Words::good_all))]
fn first_bad_word(file: &[u8], at: usize, n: usize) -> Option<usize>
    requires { at + 8 * n ≤ length file.now }
    ensures { let all = words n (part at (8 * n) file.now) in
        Found (some_bad good_bits all) (first_bad good_bits all) result }
{
    for i in 0..n {
        if !is_good_word(word_at(file, at + 8 * i)) {
            return Some(i);
        }
    }
    None
}

// The first word of body i that is not good: the place is searched only where one is. The caller shows that the layout is right.
#[tactic(auto, using(crate::proofs::Within::standing), unfolding(crate::specs::Reading::body_at))]
fn first_bad_of(shape: Shape, file: &[u8], i: usize) -> Option<usize>
    requires { Whole shape file.now × (i < Spec.count shape) }
    ensures { let all = body_at shape file.now i in
        Found (some_bad good_bits all) (first_bad good_bits all) result }
{
    let at = offset(shape, i);
    let n = size(shape, i);
    if are_good_words(file, at, n) {
        return None;
    }
    first_bad_word(file, at, n)
}

// Refusal 7. The caller shows that the layout is right.
pub fn check_words(shape: Shape, file: &[u8]) -> Checked
    requires { Whole shape file.now }
    ensures { result ≡ first_fault (word_tests file.now) }
{
    for i in 0..count(shape) {
        if let Some(place) = first_bad_of(shape, file, i) {
            return Err(refused(Refusal::NotGood, i as u8, place));
        }
    }
    Ok(())
}
