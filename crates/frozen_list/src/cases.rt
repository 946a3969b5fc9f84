// A case of the frozen list: the number of its call, the answer (refusal, table, place, the bits of the value), and from word 5 on its
// lists, each after its length.
ghost use Rattle.std.specs.Prelude.{◌≡◌, ◌%◌, ◌≤◌, IfSome};
ghost use Rattle.std.proofs.Math.ListN as ListN;
ghost use Rattle.lists.specs.Lists.{tab};
ghost use Rattle.frozen_list.specs.Cases.{span_at, span_of, list_of, table_of, ends_with};
ghost use Rattle.program_io.specs.Words.{word_at};

use program_io::words::{FromWord, word_at};

// The number of the case's call, whether or not it is altered.
pub fn call_of(case: &[u64]) -> u64
    ensures { result ≡ word_at case.now 0 % 64 }
{
    word_at(case, 0) % 64
}

// Where a list begins and ends.
#[derive(Clone, Copy)]
pub struct Span {
    start: usize,
    end: usize,
}

// The list whose length stands at `at`; none where the case has not all of it.
fn list_at(case: &[u64], at: usize) -> Option<Span>
    ensures found { result ≡ span_at case.now at }
    ensures within { IfSome result (λ s. (s.start ≤ s.end) × (s.end ≤ ListN.length case.now)) }
{
    let n = *case.get(at)? as usize;
    let start = at + 1;
    if n <= case.len() - start {
        Some(Span {
            start,
            end: start + n,
        })
    } else {
        None
    }
}

// The k-th list, from 0; none where the case has not all of it, or of one before it.
#[tactic(auto, unfolding(crate::specs::Cases::span_of))]
fn list(case: &[u64], k: usize) -> Option<Span>
    ensures found { result ≡ span_of case.now k }
    ensures within { IfSome result (λ s. (s.start ≤ s.end) × (s.end ≤ ListN.length case.now)) }
{
    let mut found = list_at(case, 5)?;
    for _ in 0..k {
        found = list_at(case, found.end)?;
    }
    Some(found)
}

// The words of the k-th list; no words where there is no such list.
pub fn words<'a>(case: &'a [u64], k: usize) -> &'a [u64]
    ensures { result.now ≡ list_of case.now k }
{
    match list(case, k) {
        Some(found) => &case[found.start..found.end],
        None => &[],
    }
}

// How many words the k-th list has.
pub fn length(case: &[u64], k: usize) -> usize
    ensures { result ≡ ListN.length (list_of case.now k) }
{
    words(case, k).len()
}

// The k-th list as numbers; none where there are fewer numbers.
pub fn table<'a, 'b>(case: &'b [u64], numbers: &'a [f64], k: usize) -> &'a [f64]
    ensures { result.now ≡ table_of case.now numbers.now k }
{
    match list(case, k) {
        Some(found) if found.end <= numbers.len() => &numbers[found.start..found.end],
        _ => &[],
    }
}

// Whether the k-th list is whole and the last.
pub fn ends_with(case: &[u64], k: usize) -> bool
    ensures { result ≡ ends_with case.now k }
{
    list(case, k).is_some_and(|found| found.end == case.len())
}

// What each word of the list says, as many as there are places; past the list's end a word is 0.
#[tactic(auto, unfolding(lists::specs::Lists::tab))]
pub fn unpack<W: FromWord>(list: &[u64], places: &mut [W])
    ensures { places.new ≡ tab (ListN.length places.old) (λ i. W.word_gives (word_at list.now i)) }
{
    for i in 0..places.len() {
        places[i] = W::from_word(word_at(list, i));
    }
}
