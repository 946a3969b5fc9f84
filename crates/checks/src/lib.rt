// The checks that a call on a model makes before it reads a sample, a function for each slot of them. What goes in is the shape, lengths
// and contents; what comes out is nothing, or the refusal of the first fault; nothing is written.

#![tactic(auto)]

ghost use Rattle.std.specs.Prelude.{◌≡◌, true, false, not, ◌&&◌, ◌||◌, ◌+◌, ◌*◌, ◌≤◌, [], ◌∷◌, Option, Result, eqb, ltb, length};
ghost use Rattle.std.specs.List.{position};
ghost use Rattle.lists.specs.Lists.{some_bad};
ghost use Rattle.answer.specs.Checks.{first_fault};
ghost use Rattle.model.specs.Lent.{behind, tables_behind};
ghost use Rattle.model.specs.Good.{good, good_end};
ghost use Rattle.checks.specs.Rooms.{room};
ghost use Rattle.checks.specs.Checks.{shape_tests, count_tests, unfit_test, room_tests, entry_tests, is_symbol, sample_tests};
ghost use Rattle.checks.specs.inner.Parts.{GoodBlocks, refused_at, sizes_of, size_tests, rest_tests};

use answer::{Checked, Refusal, refused};
use model::{Lent, Shape, Tables, is_good_end, is_set, mark};

// How many entries are looked at as one: enough that the compiler keeps a loop over them and does not write each of them out.
const BLOCK: usize = 128;

// A lent buffer as its length: the places that it needs, and those that it has.
#[derive(Clone, Copy)]
pub struct Room {
    pub needed: usize,
    pub lent: usize,
}

impl Room {
    // The buffer that needs so many places and has so many.
    pub fn of(needed: usize, lent: usize) -> Room
        ensures { result ≡ room needed lent }
    {
        Room { needed, lent }
    }
}

// Whether a number of states or symbols is 0 or above the most that there may be.
fn is_out_of_range(count: usize, most: usize) -> bool
    ensures { result ≡ (eqb count 0 || ltb most count) }
{
    count == 0 || most < count
}

// Refusals 1 and 2.
pub fn check_shape(shape: Shape) -> Checked
    ensures { result ≡ first_fault (shape_tests shape) }
{
    if is_out_of_range(shape.states, 64) {
        return Err(refused(Refusal::BadStates, 0, shape.states));
    }
    if is_out_of_range(shape.symbols, 256) {
        return Err(refused(Refusal::BadSymbols, 0, shape.symbols));
    }
    Ok(())
}

// Whether a call that needs a sample has none.
fn is_without_sample(needs_sample: bool, samples: usize) -> bool
    ensures { result ≡ (needs_sample && eqb samples 0) }
{
    needs_sample && samples == 0
}

// Refusals 3 and 4, by the number of samples. Whether the call needs a sample decides 4.
pub fn check_count(needs_sample: bool, samples: usize) -> Checked
    ensures { result ≡ first_fault (count_tests needs_sample samples) }
{
    if 4096 < samples {
        return Err(refused(Refusal::TooManySamples, 4, samples));
    }
    if is_without_sample(needs_sample, samples) {
        return Err(refused(Refusal::NoSamples, 4, 0));
    }
    Ok(())
}

// Refusal 5 of one buffer, which needs exactly its places, or 6, where more will do.
fn check_room(exact: bool, number: u8, room: Room) -> Checked
    ensures { result ≡ first_fault (unfit_test exact number room ∷ []) }
{
    if exact {
        if room.lent != room.needed {
            return Err(refused(Refusal::WrongLength, number, room.lent));
        }
        return Ok(());
    }
    if room.lent < room.needed {
        return Err(refused(Refusal::OutputTooShort, number, room.lent));
    }
    Ok(())
}

// Refusal 5 of tables and further inputs, or 6 of outputs: buffers in order, numbered from `first` on.
pub fn check_rooms(exact: bool, first: u8, rooms: &[Room]) -> Checked
    requires { first + length rooms.now ≤ 256 }
    ensures { result ≡ first_fault (room_tests exact first rooms.now) }
{
    for (i, room) in rooms.iter().enumerate() {
        check_room(exact, first + i as u8, *room)?;
    }
    Ok(())
}

// The first place of an end table whose entry is not good, if there is one.
pub fn first_bad_end(ends: bool, table: &[f64]) -> Option<usize>
    ensures { result ≡ position (λ x. not (good_end ends x)) table.now }
{
    table.iter().position(|entry| !is_good_end(ends, *entry))
}

// Whether every entry is good. No entry has a branch of its own: the marks are gathered, and their top bit is looked at once.
fn are_good(table: &[f64]) -> bool
    ensures { result ≡ not (some_bad good table.now) }
{
    let mut marks = u64::MAX;
    for entry in table {
        marks &= mark(*entry);
    }
    is_set(marks)
}

// How many whole blocks of entries are good, up to the first that is not: each is looked at as one.
fn good_blocks(table: &[f64]) -> usize
    ensures { GoodBlocks table.now result }
{
    let blocks = table.len() / BLOCK;
    for k in 0..blocks {
        let start = k * BLOCK;
        let end = start + BLOCK;
        if !are_good(&table[start..end]) {
            return k;
        }
    }
    blocks
}

// The first place of any other table whose entry is not good, if there is one. It is searched from the first block on that is not good, or
// where no whole block is left.
pub fn first_bad(table: &[f64]) -> Option<usize>
    ensures { result ≡ position (λ x. not (good x)) table.now }
{
    let start = good_blocks(table) * BLOCK;
    let place = first_bad_end(true, &table[start..])?;
    Some(start + place)
}

// The refusal of a table's first bad place, if there is one.
fn refuse_at(refusal: Refusal, table: u8, place: Option<usize>) -> Checked
    ensures { result ≡ refused_at refusal table place }
{
    match place {
        Some(place) => Err(refused(refusal, table, place)),
        None => Ok(()),
    }
}

// Refusal 7.
pub fn check_entries(tables: &Tables) -> Checked
    ensures { result ≡ first_fault (entry_tests (tables_behind tables.now)) }
{
    refuse_at(Refusal::NotGood, 0, first_bad(tables.transition))?;
    refuse_at(Refusal::NotGood, 1, first_bad(tables.emission))?;
    refuse_at(Refusal::NotGood, 2, first_bad(tables.initial))?;
    refuse_at(
        Refusal::NotGood,
        3,
        first_bad_end(tables.shape.ends, tables.end),
    )
}

// The first place of a sample that is no symbol, if there is one.
pub fn first_bad_sample(symbols: usize, samples: &[u16]) -> Option<usize>
    ensures { result ≡ position (λ x. not (is_symbol symbols x)) samples.now }
{
    samples
        .iter()
        .position(|sample| symbols <= *sample as usize)
}

// Refusal 8.
pub fn check_samples(symbols: usize, samples: &[u16]) -> Checked
    ensures { result ≡ first_fault (sample_tests symbols samples.now) }
{
    refuse_at(
        Refusal::UnknownSymbol,
        4,
        first_bad_sample(symbols, samples),
    )
}

// Refusals 1 to 5 of a call on one passage, by the shape and the lengths of its tables and samples.
pub fn check_sizes(
    needs_sample: bool,
    shape: Shape,
    transition: usize,
    emission: usize,
    initial: usize,
    end: usize,
    samples: usize,
) -> Checked
    ensures { result ≡ first_fault (sizes_of needs_sample shape transition emission initial end samples) }
{
    check_shape(shape)?;
    check_count(needs_sample, samples)?;
    let states = shape.states;
    let rooms = [
        Room::of(states * states, transition),
        Room::of(states * shape.symbols, emission),
        Room::of(states, initial),
        Room::of(states, end),
    ];
    check_rooms(true, 0, &rooms)
}

// The same of what the call is lent.
pub fn check_lengths(needs_sample: bool, lent: &Lent) -> Checked
    ensures { result ≡ first_fault (size_tests needs_sample (behind lent.now)) }
{
    let tables = lent.tables;
    check_sizes(
        needs_sample,
        tables.shape,
        tables.transition.len(),
        tables.emission.len(),
        tables.initial.len(),
        tables.end.len(),
        lent.samples.len(),
    )
}

// Refusals 6 to 8 of a call on one passage: its outputs, the entries of its tables, its samples.
pub fn check_rest(lent: &Lent, outputs: &[Room]) -> Checked
    requires { 5 + length outputs.now ≤ 256 }
    ensures { result ≡ first_fault (rest_tests outputs.now (behind lent.now)) }
{
    let tables = lent.tables;
    check_rooms(false, 5, outputs)?;
    check_entries(&tables)?;
    check_samples(tables.shape.symbols, lent.samples)
}
