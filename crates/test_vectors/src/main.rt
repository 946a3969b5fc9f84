// Replays the frozen list of rust/FROZEN.md: every case on standard input is a call with all that it is lent, its answer, and its outputs
// as they are afterwards. Each call is made through the public functions; answer and outputs are compared word by word, surplus included.
// A line for each call says how many cases are the same and how many differ, and then the same of the cases that the list marks as
// altered, each of which has one word that is wrong and must differ.

#![tactic(auto)]

ghost use Rattle.std.specs.Prelude.{◌<◌, IfOk, IfSome};

mod cases;
mod files;
mod report;
mod walks;

use frozen_list::calls::call_at;
use frozen_list::cases::call_of;
use frozen_list::tally;
use frozen_list::tally::KINDS;
use program_io::words::{read_full, read_words};
use std::io;
use std::io::Read;

// The kind of the case that fills the space; none where the input has not all of it, or there is no such call.
fn replay_case(input: &mut impl Read, space: &mut [u64]) -> io::Result<Option<usize>>
    ensures { IfOk result (λ kind. IfSome kind (λ k. k < 256)) }
{
    if read_words(input, space)? < space.len() {
        return Ok(None);
    }
    match call_at(call_of(space)) {
        Some(call) => Ok(tally::kind(space, cases::differs(space, call))),
        None => Ok(None),
    }
}

// The kind of the next case of the input; none where there is no such case.
fn replay_next(input: &mut impl Read) -> io::Result<Option<usize>>
    ensures { IfOk result (λ kind. IfSome kind (λ k. k < 256)) }
{
    let mut size = [0; 1];
    let mut space = [0; 8192];
    if read_words(input, &mut size)? < 1 || size[0] > 8192 {
        return Ok(None);
    }
    replay_case(input, &mut space[..size[0] as usize])
}

// Whether the input is at its end.
fn ended(input: &mut impl Read) -> io::Result<bool> {
    let mut after = [0; 1];
    Ok(read_full(input, &mut after)? == 0)
}

// Replays so many cases and counts them by their kinds; whether the input has all of them.
fn count_cases(input: &mut impl Read, count: u64, counts: &mut [u64; KINDS]) -> io::Result<bool> {
    for _ in 0..count {
        let Some(kind) = replay_next(input)? else {
            return Ok(false);
        };
        tally::add(counts, kind);
    }
    Ok(true)
}

// Replays so many cases and prints what they came to.
fn replay(rt: &impl Print, input: &mut impl Read, count: u64) -> io::Result<()> {
    let mut counts = [0; KINDS];
    let whole = count_cases(input, count, &mut counts)?;
    report::print(rt, &counts)?;
    if !whole || !ended(input)? {
        println!(rt; "the list is not whole")?;
    }
    Ok(())
}

fn main(rt: HostRuntime) -> io::Result<()> {
    let mut input = rt.stdin();
    let mut count = [0; 1];
    read_words(&mut input, &mut count)?;
    replay(&rt, &mut input, count[0])
}
