// The model file, read and written: little-endian, contents first, a sum for each table. What goes in is a file or a model; what comes out
// is the answer, with the shape beside it from the reader, and the model or the file in lent memory. Refused, nothing is written.

#![tactic(auto)]

mod pack;
mod unpack;

ghost use Rattle.std.specs.Prelude.{◌≡◌};
ghost use Rattle.answer.specs.Checks.{first_fault};
ghost use Rattle.model.specs.Lent.{tables_behind};
ghost use Rattle.checks.specs.Checks.{tables_fault};
ghost use Rattle.file_layout.specs.Checks.{read_tests, write_rooms};
ghost use Rattle.model_file.specs.Call.{outputs, Read, Written, length_of};

use crate::pack::{put_bodies, put_contents, put_first};
use crate::unpack::{lay_end, lay_table};
use answer::{Answer, Checked, done};
use checks::{Room, check_entries, check_rooms, check_shape, check_sizes};
use file_layout::inspect::{check_file, check_words, shape_of};
use file_layout::layout::{count, offset};
use model::{Shape, Tables};

// What a reader gives back: its answer, and the shape of the model that it read. Refused, the shape is that of no model.
#[derive(Clone, Copy)]
pub struct Reading {
    pub answer: Answer,
    pub shape: Shape,
}

// The bytes of a file of this shape; 0 for a shape that no model has.
#[tactic(auto, using(file_layout::proofs::FileChecks::file_range), unfolding(crate::specs::Call::length_of))]
pub fn file_length(shape: Shape) -> usize
    ensures { result ≡ length_of shape }
{
    if check_shape(shape).is_err() {
        return 0;
    }
    offset(shape, count(shape))
}

// The shape of no model.
const NO_SHAPE: Shape = Shape {
    states: 0,
    symbols: 0,
    ends: false,
};

// All checks of a reader, by the lengths of the four tables that it is lent.
fn check_read(
    file: &[u8],
    transition: usize,
    emission: usize,
    initial: usize,
    end: usize,
) -> Checked
    ensures { result ≡ first_fault (read_tests file.now transition emission initial end) }
{
    check_file(file)?;
    let shape = shape_of(file);
    let states = shape.states;
    let outputs = [
        Room::of(states * states, transition),
        Room::of(states * shape.symbols, emission),
        Room::of(states, initial),
        Room::of(states, end),
    ];
    check_rooms(false, 6, &outputs)?;
    check_words(shape, file)
}

// Reads a model file into the four lent tables. The file is input 5, the tables are outputs 6 to 9. Without an end state in the file the
// end table is filled with +0.0.
#[tactic(auto, using(crate::proofs::ReadChecks::laying_steps))]
pub fn read_model(
    file: &[u8],
    transition: &mut [f64],
    emission: &mut [f64],
    initial: &mut [f64],
    end: &mut [f64],
) -> Reading
    ensures { Read
        file.now
        (outputs transition.old emission.old initial.old end.old)
        result
        (outputs transition.new emission.new initial.new end.new) }
{
    if let Err(answer) = check_read(
        file,
        transition.len(),
        emission.len(),
        initial.len(),
        end.len(),
    ) {
        return Reading {
            answer,
            shape: NO_SHAPE,
        };
    }
    let shape = shape_of(file);
    lay_table(shape, file, 0, transition);
    lay_table(shape, file, 1, emission);
    lay_table(shape, file, 2, initial);
    lay_end(shape, file, end);
    Reading {
        answer: done(0.0),
        shape,
    }
}

// All checks of a writer, by the length of the output that it is lent.
fn check_write(tables: &Tables, file: usize) -> Checked
    ensures { result ≡ tables_fault (write_rooms tables.now.shape file) (tables_behind tables.now) }
{
    let shape = tables.shape;
    check_sizes(
        false,
        shape,
        tables.transition.len(),
        tables.emission.len(),
        tables.initial.len(),
        tables.end.len(),
        0,
    )?;
    let needed = offset(shape, count(shape));
    check_rooms(false, 5, &[Room::of(needed, file)])?;
    check_entries(tables)
}

// Writes the file of a model over the front of output 5.
pub fn write_model(tables: &Tables, file: &mut [u8]) -> Answer
    ensures { Written (tables_behind tables.now) file.old result file.new }
{
    if let Err(refusal) = check_write(tables, file.len()) {
        return refusal;
    }
    put_first(file, tables.shape);
    put_contents(file, tables);
    put_bodies(file, tables);
    done(0.0)
}
