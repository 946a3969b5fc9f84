// The cases of the model file: `read_model` has the file in list 0, then the shape and the tables that it is to leave; `write_model` has
// shape, transition, emission, initial and end in lists 0 to 4, then the file that it is to leave; `file_length` has a shape alone.
use crate::walks::{lent_of, shape_of};
use answer::{Answer, done};
use comparators::{MOST, answer_differs, changed, lent, shape_differs, untouched};
use frozen_list::cases::{ends_with, unpack, words};
use model_file::{file_length, read_model, write_model};
use std::num::nearest_usize_to_f64;

// A case of `read_model`, with its file: the outputs are the four tables, and the shape comes with the answer.
fn read_model_differs(case: &[u64], file: &[u8]) -> bool {
    let mut transition = untouched();
    let mut emission = untouched();
    let mut initial = untouched();
    let mut end = untouched();
    let reading = read_model(
        file,
        lent(&mut transition, case, 2),
        lent(&mut emission, case, 3),
        lent(&mut initial, case, 4),
        lent(&mut end, case, 5),
    );
    answer_differs(case, reading.answer)
        | shape_differs(case, 1, reading.shape)
        | changed(&transition, case, 2)
        | changed(&emission, case, 3)
        | changed(&initial, case, 4)
        | changed(&end, case, 5)
        | !ends_with(case, 5)
}

// A case of `read_model`. No file has more bytes than an output has places.
pub fn read_differs(case: &[u64]) -> bool {
    let list = words(case, 0);
    let mut space = [0; MOST];
    match space.get_mut(..list.len()) {
        Some(file) => {
            unpack(list, file);
            read_model_differs(case, file)
        }
        None => true,
    }
}

// A case of `write_model`: the output is the file.
pub fn write_differs(case: &[u64], tables: &[f64]) -> bool {
    let mut file = untouched();
    let model = lent_of(case, tables, &[]).tables;
    let a = write_model(&model, lent(&mut file, case, 5));
    answer_differs(case, a) | changed(&file, case, 5) | !ends_with(case, 5)
}

// The answer of a case of `file_length`, whose value is the length.
pub fn length_answer(case: &[u64]) -> Answer {
    done(nearest_usize_to_f64(file_length(shape_of(case))))
}
