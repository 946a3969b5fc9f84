// From a file's words to tables: each is laid over the front of a lent one. The caller shows that the words are there and good.
ghost use Rattle.std.specs.Prelude.{◌≡◌, ◌*◌, length};
ghost use Rattle.lists.specs.Lists.{part, over};
ghost use Rattle.little_endian.specs.Bytes.{words};
ghost use Rattle.file_layout.specs.Reading.{body_at, floats, end_at};
ghost use Rattle.model_file.specs.inner.Laying.{Layable, Laying, LayingEnd};

use file_layout::layout::{offset, size};
use little_endian::word_at;
use model::Shape;

// Lays n words from byte `at` on over the front of a table, as floats.
#[tactic(auto, using(crate::proofs::LaidWords::laid_words))]
fn lay_words(file: &[u8], at: usize, n: usize, table: &mut [f64])
    requires { Layable file.now at n table.old }
    ensures { table.new ≡ over 0 (floats (words n (part at (8 * n) file.now))) table.old }
{
    for i in 0..n {
        table[i] = f64::from_bits(word_at(file, at + 8 * i));
    }
}

// Lays table i of the file over the front of a lent one.
#[tactic(auto, using(crate::proofs::LaidWords::laid_table), unfolding(file_layout::specs::Reading::body_at))]
pub(crate) fn lay_table(shape: Shape, file: &[u8], i: usize, table: &mut [f64])
    requires { Laying shape file.now i (length table.old) }
    ensures { table.new ≡ over 0 (floats (body_at shape file.now i)) table.old }
{
    lay_words(file, offset(shape, i), size(shape, i), table);
}

// Lays the end table: that of the file, or +0.0 for each state.
#[tactic(auto, unfolding(lists::specs::Lists::over, file_layout::specs::Reading::end_at))]
pub(crate) fn lay_end(shape: Shape, file: &[u8], table: &mut [f64])
    requires { LayingEnd shape file.now (length table.old) }
    ensures { table.new ≡ over 0 (end_at shape file.now) table.old }
{
    if shape.ends {
        lay_table(shape, file, 3, table);
    } else {
        table[..shape.states].fill(0.0);
    }
}
