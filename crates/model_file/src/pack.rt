// From tables to a file's bytes, part by part. The caller shows that there is room and that no entry is NaN.
ghost use Rattle.std.specs.Prelude.{◌≡◌, ◌+◌, ◌*◌, ◌<◌, ◌≤◌, length};
ghost use Rattle.lists.specs.Lists.{over};
ghost use Rattle.little_endian.specs.Bytes.{bytes, sum};
ghost use Rattle.model.specs.Lent.{tables_behind};
ghost use Rattle.file_layout.specs.Layout as Spec;
ghost use Rattle.file_layout.specs.Layout.{bits};
ghost use Rattle.model.specs.Accepted.{InRange};
ghost use Rattle.model_file.specs.inner.Putting.{Numbers, Puttable, entry_of, contents_of, bodies_of};

use file_layout::layout::{count, flag, offset};
use little_endian::put;
use model::{Shape, Tables};

// The sum of a table's words, wrapping at 2^64.
#[tactic(auto, using(crate::proofs::Putting::summed_table))]
fn sum_of_table(table: &[f64]) -> u64
    requires { Numbers table.now }
    ensures { result ≡ sum (bits table.now) }
{
    let mut total: u64 = 0;
    for entry in table {
        total = total.wrapping_add(entry.to_bits());
    }
    total
}

// Writes a table's words from byte `at` on.
#[tactic(auto, using(crate::proofs::Putting::put_table))]
fn put_words(file: &mut [u8], at: usize, table: &[f64])
    requires { (at + 8 * length table.now ≤ length file.old) × Numbers table.now }
    ensures { file.new ≡ over at (bytes (bits table.now)) file.old }
{
    for (i, entry) in table.iter().enumerate() {
        put(file, at + 8 * i, 8, entry.to_bits());
    }
}

// Writes entry i of the contents: label and sum.
fn put_entry(file: &mut [u8], shape: Shape, i: usize, table: &[f64])
    requires { InRange shape × (i < 4) × (24 + i * 16 ≤ length file.old) × Numbers table.now }
    ensures { file.new ≡ over (8 + i * 16) (entry_of shape i table.now) file.old }
{
    put(file, 8 + i * 16, 4, i as u64);
    put(file, 12 + i * 16, 4, offset(shape, i) as u64);
    put(file, 16 + i * 16, 8, sum_of_table(table));
}

// Writes the first four numbers.
pub(crate) fn put_first(file: &mut [u8], shape: Shape)
    requires { 8 ≤ length file.old }
    ensures { file.new ≡ over 0 (Spec.first shape) file.old }
{
    put(file, 0, 2, shape.states as u64);
    put(file, 2, 2, shape.symbols as u64);
    put(file, 4, 2, flag(shape) as u64);
    put(file, 6, 2, count(shape) as u64);
}

// Writes the contents, from byte 8 on.
pub(crate) fn put_contents(file: &mut [u8], tables: &Tables)
    requires { Puttable (tables_behind tables.now) (length file.old) }
    ensures { file.new ≡ over 8 (contents_of (tables_behind tables.now)) file.old }
{
    let shape = tables.shape;
    put_entry(file, shape, 0, tables.transition);
    put_entry(file, shape, 1, tables.emission);
    put_entry(file, shape, 2, tables.initial);
    if shape.ends {
        put_entry(file, shape, 3, tables.end);
    }
}

// Writes the bodies, behind the contents.
pub(crate) fn put_bodies(file: &mut [u8], tables: &Tables)
    requires { Puttable (tables_behind tables.now) (length file.old) }
    ensures { file.new ≡ over (Spec.offset tables.now.shape 0) (bodies_of (tables_behind tables.now)) file.old }
{
    let shape = tables.shape;
    put_words(file, offset(shape, 0), tables.transition);
    put_words(file, offset(shape, 1), tables.emission);
    put_words(file, offset(shape, 2), tables.initial);
    if shape.ends {
        put_words(file, offset(shape, 3), tables.end);
    }
}
