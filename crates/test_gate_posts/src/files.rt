// The examples of the model file: F1 to F5.
use crate::models::{EMISSION, INITIAL, TRANSITION, lend, shape};
use crate::print;
use model_file::{read_model, write_model};
use program_io::lines::Shown;
use std::io;

// Model P, with an end state or without one, written: the answer and the lent bytes.
fn write(rt: &impl Print, label: &str, ends: bool, end: &[f64], file: &mut [u8]) -> io::Result<()> {
    let lent = lend(shape(2, ends), &TRANSITION, &EMISSION, &INITIAL, end, &[]);
    let a = write_model(&lent.tables, &mut file[..]);
    print!(rt; "{label}: {}", Shown(a))?;
    print::bytes(rt, file)?;
    println!(rt)
}

// A file, read into tables of NaN: the answer, the shape and the tables.
fn read(rt: &impl Print, label: &str, file: &[u8]) -> io::Result<()> {
    let mut transition = [f64::NAN; 4];
    let mut emission = [f64::NAN; 4];
    let mut initial = [f64::NAN; 2];
    let mut end = [f64::NAN; 2];
    let reading = read_model(file, &mut transition, &mut emission, &mut initial, &mut end);
    print!(rt; "{label}: {}", Shown(reading.answer))?;
    print::shape(rt, reading.shape)?;
    print::entries(rt, &transition)?;
    print::entries(rt, &emission)?;
    print::entries(rt, &initial)?;
    print::entries(rt, &end)?;
    println!(rt)
}

// F1 to F4: the file of model P has 136 bytes, and the output one more. Byte 119 is the last of the emission body.
pub fn model_p(rt: &impl Print) -> io::Result<()> {
    let mut file = [0xa5; 137];
    write(rt, "F1", false, &[0.0, 0.0], &mut file)?;
    read(rt, "F2", &file[..136])?;
    file[119] = 0xbe;
    read(rt, "F3", &file[..136])?;
    file[119] = 0xbf;
    read(rt, "F4", &file[..135])
}

// F5: with an end state the file has 168 bytes.
pub fn with_an_end(rt: &impl Print) -> io::Result<()> {
    let mut file = [0xa5; 169];
    write(rt, "F5", true, &[0.0, -4.0], &mut file)?;
    read(rt, "F5 read", &file[..168])
}
