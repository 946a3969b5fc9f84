// Parts of lines on standard output: paths, files, shapes and tables.
use model::Shape;
use program_io::lines::Bits;
use std::io;

// The first n states of a path.
pub fn states(rt: &impl Print, path: &[u8], n: usize) -> io::Result<()> {
    for state in path.iter().take(n) {
        print!(rt; " {state}")?;
    }
    Ok(())
}

// The bytes of a file in hexadecimal, eight by eight.
pub fn bytes(rt: &impl Print, file: &[u8]) -> io::Result<()> {
    for (i, byte) in file.iter().enumerate() {
        if i % 8 == 0 {
            print!(rt; " ")?;
        }
        print!(rt; "{byte:02x}")?;
    }
    Ok(())
}

// States, symbols, and 1 for an end state.
pub fn shape(rt: &impl Print, shape: Shape) -> io::Result<()> {
    print!(rt;
        " {} {} {}",
        shape.states,
        shape.symbols,
        u8::from(shape.ends)
    )
}

// The bits of a table's entries.
pub fn entries(rt: &impl Print, table: &[f64]) -> io::Result<()> {
    for x in table {
        print!(rt; " {}", Bits(*x))?;
    }
    Ok(())
}
