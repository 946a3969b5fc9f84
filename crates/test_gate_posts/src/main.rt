// The gate-post examples of RULES 9, run through the public calls. Each line is an example's name, the number of the refusal, the table
// and the place that it names, the bits of the value, and the path where one is written. A line of R1 to R6 has after the value the rival,
// written or not; then the chosen state, the bits of the best value and the best path. A line of F1 to F5 has after the value the bytes of
// the file that is written, or the shape and the tables that are read. The file stdout beside src/ has what the rules say of each.

#![tactic(auto)]

mod files;
mod leaves;
mod models;
mod passes;
mod paths;
mod print;
mod rivals;
mod walks;

use std::io;

fn main(rt: HostRuntime) -> io::Result<()> {
    paths::model_p(&rt)?;
    paths::way_out(&rt)?;
    paths::model_z(&rt)?;
    walks::one_sample(&rt)?;
    paths::no_beginning(&rt)?;
    passes::no_mass(&rt)?;
    rivals::model_p(&rt)?;
    rivals::one_state(&rt)?;
    rivals::model_z(&rt)?;
    paths::model_a(&rt)?;
    walks::model_a(&rt)?;
    leaves::kernels(&rt)?;
    leaves::sums(&rt)?;
    files::model_p(&rt)?;
    files::with_an_end(&rt)
}
