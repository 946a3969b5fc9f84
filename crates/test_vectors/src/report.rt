// What the cases of each call came to, on standard output.
use frozen_list::calls::{CALLS, Call};
use frozen_list::tally::KINDS;
use std::{fmt, io};

// A call in a line of the report, shown as the frozen list names it.
#[derive(Clone, Copy)]
struct Named(Call);

impl fmt::Display for Named {
    fn fmt<W: fmt::Write>(&self, f: &mut fmt::Formatter<W>) -> fmt::Result {
        self.0.fmt(f)
    }
}

// A line for each call: how many cases are the same and how many differ, as written and altered.
pub fn print(rt: &impl Print, counts: &[u64; KINDS]) -> io::Result<()> {
    for (number, call) in CALLS.iter().enumerate() {
        let written = 2 * number;
        let altered = 128 + 2 * number;
        println!(rt;
            "{:<24} {} same, {} differ; altered: {} same, {} differ",
            Named(*call),
            counts[written],
            counts[written + 1],
            counts[altered],
            counts[altered + 1]
        )?;
    }
    Ok(())
}
