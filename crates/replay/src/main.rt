// Runs the public functions on cases that come on standard input, and writes a line for each.
// `cases` says which operations there are, and which module runs each.
#![tactic(auto)]

use buffers::Buffers;
use cases::next_case;
use input::CaseReader;
use std::io;
use stop::Stop;

mod answers;
mod buffers;
mod cases;
mod changes;
mod comparing;
mod filing;
mod finding;
mod indexes;
mod indexing;
mod input;
mod looking;
mod naming;
mod order_values;
mod screening;
mod seeking;
mod stop;
mod sums;
mod tables;
mod value_writing;
mod values;
mod walking;
mod watching;
mod widening;
mod writing;

// More cases than any file has: a loop has to end, and nothing says that an input does.
const MOST_CASES: usize = 1000000;

// Runs case after case until one stops the program. Only that memory has run out is told. What lies
// behind the last case stays in the input for whoever reads on: nothing is read ahead.
fn main(rt: HostRuntime) -> io::Result<()> {
    let mut input = CaseReader::new(rt.alloc(), rt.reader());
    let mut buffers = Buffers::new(rt.alloc());
    for _ in 0..MOST_CASES {
        match next_case(&rt, &mut input, &mut buffers) {
            Ok(()) => {}
            Err(Stop::OutOfMemory) => return Err(io::Error::from(io::ErrorKind::OutOfMemory)),
            Err(_) => return Ok(()),
        }
    }
    Ok(())
}
