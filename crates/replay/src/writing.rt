// Operations 2 and 10002: a table into its message.
use crate::buffers::{Buffers, filled_output};
use crate::input::CaseReader;
use crate::stop::Stop;
use crate::sums::sum;
use crate::tables::{LentTable, Table};
use form::forms::Form;
use std::io::Read;
use table::rows::Entry;
use write::write;

// Writes the table into an output of the length that follows it: the number, the place, how much
// was written, and the sum of the output.
pub fn run<R: Read + Drop>(
    rt: &impl Print,
    input: &mut CaseReader<R>,
    operation: Entry,
    form: Form,
    buffers: &mut Buffers,
) -> Result<(), Stop> {
    let own;
    let table = match form {
        Form::Small => {
            own = Table::take_in(input)?;
            own.lend()
        }
        Form::Large => LentTable::read_and_change(input, buffers)?,
    };
    let mut output = filled_output(input.alloc(), input.number()?)?;
    let written = write(
        form,
        table.card,
        table.segments,
        table.leaves,
        table.text,
        &mut output,
    );
    let _ = print!(rt; "{operation} {} {}", written.number, written.place);
    let _ = println!(rt; " {} {} {}", written.bytes, written.lines, sum(&output));
    Ok(())
}
