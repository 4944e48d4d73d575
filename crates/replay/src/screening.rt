// Operations 104 and 10104: the check for screening reports.
use crate::buffers::Buffers;
use crate::input::CaseReader;
use crate::stop::Stop;
use crate::tables::{LentTable, Table};
use form::forms::Form;
use screen::screen;
use std::io::Read;
use table::rows::Entry;

// Asks for the verdict on the table: the number and the place.
pub fn run<R: Read + Drop>(
    rt: &impl Print,
    input: &mut CaseReader<R>,
    operation: Entry,
    form: Form,
    buffers: &mut Buffers,
) -> Result<(), Stop> {
    let own;
    let table = match form {
        Form::Small => {
            own = Table::take_in(input)?;
            own.lend()
        }
        Form::Large => LentTable::read_and_change(input, buffers)?,
    };
    let verdict = screen(form, table.card, table.segments, table.leaves, table.text);
    let _ = println!(rt; "{operation} {} {}", verdict.number, verdict.place);
    Ok(())
}
