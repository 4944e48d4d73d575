// Operations 1023 and 11023: the values of an order.
use crate::answers::Answers;
use crate::buffers::Buffers;
use crate::input::CaseReader;
use crate::stop::Stop;
use crate::tables::{LentTable, Table};
use form::forms::Form;
use std::io::Read;
use table::rows::Entry;
use value::results::order_values;

// Asks for the values of the row that follows the table, with room for so many answers as follow
// it: the number, the place, how many answers were put, and their sum.
pub fn run<R: Read + Drop>(
    rt: &impl Print,
    input: &mut CaseReader<R>,
    operation: Entry,
    form: Form,
    buffers: &mut Buffers,
) -> Result<(), Stop> {
    let own;
    let table = match form {
        Form::Small => {
            own = Table::take_in(input)?;
            own.lend()
        }
        Form::Large => LentTable::read_and_change(input, buffers)?,
    };
    let [order, room] = input.numbers::<2>()?;
    let mut answers = Answers::new(input.alloc(), room)?;
    let values = order_values(
        form,
        table.card,
        table.segments,
        table.leaves,
        table.text,
        order,
        &mut answers.numbers,
        &mut answers.wholes,
        &mut answers.decimals,
    );
    let _ = print!(rt; "{operation} {} {}", values.number, values.place);
    let _ = println!(rt; " {} {}", values.count, answers.sum());
    Ok(())
}
