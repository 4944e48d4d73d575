// Operation 4: the row finder.
use crate::input::CaseReader;
use crate::stop::Stop;
use crate::tables::Table;
use look::row::next_row;
use std::io::Read;

// Asks for the row after the one that follows the table, with the kind and the owner that follow
// it.
pub fn run<R: Read + Drop>(rt: &impl Print, input: &mut CaseReader<R>) -> Result<(), Stop> {
    let table = Table::take_in(input)?;
    let [after, kind, owner] = input.numbers::<3>()?;
    let row = next_row(table.card, &table.segments, after as usize, kind, owner);
    let _ = println!(rt; "4 {row}");
    Ok(())
}
