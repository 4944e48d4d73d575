// Operation 5: the same-order test.
use crate::input::CaseReader;
use crate::stop::Stop;
use crate::tables::Table;
use look::order_rows::same_order;
use std::io::Read;

// Compares a row of a table, which follows it, with a row of another table, which follows that one.
pub fn run<R: Read + Drop>(rt: &impl Print, input: &mut CaseReader<R>) -> Result<(), Stop> {
    let one = Table::take_in(input)?;
    let row = input.number()?;
    let other = Table::take_in(input)?;
    let other_row = input.number()?;
    let same = same_order(
        one.card,
        &one.segments,
        &one.leaves,
        &one.text,
        row,
        other.card,
        &other.segments,
        &other.leaves,
        &other.text,
        other_row,
    );
    let _ = println!(rt; "5 {}", u8::from(same));
    Ok(())
}
