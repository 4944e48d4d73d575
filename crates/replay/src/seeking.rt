// Operation 101: the leaf lookup in its three ways.
use crate::input::CaseReader;
use crate::stop::Stop;
use crate::tables::{Table, place_of};
use look::leaf::{Sought, find_leaf};
use std::io::Read;

// Looks up the place that follows the table: the number of the answer; start and length, 0 and 0
// unless found.
pub fn run<R: Read + Drop>(rt: &impl Print, input: &mut CaseReader<R>) -> Result<(), Stop> {
    let table = Table::take_in(input)?;
    let place = place_of(input.numbers()?);
    let sought = find_leaf(
        table.card,
        &table.segments,
        &table.leaves,
        &table.text,
        place,
    );
    let (start, length) = match sought {
        Sought::At(start, length) => (start, length),
        Sought::Empty | Sought::NotThere => (0, 0),
    };
    let _ = println!(rt; "101 {} {start} {length}", sought.number());
    Ok(())
}
