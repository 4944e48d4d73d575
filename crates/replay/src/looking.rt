// Operation 3: the text of a leaf, or a substitute.
use crate::input::CaseReader;
use crate::stop::Stop;
use crate::sums::sum;
use crate::tables::{Table, place_of};
use look::leaf::leaf_text;
use std::io::Read;

// Looks up the place that follows the table, with the substitute that follows it: the length of
// what comes back, and its sum.
pub fn run<R: Read + Drop>(rt: &impl Print, input: &mut CaseReader<R>) -> Result<(), Stop> {
    let table = Table::take_in(input)?;
    let place = place_of(input.numbers()?);
    let substitute = input.bytes()?;
    let text = leaf_text(
        table.card,
        &table.segments,
        &table.leaves,
        &table.text,
        place,
        &substitute,
    );
    let _ = println!(rt; "3 {} {}", text.len(), sum(text));
    Ok(())
}
