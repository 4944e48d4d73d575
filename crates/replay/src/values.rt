// Operation 1021: the value of a text.
use crate::input::CaseReader;
use crate::stop::Stop;
use std::io::Read;
use value::reading::read_value;

// Reads the text that the case is: the number, the whole number and the decimals.
pub fn run<R: Read + Drop>(rt: &impl Print, input: &mut CaseReader<R>) -> Result<(), Stop> {
    let text = input.bytes()?;
    let value = read_value(&text);
    let _ = println!(rt; "1021 {} {} {}", value.number, value.whole, value.decimals);
    Ok(())
}
