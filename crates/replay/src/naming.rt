// Operation 105: the kind of a text.
use crate::input::CaseReader;
use crate::stop::Stop;
use form::kind::Kind;
use std::io::Read;

// Asks for the number of the kind whose name the text is.
pub fn run<R: Read + Drop>(rt: &impl Print, input: &mut CaseReader<R>) -> Result<(), Stop> {
    let text = input.bytes()?;
    let _ = println!(rt; "105 {}", Kind::named(&text));
    Ok(())
}
