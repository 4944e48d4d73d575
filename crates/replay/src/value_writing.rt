// Operation 1022: a value into its text.
use crate::buffers::filled_output;
use crate::input::CaseReader;
use crate::stop::Stop;
use crate::sums::sum;
use std::io::Read;
use value::writing::write_value;

// Writes the whole number, with the decimals that follow it, into an output of the length that
// follows them: the number, how much was written, and the sum of the output.
pub fn run<R: Read + Drop>(rt: &impl Print, input: &mut CaseReader<R>) -> Result<(), Stop> {
    let whole = input.whole()?;
    let [decimals, length] = input.numbers::<2>()?;
    let mut output = filled_output(input.alloc(), length)?;
    let written = write_value(whole, decimals as usize, &mut output);
    let _ = println!(rt;
        "1022 {} {} {}",
        written.number,
        written.bytes,
        sum(&output)
    );
    Ok(())
}
