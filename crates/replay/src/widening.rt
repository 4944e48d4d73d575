// Operation 106: a table of narrow rows, whose numbers are below 65,536, into a table in lent
// buffers.
use crate::buffers::{Buffers, Lent};
use crate::filing::put_filing;
use crate::input::CaseReader;
use crate::stop::Stop;
use crate::tables::Table;
use archive::widen;
use std::alloc::{AllocError, Global};
use std::io::Read;
use table::rows::Entry;

// The longest narrow rows that a case has, of segments and of leaves.
const NARROW_SEGMENTS: usize = 1100;

const NARROW_LEAVES: usize = 14400;

// Widens the table into buffers of the lengths that follow it.
pub fn run<R: Read + Drop>(
    rt: &impl Print,
    input: &mut CaseReader<R>,
    buffers: &mut Buffers,
) -> Result<(), Stop> {
    let table = Table::take_in(input)?;
    let Lent {
        text,
        segments,
        leaves,
    } = buffers.lend_filled(input.numbers()?)?;
    let narrow_segments = narrow(input.alloc(), &table.segments, NARROW_SEGMENTS)?;
    let narrow_leaves = narrow(input.alloc(), &table.leaves, NARROW_LEAVES)?;
    let answer = widen(
        table.card,
        &narrow_segments,
        &narrow_leaves,
        &table.text,
        text,
        segments,
        leaves,
    );
    let _ = print!(rt; "106");
    put_filing(rt, answer, text, segments, leaves);
    let _ = println!(rt; "");
    Ok(())
}

// At most so many numbers, below 65,536, which the remainder says to the proof.
fn narrow(alloc: Global, numbers: &[Entry], most: usize) -> Result<Vec<u16>, AllocError> {
    numbers
        .iter()
        .take(most)
        .map(|number| (*number % 65536) as u16)
        .collect(alloc)
}
