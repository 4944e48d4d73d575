// The index by analysis code (X1 to X4): up to 512 codes of 1 to 22 bytes in rising byte order, each with a count; and the tally of what was
// counted. An index is two lent buffers: one has a place of 23 bytes for each code, the other how many codes are named and then their counts.
// Every buffer gets its answer, whatever it holds.
#![tactic(auto)]

ghost use Rattle.std.specs.Prelude.{◌≡◌, ◌<◌};
ghost use Rattle.index.specs.Index.{counts_past};

pub mod adding;
pub mod asking;
pub mod code;
pub mod finding;
pub mod refusal;
pub mod soundness;
pub mod tally;

// How many codes an index has places for.
pub const CODES: usize = 512;

// The longest code.
pub const CODE: usize = 22;

// A place has the length of its code, and room for the longest.
pub const PLACE: usize = 1 + CODE;

// A count as a number: it is below 4,294,967,296.
pub fn wide(count: u32) -> usize
    ensures { (result ≡ count) × (result < counts_past) }
{
    count as usize
}
