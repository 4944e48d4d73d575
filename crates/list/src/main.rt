// Lists the message that comes on standard input: the listing (G1, G2), and nothing else. What
// matters is in the library; this reads and writes. Where the input cannot be read nothing is
// printed, which tells it: the exit status is always 0, and an empty message has a listing. A write
// that fails is passed over.
#![tactic(auto)]

use form::forms::SmallForm;
use listing::list::{SIZE, list};
use table::rows;

// One byte past the longest message, enough to tell that a message is too long.
const MESSAGE: usize = SmallForm::BYTES + 1;

// The sizes of the reader's buffers.
const TEXT: usize = SmallForm::BYTES;

const SEGMENTS: usize = SmallForm::SEGMENTS * rows::SEGMENT_ROW;

const LEAVES: usize = SmallForm::LEAVES * rows::LEAF_ROW;

fn main(rt: HostRuntime) {
    let mut message = [0; MESSAGE];
    let Ok(bytes) = input::read_input(&mut rt.stdin(), &mut message) else {
        return;
    };
    print_listing(&rt, &message[..bytes]);
}

// Writes the listing of a message to standard output.
fn print_listing(rt: &impl Print, message: &[u8]) {
    let mut text = [0; TEXT];
    let mut segments = [0; SEGMENTS];
    let mut leaves = [0; LEAVES];
    let mut listing = [0; SIZE];
    let bytes = list(message, &mut text, &mut segments, &mut leaves, &mut listing);
    let _ = rt.write_all(&listing[..bytes]);
}
