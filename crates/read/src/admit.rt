// Whether a message that the reader accepts is counted (X3): its codes are added to a copy of the
// index, and the message to the tally. Only where nothing is refused does the index become the copy.
ghost use Rattle.read.specs.inner.Admitting.{Admissible, AdmitsAs, Copyable, IndexCopied};

use crate::census::count_codes;
use crate::codes::Accepted;
use crate::refused::Refused;
use index::refusal::Refusal;
use index::tally::Tally;
use index::{CODES, PLACE, wide};

// Adds a message that was decided on to the index, and gives the tally with it; or leaves the
// index, and says why the message is not counted.
pub(crate) fn admit(
    tally: Tally,
    accepted: &Accepted,
    codes: &mut [u8],
    counts: &mut [u32],
) -> Result<Tally, Refused>
    requires { Admissible accepted.now.limits accepted.now.class.now accepted.now.kinds.now accepted.now.starts.now accepted.now.decision
        accepted.now.message.now codes.old counts.old }
    ensures { AdmitsAs accepted.now.limits accepted.now.decision tally accepted.now.message.now codes.old counts.old
        result codes.new counts.new }
{
    let mut new_codes = [0u8; CODES * PLACE];
    let mut new_counts = [0u32; CODES + 1];
    copy_index(codes, counts, &mut new_codes, &mut new_counts);
    let results = count_codes(accepted, &mut new_codes, &mut new_counts)?;
    let tallied = tally.with_message(accepted.decision.segments, results);
    if !tallied.fits {
        return Err(Refused {
            number: Refusal::FULL_COUNT,
            place: 0,
        });
    }
    copy_index(&new_codes, &new_counts, codes, counts);
    Ok(tallied.tally)
}

// The named codes of an index and their counts, at the front of other buffers.
fn copy_index(codes: &[u8], counts: &[u32], to_codes: &mut [u8], to_counts: &mut [u32])
    requires { Copyable codes.now counts.now to_codes.old to_counts.old }
    ensures { IndexCopied codes.now counts.now to_codes.old to_counts.old to_codes.new to_counts.new }
{
    let named = wide(counts[0]);
    to_codes[..named * PLACE].copy_from_slice(&codes[..named * PLACE]);
    to_counts[..named + 1].copy_from_slice(&counts[..named + 1]);
}
