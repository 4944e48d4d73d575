// The listing (G1, G2).
ghost use Rattle.std.specs.Prelude.{◌≤◌, length};
ghost use Rattle.form.specs.Forms.{small_form};
ghost use Rattle.order.specs.Owners.{level};
ghost use Rattle.listing.specs.Listing.{ListedAs};

use table::rows;

// Reads a message of the small form, puts its listing at the front of a buffer, and answers how many bytes that has. A buffer that is too short for some
// listing gets 0 before anything is read.
#[unsafe(no_mangle)]
pub extern "C" fn sargaceu_list(
    message: &[u8],
    text: &mut [u8],
    segments: &mut [rows::Entry],
    leaves: &mut [rows::Entry],
    listing: &mut [u8],
) -> usize
    ensures listed_as { ListedAs small_form level message.now text.old segments.old leaves.old listing.old
        result text.new segments.new leaves.new listing.new }
    ensures within { result ≤ length listing.old }
{
    listing::list::list(message, text, segments, leaves, listing)
}
