// The functions of `abi::showing`, which says what they are for.
ghost use Rattle.std.specs.Prelude.{◌≤◌, length};
ghost use Rattle.form.specs.Forms.{small_form};
ghost use Rattle.order.specs.Owners.{level};
ghost use Rattle.listing.specs.Listing.{ListedAs};

use table::rows;

#[unsafe(no_mangle)]
pub extern "C" fn sargaceu_list(
    message: &[u8],
    text: &mut [u8],
    segments: &mut [rows::Entry],
    leaves: &mut [rows::Entry],
    listing: &mut [u8],
) -> usize
    ensures listed_as { ListedAs small_form level message.now text.old segments.old leaves.old listing.old
        result text.new segments.new leaves.new listing.new }
    ensures within { result ≤ length listing.old }
{
    abi::showing::sargaceu_list(message, text, segments, leaves, listing)
}
