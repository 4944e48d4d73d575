// The functions of `abi::widening`, which says what they are for.
ghost use Rattle.form.specs.Forms.{small_form};
ghost use Rattle.table.specs.Lent.{lent};
ghost use Rattle.abi.specs.Cards.{card_of};
ghost use Rattle.abi.specs.Widening.{WidenedInto};

use table::rows;

#[unsafe(no_mangle)]
pub extern "C" fn sargaceu_widen(
    card: &[usize],
    segments: &[u16],
    leaves: &[u16],
    text: &[u8],
    new_text: &mut [u8],
    new_segments: &mut [rows::Entry],
    new_leaves: &mut [rows::Entry],
    answer: &mut [usize],
) -> u8
    ensures { WidenedInto small_form (lent (card_of card.now) segments.now leaves.now text.now)
        new_text.old new_segments.old new_leaves.old answer.old
        result new_text.new new_segments.new new_leaves.new answer.new }
{
    abi::widening::sargaceu_widen(
        card,
        segments,
        leaves,
        text,
        new_text,
        new_segments,
        new_leaves,
        answer,
    )
}
