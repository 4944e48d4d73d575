// The functions of `abi::screening`, which says what they are for.
ghost use Rattle.table.specs.Lent.{lent};
ghost use Rattle.abi.specs.Cards.{card_of};
ghost use Rattle.abi.specs.FormNumbers.{limits_numbered};
ghost use Rattle.abi.specs.Screening.{ScreenedInto};

use table::rows;

#[unsafe(no_mangle)]
pub extern "C" fn sargaceu_screen(
    form: u8,
    card: &[usize],
    segments: &[rows::Entry],
    leaves: &[rows::Entry],
    text: &[u8],
    answer: &mut [usize],
) -> u8
    ensures { ScreenedInto (limits_numbered form) (lent (card_of card.now) segments.now leaves.now text.now)
        answer.old result answer.new }
{
    abi::screening::sargaceu_screen(form, card, segments, leaves, text, answer)
}
