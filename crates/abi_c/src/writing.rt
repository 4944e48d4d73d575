// The functions of `abi::writing`, which says what they are for.
ghost use Rattle.std.specs.Prelude.{◌≡◌};
ghost use Rattle.order.specs.Owners.{level};
ghost use Rattle.table.specs.Lent.{lent};
ghost use Rattle.write.specs.inner.ReadsBack.{is_table};
ghost use Rattle.abi.specs.Cards.{card_of};
ghost use Rattle.abi.specs.FormNumbers.{limits_numbered};
ghost use Rattle.abi.specs.Writing.{WroteInto};

use table::rows;

#[unsafe(no_mangle)]
pub extern "C" fn sargaceu_write(
    form: u8,
    card: &[usize],
    segments: &[rows::Entry],
    leaves: &[rows::Entry],
    text: &[u8],
    output: &mut [u8],
    answer: &mut [usize],
) -> u8
    ensures { WroteInto (limits_numbered form) (lent (card_of card.now) segments.now leaves.now text.now)
        output.old answer.old result output.new answer.new }
{
    abi::writing::sargaceu_write(form, card, segments, leaves, text, output, answer)
}

#[unsafe(no_mangle)]
pub extern "C" fn sargaceu_is_table(
    form: u8,
    card: &[usize],
    segments: &[rows::Entry],
    leaves: &[rows::Entry],
    text: &[u8],
) -> bool
    ensures { result ≡ is_table (limits_numbered form) level (lent (card_of card.now) segments.now leaves.now text.now) }
{
    abi::writing::sargaceu_is_table(form, card, segments, leaves, text)
}
