// The functions of `abi::values`, which says what they are for.
ghost use Rattle.table.specs.Lent.{lent};
ghost use Rattle.abi.specs.Cards.{card_of};
ghost use Rattle.abi.specs.FormNumbers.{limits_numbered};
ghost use Rattle.abi.specs.Values.{ReadValueInto, WroteValueInto, ReadValuesInto};

use table::rows;

#[unsafe(no_mangle)]
pub extern "C" fn sargaceu_read_value(text: &[u8], answer: &mut [i64]) -> u8
    ensures { ReadValueInto text.now answer.old result answer.new }
{
    abi::values::sargaceu_read_value(text, answer)
}

#[unsafe(no_mangle)]
pub extern "C" fn sargaceu_write_value(
    whole: i64,
    decimals: usize,
    output: &mut [u8],
    answer: &mut [usize],
) -> u8
    ensures { WroteValueInto whole decimals output.old answer.old result output.new answer.new }
{
    abi::values::sargaceu_write_value(whole, decimals, output, answer)
}

#[unsafe(no_mangle)]
pub extern "C" fn sargaceu_order_values(
    form: u8,
    card: &[usize],
    segments: &[rows::Entry],
    leaves: &[rows::Entry],
    text: &[u8],
    order: rows::Entry,
    numbers: &mut [u8],
    wholes: &mut [i64],
    decimals: &mut [u8],
    answer: &mut [usize],
) -> u8
    ensures { ReadValuesInto (limits_numbered form) (lent (card_of card.now) segments.now leaves.now text.now) order
        numbers.old wholes.old decimals.old answer.old
        result numbers.new wholes.new decimals.new answer.new }
{
    abi::values::sargaceu_order_values(
        form, card, segments, leaves, text, order, numbers, wholes, decimals, answer,
    )
}
