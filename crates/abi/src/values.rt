// Numeric results as numbers (D1 to D6).
ghost use Rattle.table.specs.Lent.{lent};
ghost use Rattle.abi.specs.Cards.{card_of};
ghost use Rattle.abi.specs.FormNumbers.{limits_numbered};
ghost use Rattle.abi.specs.Values.{ReadValueInto, WroteValueInto, ReadValuesInto};

use crate::{answer, card, forms};
use form::number::Number;
use table::rows;

// How many numbers an answer has: whole number and decimals of a text; bytes of a written text; place and count of an order's values.
const VALUE_ANSWER: usize = 2;

const TEXT_ANSWER: usize = 1;

const ORDER_ANSWER: usize = 2;

// The value of a text (D2, D3). The number comes back; the whole number and the decimals go into the answer, and 0 and 0 beside 20 and 21. An
// answer of under two numbers is refused with 1 before the text is looked at.
#[unsafe(no_mangle)]
pub extern "C" fn sargaceu_read_value(text: &[u8], answer: &mut [i64]) -> u8
    ensures { ReadValueInto text.now answer.old result answer.new }
{
    if answer.len() < VALUE_ANSWER {
        return Number::SHORT_BUFFER;
    }
    let value = value::reading::read_value(text);
    let whole = value.whole;
    let decimals = value.decimals as i64;
    answer[0] = whole;
    answer[1] = decimals;
    value.number
}

// Writes the shortest text of a value at the front of the output (D4, D5). The number comes back; the bytes go into the answer. An answer of
// no number is refused with 1 before value and output are looked at.
#[unsafe(no_mangle)]
pub extern "C" fn sargaceu_write_value(
    whole: i64,
    decimals: usize,
    output: &mut [u8],
    answer: &mut [usize],
) -> u8
    ensures { WroteValueInto whole decimals output.old answer.old result output.new answer.new }
{
    if answer.len() < TEXT_ANSWER {
        return Number::SHORT_BUFFER;
    }
    let written = value::writing::write_value(whole, decimals, output);
    let numbers = [written.bytes];
    answer::put_numbers(answer, &numbers);
    written.number
}

// The values of the numeric results under an OBR row of a table of a form (D6), each in three buffers. The number comes back; place and count go into the answer. An
// answer of under two numbers is refused with 1 before the table is looked at.
#[unsafe(no_mangle)]
pub extern "C" fn sargaceu_order_values(
    form: u8,
    card: &[usize],
    segments: &[rows::Entry],
    leaves: &[rows::Entry],
    text: &[u8],
    order: rows::Entry,
    numbers: &mut [u8],
    wholes: &mut [i64],
    decimals: &mut [u8],
    answer: &mut [usize],
) -> u8
    ensures { ReadValuesInto (limits_numbered form) (lent (card_of card.now) segments.now leaves.now text.now) order
        numbers.old wholes.old decimals.old answer.old
        result numbers.new wholes.new decimals.new answer.new }
{
    if answer.len() < ORDER_ANSWER {
        return Number::SHORT_BUFFER;
    }
    let read = value::results::order_values(
        forms::form_of(form),
        card::card_of(card),
        segments,
        leaves,
        text,
        order,
        numbers,
        wholes,
        decimals,
    );
    let told = [read.place, read.count];
    answer::put_numbers(answer, &told);
    read.number
}
