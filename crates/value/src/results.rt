// The numeric results of an order, in the order of their rows (D6).
ghost use Rattle.std.specs.Prelude.{◌≡◌, leb, length};
ghost use Rattle.form.specs.Forms.{limits_of};
ghost use Rattle.order.specs.Owners.{level};
ghost use Rattle.table.specs.Lent.{lent};
ghost use Rattle.value.specs.Numerals.{most_digits};
ghost use Rattle.value.specs.Results.{is_numeric, numeric_rows, refuses_values, results_told, ReadValues};
ghost use Rattle.value.specs.inner.Seeking.{first_passing, OrderRows, InOrder, Roomy, PutValues};

use crate::reading::value_said;
use crate::refusal::Refusal;
use crate::result::{is_numeric, result_of};
use form::forms::Form;
use form::number::Number;
use look::order_rows::is_order;
use table::{Card, rows};

// What comes back (D6): 0, 13, 24 or 25, the place 0, and how many answers were put, 0 on a refusal.
// kept (C): sargaceu_order_values answers these numbers
#[derive(Clone, Copy)]
pub struct ValuesRead {
    pub number: u8,
    pub place: usize,
    pub count: usize,
}

// The numbers of all numeric results under an OBR row of a table of a form, each answer's three parts at the same place of three lent buffers: 0, 20
// or 21; the whole number; the decimals. Entries past the count stay. Any card, any buffers and any row get an answer. Once the table is
// tested, only the order's own rows and leaves are looked at, and the row behind them.
// kept (C): the three buffers are those of sargaceu_order_values
pub fn order_values(
    form: Form,
    card: Card,
    segments: &[rows::Entry],
    leaves: &[rows::Entry],
    text: &[u8],
    order: rows::Entry,
    numbers: &mut [u8],
    wholes: &mut [i64],
    decimals: &mut [u8],
) -> ValuesRead
    ensures { ReadValues (limits_of form) level most_digits (lent card segments.now leaves.now text.now) order
        numbers.old wholes.old decimals.old result numbers.new wholes.new decimals.new }
{
    if !write::test::is_table(form, card, segments, leaves, text) {
        return refusal(Number::NO_TABLE);
    }
    if !is_order(segments, card.segments, order) {
        return refusal(Refusal::NOT_AN_ORDER);
    }
    let room = numbers.len().min(wholes.len()).min(decimals.len());
    if !has_room(card, segments, leaves, text, order, room) {
        return refusal(Refusal::LITTLE_ROOM);
    }
    let count = put_values(
        card, segments, leaves, text, order, numbers, wholes, decimals,
    );
    ValuesRead {
        number: Number::ACCEPTED,
        place: 0,
        count,
    }
}

// A refusal at the place 0, with no answer put.
#[tactic(auto, unfolding(crate::specs::Results::results_told))]
fn refusal(number: u8) -> ValuesRead
    ensures { result ≡ results_told (refuses_values number) }
{
    ValuesRead {
        number,
        place: 0,
        count: 0,
    }
}

// Whether so many places do for all numeric results of an order. As many as there are rows behind it always do; only where there are fewer
// are the results counted, so that whoever lends enough pays for no second pass.
fn has_room(
    card: Card,
    segments: &[rows::Entry],
    leaves: &[rows::Entry],
    text: &[u8],
    order: rows::Entry,
    room: usize,
) -> bool
    requires { OrderRows (lent card segments.now leaves.now text.now) order }
    ensures { result ≡ leb (length (numeric_rows (lent card segments.now leaves.now text.now) order)) room }
{
    card.segments - rows::wide(order) <= room
        || count_results(card, segments, leaves, text, order) <= room
}

// How many numeric results an order has.
fn count_results(
    card: Card,
    segments: &[rows::Entry],
    leaves: &[rows::Entry],
    text: &[u8],
    order: rows::Entry,
) -> usize
    requires { OrderRows (lent card segments.now leaves.now text.now) order }
    ensures { result ≡ length (numeric_rows (lent card segments.now leaves.now text.now) order) }
{
    let mut count = 0;
    let mut from = rows::wide(order);
    while let Some(row) = next_result(card, segments, leaves, text, order, from) {
        count += 1;
        from = row + 1;
    }
    count
}

// Puts the answers of an order's numeric results at the front of the three buffers, and answers how many there are.
fn put_values(
    card: Card,
    segments: &[rows::Entry],
    leaves: &[rows::Entry],
    text: &[u8],
    order: rows::Entry,
    numbers: &mut [u8],
    wholes: &mut [i64],
    decimals: &mut [u8],
) -> usize
    requires { Roomy (lent card segments.now leaves.now text.now) order numbers.old wholes.old decimals.old }
    ensures { PutValues most_digits (lent card segments.now leaves.now text.now) order
        numbers.old wholes.old decimals.old result numbers.new wholes.new decimals.new }
{
    let mut count = 0;
    let mut from = rows::wide(order);
    while let Some(row) = next_result(card, segments, leaves, text, order, from) {
        let value = value_said(result_of(card, segments, leaves, text, row));
        numbers[count] = value.number;
        wholes[count] = value.whole;
        decimals[count] = value.decimals as u8;
        count += 1;
        from = row + 1;
    }
    count
}

// The next numeric result of an order, of the segment rows from one on, counted from 0. The rows
// under an order lie together behind it, so the first row that belongs to an earlier one ends them.
fn next_result(
    card: Card,
    segments: &[rows::Entry],
    leaves: &[rows::Entry],
    text: &[u8],
    order: rows::Entry,
    from: usize,
) -> Option<usize>
    requires { InOrder (lent card segments.now leaves.now text.now) order from }
    ensures { result ≡ first_passing (is_numeric (lent card segments.now leaves.now text.now) order) from card.segments }
{
    for row in from..card.segments {
        if segments[row * rows::SEGMENT_ROW + rows::OWNER] < order {
            return None;
        }
        if is_numeric(card, segments, leaves, text, order, row) {
            return Some(row);
        }
    }
    None
}
