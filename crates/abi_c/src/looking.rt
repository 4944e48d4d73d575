// The functions of `abi::looking`, which says what they are for.
ghost use Rattle.std.specs.Prelude.{◌≡◌};
ghost use Rattle.table.specs.Lent.{lent};
ghost use Rattle.look.specs.inner.Searching.{row_after, same_order};
ghost use Rattle.abi.specs.Cards.{card_of};
ghost use Rattle.abi.specs.Looking.{given_place, FoundLeaf, FoundLeafInSegment};

use table::rows;

#[unsafe(no_mangle)]
pub extern "C" fn sargaceu_find_leaf(
    card: &[usize],
    segments: &[rows::Entry],
    leaves: &[rows::Entry],
    text: &[u8],
    segment: rows::Entry,
    field: rows::Entry,
    repetition: rows::Entry,
    subfield: rows::Entry,
    subsubfield: rows::Entry,
    answer: &mut [usize],
) -> u8
    ensures { FoundLeaf (lent (card_of card.now) segments.now leaves.now text.now)
        (given_place segment field repetition subfield subsubfield) answer.old result answer.new }
{
    abi::looking::sargaceu_find_leaf(
        card,
        segments,
        leaves,
        text,
        segment,
        field,
        repetition,
        subfield,
        subsubfield,
        answer,
    )
}

#[unsafe(no_mangle)]
pub extern "C" fn sargaceu_find_leaf_in_segment(
    card: &[usize],
    segments: &[rows::Entry],
    leaves: &[rows::Entry],
    text: &[u8],
    segment: rows::Entry,
    field: rows::Entry,
    repetition: rows::Entry,
    subfield: rows::Entry,
    subsubfield: rows::Entry,
    answer: &mut [usize],
) -> u8
    ensures { FoundLeafInSegment (lent (card_of card.now) segments.now leaves.now text.now)
        (given_place segment field repetition subfield subsubfield) answer.old result answer.new }
{
    abi::looking::sargaceu_find_leaf_in_segment(
        card,
        segments,
        leaves,
        text,
        segment,
        field,
        repetition,
        subfield,
        subsubfield,
        answer,
    )
}

#[unsafe(no_mangle)]
pub extern "C" fn sargaceu_next_row(
    card: &[usize],
    segments: &[rows::Entry],
    after: usize,
    kind: rows::Entry,
    owner: rows::Entry,
) -> usize
    ensures { result ≡ row_after segments.now (card_of card.now).segments after kind owner }
{
    abi::looking::sargaceu_next_row(card, segments, after, kind, owner)
}

#[unsafe(no_mangle)]
pub extern "C" fn sargaceu_same_order(
    card: &[usize],
    segments: &[rows::Entry],
    leaves: &[rows::Entry],
    text: &[u8],
    row: rows::Entry,
    other_card: &[usize],
    other_segments: &[rows::Entry],
    other_leaves: &[rows::Entry],
    other_text: &[u8],
    other_row: rows::Entry,
) -> bool
    ensures { result
        ≡ same_order (lent (card_of card.now) segments.now leaves.now text.now) row
        (lent (card_of other_card.now) other_segments.now other_leaves.now other_text.now) other_row }
{
    abi::looking::sargaceu_same_order(
        card,
        segments,
        leaves,
        text,
        row,
        other_card,
        other_segments,
        other_leaves,
        other_text,
        other_row,
    )
}
