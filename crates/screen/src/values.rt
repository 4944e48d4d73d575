// The values that results take (R3).
ghost use Rattle.std.specs.Prelude.{◌≡◌};
ghost use Rattle.laws.specs.Texts.{bytes};
ghost use Rattle.table.specs.Lent.{lent};
ghost use Rattle.look.specs.Looking.{result_kind};
ghost use Rattle.screen.specs.Rules.{in_system};
ghost use Rattle.screen.specs.Meeting.{is_about};
ghost use Rattle.screen.specs.inner.Rows.{first_code_rule, past_rules, first_failed, misses_letter, ReportRow, RowOfKind};

use crate::codes::{CODE, Code, code_in};
use crate::leaf::{is_letter, leaf_says, leaf_text};
use crate::refusal::Refusal;
use table::{Card, rows};

// The fields of a result that have its type, 10.3, and its value, 10.6.
const TYPE: rows::Entry = 3;

const VALUE: rows::Entry = 6;

// The first of the rules of values that a result's row, counted from 0, fails: its value is none
// that it may take. None where it fails none of them.
pub(crate) fn first_misvalued(
    card: Card,
    segments: &[rows::Entry],
    leaves: &[rows::Entry],
    text: &[u8],
    row: usize,
) -> Option<u8>
    requires { RowOfKind (lent card segments.now leaves.now text.now) row result_kind }
    ensures { result ≡ first_failed (lent card segments.now leaves.now text.now) row first_code_rule past_rules }
{
    let code = code_in(card, segments, leaves, text, row);
    if code == Some(Code::Typor) && misses(card, segments, leaves, text, row, b"IHECAU") {
        Some(Refusal::WRONG_TYPOR)
    } else if code == Some(Code::Pross) && misses(card, segments, leaves, text, row, b"ONU") {
        Some(Refusal::WRONG_PROSS)
    } else if is_coded(card, segments, leaves, text, row)
        && misses(card, segments, leaves, text, row, b"PNIX")
    {
        Some(Refusal::WRONG_RESULT)
    } else {
        None
    }
}

// Whether a result takes none of these letters: its value, 10.6.1, is another text, empty or not
// there.
fn misses(
    card: Card,
    segments: &[rows::Entry],
    leaves: &[rows::Entry],
    text: &[u8],
    row: usize,
    letters: &[u8],
) -> bool
    requires { ReportRow (lent card segments.now leaves.now text.now) row }
    ensures { result ≡ misses_letter (lent card segments.now leaves.now text.now) row letters.now }
{
    !is_letter(
        leaf_text(card, segments, leaves, text, row, VALUE, 1),
        letters,
    )
}

// Whether a result is of type CE, 10.3, and its code is one of LOINC's: 10.4.3 or 10.4.6 is LN.
fn is_coded(
    card: Card,
    segments: &[rows::Entry],
    leaves: &[rows::Entry],
    text: &[u8],
    row: usize,
) -> bool
    requires { ReportRow (lent card segments.now leaves.now text.now) row }
    ensures { result ≡ is_about (lent card segments.now leaves.now text.now) (in_system (bytes "CE") (bytes "LN")) row }
{
    leaf_says(card, segments, leaves, text, row, TYPE, 1, b"CE")
        && (leaf_says(card, segments, leaves, text, row, CODE, 3, b"LN")
            || leaf_says(card, segments, leaves, text, row, CODE, 6, b"LN"))
}
