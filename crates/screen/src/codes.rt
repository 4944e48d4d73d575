// The codes of the pseudo-analyses (R2), and how many results of a patient have each.
ghost use Rattle.std.specs.Prelude.{◌≡◌, ◌==◌, not, position, Some};
ghost use Rattle.table.specs.Lent.{lent};
ghost use Rattle.look.specs.Looking.{patient_kind};
ghost use Rattle.screen.specs.inner.Rows.{first_code_rule, past_rules, first_failed, ReportRow, RowOfKind};
ghost use Rattle.screen.specs.inner.Codes.{code_number};
ghost use Rattle.screen.specs.inner.Counting.{code_of, code_in, CodesCounted, CountedRows};

use crate::leaf::leaf_text;
use crate::refusal::Refusal;
use form::kind::Kind;
use look::text::same_bytes;
use table::{Card, rows};

// How many codes there are.
const CODES: usize = 4;

// The codes, in the order of their rules.
#[derive(Clone, Copy, PartialEq, Eq, Debug)]
pub(crate) enum Code {
    Pays,
    Typor,
    Pross,
    Finge,
}

impl Code {
    // Its place among them, counted from 0.
    fn place(self) -> usize
        ensures { result ≡ code_number (Some self) }
    {
        self as usize
    }
}

// The field of a result that has its code, 10.4.
pub(crate) const CODE: rows::Entry = 4;

// The first of the rules of codes that a patient's row, counted from 0, fails: not exactly one of
// its results has the code. None where it fails none of them.
pub(crate) fn first_miscounted(
    card: Card,
    segments: &[rows::Entry],
    leaves: &[rows::Entry],
    text: &[u8],
    row: usize,
) -> Option<u8>
    requires { RowOfKind (lent card segments.now leaves.now text.now) row patient_kind }
    ensures { result ≡ first_failed (lent card segments.now leaves.now text.now) row first_code_rule past_rules }
{
    let counts = count_codes(card, segments, leaves, text, row + 1);
    let code = first_not_one(&counts)?;
    Some(Refusal::NOT_ONE_PAYS + code as u8)
}

// The place of the first count that is not one, if any.
fn first_not_one(counts: &[usize]) -> Option<usize>
    ensures { result ≡ position (λ n. not (n == 1)) counts.now }
{
    counts.iter().position(|count| *count != 1)
}

// How many segment rows, from one on up to the next patient, have each code.
fn count_codes(
    card: Card,
    segments: &[rows::Entry],
    leaves: &[rows::Entry],
    text: &[u8],
    from: usize,
) -> [usize; CODES]
    requires { CountedRows (lent card segments.now leaves.now text.now) from }
    ensures { CodesCounted (lent card segments.now leaves.now text.now) from result }
{
    let mut counts = [0; CODES];
    for row in from..card.segments {
        if segments[row * rows::SEGMENT_ROW] == Kind::P as rows::Entry {
            return counts;
        }
        if let Some(code) = code_in(card, segments, leaves, text, row) {
            counts[code.place()] += 1;
        }
    }
    counts
}

// Which of the codes a segment row has; none where it is no result or has another code or none.
pub(crate) fn code_in(
    card: Card,
    segments: &[rows::Entry],
    leaves: &[rows::Entry],
    text: &[u8],
    row: usize,
) -> Option<Code>
    requires { ReportRow (lent card segments.now leaves.now text.now) row }
    ensures { code_number result ≡ code_in (lent card segments.now leaves.now text.now) row }
{
    if segments[row * rows::SEGMENT_ROW] != Kind::OBX as rows::Entry {
        return None;
    }
    code_of(leaf_text(card, segments, leaves, text, row, CODE, 1))
}

// Which of the codes a text is, if any.
fn code_of(text: &[u8]) -> Option<Code>
    ensures { code_number result ≡ code_of text.now }
{
    // kept (proof): the theorems that shut out a wrong comparing are about `same_bytes`
    if same_bytes(text, b"PAYS") {
        Some(Code::Pays)
    } else if same_bytes(text, b"TYPOR") {
        Some(Code::Typor)
    } else if same_bytes(text, b"PROSS") {
        Some(Code::Pross)
    } else if same_bytes(text, b"FINGE") {
        Some(Code::Finge)
    } else {
        None
    }
}
