// The check for screening reports (rules R1 to R6): whether an ORU has the fields, the
// pseudo-analyses and the values that are asked of it. It stands above the library: of a table it
// knows only what the crates below promise.
#![tactic(auto)]

mod codes;
mod fields;
mod leaf;
pub mod refusal;
mod rule;
mod values;
pub mod wanted;

ghost use Rattle.std.specs.Prelude.{◌≡◌};
ghost use Rattle.form.specs.Forms.{limits_of};
ghost use Rattle.order.specs.Owners.{level};
ghost use Rattle.table.specs.Lent.{lent};
ghost use Rattle.screen.specs.Refusals.{first_rule};
ghost use Rattle.screen.specs.Rules.{rules};
ghost use Rattle.screen.specs.Verdicts.{refused_with, judged_by, screened};
ghost use Rattle.screen.specs.inner.Rows.{Report};

use crate::refusal::Refusal;
use crate::rule::first_failed;
use form::context::Context;
use form::forms::Form;
use form::number::Number;
use table::{Card, rows};

// What comes back (R4, R5): 0 for yes; else the number of the lowest rule that some row fails, and
// the first such row; or 13 or 30 with the place 0.
#[derive(Clone, Copy)]
pub struct Verdict {
    pub number: u8,
    pub place: usize,
}

// Whether a table of a form is a screening report that keeps every rule. Any card and any buffers
// get a verdict, and nothing is changed. Once the table is tested, each row is judged once, and
// each result once more for its patient.
pub fn screen(
    form: Form,
    card: Card,
    segments: &[rows::Entry],
    leaves: &[rows::Entry],
    text: &[u8],
) -> Verdict
    ensures { result ≡ screened (limits_of form) level (lent card segments.now leaves.now text.now) }
{
    if !write::test::is_table(form, card, segments, leaves, text) {
        refused(Number::NO_TABLE)
    } else if card.context != Context::ORU {
        refused(Refusal::NOT_A_REPORT)
    } else {
        judge(card, segments, leaves, text)
    }
}

// A no without a row.
fn refused(number: u8) -> Verdict
    ensures { result ≡ refused_with number }
{
    Verdict { number, place: 0 }
}

// The verdict by the rules. Of each row the lowest rule counts that it fails; the lowest of all
// rows is kept with the first row that has it.
fn judge(card: Card, segments: &[rows::Entry], leaves: &[rows::Entry], text: &[u8]) -> Verdict
    requires { Report (lent card segments.now leaves.now text.now) }
    ensures { result ≡ judged_by (lent card segments.now leaves.now text.now) first_rule rules }
{
    let mut lowest: Option<Verdict> = None;
    for row in 0..card.segments {
        if let Some(failed) = first_failed(card, segments, leaves, text, row) {
            if lowest.is_none_or(|found| failed < found.number) {
                lowest = Some(Verdict {
                    number: failed,
                    place: row + 1,
                });
            }
        }
    }
    lowest.unwrap_or(refused(Number::ACCEPTED))
}
