// The line of a message that the reader accepts: the verdict on its table (R4, R5).
ghost use Rattle.std.specs.Prelude.{◌≤◌};
ghost use Rattle.screen.specs.Refusals.{first_rule};

use crate::codes::put_miscounted;
use crate::fields::put_unfilled;
use crate::lent::Lent;
use crate::names::{context_name, kind_name};
use crate::refused::put_refused;
use crate::values::put_misvalued;
use form::forms::Form;
use form::number::Number;
use screen::refusal::Refusal;
use screen::screen;

// Screens a table, and says yes, or no with what is wrong. The rules are those that the library
// took from the specification, and no others.
pub fn put_verdict(rt: &impl Print, table: &Lent) {
    let verdict = screen(
        Form::Large,
        table.card,
        table.segments,
        table.leaves,
        table.text,
    );
    match verdict.number {
        Number::ACCEPTED => {
            let _ = println!(rt;
                "yes: the report keeps all rules, 31 to 45 (screening specification, version 0.18)"
            );
        }
        Refusal::NOT_A_REPORT => put_no_report(rt, table.card.context),
        Refusal::NO_NAME..=Refusal::WRONG_RESULT => {
            put_failed(rt, table, verdict.number, verdict.place)
        }
        _ => put_refused(rt, verdict.number, verdict.place),
    }
}

// A message of another context than ORU.
fn put_no_report(rt: &impl Print, context: u8) {
    let name = context_name(context);
    let _ = println!(rt;
        "no: rule {}, the message is no ORU, its context (7.7) is {name}",
        Refusal::NOT_A_REPORT
    );
}

// The rule that fails, what is wrong, and the row with its kind.
fn put_failed(rt: &impl Print, table: &Lent, rule: u8, row: usize)
    requires { first_rule ≤ rule }
{
    let _ = print!(rt; "no: rule {rule}, ");
    match rule {
        Refusal::NO_NAME..=Refusal::NO_LABORATORY => put_unfilled(rt, table, row, rule),
        Refusal::NOT_ONE_PAYS..=Refusal::NOT_ONE_FINGE => put_miscounted(rt, table, row, rule),
        _ => put_misvalued(rt, table, row, rule),
    }
    let _ = println!(rt; ", at row {row} ({})", kind_name(table.kind_of(row)));
}
