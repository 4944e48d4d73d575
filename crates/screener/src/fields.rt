// What is said where a field that must have a text (R1) has none.
ghost use Rattle.std.specs.Prelude.{◌≤◌, ◌<◌};
ghost use Rattle.screen.specs.Refusals.{first_rule};
ghost use Rattle.screen.specs.inner.Rows.{first_code_rule};

use crate::lent::Lent;
use look::leaf::Sought;
use screen::refusal::Refusal;
use screen::wanted::WANTED;

// The field that a rule asks for, and whether a row does not have it or has it empty. That it has a
// text is never said: then the rule does not fail.
pub fn put_unfilled(rt: &impl Print, table: &Lent, row: usize, rule: u8)
    requires { (first_rule ≤ rule) × (rule < first_code_rule) }
{
    let asked = WANTED[(rule - Refusal::NO_NAME) as usize];
    let field = field_of(rule);
    let _ = match table.leaf_of(row, asked.field, asked.subfield) {
        Sought::At(_, _) => print!(rt; "{field} is there"),
        Sought::Empty => print!(rt; "{field} is empty"),
        Sought::NotThere => print!(rt; "{field} is not there"),
    };
}

// The field of a rule, in words.
fn field_of(rule: u8) -> &'static str {
    match rule {
        Refusal::NO_NAME => "the name in use (8.6.1)",
        Refusal::NO_FIRST_NAME => "the first name (8.6.2)",
        Refusal::NO_BIRTH_NAME => "the birth name (8.7)",
        Refusal::NO_TELEPHONE => "the telephone (8.13)",
        Refusal::NO_POSTAL_CODE => "the postal code (8.11.5)",
        Refusal::NO_ORDER_NUMBER => "the order's number in the laboratory (9.4.2)",
        Refusal::NO_SAMPLE_TIME => "the time of the sample (9.8)",
        _ => "the laboratory's code (7.5.1)",
    }
}
