// Reading one value from its text (D1 to D3).
ghost use Rattle.std.specs.Prelude.{◌≡◌, ◌<◌};
ghost use Rattle.value.specs.Numerals.{most_digits};
ghost use Rattle.value.specs.Values.{value_of, with_sign};
ghost use Rattle.value.specs.inner.Said.{told};
ghost use Rattle.value.specs.inner.Signs.{half_range};

use crate::numeral::{NotSaid, Said, read_numeral};
use crate::sign::signed;
use form::number::Number;

// What a text says: 0, 20 or 21 (D3); a whole number with its sign; and how many of its digits stand behind the point. So -.52 is -52 with 2.
// Beside 20 and 21 stand 0 and 0.
// kept (C): sargaceu_read_value answers these numbers
#[derive(Clone, Copy)]
pub struct Value {
    pub number: u8,
    pub whole: i64,
    pub decimals: usize,
}

// The value of a text, whatever it holds and of whatever length.
pub fn read_value(text: &[u8]) -> Value
    ensures { result ≡ value_of most_digits text.now }
{
    value_said(read_numeral(text))
}

// The value of what a text says, with its sign put on.
pub(crate) fn value_said(said: Result<Said, NotSaid>) -> Value
    requires { (told said).magnitude < half_range }
    ensures { result ≡ with_sign (told said) }
{
    match said {
        Ok(said) => Value {
            number: Number::ACCEPTED,
            whole: signed(said.negative, said.magnitude),
            decimals: said.decimals,
        },
        Err(why) => Value {
            number: why.number(),
            whole: 0,
            decimals: 0,
        },
    }
}
