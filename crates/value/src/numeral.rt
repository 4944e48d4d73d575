// What the text of a number says (D1, D2), its sign and its digits apart.
ghost use Rattle.std.specs.Prelude.{true, ◌≡◌};
ghost use Rattle.value.specs.Numerals.{is_digit, most_digits, unsigned_text, is_negative, numeral_of};
ghost use Rattle.value.specs.inner.Runs.{with_digit, run_of, judged_digits};
ghost use Rattle.value.specs.inner.Said.{told, reason};

use crate::digits::{DIGITS, TOO_LARGE};
use crate::refusal::Refusal;

// A number as its text says it: whether a minus stands in front; the number that all its digits
// make; how many of them stand behind the point.
#[derive(Clone, Copy)]
pub(crate) struct Said {
    pub negative: bool,
    pub magnitude: u64,
    pub decimals: usize,
}

// Why a text says no number (D3).
#[derive(Clone, Copy)]
pub(crate) enum NotSaid {
    NotANumber,
    ManyDigits,
}

impl NotSaid {
    // The number of the refusal.
    pub(crate) fn number(self) -> u8
        ensures { result ≡ reason self }
    {
        match self {
            NotSaid::NotANumber => Refusal::NOT_A_NUMBER,
            NotSaid::ManyDigits => Refusal::MANY_DIGITS,
        }
    }
}

// What a text says, of whatever length: a sign or none, digits, and at most one point with digits behind it. Each byte is looked at once.
pub(crate) fn read_numeral(text: &[u8]) -> Result<Said, NotSaid>
    ensures { told result ≡ numeral_of most_digits text.now }
{
    let negative = is_negative(text);
    let digits = unsigned_text(text);
    let (whole, magnitude) = digit_run(digits, 0);
    let rest = &digits[whole..];
    match rest {
        [] => judged(negative, whole, whole, magnitude, 0),
        [b'.', behind @ ..] => {
            let (decimals, magnitude) = digit_run(behind, magnitude);
            if decimals == behind.len() {
                judged(negative, whole + decimals, decimals, magnitude, decimals)
            } else {
                Err(NotSaid::NotANumber)
            }
        }
        _ => Err(NotSaid::NotANumber),
    }
}

// Whether a text begins with a minus.
#[tactic(auto, unfolding(crate::specs::Numerals::is_negative))]
fn is_negative(text: &[u8]) -> bool
    ensures { result ≡ is_negative text.now }
{
    matches!(text, [b'-', ..])
}

// What stands behind the sign, where a text begins with one.
#[tactic(auto, using(crate::proofs::TextsSaid::behind_plus, crate::proofs::TextsSaid::behind_minus, crate::proofs::TextsSaid::no_sign, crate::proofs::TextsSaid::no_byte))]
fn unsigned_text(text: &[u8]) -> &[u8]
    ensures { result.now ≡ unsigned_text text.now }
{
    match text {
        [b'+' | b'-', rest @ ..] => rest,
        _ => text,
    }
}

// How many digits a text begins with, and the number that they make behind one that was made before
// them.
fn digit_run(text: &[u8], before: u64) -> (usize, u64)
    ensures { result ≡ run_of most_digits text.now before }
{
    let mut magnitude = before;
    for (count, byte) in text.iter().enumerate() {
        if !byte.is_ascii_digit() {
            return (count, magnitude);
        }
        magnitude = with_digit(magnitude, *byte);
    }
    (text.len(), magnitude)
}

// A number with one digit more. One that has over 15 digits stays: its text is refused, and nobody asks for it.
#[tactic(auto, using(crate::proofs::DigitTexts::digit_from), unfolding(crate::specs::inner::Runs::with_digit))]
fn with_digit(magnitude: u64, digit: u8) -> u64
    requires { is_digit digit ≡ true }
    ensures { result ≡ with_digit most_digits magnitude digit }
{
    if magnitude < TOO_LARGE {
        magnitude * 10 + (digit - b'0') as u64
    } else {
        magnitude
    }
}

// What so many digits say, the last `last` of which are those that one at least must stand among: those behind the point, or all.
#[tactic(auto, unfolding(crate::specs::inner::Runs::judged_digits, crate::specs::inner::Said::told))]
fn judged(
    negative: bool,
    digits: usize,
    last: usize,
    magnitude: u64,
    decimals: usize,
) -> Result<Said, NotSaid>
    ensures { told result ≡ judged_digits most_digits negative digits last magnitude decimals }
{
    if last == 0 {
        Err(NotSaid::NotANumber)
    } else if DIGITS < digits {
        Err(NotSaid::ManyDigits)
    } else {
        Ok(Said {
            negative,
            magnitude,
            decimals,
        })
    }
}
