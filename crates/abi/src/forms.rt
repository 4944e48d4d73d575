// A form (T6, T8) that comes in as a number.
ghost use Rattle.std.specs.Prelude.{◌≡◌};
ghost use Rattle.abi.specs.FormNumbers.{form_numbered};

use form::forms::Form;

// The number of the large form.
const LARGE: u8 = 1;

// The form that a number names: 1 is the large one, every other number is taken as the small one, which asks for the least.
pub(crate) fn form_of(number: u8) -> Form
    ensures { result ≡ form_numbered number }
{
    if number == LARGE {
        return Form::Large;
    }
    Form::Small
}
