// The reader: from the bytes of one message into a lent text area, segment rows and leaf rows. The first pass surveys the message and
// decides every refusal; only then does the second pass write. Both read the message where it lies.
#![tactic(auto)]

ghost use Rattle.std.specs.Prelude.{◌≡◌};
ghost use Rattle.form.specs.Forms.{limits_of};
ghost use Rattle.order.specs.inner.Levels.{level_in};
ghost use Rattle.order.specs.Owners.{level};
ghost use Rattle.read.specs.Answering.{ReadAs};
ghost use Rattle.read.specs.inner.Deciding.{FormRead, ReadsWithin, answered, card_by};

use codes::Accepted;
use decide::decide;
use fill::fill;
use form::forms::{Form, LargeForm, SmallForm};
use form::limits::Limits;
use form::number::Number;
use refused::Refused;
use table::Card;
use table::rows::Entry;

mod admit;
mod census;
mod codes;
mod decide;
mod fill;
pub mod indexed;
mod lay;
mod name;
mod refused;
mod scan;
mod start;
mod survey;

// What comes back (rules N1, N3): a number, its place, and the card, which is all zero on a refusal.
// kept (C): the public answer of `read`, which its clause ReadAs names
#[derive(Clone, Copy)]
pub struct Answer {
    pub number: u8,
    pub place: usize,
    pub card: Card,
}

impl Answer {
    // What reading comes to, as an answer: the card of a message that is accepted, or its refusal, with a card that is all zero (N3).
    fn of(read: Result<Card, Refused>) -> Answer
        ensures { result ≡ answered read }
    {
        match read {
            Ok(card) => Answer {
                number: Number::ACCEPTED,
                place: 0,
                card,
            },
            Err(Refused { number, place }) => Answer {
                number,
                place,
                card: Card {
                    separator: 0,
                    context: 0,
                    segments: 0,
                    leaves: 0,
                    text: 0,
                },
            },
        }
    }
}

// Reads a message of a form into the three lent buffers: every message of every length, whatever the buffers hold (N1 to N3). Buffers under
// the form's sizes (T6, T8) are refused with 1, longer ones are used at their front (T7). The kinds that the survey notes take as many bytes
// as the form has segments: a reading in the small form clears no more than its own.
pub fn read(
    form: Form,
    message: &[u8],
    text: &mut [u8],
    segments: &mut [Entry],
    leaves: &mut [Entry],
) -> Answer
    ensures { ReadAs (limits_of form) level message.now text.old segments.old leaves.old
        result text.new segments.new leaves.new }
{
    let limits = form.limits();
    match form {
        Form::Small => read_by::<{ SmallForm::SEGMENTS }>(limits, message, text, segments, leaves),
        Form::Large => read_by::<{ LargeForm::SEGMENTS }>(limits, message, text, segments, leaves),
    }
}

// The same under the limits of a form, with room for as many kinds as it has segments.
fn read_by<const SEGMENTS: usize>(
    limits: Limits,
    message: &[u8],
    text: &mut [u8],
    segments: &mut [Entry],
    leaves: &mut [Entry],
) -> Answer
    requires { FormRead limits SEGMENTS }
    ensures { ReadAs limits level message.now text.old segments.old leaves.old
        result text.new segments.new leaves.new }
{
    let levels = order::levels::table();
    let mut kinds = [0u8; SEGMENTS];
    Answer::of(read_within(limits, &levels, &mut kinds, message, text, segments, leaves))
}

// The same under any limits whose numbers fit the rows, by any table of levels that are below 8, with a lent buffer for the kinds: nothing
// is filled in before all is decided.
fn read_within(
    limits: Limits,
    levels: &[u8; 84],
    kinds: &mut [u8],
    message: &[u8],
    text: &mut [u8],
    segments: &mut [Entry],
    leaves: &mut [Entry],
) -> Result<Card, Refused>
    requires { ReadsWithin limits levels.now kinds.old }
    ensures { ReadAs limits (level_in levels.now) message.now text.old segments.old leaves.old
        (answered result) text.new segments.new leaves.new }
{
    let mut class = [0u8; 256];
    // filling asks for no start of a segment
    let mut none = [0usize; 0];
    let decision = decide(
        limits,
        &mut class,
        kinds,
        &mut none,
        message,
        text.len(),
        segments.len(),
        leaves.len(),
    )?;
    let accepted = Accepted {
        class: &class,
        kinds,
        starts: &none,
        limits,
        decision,
        message,
    };
    let bytes = fill(&accepted, levels, text, segments, leaves);
    Ok(decision.card(bytes))
}
