// Deciding: the tests 1 to 11 on a message (N2), before anything is written but the classes of bytes and the kinds, which filling goes by, and
// where the segments begin.
ghost use Rattle.std.specs.Prelude.{◌≡◌};
ghost use Rattle.table.specs.inner.Fitting.{FitsRows};
ghost use Rattle.table.specs.Reading.{of_message, reading};
ghost use Rattle.read.specs.inner.Deciding.{card_by, decision_of, DecidesAs, Decidable, HeaderPassed};

use crate::refused::Refused;
use crate::survey::{Survey, survey_message};
use form::kind::Kind;
use form::limits::Limits;
use form::number::Number;
use form::separators::{Header, Separators};
use table::class::set_classes;
use table::{Card, rows};

// What a message has that no test refuses.
#[derive(Clone, Copy)]
pub struct Decision {
    pub separators: Separators,
    pub context: u8,
    pub segments: usize,
    pub leaves: usize,
}

impl Decision {
    // The card of such a message, once it is filled in with so many bytes of text.
    pub(crate) fn card(self, bytes: usize) -> Card
        ensures { result ≡ card_by self bytes }
    {
        Card {
            separator: self.separators.field,
            context: self.context,
            segments: self.segments,
            leaves: self.leaves,
            text: bytes,
        }
    }
}

// Tests 1 to 11, for buffers of these lengths, under any limits whose numbers fit the rows. Where it accepts, the class table is that of
// the separators, the kinds of all segments are noted, and where each behind the first begins, as far as there is room.
pub(crate) fn decide(
    limits: Limits,
    class: &mut [u8; 256],
    kinds: &mut [u8],
    starts: &mut [usize],
    message: &[u8],
    text: usize,
    segments: usize,
    leaves: usize,
) -> Result<Decision, Refused>
    requires { Decidable limits class.old kinds.old }
    ensures { DecidesAs limits message.now class.new kinds.new starts.new
        (λ levels. reading limits levels (record { text = text; segment_rows = segments; leaf_rows = leaves }) message.now) result }
{
    if text < limits.bytes
        || segments < limits.segments * rows::SEGMENT_ROW
        || leaves < limits.leaves * rows::LEAF_ROW
    {
        return Err(Refused::at(Number::SHORT_BUFFER, 0));
    }
    if limits.bytes < message.len() {
        return Err(Refused::at(Number::LONG_MESSAGE, 0));
    }
    let Header::Sound(separators) = Header::of(message) else {
        return Err(Refused::at(Number::BROKEN_HEADER, 0));
    };
    decide_sound(limits, separators, class, kinds, starts, message)
}

// The same of a message whose header is sound: tests 4 to 11.
fn decide_sound(
    limits: Limits,
    separators: Separators,
    class: &mut [u8; 256],
    kinds: &mut [u8],
    starts: &mut [usize],
    message: &[u8],
) -> Result<Decision, Refused>
    requires { HeaderPassed limits separators message.now class.old kinds.old }
    ensures { DecidesAs limits message.now class.new kinds.new starts.new
        (λ levels. of_message limits levels message.now separators) result }
{
    set_classes(class, separators);
    let followers = order::followers::table();
    let seen = survey_message(
        class, &followers, limits, separators, message, kinds, starts,
    )?;
    judge(limits, separators, seen)
}

// Tests 7 to 11 by what was seen. Each segment has one leaf more than separators were counted in it (S3), and the first has besides the two
// leaves of the header bytes (S4).
fn judge(limits: Limits, separators: Separators, seen: Survey) -> Result<Decision, Refused>
    requires { FitsRows limits }
    ensures { result ≡ decision_of limits separators seen }
{
    if limits.segments < seen.segments {
        return Err(Refused::at(Number::MANY_SEGMENTS, 0));
    }
    if seen.unknown != 0 {
        return Err(Refused::at(Number::UNKNOWN_KIND, seen.unknown));
    }
    if seen.watcher.context == 0 {
        return Err(Refused::at(Number::NO_CONTEXT, 0));
    }
    if seen.misplaced != 0 {
        return Err(Refused::at(Number::MISPLACED, seen.misplaced));
    }
    if seen.watcher.last != Kind::L {
        return Err(Refused::at(Number::MISPLACED, seen.segments + 1));
    }
    // `seen` may hold any count here, so the separators are held to the limit first: the sum below cannot then overflow
    if limits.leaves < seen.separators {
        return Err(Refused::at(Number::MANY_LEAVES, 0));
    }
    let leaves = seen.separators + seen.segments + 2;
    if limits.leaves < leaves {
        return Err(Refused::at(Number::MANY_LEAVES, 0));
    }
    Ok(Decision {
        separators,
        context: seen.watcher.context,
        segments: seen.segments,
        leaves,
    })
}
