// Reading with an index (X2 to X5): the codes that a message's results carry are counted in a lent index, and the message in a tally. The index is
// judged first, then the message as the reader judges it, then what would be counted; only then is anything written.
ghost use Rattle.std.specs.Prelude.{◌≡◌};
ghost use Rattle.form.specs.Forms.{limits_of};
ghost use Rattle.order.specs.inner.Levels.{level_in};
ghost use Rattle.order.specs.Owners.{level};
ghost use Rattle.read.specs.Counting.{IndexedAs};
ghost use Rattle.read.specs.inner.Admitting.{IndexesWithin, indexed_by};
ghost use Rattle.read.specs.inner.Deciding.{FormRead};

use crate::Answer;
use crate::admit::admit;
use crate::codes::Accepted;
use crate::decide::decide;
use crate::fill::fill;
use crate::refused::Refused;
use form::forms::{Form, LargeForm, SmallForm};
use form::limits::Limits;
use index::refusal::Refusal;
use index::soundness::is_sound;
use index::tally::Tally;
use table::Card;
use table::rows::Entry;

// What comes back: what the reader answers, and the tally, which is the one that was given where the message is refused.
// kept (C): the public answer of `read_indexed`, which its clause IndexedAs names
#[derive(Clone, Copy)]
pub struct Indexed {
    pub answer: Answer,
    pub tally: Tally,
}

// A message that is filed and counted: its card, and the tally with it.
#[derive(Clone, Copy)]
struct Counted {
    card: Card,
    tally: Tally,
}

impl Indexed {
    // What reading with an index comes to, where the tally was this before.
    fn of(tally: Tally, read: Result<Counted, Refused>) -> Indexed
        ensures { result ≡ indexed_by tally read }
    {
        match read {
            Ok(counted) => Indexed {
                answer: Answer::of(Ok(counted.card)),
                tally: counted.tally,
            },
            Err(refused) => Indexed {
                answer: Answer::of(Err(refused)),
                tally,
            },
        }
    }
}

// Reads a message of a form into the three lent buffers, adds the codes of its results to the lent index and the message to the tally: every message,
// every index and every tally. A message that is refused changes nothing: 53 where what is lent is no index, before the reader's own refusals; behind
// them 50 at the first row whose code is too long, 51 where a new code finds no place, 52 where a count or the tally would pass its last number.
pub fn read_indexed(
    tally: Tally,
    form: Form,
    message: &[u8],
    text: &mut [u8],
    segments: &mut [Entry],
    leaves: &mut [Entry],
    codes: &mut [u8],
    counts: &mut [u32],
) -> Indexed
    ensures { IndexedAs (limits_of form) level tally message.now text.old segments.old leaves.old
        codes.old counts.old
        result text.new segments.new leaves.new codes.new counts.new }
{
    let limits = form.limits();
    match form {
        Form::Small => index_by::<{ SmallForm::SEGMENTS }>(
            tally, limits, message, text, segments, leaves, codes, counts,
        ),
        Form::Large => index_by::<{ LargeForm::SEGMENTS }>(
            tally, limits, message, text, segments, leaves, codes, counts,
        ),
    }
}

// The same under the limits of a form, with room for the kinds and the starts of as many segments as it has.
fn index_by<const SEGMENTS: usize>(
    tally: Tally,
    limits: Limits,
    message: &[u8],
    text: &mut [u8],
    segments: &mut [Entry],
    leaves: &mut [Entry],
    codes: &mut [u8],
    counts: &mut [u32],
) -> Indexed
    requires { FormRead limits SEGMENTS }
    ensures { IndexedAs limits level tally message.now text.old segments.old leaves.old
        codes.old counts.old
        result text.new segments.new leaves.new codes.new counts.new }
{
    let levels = order::levels::table();
    let mut kinds = [0u8; SEGMENTS];
    let mut starts = [0usize; SEGMENTS];
    let read = index_within(
        tally,
        limits,
        &levels,
        &mut kinds,
        &mut starts,
        message,
        text,
        segments,
        leaves,
        codes,
        counts,
    );
    Indexed::of(tally, read)
}

// The same under any limits whose numbers fit the rows, by any table of levels that are below 8, with lent buffers for the kinds and for where the
// segments begin.
fn index_within(
    tally: Tally,
    limits: Limits,
    levels: &[u8; 84],
    kinds: &mut [u8],
    starts: &mut [usize],
    message: &[u8],
    text: &mut [u8],
    segments: &mut [Entry],
    leaves: &mut [Entry],
    codes: &mut [u8],
    counts: &mut [u32],
) -> Result<Counted, Refused>
    requires { IndexesWithin limits levels.now kinds.old starts.old }
    ensures { IndexedAs limits (level_in levels.now) tally message.now text.old segments.old leaves.old
        codes.old counts.old
        (indexed_by tally result) text.new segments.new leaves.new codes.new counts.new }
{
    if !is_sound(codes, counts) {
        return Err(Refused::at(Refusal::NO_INDEX, 0));
    }
    let mut class = [0u8; 256];
    let decision = decide(
        limits,
        &mut class,
        kinds,
        starts,
        message,
        text.len(),
        segments.len(),
        leaves.len(),
    )?;
    let accepted = Accepted {
        class: &class,
        kinds,
        starts,
        limits,
        decision,
        message,
    };
    let after = admit(tally, &accepted, codes, counts)?;
    let bytes = fill(&accepted, levels, text, segments, leaves);
    Ok(Counted {
        card: decision.card(bytes),
        tally: after,
    })
}
