// The first pass: lines are judged up to the first fault, segments and separators are counted, kinds, context and order are looked at.
// Nothing is written but the kinds, which it notes for the second pass, and where the segments begin, for whoever lends room for it.
ghost use Rattle.std.specs.Prelude.{◌≡◌, ◌+◌, ◌-◌, ◌≤◌, ◌<◌, length, set, take, drop};
ghost use Rattle.laws.specs.inner.First.{first_held};
ghost use Rattle.order.specs.inner.Telling.{follows_by};
ghost use Rattle.read.specs.inner.Seeing.{nothing_seen, text_joined, kind_seen, context_seen, watching, segment_shut, segment_begun};
ghost use Rattle.read.specs.inner.Underway.{Seeable, StepOf};
ghost use Rattle.read.specs.inner.Surveying.{Ready, SurveyOf};

use crate::name::{Name, gather};
use crate::refused::Refused;
use crate::scan::scan;
use crate::start::text_from;
use form::context::Context;
use form::kind::Kind;
use form::limits::Limits;
use form::separators::Separators;
use line::finder::{Found, ended_line};
use order::watcher::Watcher;

// What is known once some lines have been seen. The last segment begun is open: lines may still carry it on.
// kept (plainer): 0 for none, as `first_unknown` and `refuse_at` have it, which state the reading
#[derive(Clone, Copy)]
pub struct Survey {
    // segments begun
    pub segments: usize,
    // splitting separators, those of the seven header bytes and of the addenda's first two bytes aside
    pub separators: usize,
    // the first closed segment of unknown kind, or 0
    pub unknown: usize,
    // the first closed segment whose kind may not stand there, or 0
    pub misplaced: usize,
    // told the kinds of the closed segments
    pub watcher: Watcher,
    // the name of the context in field 7 where the first segment is open (C1), of the open segment's kind where any other is (S1), as far as it
    // has come
    pub name: Name,
}

// One line seen: the survey with its text, and where the next line begins.
#[derive(Clone, Copy)]
pub struct Step {
    pub seen: Survey,
    pub next: usize,
}

impl Survey {
    // Before the first line is seen: its seven header bytes are known, so the open segment is an H.
    fn begin() -> Survey
        ensures { result ≡ nothing_seen }
    {
        Survey {
            segments: 1,
            separators: 0,
            unknown: 0,
            misplaced: 0,
            watcher: Watcher::begin(0),
            // field 3 begins behind the header bytes, and the fifth field separator ends field 7
            name: Name::fresh(5),
        }
    }

    // The text of a line, from `from` up to `end` and with so many separators, joined to the open segment.
    fn with_text(
        self,
        field: u8,
        message: &[u8],
        from: usize,
        end: usize,
        separators: usize,
    ) -> Survey
        requires { (from ≤ end) × (end ≤ length message.now) × (self.separators + separators ≤ end) }
        ensures { result ≡ text_joined field self (take (end - from) (drop from message.now)) separators }
    {
        Survey {
            separators: self.separators + separators,
            name: gather(self.name, field, &message[from..end]),
            ..self
        }
    }

    // The kind of the open segment by number. The first is an H by its header bytes.
    fn kind_number(self) -> u8
        ensures { result ≡ kind_seen self }
    {
        if self.segments == 1 {
            return Kind::H;
        }
        let letters = self.name.letters;
        Kind::of(letters.length, letters.first, letters.second, letters.third)
    }

    // The context by number, where the first segment is open: 0 where its field 7 has not come.
    fn context_number(self) -> u8
        ensures { result ≡ context_seen self }
    {
        if 1 < self.name.left {
            return 0;
        }
        let letters = self.name.letters;
        Context::of(letters.length, letters.first, letters.second, letters.third)
    }

    // The open segment is closed: its kind is noted and judged, and the watcher told.
    fn closed(self, followers: &[u8; 847], kinds: &mut [u8]) -> Survey
        requires { 1 ≤ self.segments }
        ensures { (result ≡ segment_shut (follows_by followers.now) self)
            × (kinds.new ≡ set kinds.old (self.segments - 1) (kind_seen self)) }
    {
        let kind = self.kind_number();
        let told = self.watching().tell_by(followers, kind);
        note(kinds, self.segments, kind);
        Survey {
            unknown: first_of(self.unknown, kind == 0, self.segments),
            misplaced: first_of(self.misplaced, !told.yes, self.segments),
            watcher: told.watcher,
            ..self
        }
    }

    // The watcher, which field 7 of the first segment begins (C1).
    fn watching(self) -> Watcher
        ensures { result ≡ watching self }
    {
        if self.segments == 1 {
            Watcher::begin(self.context_number())
        } else {
            self.watcher
        }
    }

    // The next segment begun behind a closed one.
    fn next_segment(self) -> Survey
        requires { self.segments + 1 < 18446744073709551616 }
        ensures { result ≡ segment_begun self }
    {
        Survey {
            segments: self.segments + 1,
            name: Name::fresh(1),
            ..self
        }
    }
}

// The kind of the segment with this number, or where it begins, is noted, where there is room for it: a message with more segments is
// refused.
fn note<T: Copy>(list: &mut [T], segment: usize, value: T)
    requires { 1 ≤ segment }
    ensures { list.new ≡ set list.old (segment - 1) value }
{
    if segment <= list.len() {
        list[segment - 1] = value;
    }
}

// The first place at which a test held, 0 standing for none: the earlier one, or this place where the test holds here.
fn first_of(earlier: usize, holds: bool, place: usize) -> usize
    ensures { result ≡ first_held earlier holds place }
{
    if earlier != 0 {
        earlier
    } else if holds {
        place
    } else {
        0
    }
}

// One line that begins at `at`, whose text is joined from `from` on, or its fault.
fn see_line(
    class: &[u8; 256],
    limits: Limits,
    separators: Separators,
    message: &[u8],
    at: usize,
    from: usize,
    seen: Survey,
) -> Result<Step, Refused>
    requires { Seeable limits separators class.now message.now at from seen }
    ensures { StepOf limits separators message.now seen.segments at result }
{
    // the last place where the CR of the line may stand (L3), or the message's end where that comes first
    let stop = at + limits.line.min(message.len() - at);
    let scanned = scan(class, message, from, stop);
    match ended_line(message, at, scanned.end) {
        Found::Line { end, next } => Ok(Step {
            seen: seen.with_text(separators.field, message, from, end, scanned.separators),
            next,
        }),
        // not among the answers of `ended_line`
        Found::End => Ok(Step { seen, next: at }),
        Found::Fault { number, place } => Err(Refused { number, place }),
    }
}

// All lines of a message whose header is sound, or their first fault. Each line is seen at one place in the code, the first behind its seven header bytes: the
// compiler then keeps the survey where it is. An addendum carries the open segment on, any other line closes it and begins the next, whose
// start is noted.
pub(crate) fn survey_message(
    class: &[u8; 256],
    followers: &[u8; 847],
    limits: Limits,
    separators: Separators,
    message: &[u8],
    kinds: &mut [u8],
    starts: &mut [usize],
) -> Result<Survey, Refused>
    requires { Ready limits separators class.now followers.now message.now }
    ensures { SurveyOf limits separators message.now kinds.new starts.new result }
{
    let mut seen = Survey::begin();
    let mut at = 0;
    let mut from = 7;
    // kept (plainer): where the next line begins is known only once this one was seen
    loop {
        let step = see_line(class, limits, separators, message, at, from, seen)?;
        seen = step.seen;
        at = step.next;
        from = text_from(message, at, separators.field);
        if from == at {
            seen = seen.closed(followers, kinds);
            if message.len() <= at {
                return Ok(seen);
            }
            seen = seen.next_segment();
            note(starts, seen.segments, at);
        }
    }
}
