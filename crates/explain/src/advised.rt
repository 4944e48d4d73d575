// Advice in words, with the command that follows it where there is one.
use crate::output::Line;

// Writes a piece of advice.
pub fn write_advice(rt: &impl Print, advice: &str) {
    let mut line = Line::whole();
    write!(line, "advice: {advice}");
    line.write_whole(rt);
}

// On a file as a whole.
pub const EMPTY_FILE: &str = "the file is empty: have the message sent again";

pub const CUT_OFF: &str = "the end of the message is missing: have it sent again";

// Only the CR behind the L is missing.
pub const LAST_END: &str =
    "only the CR behind the last line, the L, is missing: add it (printf '\\r' >>FILE)";

// Spaces or control bytes stand before the H.
pub const AHEAD: &str = "take off what stands before the H";

pub const FOREIGN: &str =
    "this is an HL7 message (MSH) and no H.PR.I.M. one: have it sent in H.PR.I.M. Santé 2.4";

// On how its bytes are written.
pub const LINE_FEEDS: &str =
    "the lines end in LF: convert line ends to CR (tr '\\n' '\\r' <FILE >NEW)";

pub const TABS: &str = "put a space for each tab (tr '\\t' ' ' <FILE >NEW)";

// A byte order mark in front of UTF-8.
pub const MARK: &str =
    "a byte order mark stands before the message: take it off and convert the letters to ISO 8859-1 \
    (tail -c +4 FILE | iconv -f UTF-8 -t ISO-8859-1 >NEW)";

// UTF-16, with a mark or without.
pub const WIDE: &str =
    "the file is in UTF-16: convert it to ISO 8859-1 (iconv -f UTF-16 -t ISO-8859-1 <FILE >NEW)";

// Letters of UTF-8, two bytes and more each: a line is too long by them.
pub const LETTERS: &str =
    "the letters are in UTF-8, and the line is short enough with one byte for each: convert them to \
    ISO 8859-1 (iconv -f UTF-8 -t ISO-8859-1 <FILE >NEW)";

// The message was read all the same.
pub const READ_LETTERS: &str =
    "the letters are in UTF-8, and each of their bytes was read as a letter of its own: convert \
    them to ISO 8859-1 (iconv -f UTF-8 -t ISO-8859-1 <FILE >NEW)";

// On what belongs to no message, or to another: an MLLP frame around the message, inside a line, or
// between two messages.
pub const FRAME: &str =
    "an MLLP frame stands around the message: take off the VT in front, and FS and CR behind";

pub const FRAME_INSIDE: &str =
    "a byte of an MLLP frame stands inside a line: take it off, and end each line in CR, the last \
    one too";

pub const FRAME_BETWEEN: &str =
    "another message begins behind this byte: split the file there, take off the FS and VT of its \
    frames, and end the line before them in CR";

pub const TWO_MESSAGES: &str = "another message begins here: split the file before this line";

// The large form takes what the small one does not.
pub const LARGE_FORM: &str = "the large form accepts this message: judge it without --small";

// On segments.
pub const SMALL_LETTERS: &str =
    "write the kind in capital letters, with nothing else before the field separator";

pub const SPACE_BESIDE: &str = "take off the space beside the kind";

// A line should be an addendum.
pub const NO_ADDENDUM: &str =
    "where this line carries the one before it on, put A and the field separator in front of it";

pub const SMALL_CONTEXT: &str = "write the context in capital letters";

pub const LONG_CONTEXT: &str = "leave nothing but the context's name in field 7";

pub const LONG_LINE: &str =
    "cut the segment: what is past the line's limit goes into lines of its own that begin with A \
    and the field separator";
