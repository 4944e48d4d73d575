// The line of a message that the reader refuses (N1).
use form::number::Number;

// Number, reason and place of a refusal.
pub fn put_refused(rt: &impl Print, number: u8, place: usize) {
    let reason = reason_of(number);
    let counted = counted_by(number);
    let _ = println!(rt; "refused: number {number}, {reason}, at place {place}{counted}");
}

// What is wrong with the message. The last words are for the numbers that no message of standard
// input has: its buffers are long enough, and what was read is a table.
fn reason_of(number: u8) -> &'static str {
    match number {
        Number::LONG_MESSAGE => "the message has over 1,048,576 bytes",
        Number::BROKEN_HEADER => "the message does not begin with H and its separators",
        Number::CONTROL_BYTE => "a control byte such as LF stands before a line's CR",
        Number::LONG_LINE => "a line has over 219 bytes before its CR",
        Number::OPEN_LINE => "the last line is not ended by CR",
        Number::MANY_SEGMENTS => "the message has over 4,096 segments",
        Number::UNKNOWN_KIND => "a segment is of unknown kind",
        Number::NO_CONTEXT => "the context (7.7) is missing or unknown",
        Number::MISPLACED => "a segment stands where it may not or the L is missing",
        Number::MANY_LEAVES => "the message has over 65,536 leaves",
        _ => "no table could be made of the message",
    }
}

// What the place counts, where it is not always 0.
fn counted_by(number: u8) -> &'static str {
    match number {
        Number::CONTROL_BYTE | Number::LONG_LINE | Number::OPEN_LINE => " (byte offset)",
        Number::UNKNOWN_KIND | Number::MISPLACED => " (row)",
        _ => "",
    }
}
