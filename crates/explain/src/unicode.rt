// Letters that are written in UTF-8, where a message has one byte for each.

// How many characters a text has that is read as UTF-8; none where some of its bytes make up no
// whole character. Of the bytes behind a character's first only their number and their kind are
// looked at, so that some texts are taken here that `str::from_utf8` refuses.
pub fn count_characters(text: &[u8]) -> Option<usize> {
    let mut left = text;
    let mut count = 0;
    // kept (plainer): how far a step goes is told by the byte that it begins with
    while let Some((first, more)) = left.split_first() {
        let (further, behind) = more.split_at_checked(count_further(*first)?)?;
        if !further.iter().all(|b| matches!(*b, 0x80..=0xBF)) {
            return None;
        }
        left = behind;
        count += 1;
    }
    Some(count)
}

// How many bytes go on with a character, by its first; none where no character begins so.
fn count_further(first: u8) -> Option<usize> {
    match first {
        0..=0x7F => Some(0),
        0xC2..=0xDF => Some(1),
        0xE0..=0xEF => Some(2),
        0xF0..=0xF4 => Some(3),
        _ => None,
    }
}
