// Line and column of an offset, as an editor shows them (E4).
ghost use Rattle.std.specs.Prelude.{◌≡◌};
ghost use Rattle.source.specs.Positions.{position_behind, position_of};

// The byte that ends a line (L1).
const CR: u8 = 13;

// Line and column, both counted from 1.
#[derive(Clone, Copy)]
pub struct Position {
    pub line: usize,
    pub column: usize,
}

// The position of an offset in any message (E4): one line more than there are CRs before it, and one column more than there are bytes since the
// last of them. An offset past the message's end counts as that end.
pub fn position_of(message: &[u8], offset: usize) -> Position
    ensures { result ≡ position_of message.now offset }
{
    position_behind(&message[..offset.min(message.len())])
}

// The position behind some bytes.
pub fn position_behind(bytes: &[u8]) -> Position
    ensures { result ≡ position_behind bytes.now }
{
    let mut ends = 0;
    let mut since = 0;
    for byte in bytes {
        if *byte == CR {
            ends += 1;
            since = 0;
        } else {
            since += 1;
        }
    }
    Position {
        line: ends + 1,
        column: since + 1,
    }
}
