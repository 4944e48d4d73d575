// The five separators and the header rule (H1, H2).
ghost use Rattle.std.specs.Prelude.{◌&&◌, ◌≡◌};
ghost use Rattle.form.specs.Header.{allowed, all_allowed, different, five, header_of};

// The separators that a message's header names, in the order of its bytes 1 to 5.
#[derive(Clone, Copy)]
pub struct Separators {
    pub field: u8,
    pub subfield: u8,
    pub repeater: u8,
    pub escape: u8,
    pub subsubfield: u8,
}

// What the first seven bytes of a message say.
#[derive(Clone, Copy)]
pub enum Header {
    Sound(Separators),
    Broken,
}

impl Header {
    // What the header of a message says, for any bytes: the separators, where H1 and H2 hold.
    pub fn of(message: &[u8]) -> Header
        ensures { result ≡ header_of message.now }
    {
        if message.len() < 7 {
            return Header::Broken;
        }
        if message[0] != b'H' {
            return Header::Broken;
        }
        if message[6] != message[1] {
            return Header::Broken;
        }
        let separators = Separators {
            field: message[1],
            subfield: message[2],
            repeater: message[3],
            escape: message[4],
            subsubfield: message[5],
        };
        if !separators.different() {
            return Header::Broken;
        }
        if !separators.allowed() {
            return Header::Broken;
        }
        Header::Sound(separators)
    }
}

impl Separators {
    // Whether the five may be the separators of a message (H2). Here and above the five are compared first, while all are at hand: that takes
    // fewer instructions than to fetch them again behind the test of each.
    pub fn sound(self) -> bool
        ensures { result ≡ (all_allowed (five self) && different (five self)) }
    {
        if !self.different() {
            return false;
        }
        self.allowed()
    }

    // Whether each of the five may be a separator.
    fn allowed(self) -> bool
        ensures { result ≡ all_allowed (five self) }
    {
        if !allowed(self.field) {
            return false;
        }
        if !allowed(self.subfield) {
            return false;
        }
        if !allowed(self.repeater) {
            return false;
        }
        if !allowed(self.escape) {
            return false;
        }
        allowed(self.subsubfield)
    }

    // Whether no two of the five are the same byte.
    fn different(self) -> bool
        ensures { result ≡ different (five self) }
    {
        if self.field == self.subfield {
            return false;
        }
        if self.field == self.repeater {
            return false;
        }
        if self.field == self.escape {
            return false;
        }
        if self.field == self.subsubfield {
            return false;
        }
        if self.subfield == self.repeater {
            return false;
        }
        if self.subfield == self.escape {
            return false;
        }
        if self.subfield == self.subsubfield {
            return false;
        }
        if self.repeater == self.escape {
            return false;
        }
        if self.repeater == self.subsubfield {
            return false;
        }
        self.escape != self.subsubfield
    }
}

// Whether a byte may be a separator (H2): it stands in one of the four runs that digits and letters leave from ! to ~. The byte is held to the
// bounds of the runs by halving, so that three or four comparisons tell.
fn allowed(b: u8) -> bool
    ensures { result ≡ allowed b }
{
    if b < b'A' {
        if b < b'0' {
            return b'!' <= b;
        }
        return b'9' < b;
    }
    if b < b'a' {
        return b'Z' < b;
    }
    if b <= b'z' {
        return false;
    }
    b <= b'~'
}
