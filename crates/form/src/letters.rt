// Letters of names, which the kinds and the contexts share.
ghost use Rattle.std.specs.Prelude.{◌≡◌, get_or};
ghost use Rattle.form.specs.inner.Lettering.{letters_of, with_letter};

// A name as far as it has to be known: how many letters it has, and the first three of them. No kind and no context has a fourth.
#[derive(Clone, Copy)]
pub struct Letters {
    pub length: usize,
    pub first: u8,
    pub second: u8,
    pub third: u8,
}

// A name to be put out: how many letters it has, and three bytes that begin with them, 0 behind the last.
#[derive(Clone, Copy)]
pub struct Spelled(pub usize, pub [u8; 3]);

impl Letters {
    // Those of a text, 0 for a letter that it has not.
    pub fn of(text: &[u8]) -> Letters
        ensures { result ≡ letters_of text.now }
    {
        Letters {
            length: text.len(),
            first: letter(text, 0),
            second: letter(text, 1),
            third: letter(text, 2),
        }
    }

    // Those of the name with one more letter behind it. A fourth is counted, and no later one.
    pub fn with(self, letter: u8) -> Letters
        ensures { result ≡ with_letter self letter }
    {
        let length = self.length;
        let mut next = self;
        match length {
            0 => {
                next.first = letter;
                next.length = 1;
            }
            1 => {
                next.second = letter;
                next.length = 2;
            }
            2 => {
                next.third = letter;
                next.length = 3;
            }
            _ => {
                next.length = 4;
            }
        }
        next
    }
}

// The byte at a place of a text, or 0 past its end.
fn letter(text: &[u8], at: usize) -> u8
    ensures { result ≡ get_or text.now at 0 }
{
    if at < text.len() { text[at] } else { 0 }
}
