// The name in one field of a segment, gathered letter by letter as its lines come: a name may be
// cut anywhere (A3).
ghost use Rattle.std.specs.Prelude.{◌≡◌};
ghost use Rattle.read.specs.inner.Naming.{fresh, with_bytes};

use form::letters::Letters;

// kept (plainer): `left` counts down to 0 by itself, and an Option would hold the same count
#[derive(Clone, Copy)]
pub struct Name {
    // field separators that are to come up to the one that ends the field: 1 in the field itself, 0
    // once it has ended
    pub left: usize,
    // of the field that the last byte stood in, or of the field sought once that has ended
    pub letters: Letters,
}

impl Name {
    // Nothing gathered yet of the field that so many field separators end.
    pub fn fresh(left: usize) -> Name
        ensures { result ≡ fresh left }
    {
        Name {
            left,
            letters: Letters {
                length: 0,
                first: 0,
                second: 0,
                third: 0,
            },
        }
    }
}

// The name once some more bytes have come; it stops where the field has ended. In an earlier field
// letters are gathered, too, and given up at its end: that takes less than to ask at each letter
// which field it is.
pub(crate) fn gather(name: Name, field: u8, bytes: &[u8]) -> Name
    ensures { result ≡ with_bytes field name bytes.now }
{
    let mut left = name.left;
    let mut letters = name.letters;
    for b in bytes {
        if left == 0 {
            break;
        }
        if *b == field {
            left -= 1;
            if left != 0 {
                letters.length = 0;
            }
        } else {
            letters = letters.with(*b);
        }
    }
    Name { left, letters }
}
