// The twelve kinds of segment (S1): their numbers, the number of a name, and the name of a number.
ghost use Rattle.std.specs.Prelude.{◌≡◌};
ghost use Rattle.form.specs.Names.{kind_names, kind_of, name_of};
ghost use Rattle.form.specs.inner.Lettering.{name_by, spelled};

use crate::letters::{Letters, Spelled};

// A kind is its number, from 1 to 12; 0 is no kind.
#[derive(Drop)]
pub struct Kind {}

impl Kind {
    pub const H: u8 = 1;

    pub const P: u8 = 2;

    pub const AP: u8 = 3;

    pub const AC: u8 = 4;

    pub const OBR: u8 = 5;

    pub const OBX: u8 = 6;

    pub const FAC: u8 = 7;

    pub const REG: u8 = 8;

    pub const ACT: u8 = 9;

    pub const ERR: u8 = 10;

    pub const L: u8 = 11;

    pub const C: u8 = 12;

    // The kind by the length of its name first, then by its letters (S7); 0 where no kind has that name. A alone is none: it marks a line that
    // carries a segment on (A1). Letters past the length do not count, and no kind has a fourth. C is asked for by itself, so that the rest is
    // small enough for the compiler to put it in place in reader and writer; ERR comes first, since it stands in the shortest messages.
    pub fn of(length: usize, first: u8, second: u8, third: u8) -> u8
        ensures { result ≡ kind_of (name_by length first second third) }
    {
        if (length == 1) & (first == b'C') {
            return Kind::C;
        }
        match length {
            1 => match first {
                b'H' => Kind::H,
                b'P' => Kind::P,
                b'L' => Kind::L,
                _ => 0,
            },
            2 => if (first == b'A') & (second == b'P') {
                Kind::AP
            } else if (first == b'A') & (second == b'C') {
                Kind::AC
            } else {
                0
            },
            3 => if (first == b'E') & (second == b'R') & (third == b'R') {
                Kind::ERR
            } else if (first == b'O') & (second == b'B') & (third == b'X') {
                Kind::OBX
            } else if (first == b'O') & (second == b'B') & (third == b'R') {
                Kind::OBR
            } else if (first == b'F') & (second == b'A') & (third == b'C') {
                Kind::FAC
            } else if (first == b'R') & (second == b'E') & (third == b'G') {
                Kind::REG
            } else if (first == b'A') & (second == b'C') & (third == b'T') {
                Kind::ACT
            } else {
                0
            },
            _ => 0,
        }
    }

    // The kind of a name that stands in one piece, or 0 where no kind has it (S1).
    pub fn named(text: &[u8]) -> u8
        ensures { result ≡ kind_of text.now }
    {
        let name = Letters::of(text);
        Kind::of(name.length, name.first, name.second, name.third)
    }

    // The name of a kind by its number; no letters where no kind has it.
    pub fn name(kind: usize) -> Spelled
        ensures { result ≡ spelled (name_of kind_names kind) }
    {
        match kind {
            1 => Spelled(1, [b'H', 0, 0]),
            2 => Spelled(1, [b'P', 0, 0]),
            3 => Spelled(2, [b'A', b'P', 0]),
            4 => Spelled(2, [b'A', b'C', 0]),
            5 => Spelled(3, [b'O', b'B', b'R']),
            6 => Spelled(3, [b'O', b'B', b'X']),
            7 => Spelled(3, [b'F', b'A', b'C']),
            8 => Spelled(3, [b'R', b'E', b'G']),
            9 => Spelled(3, [b'A', b'C', b'T']),
            10 => Spelled(3, [b'E', b'R', b'R']),
            11 => Spelled(1, [b'L', 0, 0]),
            12 => Spelled(1, [b'C', 0, 0]),
            _ => Spelled(0, [0, 0, 0]),
        }
    }
}
