// The seven contexts (C1): their numbers, the number of a name, and the name of a number.
ghost use Rattle.std.specs.Prelude.{◌≡◌};
ghost use Rattle.form.specs.Names.{context_names, context_of, name_of};
ghost use Rattle.form.specs.inner.Lettering.{name_by, spelled};

use crate::letters::{Letters, Spelled};

// A context is its number, from 1 to 7; 0 is no context.
#[derive(Drop)]
pub struct Context {}

impl Context {
    pub const ADM: u8 = 1;

    pub const ORM: u8 = 2;

    pub const ORA: u8 = 3;

    pub const REG: u8 = 4;

    pub const ERR: u8 = 5;

    pub const ORU: u8 = 6;

    pub const FAC: u8 = 7;

    // The context by the length of its name first, then by its letters, as `Kind::of` has it; 0 where no context has that name.
    pub fn of(length: usize, first: u8, second: u8, third: u8) -> u8
        ensures { result ≡ context_of (name_by length first second third) }
    {
        match length {
            3 => if (first == b'E') & (second == b'R') & (third == b'R') {
                Context::ERR
            } else if (first == b'A') & (second == b'D') & (third == b'M') {
                Context::ADM
            } else if (first == b'O') & (second == b'R') & (third == b'U') {
                Context::ORU
            } else if (first == b'O') & (second == b'R') & (third == b'M') {
                Context::ORM
            } else if (first == b'O') & (second == b'R') & (third == b'A') {
                Context::ORA
            } else if (first == b'R') & (second == b'E') & (third == b'G') {
                Context::REG
            } else if (first == b'F') & (second == b'A') & (third == b'C') {
                Context::FAC
            } else {
                0
            },
            _ => 0,
        }
    }

    // The context of a name that stands in one piece, or 0 where no context has it (C1).
    pub fn named(text: &[u8]) -> u8
        ensures { result ≡ context_of text.now }
    {
        let name = Letters::of(text);
        Context::of(name.length, name.first, name.second, name.third)
    }

    // The name of a context by its number; no letters where no context has it.
    pub fn name(context: usize) -> Spelled
        ensures { result ≡ spelled (name_of context_names context) }
    {
        match context {
            1 => Spelled(3, [b'A', b'D', b'M']),
            2 => Spelled(3, [b'O', b'R', b'M']),
            3 => Spelled(3, [b'O', b'R', b'A']),
            4 => Spelled(3, [b'R', b'E', b'G']),
            5 => Spelled(3, [b'E', b'R', b'R']),
            6 => Spelled(3, [b'O', b'R', b'U']),
            7 => Spelled(3, [b'F', b'A', b'C']),
            _ => Spelled(0, [0, 0, 0]),
        }
    }
}
