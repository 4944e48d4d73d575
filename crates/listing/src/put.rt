// Pieces of a text, put one behind the other by a pen: each method puts its piece at the pen's place of the output and goes on behind it.
ghost use Rattle.std.specs.Prelude.{[], ◌∷◌, ◌+◌, ◌≤◌, length, take};
ghost use Rattle.form.specs.Names.{kind_names, context_names, name_of};
ghost use Rattle.listing.specs.Decimal.{decimal};
ghost use Rattle.listing.specs.inner.Putting.{Wrote};

use form::context::Context;
use form::kind::Kind;
use form::letters::Spelled;
use table::rows;

// An output, and the place in it where the next piece goes.
#[derive(Drop)]
pub(crate) struct Pen<'a> {
    pub(crate) output: &'a mut [u8],
    pub(crate) at: usize,
}

impl Pen<'_> {
    // One byte.
    pub(crate) fn byte(&mut self, byte: u8)
        requires { self.old.at + 1 ≤ length self.old.output.now }
        ensures { Wrote 1 self.old (byte ∷ []) self.new }
    {
        self.output[self.at] = byte;
        self.at += 1;
    }

    // A text.
    pub(crate) fn text(&mut self, text: &[u8])
        requires { self.old.at + length text.now ≤ length self.old.output.now }
        ensures { Wrote (length text.now) self.old text.now self.new }
    {
        let end = self.at + text.len();
        self.output[self.at..end].copy_from_slice(text);
        self.at = end;
    }

    // A number in decimal: the digits of a tenth, and then the last one. It calls itself once for each digit.
    pub(crate) fn number(&mut self, n: usize)
        requires { self.old.at + length (decimal n) ≤ length self.old.output.now }
        ensures { Wrote (length (decimal n)) self.old (decimal n) self.new }
    {
        if n < 10 {
            self.byte(b'0' + n as u8);
        } else {
            self.number(n / 10);
            self.byte(b'0' + (n % 10) as u8);
        }
    }

    // The letters of a name.
    fn name(&mut self, name: Spelled)
        requires { (name.0 ≤ length name.1) × (self.old.at + name.0 ≤ length self.old.output.now) }
        ensures { Wrote (length (take name.0 name.1)) self.old (take name.0 name.1) self.new }
    {
        let Spelled(length, letters) = name;
        self.text(&letters[..length]);
    }

    // The name of a kind; nothing where no kind has the number.
    pub(crate) fn kind(&mut self, kind: rows::Entry)
        requires { self.old.at + 3 ≤ length self.old.output.now }
        ensures { Wrote 3 self.old (name_of kind_names kind) self.new }
    {
        self.name(Kind::name(kind as usize));
    }

    // The name of a context; nothing where no context has the number.
    pub(crate) fn context(&mut self, context: u8)
        requires { self.old.at + 3 ≤ length self.old.output.now }
        ensures { Wrote 3 self.old (name_of context_names context) self.new }
    {
        self.name(Context::name(context as usize));
    }
}
