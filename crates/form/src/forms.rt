// The two forms of a message (T6, T8): one rule of lines, two sets of sizes. Each is a type with its numbers and its line counts; a public
// function takes the form that it is to judge by as a value.
ghost use Rattle.std.specs.Prelude.{◌≡◌};
ghost use Rattle.form.specs.Limits.{line_count};
ghost use Rattle.form.specs.Forms.{small_form, large_form, limits_of};

use crate::limits::Limits;

// Which of the two.
#[derive(Clone, Copy)]
pub enum Form {
    Small,
    Large,
}

impl Form {
    // The form's limits as one value.
    pub fn limits(self) -> Limits
        ensures { result ≡ limits_of self }
    {
        match self {
            Form::Small => SmallForm::limits(),
            Form::Large => LargeForm::limits(),
        }
    }
}

// The small form (T6), for hosts with little memory.
#[derive(Drop)]
pub struct SmallForm {}

impl SmallForm {
    pub const LINE: usize = 219;

    pub const MORE: usize = 217;

    pub const SEGMENTS: usize = 256;

    pub const LEAVES: usize = 2048;

    pub const BYTES: usize = 16384;

    pub fn limits() -> Limits
        ensures { result ≡ small_form }
    {
        Limits {
            line: SmallForm::LINE,
            more: SmallForm::MORE,
            segments: SmallForm::SEGMENTS,
            leaves: SmallForm::LEAVES,
            bytes: SmallForm::BYTES,
        }
    }

    // How many lines a segment of so many bytes takes, for every number of bytes (W2).
    pub fn lines(bytes: usize) -> usize
        ensures { result ≡ line_count small_form bytes }
    {
        SmallForm::limits().lines(bytes)
    }
}

// The large form (T8), for reports of a megabyte.
#[derive(Drop)]
pub struct LargeForm {}

impl LargeForm {
    pub const LINE: usize = 219;

    pub const MORE: usize = 217;

    pub const SEGMENTS: usize = 4096;

    pub const LEAVES: usize = 65536;

    pub const BYTES: usize = 1048576;

    pub fn limits() -> Limits
        ensures { result ≡ large_form }
    {
        Limits {
            line: LargeForm::LINE,
            more: LargeForm::MORE,
            segments: LargeForm::SEGMENTS,
            leaves: LargeForm::LEAVES,
            bytes: LargeForm::BYTES,
        }
    }

    // The same as in the small form: lines are cut by one rule.
    pub fn lines(bytes: usize) -> usize
        ensures { result ≡ line_count large_form bytes }
    {
        LargeForm::limits().lines(bytes)
    }
}
