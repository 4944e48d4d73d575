// How many bytes the writer gives, without writing them.
ghost use Rattle.std.specs.Prelude.{◌≡◌};
ghost use Rattle.form.specs.Forms.{limits_of};
ghost use Rattle.order.specs.Owners.{level};
ghost use Rattle.table.specs.Lent.{lent};
ghost use Rattle.write.specs.Answer.{written_size};
ghost use Rattle.write.specs.inner.Tests.{lent_size};
ghost use Rattle.write.specs.inner.EitherOwners.{levels_by, level_table_by};

use crate::test;
use form::forms::Form;
use order::levels;
use table::Card;
use table::rows::Entry;

// By which levels the owners of a table are tested: those in force, or the former ones (O1, O4).
#[derive(Clone, Copy)]
pub(crate) enum Owners {
    InForce,
    Former,
}

impl Owners {
    // The table of these levels.
    fn levels(self) -> [u8; 84]
        ensures { result ≡ level_table_by self }
    {
        match self {
            Owners::InForce => levels::table(),
            Owners::Former => levels::former_table(),
        }
    }
}

// The bytes that the writer gives for a table of a form, whatever the buffers hold; 0 where no
// message reads to it (W3, W4).
// kept (C): the clause of `written_bytes` names `written_size`, which is 0 there.
pub fn written_bytes(
    form: Form,
    card: Card,
    segments: &[Entry],
    leaves: &[Entry],
    text: &[u8],
) -> usize
    ensures { result ≡ written_size (limits_of form) level (lent card segments.now leaves.now text.now) }
{
    bytes_by(form, Owners::InForce, card, segments, leaves, text).unwrap_or(0)
}

// The same with the owners of either levels, or none where no message reads to the table. The test
// is called here alone, so that it is compiled for the one line rule of both forms.
pub(crate) fn bytes_by(
    form: Form,
    owners: Owners,
    card: Card,
    segments: &[Entry],
    leaves: &[Entry],
    text: &[u8],
) -> Option<usize>
    ensures { result ≡ lent_size (limits_of form) (levels_by owners) (lent card segments.now leaves.now text.now) }
{
    let levels = owners.levels();
    test::table_bytes(form.limits(), &levels, card, segments, leaves, text)
}
