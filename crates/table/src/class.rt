// The class of each byte, by which text is told from separators by one look.
ghost use Rattle.std.specs.Prelude.{◌≡◌, ◌<◌};
ghost use Rattle.table.specs.inner.Classes.{classes_over};

use form::separators::Separators;

// The classes under these separators, set in a lent table, whose other entries stay: 1 to 4 the splitting separators (S2), the coarsest
// first, 5 below 32. The finest is set first, so that of two that are the same byte the coarser counts. Over zeros, 0 is text.
pub fn set_classes(class: &mut [u8; 256], separators: Separators)
    ensures { class.new ≡ classes_over separators class.old }
{
    class[separators.subsubfield as usize] = 4;
    class[separators.subfield as usize] = 3;
    class[separators.repeater as usize] = 2;
    class[separators.field as usize] = 1;
    let mut b = 0;
    while b < 32 {
        class[b] = 5;
        b += 1;
    }
}

// A byte as an index: it is below 256.
pub fn index(b: u8) -> usize
    ensures { (result ≡ b) × (result < 256) }
{
    b as usize
}
