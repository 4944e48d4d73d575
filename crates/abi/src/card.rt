// A card (T5) that comes in as five numbers.
ghost use Rattle.std.specs.Prelude.{◌≡◌};
ghost use Rattle.read.specs.Answering.{no_card};
ghost use Rattle.abi.specs.Cards.{card_of};

use table::Card;

// How many numbers a card has.
const NUMBERS: usize = 5;

// The largest separator and the largest context that are one byte.
const BYTE: usize = 255;

// The card that the numbers are. Fewer than five, or a separator or a context that is no byte, are the card that counts nothing.
pub(crate) fn card_of(card: &[usize]) -> Card
    ensures { result ≡ card_of card.now }
{
    if card.len() < NUMBERS {
        return no_card();
    }
    if BYTE < card[0] {
        return no_card();
    }
    if BYTE < card[1] {
        return no_card();
    }
    Card {
        separator: card[0] as u8,
        context: card[1] as u8,
        segments: card[2],
        leaves: card[3],
        text: card[4],
    }
}

// The card that is all zero.
fn no_card() -> Card
    ensures { result ≡ no_card }
{
    Card {
        separator: 0,
        context: 0,
        segments: 0,
        leaves: 0,
        text: 0,
    }
}
