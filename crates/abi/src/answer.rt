// Answers that are several numbers, put into a buffer of the caller's.
ghost use Rattle.std.specs.Prelude.{◌≡◌};
ghost use Rattle.abi.specs.Putting.{put_all};
ghost use Rattle.abi.specs.Reading.{filed_numbers};

use read::Answer;

// Puts all numbers at the front of an answer, or none of them where it is shorter than they are: a caller never gets half an answer.
pub(crate) fn put_numbers(answer: &mut [usize], numbers: &[usize])
    ensures { answer.new ≡ put_all answer.old numbers.now }
{
    if answer.len() < numbers.len() {
        return;
    }
    let mut at = 0;
    while at < numbers.len() {
        answer[at] = numbers[at];
        at += 1;
    }
}

// The same of bytes.
pub(crate) fn put_bytes(buffer: &mut [u8], bytes: &[u8])
    ensures { buffer.new ≡ put_all buffer.old bytes.now }
{
    if buffer.len() < bytes.len() {
        return;
    }
    let mut at = 0;
    while at < bytes.len() {
        buffer[at] = bytes[at];
        at += 1;
    }
}

// What reading or widening came to: place and card go into the answer, and the number comes back.
pub(crate) fn put_filed(filed: Answer, answer: &mut [usize]) -> u8
    ensures { (result ≡ filed.number) × (answer.new ≡ put_all answer.old (filed_numbers filed)) }
{
    let card = filed.card;
    let numbers = [
        filed.place,
        card.separator as usize,
        card.context as usize,
        card.segments,
        card.leaves,
        card.text,
    ];
    put_numbers(answer, &numbers);
    filed.number
}
