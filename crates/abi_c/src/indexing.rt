// The functions of `abi::indexing`, which says what they are for.
ghost use Rattle.std.specs.Prelude.{◌≡◌};
ghost use Rattle.index.specs.Index.{sound_index};
ghost use Rattle.abi.specs.FormNumbers.{limits_numbered};
ghost use Rattle.abi.specs.Indexing.{ReadIndexedInto, AskedCodes, AskedCount, AskedCode};

use table::rows;

#[unsafe(no_mangle)]
pub extern "C" fn sargaceu_read_indexed(
    form: u8,
    message: &[u8],
    text: &mut [u8],
    segments: &mut [rows::Entry],
    leaves: &mut [rows::Entry],
    codes: &mut [u8],
    counts: &mut [u32],
    tally: &mut [u32],
    answer: &mut [usize],
) -> u8
    ensures { ReadIndexedInto (limits_numbered form) message.now text.old segments.old leaves.old
        codes.old counts.old tally.old answer.old
        result text.new segments.new leaves.new
        codes.new counts.new tally.new answer.new }
{
    abi::indexing::sargaceu_read_indexed(
        form, message, text, segments, leaves, codes, counts, tally, answer,
    )
}

#[unsafe(no_mangle)]
pub extern "C" fn sargaceu_index_sound(codes: &[u8], counts: &[u32]) -> bool
    ensures { result ≡ sound_index codes.now counts.now }
{
    abi::indexing::sargaceu_index_sound(codes, counts)
}

#[unsafe(no_mangle)]
pub extern "C" fn sargaceu_index_codes(codes: &[u8], counts: &[u32], answer: &mut [usize]) -> u8
    ensures { AskedCodes codes.now counts.now answer.old result answer.new }
{
    abi::indexing::sargaceu_index_codes(codes, counts, answer)
}

#[unsafe(no_mangle)]
pub extern "C" fn sargaceu_index_count(
    codes: &[u8],
    counts: &[u32],
    code: &[u8],
    answer: &mut [usize],
) -> u8
    ensures { AskedCount codes.now counts.now code.now answer.old result answer.new }
{
    abi::indexing::sargaceu_index_count(codes, counts, code, answer)
}

#[unsafe(no_mangle)]
pub extern "C" fn sargaceu_index_code(
    codes: &[u8],
    counts: &[u32],
    k: usize,
    answer: &mut [usize],
) -> u8
    ensures { AskedCode codes.now counts.now k answer.old result answer.new }
{
    abi::indexing::sargaceu_index_code(codes, counts, k, answer)
}
