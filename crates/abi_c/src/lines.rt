// The functions of `abi::lines`, which says what they are for.
ghost use Rattle.form.specs.Forms.{small_form};
ghost use Rattle.line.specs.Finding.{found_at};
ghost use Rattle.abi.specs.Lines.{FoundLine};

#[unsafe(no_mangle)]
pub extern "C" fn sargaceu_line(message: &[u8], at: usize, answer: &mut [usize]) -> u8
    ensures { FoundLine (found_at small_form message.now at) at answer.old result answer.new }
{
    abi::lines::sargaceu_line(message, at, answer)
}
