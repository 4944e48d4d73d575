// Standard input, read to its end or as far as a buffer reaches, and a fault told apart from the
// end: what the programs for one message share.
#![tactic(auto)]

ghost use Rattle.std.specs.Prelude.{◌<◌, length, take, IfOk};
ghost use Rattle.std.specs.Io.KnownBytes.{Consumes, IsAtEnd};
ghost use Rattle.input.specs.Counts.{IsPrefixLen, came_in};

use std::io::Read;

// A read that failed, and how many bytes had come before it.
#[derive(Clone, Copy, PartialEq, Eq, Debug)]
pub struct Fault {
    pub bytes: usize,
}

// Fills a buffer from a reader such as standard input, until it is full, the input ends or a read
// fails, and says how many bytes came. Of a reader whose bytes are known the buffer has those that
// came, in their order, and where no read fails and there is room left none are left.
pub fn read_input<R: Read>(reader: &mut R, buffer: &mut [u8]) -> Result<usize, Fault>
    ensures within { IsPrefixLen (came_in result) buffer.new }
    ensures came { Consumes (R.remaining reader.old) (R.remaining reader.new) (take (came_in result) buffer.new) }
    ensures ended { IfOk result (λ bytes. bytes < length buffer.new → IsAtEnd (R.remaining reader.new)) }
{
    let mut bytes = 0;
    // kept (plainer): a read says by how much the count rises, so no range or iterator counts it
    while bytes < buffer.len() {
        match reader.read(&mut buffer[bytes..]) {
            Ok(0) => break,
            Ok(more) => bytes += more,
            Err(_) => return Err(Fault { bytes }),
        }
    }
    Ok(bytes)
}

#[cfg(test)]
mod tests {
    use super::*;
    use std::io;

    // Gives two bytes a read until none are left, and then fails.
    #[derive(Drop)]
    struct Failing<'a> {
        left: &'a [u8],
    }

    impl Read for Failing<'_> {
        fn read(&mut self, buf: &mut [u8]) -> io::Result<usize> {
            let left = self.left.len();
            if left == 0 {
                return Err(io::Error::from(io::ErrorKind::Other));
            }
            let most = buf.len().min(2).min(left);
            let (given, rest) = self.left.split_at(most);
            buf[..most].copy_from_slice(given);
            self.left = rest;
            Ok(most)
        }
    }

    #[test]
    fn reads_to_the_end(rt: HostRuntime) {
        let mut buffer = [0; 4];
        let input = read_input(&mut &b"abc"[..], &mut buffer);
        assert_eq!(rt; input, Ok(3));
        assert_eq!(rt; buffer, *b"abc\0");
    }

    #[test]
    fn reads_as_far_as_the_buffer(rt: HostRuntime) {
        let mut buffer = [0; 2];
        let mut reader = &b"abc"[..];
        let input = read_input(&mut reader, &mut buffer);
        assert_eq!(rt; input, Ok(2));
        assert_eq!(rt; buffer, *b"ab");
        assert_eq!(rt; reader, b"c".as_slice());
    }

    #[test]
    fn tells_a_fault_from_the_end(rt: HostRuntime) {
        let mut buffer = [0; 4];
        let input = read_input(&mut Failing { left: b"abc" }, &mut buffer);
        assert_eq!(rt; input, Err(Fault { bytes: 3 }));
        assert_eq!(rt; buffer, *b"abc\0");
    }

    #[test]
    fn a_full_buffer_meets_no_fault(rt: HostRuntime) {
        let mut buffer = [0; 3];
        let input = read_input(&mut Failing { left: b"abc" }, &mut buffer);
        assert_eq!(rt; input, Ok(3));
    }
}
