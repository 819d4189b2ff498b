// What a reader gives, read into a lent space, and what is written to a writer.
#![tactic(auto)]

ghost use Rattle.std.specs.Prelude.{ℕ, List, IfErr, IfOk, IfSome, IsErrOf, OnOk, length, take, ◌≡◌, ◌<◌};
ghost use Rattle.std.specs.Io.KnownBytes.{Appends, Consumes, Keeps};
ghost use Rattle.streams.specs.Prefix.{IsPrefixLen, read_in};
ghost use Rattle.streams.specs.declared.Failure.TheVariants.{Unread};

use std::error::Error;
use std::fmt;
use std::io::{Read, Write};

// A read failed behind so many bytes.
#[derive(Clone, Copy, Debug, PartialEq, Eq, Hash)]
pub struct Cut {
    pub length: usize,
}

impl fmt::Display for Cut {
    fn fmt<W: fmt::Write>(&self, f: &mut fmt::Formatter<W>) -> fmt::Result {
        write!(f, "the input cannot be read behind byte {}", self.length)
    }
}

impl Error for Cut {}

// Why a program wrote no answer.
#[derive(Clone, Copy, Debug, PartialEq, Eq, Hash)]
pub enum Failure {
    Unread,
    Unwritten,
}

impl fmt::Display for Failure {
    fn fmt<W: fmt::Write>(&self, f: &mut fmt::Formatter<W>) -> fmt::Result {
        match self {
            Failure::Unread => write!(f, "standard input cannot be read"),
            Failure::Unwritten => write!(f, "standard output cannot be written"),
        }
    }
}

impl Error for Failure {}

impl From<Cut> for Failure {
    ghost from_gives = { λ _ failure. failure ≡ Unread };

    fn from(_: Cut) -> Failure {
        Self::Unread
    }
}

// Reads until the input ends, the space is full or a read fails. Where it is known which bytes the reader has left, what is read are the first
// of them, and all of them that have room where no read fails.
pub fn read_text<R: Read>(reader: &mut R, text: &mut [u8]) -> Result<usize, Cut>
    ensures prefix { IsPrefixLen (read_in result) text.new }
    ensures bytes { Consumes (R.remaining reader.old) (R.remaining reader.new) (take (read_in result) text.new) }
    ensures cut { IfOk result (λ n. IfSome (R.remaining reader.old) (λ bytes. take n text.new ≡ take (length text.new) bytes)) }
{
    let mut done = 0;
    // No `for`: each read says how far on the next one begins.
    while done < text.len() {
        let part = &mut text[done..];
        match reader.read(part) {
            Ok(0) => return Ok(done),
            Ok(more) => done += more,
            Err(_) => return Err(Cut { length: done }),
        }
    }
    Ok(done)
}

// A program: what it writes for a text.
pub trait Program {
    // The whole output, which hangs on no more than the first 4,096 bytes.
    ghost output: { List ℕ → List ℕ };

    // Writes the whole output for a text at the beginning of `out`, and says how many bytes it has.
    fn respond(text: &[u8], out: &mut [u8; 65536]) -> usize
        ensures { IsPrefixLen result out.new × (take result out.new ≡ output text.now) };

    ghost cut: { (m : ℕ) → 4096 < m → (bytes : List ℕ) → output (take m bytes) ≡ output bytes };
}

// Answers what a reader gives, on a writer. Where it is known which bytes the reader has left, the output is that for all of them, although
// no more than 4,097 are read.
pub fn serve<P: Program, R: Read, W: Write>(reader: &mut R, writer: &mut W) -> Result<(), Failure>
    ensures ok { OnOk result (IfSome (R.remaining reader.old) (λ bytes. Appends (W.contents writer.old) (W.contents writer.new) (P.output bytes))) }
    ensures unread { IsErrOf result Failure.Unread → Keeps (W.contents writer.old) (W.contents writer.new) }
{
    let mut text = [0u8; 4097];
    let mut out = [0u8; 65536];
    let length = read_text(reader, &mut text)?;
    let end = P::respond(&text[..length], &mut out);
    put(writer, &out[..end])
}

// Writes bytes, or says that this failed.
pub fn put<W: Write>(writer: &mut W, bytes: &[u8]) -> Result<(), Failure>
    ensures ok { OnOk result (Appends (W.contents writer.old) (W.contents writer.new) bytes.now) }
    ensures err { IfErr result (λ failure. failure ≡ Failure.Unwritten) }
{
    writer.write_all(bytes).map_err(|_| Failure::Unwritten)
}

#[cfg(test)]
mod tests {
    use super::*;
    use std::io;
    use std::io::ErrorKind;
    use std::test::Fail;

    // Gives a byte in each read, and fails when none is left.
    #[derive(Drop)]
    struct Failing {
        left: u8,
    }

    impl Read for Failing {
        fn read(&mut self, buf: &mut [u8]) -> io::Result<usize> {
            if buf.is_empty() {
                return Ok(0);
            }
            if self.left == 0 {
                return Err(io::Error::from(ErrorKind::Other));
            }
            self.left -= 1;
            buf[0] = b'x';
            Ok(1)
        }
    }

    #[test]
    fn reads_on_after_a_short_read(rt: HostRuntime) -> Result<(), Fail> {
        let mut reader = b"short ".as_slice().chain(b"reads".as_slice());
        let mut text = [b'.'; 16];
        let input = read_text(&mut reader, &mut text);
        assert_eq!(rt; input, Ok(11));
        assert_eq!(rt; text.as_slice(), b"short reads.....".as_slice());
        Ok(())
    }

    #[test]
    fn stops_where_the_space_is_full(rt: HostRuntime) -> Result<(), Fail> {
        let mut reader = b"short ".as_slice().chain(b"reads".as_slice());
        let mut text = [b'.'; 8];
        let input = read_text(&mut reader, &mut text);
        assert_eq!(rt; input, Ok(8));
        assert_eq!(rt; text.as_slice(), b"short re".as_slice());
        Ok(())
    }

    #[test]
    fn says_that_a_read_failed(rt: HostRuntime) -> Result<(), Fail> {
        let mut text = [b'.'; 5];
        let input = read_text(&mut Failing { left: 3 }, &mut text);
        assert_eq!(rt; input, Err(Cut { length: 3 }));
        assert_eq!(rt; text.as_slice(), b"xxx..".as_slice());
        Ok(())
    }
}
