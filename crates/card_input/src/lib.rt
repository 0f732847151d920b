// Standard input, or any other reader, read into a buffer, for the programs that read cards and price lists.
#![tactic(auto)]

ghost use Rattle.std.specs.Prelude.{◌≤◌, ◌<◌, length, take, OnOk};
ghost use Rattle.std.specs.Io.KnownBytes.{Consumes, IsAtEnd};
ghost use Rattle.card_input.specs.Lengths.{length_read};

use std::io::Read;

// Standard output and standard error, by the numbers that `io` takes.
pub const STDOUT: i32 = 1;

pub const STDERR: i32 = 2;

// A read failed, after so many bytes were read.
#[derive(Clone, Copy, Debug, PartialEq, Eq)]
pub struct ReadFailed {
    pub length: usize,
}

// Reads until the buffer is full or the input ends, in whatever pieces it comes, and says how many bytes were read. A
// failed read is told apart from the input's end. Of a reader whose bytes are known, what it loses stands in the
// buffer; it has none left where the buffer is not full, unless a read failed.
pub fn read_from<R: Read>(input: &mut R, buf: &mut [u8]) -> Result<usize, ReadFailed>
    ensures bound { length_read result ≤ length buf.new }
    ensures bytes { Consumes (R.remaining input.old) (R.remaining input.new) (take (length_read result) buf.new) }
    ensures end { OnOk result (length_read result < length buf.new → IsAtEnd (R.remaining input.new)) }
{
    let mut done = 0;
    while done < buf.len() {
        let Ok(more) = input.read(&mut buf[done..]) else {
            return Err(ReadFailed { length: done });
        };
        if more == 0 {
            break;
        }
        done += more;
    }
    Ok(done)
}

pub fn read_input(rt: &HostRuntime, buf: &mut [u8]) -> Result<usize, ReadFailed>
    ensures { length_read result ≤ length buf.new }
{
    read_from(&mut rt.stdin(), buf)
}
