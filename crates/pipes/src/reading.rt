// Reading from a reader: short reads are joined, and the end of the input and a failed read are told apart.
ghost use Rattle.std.specs.Prelude.{length};
ghost use Rattle.pipes.specs.Reading.{Fits};

use std::io::Read;

// A read failed: what came until then is not the whole input. The contracts of the calls that read speak of it.
#[derive(Clone, Copy, Debug, PartialEq, Eq)]
pub struct NotRead;

// Reads until the buffer is full or the input ends, straight into it, and answers how many bytes came: fewer than the buffer holds where the
// input ended. Any read that answers an error has failed; a read that a signal breaks off is one.
pub(crate) fn fill<R: Read>(from: &mut R, buffer: &mut [u8]) -> Result<usize, NotRead>
    ensures { Fits result (length buffer.old) }
{
    let mut have = 0;
    while have < buffer.len() {
        match from.read(&mut buffer[have..]) {
            Ok(0) => return Ok(have),
            Ok(count) => have += count,
            Err(_) => return Err(NotRead),
        }
    }
    Ok(have)
}
