// Reading into a lent buffer until it is full or the input ends. Nothing here knows what is read.
#![tactic(auto)]

ghost use Rattle.std.specs.Prelude.{◌<◌, ◌≤◌, length, take, IfOk};
ghost use Rattle.std.specs.Io.KnownBytes.{Consumes, IsAtEnd};

use std::io;
use std::io::Read;

// How many bytes were read: they stand at the start of the buffer, in their order, and where there are fewer than it has room for,
// the input has ended.
pub fn read_full<R: Read>(input: &mut R, buffer: &mut [u8]) -> io::Result<usize>
    ensures inside { IfOk result (λ size. size ≤ length buffer.new) }
    ensures bytes { IfOk result (λ size. Consumes (R.remaining input.old) (R.remaining input.new) (take size buffer.new)) }
    ensures ended { IfOk result (λ size. size < length buffer.new → IsAtEnd (R.remaining input.new)) }
{
    let mut size = 0;
    // A `while`, since each read itself says how far it came; `read_exact` takes an input that ends early for an error.
    while size < buffer.len() {
        let count = input.read(&mut buffer[size..])?;
        if count == 0 {
            return Ok(size);
        }
        size += count;
    }
    Ok(size)
}
