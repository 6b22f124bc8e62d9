// The input of a program.
#![tactic(auto)]

ghost use Rattle.std.specs.Prelude.{◌≤◌, length, IfOk};

use std::io;
use std::io::Read;

// Reads until the input ends or the buffer is full: what stands at its front. A read that fails is an error and no end.
pub fn fill<'a>(input: &mut impl Read, buffer: &'a mut [u8]) -> io::Result<&'a [u8]>
    ensures { IfOk result (λ read. length read.now ≤ length buffer.old) }
{
    let mut done = 0;
    // A turn for each read, which takes as many bytes as come: std reads to the end only into a list on the heap.
    while done < buffer.len() {
        let got = input.read(&mut buffer[done..])?;
        if got == 0 {
            break;
        }
        done += got;
    }
    Ok(&buffer[..done])
}
