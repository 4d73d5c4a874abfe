// Reads an input to its end, and distinguishes a failed read from the end.
#![tactic(auto)]

ghost use Rattle.input.specs.Input.{ReadInto, ReadsFront, ReadsKnown};

use std::io::{Read, Result};

// Reads until the input ends, the buffer is full, or a read fails. It returns how many bytes were read into the buffer, from its start.
// A read that is interrupted by a signal counts as failed. (The offset is the result, so it is counted; std's `read_to_end` needs a Vec.)
pub fn read_to_end<R: Read>(from: &mut R, buffer: &mut [u8]) -> Result<usize>
    ensures within { ReadInto result buffer.new }
    ensures known { ReadsKnown result (R.remaining from.old) (R.remaining from.new) buffer.new }
    ensures front { ReadsFront result (R.remaining from.old) buffer.new }
{
    let mut done = 0;
    while done < buffer.len() {
        match from.read(&mut buffer[done..])? {
            0 => break,
            more => done += more,
        }
    }
    Ok(done)
}
