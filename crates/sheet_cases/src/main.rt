// Prints the lines of one sheet after another: the cases of `tests/sheet_cases.txt`. On standard input, each sheet follows its
// edition, one byte, and its length, three bytes, low byte first.
#![tactic(auto)]

use board::hall_limits;
use input::read_to_end;
use printing::print;
use reader::{Edition, READ_BYTES, edition_1, edition_2};
use std::io::{Read, Write};

// The most cases.
const MAX_CASES: u64 = 1000;

// The edition that a byte names: 2, or else 1.
fn edition_of(byte: u8) -> Edition {
    match byte {
        2 => edition_2(hall_limits()),
        _ => edition_1(hall_limits()),
    }
}

// A line with the number of a case.
fn print_title<W: Write>(case: u64, to: &mut W) {
    let _ = write!(to, "case {case}\n");
}

// Fills the buffer, or returns `None` where the input has fewer bytes or cannot be read.
fn fill<R: Read>(from: &mut R, buffer: &mut [u8]) -> Option<()> {
    let n = read_to_end(from, buffer).ok()?;
    (n == buffer.len()).then_some(())
}

// Reads the next sheet into a buffer and prints its lines. It returns `None` if the input has no further whole sheet, if the sheet does
// not fit into the buffer, or if the lines could not be written.
fn print_next<R: Read, W: Write>(
    from: &mut R,
    to: &mut W,
    case: u64,
    bytes: &mut [u8],
) -> Option<()> {
    let mut head = [0u8; 4];
    fill(from, &mut head)?;
    let [edition, low, middle, high] = head;
    let length = u32::from_le_bytes([low, middle, high, 0]) as usize;
    let sheet = bytes.get_mut(..length)?;
    fill(from, sheet)?;
    print_title(case, to);
    print(sheet, edition_of(edition), to).taken.ok()
}

fn main(rt: HostRuntime) {
    let mut bytes = [0u8; READ_BYTES];
    for case in 1..=MAX_CASES {
        if print_next(&mut rt.stdin(), &mut rt.stdout(), case, &mut bytes).is_none() {
            return;
        }
    }
}
