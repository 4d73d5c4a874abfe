// Hands bytes to an output, and says in a line what failed.
#![tactic(auto)]

ghost use Rattle.std.specs.Prelude.{◌≡◌, true, OnErr, OnOk};
ghost use Rattle.std.specs.Io.{StartsWith};
ghost use Rattle.std.specs.Io.KnownBytes.{Appends};
ghost use Rattle.output.specs.Line.{BeginsToSay, SaysWhy, line};
ghost use Rattle.output.specs.Taken.{TakesFront};

use std::fmt::InlineText;
use std::io::{Error, ErrorKind, Result, Write};

// Writes all of the bytes, or stops at the first write that fails or takes nothing, when the first of them may have been written.
// A write that is interrupted by a signal counts as failed.
pub fn write_all<W: Write>(to: &mut W, bytes: &[u8]) -> Result<()>
    ensures all { OnOk result (Appends (W.contents to.old) (W.contents to.new) bytes.now) }
    ensures front { OnErr result (TakesFront (W.contents to.old) (W.contents to.new) bytes.now) }
{
    let mut rest = bytes;
    while !rest.is_empty() {
        match to.write(rest)? {
            0 => return Err(Error::from(ErrorKind::WriteZero)),
            more => rest = &rest[more..],
        }
    }
    Ok(())
}

// What was handed to an output: how many bytes, and whether it took them all, or why not.
#[derive(Clone, Copy)]
pub struct Handed {
    pub bytes: usize,
    pub taken: Result<()>,
}

// The most bytes of a system's message and its number.
const MOST_TEXT: usize = 320;

// A system's message without its number, which stands in parentheses at the end.
fn without_number(text: &str) -> &str
    ensures { StartsWith text.now result.now }
{
    match text.split_once(" (os error ") {
        Some((reason, _)) => reason,
        None => text,
    }
}

// Writes a line: what failed, as the caller names it, a colon and the reason, without the system's number of it. It returns whether
// the line was written.
pub fn fail<W: Write>(to: &mut W, what: &[u8], why: Error) -> bool
    ensures whole { result ≡ true → SaysWhy (W.contents to.old) (W.contents to.new) what.now }
    ensures front { BeginsToSay (W.contents to.old) (W.contents to.new) what.now }
{
    let text = InlineText::<{ MOST_TEXT }>::of(why);
    write_line(to, what, without_number(text.as_str()).as_bytes()).is_ok()
}

fn write_line<W: Write>(to: &mut W, what: &[u8], reason: &[u8]) -> Result<()>
    ensures all { OnOk result (Appends (W.contents to.old) (W.contents to.new) (line what.now reason.now)) }
    ensures front { OnErr result (TakesFront (W.contents to.old) (W.contents to.new) (line what.now reason.now)) }
{
    write_all(to, what)?;
    write_all(to, b": ")?;
    write_all(to, reason)?;
    write_all(to, b"\n")
}
