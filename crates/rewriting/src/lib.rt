// Writes a sheet in another edition, for `shorten_sheet` and the converters.
#![tactic(auto)]

ghost use Rattle.std.specs.Prelude.{◌≡◌, ◌⊎◌, is_ok, length, OnErr, OnOk};
ghost use Rattle.std.specs.Io.KnownBytes.{Appends};
ghost use Rattle.output.specs.Line.{BeginsToSay};
ghost use Rattle.output.specs.Taken.{TakesFront};
ghost use Rattle.reader.specs.Results.{edition_of};
ghost use Rattle.sheet_rules.specs.Rewriting.{rewrite as rewritten};
ghost use Rattle.rewriting.specs.Input.{OfInput, OfSheet, RewritesKnown};

use output::{Handed, write_all};
use program::{Messages, work_on_input};
use reader::Edition;
use rewriter::rewrite;
use std::io::{Error, ErrorKind, Read, Write};

// The most bytes of an output.
const OUTPUT_BYTES: usize = 65536;

// Writes a sheet in another edition, or the line of a refused sheet. (There is always room: the buffer has 65,536 bytes, and no output is
// longer.)
pub fn write_rewritten<W: Write>(sheet: &[u8], from: Edition, to: Edition, output: &mut W) -> Handed
    ensures handed { result.bytes ≡ length (rewritten (edition_of from) (edition_of to) sheet.now) }
    ensures all { OnOk result.taken (Appends (W.contents output.old) (W.contents output.new) (rewritten (edition_of from) (edition_of to) sheet.now)) }
    ensures front { TakesFront (W.contents output.old) (W.contents output.new) (rewritten (edition_of from) (edition_of to) sheet.now) }
{
    let mut out = [0u8; OUTPUT_BYTES];
    match rewrite(sheet, from, to, &mut out) {
        Some(n) => Handed {
            bytes: n,
            taken: write_all(output, &out[..n]),
        },
        None => Handed {
            bytes: 0,
            taken: Err(Error::from(ErrorKind::WriteZero)),
        },
    }
}

// Writes the sheet that an input has in another edition. If it cannot read or write, it says so, to `errors`, with one of these
// messages and the reason. After a failed read it writes nothing.
pub fn rewrite_input<R: Read, W: Write, E: Write>(
    input: &mut R,
    output: &mut W,
    errors: &mut E,
    from: Edition,
    to: Edition,
    messages: &Messages,
) -> Handed
    ensures handed { OfInput (edition_of from) (edition_of to) (is_ok result.taken) result.bytes }
    ensures all { OnOk result.taken (RewritesKnown (edition_of from) (edition_of to) (R.remaining input.old) (W.contents output.old) (W.contents output.new)) }
    ensures said { OnErr result.taken (((result.bytes ≡ 0) × BeginsToSay (E.contents errors.old) (E.contents errors.new) messages.now.cannot_read.now)
        ⊎ (OfSheet (edition_of from) (edition_of to) result.bytes × BeginsToSay (E.contents errors.old) (E.contents errors.new) messages.now.cannot_write.now)) }
    ensures quiet { OnOk result.taken (errors.new ≡ errors.old) }
{
    work_on_input(input, output, errors, messages, |sheet, output| {
        write_rewritten(sheet, from, to, output)
    })
}
