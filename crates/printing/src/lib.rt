// Prints the lines of a sheet, for the sheet programs and `sheet_cases`.
#![tactic(auto)]

ghost use Rattle.std.specs.Prelude.{◌≡◌, ◌⊎◌, ◌≤◌, is_ok, take, OnErr, OnOk};
ghost use Rattle.std.specs.Io.KnownBytes.{Appends};
ghost use Rattle.output.specs.Line.{BeginsToSay};
ghost use Rattle.output.specs.Taken.{TakesFront};
ghost use Rattle.reader.specs.Results.{edition_of};
ghost use Rattle.sheet_rules.specs.Lines.{printed};
ghost use Rattle.printing.specs.Output.{HandedOver, OfInput, PrintsKnown};

use board::Board;
use buffer::Buffer;
use output::{Handed, write_all};
use program::{Messages, work_on_input};
use reader::Edition;
use sheet::{fill, start};
use std::io::{Read, Write};

// The most bytes of a batch.
const BATCH_BYTES: usize = 65536;

// Runs a sheet and prints its lines, a batch at a time. It stops at the first batch that cannot be written.
pub fn print<W: Write>(sheet: &[u8], edition: Edition, to: &mut W) -> Handed
    ensures handed { HandedOver (edition_of edition) sheet.now (is_ok result.taken) result.bytes }
    ensures all { OnOk result.taken (Appends (W.contents to.old) (W.contents to.new) (printed (edition_of edition) sheet.now)) }
    ensures front { TakesFront (W.contents to.old) (W.contents to.new) (take result.bytes (printed (edition_of edition) sheet.now)) }
{
    let mut table = [0u8; Board::MAX_BYTES];
    let mut batch = [0u8; BATCH_BYTES];
    let mut out = Buffer::new(&mut batch);
    let mut state = start(sheet, edition, &mut table, &mut out);
    let mut bytes = out.len;
    let mut taken = write_all(to, out.written());
    while taken.is_ok() && state.is_some() {
        out.clear();
        state = fill(sheet, edition, state, &mut table, &mut out);
        bytes += out.len;
        taken = write_all(to, out.written());
    }
    Handed { bytes, taken }
}

// Prints the lines of the sheet that an input has. If it cannot read or write, it says so, to `errors`, with one of these messages
// and the reason. After a failed read it prints no lines.
pub fn print_input<R: Read, W: Write, E: Write>(
    from: &mut R,
    to: &mut W,
    errors: &mut E,
    edition: Edition,
    messages: &Messages,
) -> Handed
    ensures handed { OfInput (edition_of edition) (is_ok result.taken) result.bytes }
    ensures all { OnOk result.taken (PrintsKnown (edition_of edition) (R.remaining from.old) (W.contents to.old) (W.contents to.new)) }
    ensures unread { result.bytes ≡ 0 → to.new ≡ to.old }
    ensures said { OnErr result.taken (((result.bytes ≡ 0) × BeginsToSay (E.contents errors.old) (E.contents errors.new) messages.now.cannot_read.now)
        ⊎ ((1 ≤ result.bytes) × BeginsToSay (E.contents errors.old) (E.contents errors.new) messages.now.cannot_write.now)) }
    ensures quiet { OnOk result.taken (errors.new ≡ errors.old) }
{
    work_on_input(from, to, errors, messages, |sheet, to| {
        print(sheet, edition, to)
    })
}
