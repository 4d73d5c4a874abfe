// Reads a sheet in one edition and writes it in another, each number in its shortest form, into a buffer that the caller lends; or, for a
// sheet that is refused, one line. The sheet is built in a buffer of its own first, so that nothing is written of one that is refused.
#![tactic(auto)]

ghost use Rattle.std.specs.Prelude.{◌≡◌, ◌+◌, ◌≤◌, length};
ghost use Rattle.reader.specs.Results.{carried_of, edition_of, header_result, reason_of, record_of};
ghost use Rattle.sheet_rules.specs.Rewriting.{refused_sheet_line, rewrite as rewritten};
ghost use Rattle.sheet_rules.specs.Sheet.{max_bytes, open_sheet};
ghost use Rattle.rewriter.specs.Build.{Builds, BuiltOf, PutUnlessLong, records_from};
ghost use Rattle.rewriter.specs.Output.{output_of, write_whole};

use board::{Board, Row, opening};
use buffer::Buffer;
use lines::{put_refused_sheet, refused_sheet_length};
use reader::{Edition, Header, MAX_BYTES, Record, Refusal, begin_sheet, read_record};
use reply::Reason;
use writer::{put_header, put_record};

// No record has more bytes: it has at most five numbers, each of at most three.
const RECORD_BYTES: usize = 15;

// Room for the longest sheet, and for one record more.
const ROOM: usize = MAX_BYTES + RECORD_BYTES;

// Reads the header of a sheet, and asks the opening's questions.
fn open_sheet(sheet: &[u8], edition: Edition) -> Result<(Header, usize), Refusal>
    ensures { header_result result ≡ open_sheet (edition_of edition) sheet.now }
{
    let (header, next) = begin_sheet(sheet, edition)?;
    opening::<Row>(
        edition.format.limits,
        header.desks,
        header.screens,
        header.positions,
        Board::MAX_WORDS,
    )?;
    Ok((header, next))
}

// Puts a record, unless 65,536 bytes are exceeded already.
// Precondition: the buffer has room for the longest sheet and one record more.
fn put_unless_long(out: &mut Buffer<'_>, to: Edition, carried: Option<u16>, entry: Record)
    requires { max_bytes + 15 ≤ length out.old.bytes.now }
    ensures { PutUnlessLong out.old out.new ((edition_of to).encode_record (carried_of carried) (record_of entry)) }
{
    if out.len <= MAX_BYTES {
        put_record(out, to, carried, entry);
    }
}

// Puts the records from an offset on. All of them are read, also where the sheet becomes too long, because one may be refused.
// Precondition: the buffer has room for the longest sheet and one record more.
fn put_records(
    sheet: &[u8],
    from: Edition,
    first: usize,
    to: Edition,
    out: &mut Buffer<'_>,
) -> Result<(), Refusal>
    requires { max_bytes + 15 ≤ length out.old.bytes.now }
    ensures { BuiltOf (edition_of to) (records_from (edition_of from) sheet.now first) out.old result out.new }
{
    let mut offset = first;
    let mut carried = None;
    while offset < sheet.len() {
        let (entry, next) = read_record(sheet, offset, from, carried)?;
        put_unless_long(out, to, carried, entry);
        carried = Some(entry.desk);
        offset = next;
    }
    Ok(())
}

// Builds the sheet in an empty buffer: its header, and then its records; or says what ends the reading, or that it is too long.
// Precondition: the buffer has room for the longest sheet and one record more.
fn build(sheet: &[u8], from: Edition, to: Edition, out: &mut Buffer<'_>) -> Result<(), Refusal>
    requires { (out.old.len ≡ 0) × (max_bytes + 15 ≤ length out.old.bytes.now) }
    ensures { Builds (edition_of from) (edition_of to) sheet.now result out.new }
{
    let (header, first) = open_sheet(sheet, from)?;
    put_header(out, to, header);
    put_records(sheet, from, first, to, out)?;
    if MAX_BYTES < out.len {
        return Err(Refusal::from(Reason::TooLong));
    }
    Ok(())
}

// Writes the line of a refused sheet, if the buffer has room for it: how many bytes it has.
fn write_refused(out: &mut [u8], refusal: Refusal) -> Option<usize>
    ensures { output_of result out.new ≡ write_whole out.old (refused_sheet_line (reason_of refusal).number (reason_of refusal).offset) }
{
    let reply_number = u64::from(refusal.number);
    let offset = refusal.offset as u64;
    let mut line = Buffer::new(out);
    if !line.fits(refused_sheet_length(reply_number, offset)) {
        return None;
    }
    put_refused_sheet(&mut line, reply_number, offset);
    Some(line.len)
}

// Writes bytes, if the buffer has room for them: how many they are.
fn write_bytes(out: &mut [u8], bytes: &[u8]) -> Option<usize>
    ensures { output_of result out.new ≡ write_whole out.old bytes.now }
{
    if out.len() < bytes.len() {
        return None;
    }
    out[..bytes.len()].copy_from_slice(bytes);
    Some(bytes.len())
}

// Writes a sheet in another edition, if the buffer has room for it; or the line of a refused sheet, if the buffer has room for that: how
// many bytes, from the start of the buffer. If they do not fit, nothing is written.
pub fn rewrite(sheet: &[u8], from: Edition, to: Edition, out: &mut [u8]) -> Option<usize>
    ensures { output_of result out.new ≡ write_whole out.old (rewritten (edition_of from) (edition_of to) sheet.now) }
{
    let mut bytes = [0u8; ROOM];
    let mut built = Buffer::new(&mut bytes);
    match build(sheet, from, to, &mut built) {
        Ok(()) => write_bytes(out, built.written()),
        Err(refusal) => write_refused(out, refusal),
    }
}
