// Each `put_` function puts bytes into a buffer that its caller lends, after those that it put before.
// Precondition of each: the buffer has room for exactly those bytes.
// They don't use `write!`: no contract says when it succeeds, and these functions always put their bytes.
#![tactic(auto)]

ghost use Rattle.std.specs.Prelude.{[], ◌∷◌, ◌++◌, ◌≡◌, length};
ghost use Rattle.sheet_rules.specs.Lines.{decimal, end_line, line};
ghost use Rattle.sheet_rules.specs.Rewriting.{refused_sheet_line};
ghost use Rattle.sheet_rules.specs.Tally.{tally_of};
ghost use Rattle.buffer.specs.Put.{Fits, Put};

use buffer::Buffer;

// The decimal digits of a number. (Most numbers of a line have one digit, and it is put faster by itself. Inlined, as what puts a line is, so
// that the buffer's length stays in a register.)
#[inline(always)]
fn put_digits(out: &mut Buffer<'_>, value: u64)
    requires { Fits out.old (decimal value) }
    ensures { Put out.old out.new (decimal value) }
{
    if value < 10 {
        out.put_byte(b'0' + value as u8);
    } else {
        let mut digits = itoa::Buffer::new();
        out.put(digits.format(value).as_bytes());
    }
}

// A number in decimal and the byte after it, a space or the end of the line.
#[inline(always)]
fn put_number(out: &mut Buffer<'_>, value: u64, after: u8)
    requires { Fits out.old (decimal value ++ (after ∷ [])) }
    ensures { Put out.old out.new (decimal value ++ (after ∷ [])) }
{
    put_digits(out, value);
    out.put_byte(after);
}

// The line of a record: record number, step code, reply number, session.
// Precondition: the line fits (the caller keeps room for the longest line).
#[inline(always)]
pub fn put_line(out: &mut Buffer<'_>, index: u64, code: u64, number: u64, session: u64)
    requires { Fits out.old (line index code number session) }
    ensures { Put out.old out.new (line index code number session) }
{
    put_number(out, index, b' ');
    put_number(out, code, b' ');
    put_number(out, number, b' ');
    put_number(out, session, b'\n');
}

// The last line: `end`, steps accepted, steps refused by the board, sessions handed back.
// Precondition: the line fits (the caller keeps room for the longest line).
pub fn put_end(out: &mut Buffer<'_>, accepted: u64, refused: u64, handed_back: u64)
    requires { Fits out.old (end_line (tally_of accepted refused handed_back)) }
    ensures { Put out.old out.new (end_line (tally_of accepted refused handed_back)) }
{
    out.put(b"end ");
    put_number(out, accepted, b' ');
    put_number(out, refused, b' ');
    put_number(out, handed_back, b'\n');
}

// How many digits a number has.
fn decimal_length(value: u64) -> usize
    ensures { result ≡ length (decimal value) }
{
    itoa::Buffer::new().format(value).len()
}

// How many bytes the line of a refused sheet has.
pub fn refused_sheet_length(number: u64, offset: u64) -> usize
    ensures { result ≡ length (refused_sheet_line number offset) }
{
    decimal_length(number) + 1 + decimal_length(offset) + 1
}

// The line of a refused sheet: reply number, offset.
// Precondition: the line fits.
pub fn put_refused_sheet(out: &mut Buffer<'_>, reply_number: u64, offset: u64)
    requires { Fits out.old (refused_sheet_line reply_number offset) }
    ensures { Put out.old out.new (refused_sheet_line reply_number offset) }
{
    put_number(out, reply_number, b' ');
    put_number(out, offset, b'\n');
}
