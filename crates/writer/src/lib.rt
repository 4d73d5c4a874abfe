// Puts the records and the header of a day sheet into a buffer that the caller lends, each number in its shortest form.
#![tactic(auto)]

ghost use Rattle.std.specs.Prelude.{◌++◌};
ghost use Rattle.buffer.specs.Put.{Fits, Put};
ghost use Rattle.codes.specs.Code.{code_of};
ghost use Rattle.fields.specs.Field.{column_of};
ghost use Rattle.reader.specs.Results.{carried_of, edition_of, header_of, record_of};
ghost use Rattle.sheet_rules.specs.Edition1.{encode_field, encode_header, encode_number, encode_record, encode_rest};
ghost use Rattle.sheet_rules.specs.Edition2.{encode_header2, encode_record2, shorthand_for};
ghost use Rattle.sheet_rules.specs.Sheet.{follows as follows_code};

use buffer::Buffer;
use codes::Code;
use fields::{Field, follows};
use reader::{Edition, Header, Record, Version, repeats};

// Puts a number: groups of seven bits, lowest first; the top bit of a byte (128) says that another follows.
// Precondition: the buffer has room for it.
fn put_number(out: &mut Buffer<'_>, value: u16)
    requires { Fits out.old (encode_number value) }
    ensures { Put out.old out.new (encode_number value) }
{
    let mut rest = value;
    while 128 <= rest {
        out.put_byte((rest % 128 + 128) as u8);
        rest /= 128;
    }
    out.put_byte(rest as u8);
}

// Puts a field if it follows the code.
// Precondition: the buffer has room for the field.
#[tactic(auto, using(buffer::proofs::Laws::Put::put_none))]
fn put_field(out: &mut Buffer<'_>, code: Code, field: Field, value: u16)
    requires { Fits out.old (encode_field (follows_code (code_of code) (column_of field)) value) }
    ensures { Put out.old out.new (encode_field (follows_code (code_of code) (column_of field)) value) }
{
    if follows(code, field) {
        put_number(out, value);
    }
}

// Puts the fields after the desk.
// Precondition: the buffer has room for the fields.
fn put_rest(out: &mut Buffer<'_>, entry: Record)
    requires { Fits out.old (encode_rest (record_of entry)) }
    ensures { Put out.old out.new (encode_rest (record_of entry)) }
{
    put_field(out, entry.code, Field::Screen, entry.screen);
    put_field(out, entry.code, Field::Position, entry.position);
    put_field(out, entry.code, Field::Session, entry.session);
}

// Puts a record with its desk written out: its code, and then its fields.
// Precondition: the buffer has room for the record.
#[tactic(auto, unfolding(sheet_rules::specs::Edition1::encode_record))]
fn put_written_out(out: &mut Buffer<'_>, entry: Record)
    requires { Fits out.old (encode_record (record_of entry)) }
    ensures { Put out.old out.new (encode_record (record_of entry)) }
{
    put_number(out, entry.code.number());
    put_field(out, entry.code, Field::Desk, entry.desk);
    put_rest(out, entry);
}

// Puts a record with a shorthand code: the code, and then the fields after the desk.
// Precondition: the buffer has room for the record.
fn put_shorthand(out: &mut Buffer<'_>, entry: Record)
    requires { Fits out.old (encode_number (shorthand_for (code_of entry.code)) ++ encode_rest (record_of entry)) }
    ensures { Put out.old out.new (encode_number (shorthand_for (code_of entry.code)) ++ encode_rest (record_of entry)) }
{
    put_number(out, entry.code.number() + 8);
    put_rest(out, entry);
}

// Puts a record of edition 2, given what the record before left.
// Precondition: the buffer has room for the record.
#[tactic(auto, unfolding(sheet_rules::specs::Edition2::encode_record2))]
fn put_record_2(out: &mut Buffer<'_>, carried: Option<u16>, entry: Record)
    requires { Fits out.old (encode_record2 (carried_of carried) (record_of entry)) }
    ensures { Put out.old out.new (encode_record2 (carried_of carried) (record_of entry)) }
{
    if repeats(carried, entry.desk) {
        put_shorthand(out, entry);
    } else {
        put_written_out(out, entry);
    }
}

// Puts a record, given what the record before left.
// Precondition: the buffer has room for the record.
pub fn put_record(out: &mut Buffer<'_>, edition: Edition, carried: Option<u16>, entry: Record)
    requires { Fits out.old ((edition_of edition).encode_record (carried_of carried) (record_of entry)) }
    ensures { Put out.old out.new ((edition_of edition).encode_record (carried_of carried) (record_of entry)) }
{
    match edition.version {
        Version::One => put_written_out(out, entry),
        Version::Two => put_record_2(out, carried, entry),
    }
}

// Puts P, c and L: the header of edition 1, and the end of that of edition 2.
// Precondition: the buffer has room for them.
#[tactic(auto, unfolding(sheet_rules::specs::Edition1::encode_header))]
fn put_hall(out: &mut Buffer<'_>, header: Header)
    requires { Fits out.old (encode_header (header_of header)) }
    ensures { Put out.old out.new (encode_header (header_of header)) }
{
    put_number(out, header.desks);
    put_number(out, header.screens);
    put_number(out, header.positions);
}

// Puts a header of edition 2: 0, 2, and then P, c and L.
// Precondition: the buffer has room for it.
#[tactic(auto, unfolding(sheet_rules::specs::Edition2::encode_header2))]
fn put_header_2(out: &mut Buffer<'_>, header: Header)
    requires { Fits out.old (encode_header2 (header_of header)) }
    ensures { Put out.old out.new (encode_header2 (header_of header)) }
{
    put_number(out, 0);
    put_number(out, 2);
    put_hall(out, header);
}

// Puts a header.
// Precondition: the buffer has room for it.
pub fn put_header(out: &mut Buffer<'_>, edition: Edition, header: Header)
    requires { Fits out.old ((edition_of edition).encode_header (header_of header)) }
    ensures { Put out.old out.new ((edition_of edition).encode_header (header_of header)) }
{
    match edition.version {
        Version::One => put_hall(out, header),
        Version::Two => put_header_2(out, header),
    }
}
