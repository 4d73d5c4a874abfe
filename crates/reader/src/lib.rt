#![tactic(auto)]

ghost use Rattle.std.specs.Prelude.{◌≡◌, ℕ, OnErr};
ghost use Rattle.rules.specs.Numbers.{allowed, allows as allows_padded, barred, judge as judged, refusal, refusal_of};
ghost use Rattle.sheet_rules.specs.Edition1.{decode_field, decode_fields, decode_header, decode_record, decode_rest, edition1, format_for};
ghost use Rattle.sheet_rules.specs.Edition2.{check_desk, decode_coded, decode_header2, decode_record2, decode_shorthand, decode_written_out, desk_before, edition2, edition_for, expect_number, repeats as repeats_desk};
ghost use Rattle.sheet_rules.specs.Sheet.{begin_sheet, follows as follows_code};
ghost use Rattle.codes.specs.Code.{code_of};
ghost use Rattle.fields.specs.Field.{column_of};
ghost use Rattle.limits.specs.Room.{limits_of};
ghost use Rattle.reply.specs.Answer.{number_of};
ghost use Rattle.reader.specs.Results.{CodeRead, SameSheet, carried_of, edition_of, format_of, header_of, header_result, number_result, padding_of, parsed_at, reason_of, record_of, record_result, version_of};

use codes::Code;
use fields::{Field, follows};
use limits::Limits;
use reply::Reason;

// The most bytes of a sheet.
pub const MAX_BYTES: usize = 65536;

// A program reads at most so many bytes: one more than a sheet may have.
pub const READ_BYTES: usize = MAX_BYTES + 1;

// The largest number of a sheet.
const MAX_NUMBER: u16 = 65535;

// Whether padded numbers, those with a zero group at the high end, are accepted.
#[derive(Clone, Copy, PartialEq, Eq)]
pub enum Padding {
    Allowed,
    Barred,
}

impl Padding {
    // Whether a number that is padded, or is not, is accepted.
    fn allows(self, padded: bool) -> bool
        ensures { result ≡ allows_padded (padding_of self) padded }
    {
        match self {
            Padding::Allowed => true,
            Padding::Barred => !padded,
        }
    }
}

// How numbers are read, and the limits of the room: a session is read against the room's largest.
#[derive(Clone, Copy)]
pub struct Format {
    pub padding: Padding,
    pub limits: Limits,
}

// The layout of a header and of a record. An enum, with a match in each of four functions: a trait with two impls would be no plainer,
// since programs and the crates between name an edition by a value, and all of them would be generic.
#[derive(Clone, Copy)]
pub enum Version {
    // P, c, L; every record has its desk.
    One,
    // 0, 2, P, c, L; a record whose desk is that of the record before has a shorthand code and no desk.
    Two,
}

// An edition of the day sheet.
#[derive(Clone, Copy)]
pub struct Edition {
    pub version: Version,
    pub format: Format,
}

// The edition of a version, in a room with these limits.
fn edition_for(version: Version, padding: Padding, limits: Limits) -> Edition
    ensures { edition_of result ≡ edition_for (version_of version) (format_for (padding_of padding) (limits_of limits)) }
{
    Edition {
        version,
        format: Format { padding, limits },
    }
}

// Edition 1.
pub fn edition_1(limits: Limits) -> Edition
    ensures { edition_of result ≡ edition1 (format_for barred (limits_of limits)) }
{
    edition_for(Version::One, Padding::Barred, limits)
}

// Edition 2.
pub fn edition_2(limits: Limits) -> Edition
    ensures { edition_of result ≡ edition2 (format_for barred (limits_of limits)) }
{
    edition_for(Version::Two, Padding::Barred, limits)
}

// The edition of the sheets in the archive.
pub fn archive_edition(limits: Limits) -> Edition
    ensures { edition_of result ≡ edition1 (format_for allowed (limits_of limits)) }
{
    edition_for(Version::One, Padding::Allowed, limits)
}

// What ends a reading: the code that its line shows (0 if no code was read), the reply number, and the offset of the first byte of the
// number that is refused (0 if none is). A refusal that a reader returns has the number of a `Reason` (proofs/Reasons).
#[derive(Clone, Copy)]
pub struct Refusal {
    pub code: u16,
    pub number: u16,
    pub offset: usize,
}

// The refusal with a reply number that shows no offset, where no code was read. (A number and no `Reason`: the promise is for every number.)
pub fn refuse_with(number: u16) -> Refusal
    ensures { reason_of result ≡ refusal_of 0 number 0 }
{
    Refusal {
        code: 0,
        number,
        offset: 0,
    }
}

// The refusal for a reason, which shows no offset.
impl From<Reason> for Refusal {
    ghost from_gives = { λ reason refusal. reason_of refusal ≡ refusal_of 0 (number_of reason) 0 };

    fn from(reason: Reason) -> Refusal {
        refuse_with(reason.number())
    }
}

impl Refusal {
    // The refusal of the number at an offset, where no code was read.
    fn at(reason: Reason, offset: usize) -> Refusal
        ensures { reason_of result ≡ refusal_of 0 (number_of reason) offset }
    {
        Refusal {
            offset,
            ..Refusal::from(reason)
        }
    }

    // The same refusal in a record whose code was read.
    fn in_record(self, code: u16) -> Refusal
        ensures { reason_of result ≡ refusal_of code self.number self.offset }
    {
        Refusal { code, ..self }
    }
}

// The step with a code that was read.
fn step(code: u16) -> Result<Code, Refusal>
    ensures { CodeRead code result }
{
    Code::try_from(code).map_err(|reason| Refusal::from(reason).in_record(code))
}

// A record of a sheet. A field that does not follow the code is 0.
#[derive(Clone, Copy)]
pub struct Record {
    pub code: Code,
    pub desk: u16,
    pub screen: u16,
    pub position: u16,
    pub session: u16,
}

// The header of a sheet: P, c and L.
#[derive(Clone, Copy)]
pub struct Header {
    pub desks: u16,
    pub screens: u16,
    pub positions: u16,
}

// Whether a desk is that of the record before, if there is one.
pub fn repeats(carried: Option<u16>, desk: u16) -> bool
    ensures { result ≡ repeats_desk (carried_of carried) desk }
{
    carried == Some(desk)
}

// The desk that a shorthand code means. (Before the first record there is none, and the rules say 0; `check_desk` refuses a record that is
// read with it.)
fn desk_before(carried: Option<u16>) -> u16
    ensures { result ≡ desk_before (carried_of carried) }
{
    carried.unwrap_or(0)
}

// A record of edition 2 whose fields were read: refused unless it has a shorthand code exactly if its desk is that of the record before.
fn check_desk(shorthand: bool, carried: Option<u16>, entry: Record) -> Result<Record, Refusal>
    ensures { (next : ℕ) → parsed_at record_of result next ≡ check_desk shorthand (carried_of carried) (record_of entry) next }
{
    if repeats(carried, entry.desk) != shorthand {
        return Err(Refusal::from(Reason::WrongDesk));
    }
    Ok(entry)
}

// A sheet, how its numbers are read, and the offset of what is read next.
#[derive(Clone, Copy)]
pub struct Cursor<'a> {
    pub sheet: &'a [u8],
    pub format: Format,
    pub at: usize,
}

impl<'a> Cursor<'a> {
    // A number whose last byte was read: refused if it is over the limit, and then if it is padded and that is barred.
    #[inline(always)]
    fn judge(&mut self, value: u32, padded: bool, next: usize, limit: u16) -> Result<u16, Refusal>
        ensures value { number_result result self.new.at ≡ judged (padding_of self.old.format.padding) limit self.old.at value padded next }
        ensures same { SameSheet self.old self.new }
        ensures refused { OnErr result (self.new ≡ self.old) }
    {
        if u32::from(limit) < value {
            return Err(Refusal::at(Reason::TooLarge, self.at));
        }
        if !self.format.padding.allows(padded) {
            return Err(Refusal::at(Reason::Padded, self.at));
        }
        self.at = next;
        Ok(value as u16)
    }

    // Reads a number: groups of seven bits, lowest first; the top bit of a byte (128) says that another follows. A refused number leaves
    // the cursor where it was. (Inlined, as its parts and the readers of fields are, so that the cursor of a record stays in registers.)
    #[inline(always)]
    pub fn read_number(&mut self, limit: u16) -> Result<u16, Refusal>
        ensures value { number_result result self.new.at ≡ (format_of self.old.format).read_number limit self.old.sheet.now self.old.at }
        ensures same { SameSheet self.old self.new }
        ensures refused { OnErr result (self.new ≡ self.old) }
    {
        let mut value = 0;
        let mut next = self.at;
        for weight in [1, 128, 128 * 128] {
            if self.sheet.len() <= next {
                return Err(Refusal::at(Reason::Ends, self.at));
            }
            let byte = u32::from(self.sheet[next]);
            next += 1;
            value += weight * (byte % 128);
            if byte < 128 {
                return self.judge(value, weight != 1 && byte == 0, next, limit);
            }
        }
        Err(Refusal::at(Reason::TooLarge, self.at))
    }

    // Reads a field that follows the code; one that does not is 0 and has no byte.
    #[inline(always)]
    fn read_field(&mut self, code: Code, field: Field, limit: u16) -> Result<u16, Refusal>
        ensures value { number_result result self.new.at ≡ decode_field (format_of self.old.format).read_number (follows_code (code_of code) (column_of field)) limit self.old.sheet.now self.old.at }
        ensures same { SameSheet self.old self.new }
    {
        if follows(code, field) {
            self.read_number(limit)
        } else {
            Ok(0)
        }
    }

    // Reads the fields after the desk.
    #[inline(always)]
    fn read_rest(&mut self, code: Code, desk: u16) -> Result<Record, Refusal>
        ensures value { parsed_at record_of result self.new.at ≡ decode_rest (format_of self.old.format) (code_of code) desk self.old.sheet.now self.old.at }
        ensures same { SameSheet self.old self.new }
    {
        let screen = self.read_field(code, Field::Screen, MAX_NUMBER)?;
        let position = self.read_field(code, Field::Position, MAX_NUMBER)?;
        let session = self.read_field(code, Field::Session, self.format.limits.sessions)?;
        Ok(Record {
            code,
            desk,
            screen,
            position,
            session,
        })
    }

    // Reads the fields of a record whose code was read.
    #[inline(always)]
    fn read_fields(&mut self, code: Code) -> Result<Record, Refusal>
        ensures value { parsed_at record_of result self.new.at ≡ decode_fields (format_of self.old.format) (code_of code) self.old.sheet.now self.old.at }
        ensures same { SameSheet self.old self.new }
    {
        let desk = self.read_field(code, Field::Desk, MAX_NUMBER)?;
        self.read_rest(code, desk)
    }

    // Reads a record of edition 1: its code, and then its fields.
    #[tactic(auto, unfolding(sheet_rules::specs::Edition1::decode_record))]
    fn read_record_1(&mut self) -> Result<Record, Refusal>
        ensures { parsed_at record_of result self.new.at ≡ decode_record (format_of self.old.format) self.old.sheet.now self.old.at }
    {
        let number = self.read_number(MAX_NUMBER)?;
        let fields = self.read_fields(step(number)?);
        fields.map_err(|refusal| refusal.in_record(number))
    }

    // Reads the fields of a record with a shorthand code.
    fn read_shorthand(&mut self, carried: Option<u16>, code: Code) -> Result<Record, Refusal>
        ensures { parsed_at record_of result self.new.at ≡ decode_shorthand (format_of self.old.format) (carried_of carried) (code_of code) self.old.sheet.now self.old.at }
    {
        let entry = self.read_rest(code, desk_before(carried))?;
        check_desk(true, carried, entry)
    }

    // Reads the fields of a record of edition 2 with its desk written out.
    fn read_written_out(&mut self, carried: Option<u16>, code: Code) -> Result<Record, Refusal>
        ensures { parsed_at record_of result self.new.at ≡ decode_written_out (format_of self.old.format) (carried_of carried) (code_of code) self.old.sheet.now self.old.at }
    {
        let entry = self.read_fields(code)?;
        check_desk(false, carried, entry)
    }

    // Reads the rest of a record of edition 2 whose code was read.
    fn read_coded(&mut self, carried: Option<u16>, number: u16) -> Result<Record, Refusal>
        ensures { parsed_at record_of result self.new.at ≡ decode_coded (format_of self.old.format) (carried_of carried) number self.old.sheet.now self.old.at }
    {
        match number {
            9..=13 => {
                let stands_for = number - 8;
                self.read_shorthand(carried, step(stands_for)?)
                    .map_err(|refusal| refusal.in_record(stands_for))
            }
            _ => self
                .read_written_out(carried, step(number)?)
                .map_err(|refusal| refusal.in_record(number)),
        }
    }

    // Reads a record of edition 2, given what the record before left: its code, and then its fields.
    #[tactic(auto, unfolding(sheet_rules::specs::Edition2::decode_record2))]
    fn read_record_2(&mut self, carried: Option<u16>) -> Result<Record, Refusal>
        ensures { parsed_at record_of result self.new.at ≡ decode_record2 (format_of self.old.format) (carried_of carried) self.old.sheet.now self.old.at }
    {
        let code = self.read_number(MAX_NUMBER)?;
        self.read_coded(carried, code)
    }

    // Reads P, c and L: the header of edition 1, and the end of that of edition 2.
    #[tactic(auto, unfolding(sheet_rules::specs::Edition1::decode_header))]
    fn read_hall(&mut self) -> Result<Header, Refusal>
        ensures { parsed_at header_of result self.new.at ≡ decode_header (format_of self.old.format).read_number self.old.sheet.now self.old.at }
    {
        let desks = self.read_number(MAX_NUMBER)?;
        let screens = self.read_number(MAX_NUMBER)?;
        let positions = self.read_number(MAX_NUMBER)?;
        Ok(Header {
            desks,
            screens,
            positions,
        })
    }

    // Reads a number that must have one value.
    fn expect_number(&mut self, expected: u16) -> Result<u16, Refusal>
        ensures value { number_result result self.new.at ≡ expect_number (format_of self.old.format).read_number expected self.old.sheet.now self.old.at }
        ensures same { SameSheet self.old self.new }
    {
        let value = self.read_number(MAX_NUMBER)?;
        if value != expected {
            return Err(Refusal::from(Reason::WrongEdition));
        }
        Ok(value)
    }

    // Reads a header of edition 2: 0, 2, and then P, c and L.
    #[tactic(auto, unfolding(sheet_rules::specs::Edition2::decode_header2))]
    fn read_header_2(&mut self) -> Result<Header, Refusal>
        ensures { parsed_at header_of result self.new.at ≡ decode_header2 (format_of self.old.format).read_number self.old.sheet.now self.old.at }
    {
        self.expect_number(0)?;
        self.expect_number(2)?;
        self.read_hall()
    }

    // Reads the header.
    fn read_header(&mut self, version: Version) -> Result<Header, Refusal>
        ensures { parsed_at header_of result self.new.at ≡ (edition_for (version_of version) (format_of self.old.format)).decode_header self.old.sheet.now self.old.at }
    {
        match version {
            Version::One => self.read_hall(),
            Version::Two => self.read_header_2(),
        }
    }
}

// Reads the record at an offset, given what the record before left, its desk; the result is the record and the offset after it. (No cursor is
// lent: a sheet is run in batches, and between them there is only the offset.)
pub fn read_record(
    sheet: &[u8],
    at: usize,
    edition: Edition,
    carried: Option<u16>,
) -> Result<(Record, usize), Refusal>
    ensures { record_result result ≡ (edition_of edition).decode_record (carried_of carried) sheet.now at }
{
    let mut cursor = Cursor {
        sheet,
        format: edition.format,
        at,
    };
    let entry = match edition.version {
        Version::One => cursor.read_record_1()?,
        Version::Two => cursor.read_record_2(carried)?,
    };
    Ok((entry, cursor.at))
}

// Begins to read a sheet: refuses one that is too long, and reads the header; the result is the header and the offset after it.
pub fn begin_sheet(sheet: &[u8], edition: Edition) -> Result<(Header, usize), Refusal>
    ensures { header_result result ≡ begin_sheet (edition_of edition) sheet.now }
{
    if MAX_BYTES < sheet.len() {
        return Err(Refusal::from(Reason::TooLong));
    }
    let mut cursor = Cursor {
        sheet,
        format: edition.format,
        at: 0,
    };
    let header = cursor.read_header(edition.version)?;
    Ok((header, cursor.at))
}
