// Which fields follow each code of a day sheet: one table for readers and writers of records.
#![tactic(auto)]

ghost use Rattle.std.specs.Prelude.{◌≡◌};
ghost use Rattle.codes.specs.Code.{code_of};
ghost use Rattle.sheet_rules.specs.Sheet.{follows as follows_code};
ghost use Rattle.fields.specs.Field.{column_of};

use codes::Code;

// The fields of a record.
#[derive(Clone, Copy, PartialEq, Eq)]
pub enum Field {
    Desk,
    Screen,
    Position,
    Session,
}

// A row for take, drop, swap, retire and collect; a column for desk, screen, position and session.
const FIELDS: [u8; 20] = [1, 1, 1, 0, 1, 1, 0, 0, 1, 0, 1, 1, 1, 0, 0, 0, 1, 0, 0, 0];

// Whether a field follows a code.
pub fn follows(code: Code, field: Field) -> bool
    ensures { result ≡ follows_code (code_of code) (column_of field) }
{
    FIELDS[(code.number() as usize - 1) * 4 + field as usize] == 1
}
