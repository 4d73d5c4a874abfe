// Runs the records of a day sheet on the board and puts their lines into a buffer that the caller lends, a batch at a time.
#![tactic(auto)]

ghost use Rattle.std.specs.Prelude.{◌≡◌, ◌++◌, ◌+◌, ◌≤◌, length, Some};
ghost use Rattle.rules.specs.Bytes.{words_of_bytes};
ghost use Rattle.buffer.specs.Put.{Put};
ghost use Rattle.limits.specs.Room.{limits_of};
ghost use Rattle.board.specs.Admission.{soundness_of};
ghost use Rattle.board.specs.Kind.{first};
ghost use Rattle.reader.specs.Results.{edition_of, reason_of};
ghost use Rattle.sheet_rules.specs.Lines.{end_line, refusal_line};
ghost use Rattle.sheet_rules.specs.Sheet.{lent_table, record_for};
ghost use Rattle.tally.specs.Counts.{to_tally};
ghost use Rattle.sheet.specs.Batch.{Batch, Begun, Checked, NoneOpened, Numbered, PartialBatch, Progress, RoomFor, SameSoundness, Started, end_room, record_room};
ghost use Rattle.sheet.specs.Run.{Ran};

use board::{Hall, Row, check, next_in, open, request};
use buffer::Buffer;
use codes::Code;
use limits::Limits;
use lines::{put_end, put_line};
use reader::{Edition, Refusal, begin_sheet, read_record};
use reply::{Reason, Reply, number, session};
use tally::Tally;

// The most bytes of a record's line, and of the last line.
const ROOM: usize = 84 + 67;

// How far the run of a sheet is, until its last line is put: the offset and the number of the next record, the desk of the record before,
// the tally so far, and the table's soundness, asked once, after the opening.
#[derive(Clone, Copy)]
pub struct State {
    pub offset: usize,
    pub index: u64,
    pub carried: Option<u16>,
    pub tally: Tally,
    pub soundness: Result<Hall, Reason>,
}

// Runs the step of a code, in a room with these limits, with its desk's next message number. A code outside 1 to 5 is answered 17, and
// nothing is written; that is asked before soundness, so the code is a number here. Precondition: this is the soundness of the table.
fn run_record(
    table: &mut [u8],
    limits: Limits,
    soundness: Result<Hall, Reason>,
    code: u16,
    desk: u16,
    screen: u16,
    position: u16,
    session: u16,
) -> Reply
    requires { soundness ≡ soundness_of first (limits_of limits) (words_of_bytes table.old) }
    ensures { Ran (limits_of limits) (record_for code desk screen position session) table.old result table.new }
{
    Code::try_from(code)?;
    let hall = soundness?;
    let message = next_in(table, limits, hall, desk);
    request::<Row>(
        table, limits, hall, code, message, desk, screen, position, session,
    )
}

// Puts the last line.
// Precondition: the buffer has room for the longest last line.
fn finish(out: &mut Buffer<'_>, tally: Tally)
    requires { RoomFor end_room out.old }
    ensures { Put out.old out.new (end_line (to_tally tally)) }
{
    put_end(
        out,
        u64::from(tally.accepted),
        u64::from(tally.refused),
        u64::from(tally.handed_back),
    );
}

// Puts the line of what ends the reading, and the last line.
// Precondition: the buffer has room for the longest record's line and the longest last line.
fn stop(out: &mut Buffer<'_>, index: u64, tally: Tally, refusal: Refusal)
    requires { RoomFor record_room out.old }
    ensures { Put out.old out.new (refusal_line index (reason_of refusal) ++ end_line (to_tally tally)) }
{
    put_line(
        out,
        index,
        u64::from(refusal.code),
        u64::from(refusal.number),
        refusal.offset as u64,
    );
    finish(out, tally);
}

// Runs the step of the next record and puts its line, or the line of what ends the reading. After the last record it puts the last line.
// There is a state after it unless the last line was put.
// Precondition: the record number is at most the offset, the buffer has room for a record's line and the last line, and the state's
// soundness is the table's.
fn put_record(
    sheet: &[u8],
    edition: Edition,
    state: State,
    table: &mut [u8],
    out: &mut Buffer<'_>,
) -> Option<State>
    requires { (state.index ≤ state.offset) × RoomFor record_room out.old × Checked edition (Some state) table.old }
    ensures partial { PartialBatch (edition_of edition) sheet.now (Some state) (words_of_bytes table.old) out.old result (words_of_bytes table.new) out.new }
    ensures progress { Progress sheet.now (Some state) result }
    ensures checked { Checked edition result table.new }
    ensures kept { SameSoundness edition table.old table.new }
{
    if sheet.len() <= state.offset {
        finish(out, state.tally);
        return None;
    }
    match read_record(sheet, state.offset, edition, state.carried) {
        Err(refusal) => {
            stop(out, state.index, state.tally, refusal);
            None
        }
        Ok((entry, next)) => {
            let code = entry.code.number();
            let reply = run_record(
                table,
                edition.format.limits,
                state.soundness,
                code,
                entry.desk,
                entry.screen,
                entry.position,
                entry.session,
            );
            let reply_number = number(reply);
            let reply_session = session(reply);
            put_line(
                out,
                state.index,
                u64::from(code),
                u64::from(reply_number),
                u64::from(reply_session),
            );
            let mut tally = state.tally;
            tally.add_step(code, reply_number, reply_session);
            Some(State {
                offset: next,
                index: state.index + 1,
                carried: Some(entry.desk),
                tally,
                ..state
            })
        }
    }
}

// Puts a batch into the buffer, after what it has: one record after another while there is room for one more line and the last line. There
// is a state after it unless the last line was put. Where there is none before, nothing is left to do.
// Precondition: the buffer has room for a record's line and the last line, so that each batch makes progress; the record number is at most
// the offset, so that it does not overflow, and the state's soundness is the table's, as in every state that `start` and `fill` return.
#[tactic(auto, using(crate::proofs::BatchLaws::batch_full))]
pub fn fill(
    sheet: &[u8],
    edition: Edition,
    state: Option<State>,
    table: &mut [u8],
    out: &mut Buffer<'_>,
) -> Option<State>
    requires { Numbered state × RoomFor record_room out.old × Checked edition state table.old }
    ensures batch { Batch (edition_of edition) sheet.now state (words_of_bytes table.old) out.old result (words_of_bytes table.new) out.new }
    ensures checked { Checked edition result table.new }
    ensures kept { SameSoundness edition table.old table.new }
{
    let mut current = state?;
    while out.fits(ROOM) {
        current = put_record(sheet, edition, current, table, out)?;
    }
    Some(current)
}

// Begins to read the sheet and opens the hall in the table: the state at the first record, or what ends the reading before it.
// Precondition: the words of the table are those that the rules lend, `lent_table`, all zeros.
fn begin(sheet: &[u8], edition: Edition, table: &mut [u8]) -> Result<State, Refusal>
    requires { words_of_bytes table.old ≡ lent_table }
    ensures { Begun edition sheet.now result table.new }
{
    let limits = edition.format.limits;
    let (header, next) = begin_sheet(sheet, edition)?;
    open::<Row>(
        table,
        limits,
        header.desks,
        header.screens,
        header.positions,
    )?;
    Ok(State {
        offset: next,
        index: 1,
        carried: None,
        tally: Tally {
            accepted: 0,
            refused: 0,
            handed_back: 0,
        },
        soundness: check::<Row>(table, limits),
    })
}

// The first batch: begins to read the sheet, opens the hall in the table and puts the header's line. There is a state after it unless the
// last line was put.
// Precondition: the words of the table are those that the rules lend, `lent_table`, all zeros; the buffer has room for a record's line and
// the last line.
pub fn start(
    sheet: &[u8],
    edition: Edition,
    table: &mut [u8],
    out: &mut Buffer<'_>,
) -> Option<State>
    requires { (words_of_bytes table.old ≡ lent_table) × RoomFor record_room out.old }
    ensures started { Started (edition_of edition) sheet.now out.old result (words_of_bytes table.new) out.new }
    ensures checked { Checked edition result table.new }
    ensures unopened { NoneOpened edition result table.new }
{
    match begin(sheet, edition, table) {
        Err(refusal) => {
            let none = Tally {
                accepted: 0,
                refused: 0,
                handed_back: 0,
            };
            stop(out, 0, none, refusal);
            None
        }
        Ok(state) => {
            put_line(out, 0, 0, 0, 0);
            Some(state)
        }
    }
}
