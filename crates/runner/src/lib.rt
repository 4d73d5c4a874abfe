#![tactic(auto)]

ghost use Rattle.std.specs.Prelude.{◌≡◌, ◌+◌, ◌*◌, ◌/◌, ◌≤◌, leb, length, set, Ok};
ghost use Rattle.rules.specs.Bytes.{words_of_bytes};
ghost use Rattle.rules.specs.Runs.{lent_after, lent_of, reply_width, request_in, requests_in, run_bytes, step_width};
ghost use Rattle.limits.specs.Room.{limits_of};
ghost use Rattle.reply.specs.Answer.{answer_of};
ghost use Rattle.words.specs.Written.{Written};
ghost use Rattle.board.specs.Admission.{soundness_of};
ghost use Rattle.board.specs.Kind.{first};
ghost use Rattle.board.specs.Results.{Requested};
ghost use Rattle.runner.specs.Results.{lent_result};

use board::{Hall, Row, check, request};
use limits::Limits;
use reply::{Reason, Reply, number, session};
use words::{put_word, word};

// The words of a step: code, message number, desk, screen, position, session.
const STEP: usize = 6;

// The words of a reply: number, session.
const REPLY: usize = 2;

// Whether the replies to the steps in `sent` bytes fit into `lent` bytes. A step is three pieces of 4 bytes and a reply is one, so m replies
// are enough for fewer than 3m + 3 pieces; this needs no division.
fn has_room(sent: usize, lent: usize) -> bool
    ensures { result ≡ leb (reply_width * (sent / 2 / step_width)) (lent / 2) }
{
    sent >> 2 < 3 * (lent >> 2) + 3
}

// Does a step. Precondition: all its words are there; the table is sound in a room with these limits, and this is its hall.
fn do_step(step: &[u8], table: &mut [u8], limits: Limits, hall: Hall) -> Reply
    requires { (2 * step_width ≤ length step.now) × (Ok hall ≡ soundness_of first (limits_of limits) (words_of_bytes table.old)) }
    ensures { Requested first (limits_of limits) (request_in (words_of_bytes step.now)) table.old result table.new }
{
    let code = word(step, 0);
    let message = word(step, 1);
    let desk = word(step, 2);
    let screen = word(step, 3);
    let position = word(step, 4);
    let new = word(step, 5);
    request::<Row>(
        table, limits, hall, code, message, desk, screen, position, new,
    )
}

// Writes a reply at word `at`. Precondition: both its words are there.
fn put_reply(replies: &mut [u8], at: usize, r: Reply)
    requires { 2 * (at + reply_width) ≤ length replies.old }
    ensures { Written replies.old (set (set (words_of_bytes replies.old) at (answer_of r).number) (at + 1) (answer_of r).session) replies.new }
{
    put_word(replies, at, number(r));
    put_word(replies, at + 1, session(r));
}

// Does the steps, one after another, and writes a reply to each. Precondition: there is room for the replies; the table is sound in a room
// with these limits, and this is its hall.
fn do_steps(steps: &[u8], replies: &mut [u8], table: &mut [u8], limits: Limits, hall: Hall)
    requires { (reply_width * (length (words_of_bytes steps.now) / step_width) ≤ length (words_of_bytes replies.old)) × (Ok hall ≡ soundness_of first (limits_of limits) (words_of_bytes table.old)) }
    ensures { lent_of replies.new table.new ≡ lent_after (limits_of limits) (requests_in (words_of_bytes steps.now)) (lent_of replies.old table.old) }
{
    for (i, step) in steps.chunks(2 * STEP).enumerate() {
        // Fewer than six words left over are no step.
        if step.len() < 2 * STEP {
            break;
        }
        let r = do_step(step, table, limits, hall);
        put_reply(replies, REPLY * i, r);
    }
}

// A run of steps: each is done as a single call would, after one check of the table, and its reply is written. (Three slices, as C lends
// them.)
pub fn run(steps: &[u8], replies: &mut [u8], table: &mut [u8], limits: Limits) -> Reply
    ensures { lent_result result replies.new table.new ≡ run_bytes (limits_of limits) steps.now (lent_of replies.old table.old) }
{
    if !has_room(steps.len(), replies.len()) {
        return Err(Reason::TableShort);
    }
    let hall = check::<Row>(table, limits)?;
    do_steps(steps, replies, table, limits, hall);
    Ok(0)
}
