#![tactic(auto, unfolding(rules::specs::Bytes::open_bytes, rules::specs::Bytes::step_bytes, ring_rules::specs::Ring::open_ring_bytes, ring_rules::specs::Ring::step_ring_bytes))]

ghost use Rattle.std.specs.Prelude.{◌≡◌};
ghost use Rattle.rules.specs.Bytes.{open_bytes, open_on_bytes, step_bytes, step_on_bytes};
ghost use Rattle.rules.specs.Hall.{hall_limits, hall_of, training_limits};
ghost use Rattle.rules.specs.Runs.{lent_of, run_bytes};
ghost use Rattle.rules.specs.Steps.{Collect, Drop, Retire, Swap, Take, ◌numbered◌, ◌sends◌};
ghost use Rattle.ring_rules.specs.Ring.{open_ring_bytes, step_ring_bytes};
ghost use Rattle.limits.specs.Room.{limits_of};
ghost use Rattle.board.specs.Results.{step_of};
ghost use Rattle.host.specs.Results.{bytes_result, run_result};

use board::{Board, Records, Row, Step, do_step, open};
use limits::Limits;
use reply::answer;
use ring::Ring;
use runner::run;

// ---- The calls on a board of any kind, in a room with any limits: on bytes, answered by one number.

// The opening of a hall: its three numbers and zeros up to its need are written.
fn call_open<K: Records>(
    desks: u16,
    screens: u16,
    positions: u16,
    table: &mut [u8],
    limits: Limits,
) -> u32
    ensures { bytes_result result table.new ≡ open_on_bytes (K.kind.opens (limits_of limits)) (hall_of desks screens positions) table.old }
{
    answer(open::<K>(table, limits, desks, screens, positions))
}

// A step. It carries a message number, which must be its desk's next; an accepted step moves that on.
fn call<K: Records>(message: u16, desk: u16, step: Step, table: &mut [u8], limits: Limits) -> u32
    ensures { bytes_result result table.new ≡ step_on_bytes (K.kind.step (limits_of limits)) table.old (desk sends step_of step numbered message) }
{
    answer(do_step::<K>(table, limits, message, desk, step))
}

// ---- The calls from C. It has no generic functions, so the C interface keeps an export for each call, room and kind of board.

// ---- In the hall.

#[unsafe(no_mangle)]
pub extern "C" fn board_open(desks: u16, screens: u16, positions: u16, table: &mut [u8]) -> u32
    ensures { bytes_result result table.new ≡ open_bytes hall_limits (hall_of desks screens positions) table.old }
{
    call_open::<Row>(desks, screens, positions, table, Board::HALL)
}

#[unsafe(no_mangle)]
pub extern "C" fn board_take(
    message: u16,
    desk: u16,
    screen: u16,
    position: u16,
    table: &mut [u8],
) -> u32
    ensures { bytes_result result table.new ≡ step_bytes hall_limits table.old (desk sends Take screen position numbered message) }
{
    let take = Step::Take { screen, position };
    call::<Row>(message, desk, take, table, Board::HALL)
}

#[unsafe(no_mangle)]
pub extern "C" fn board_drop(message: u16, desk: u16, screen: u16, table: &mut [u8]) -> u32
    ensures { bytes_result result table.new ≡ step_bytes hall_limits table.old (desk sends Drop screen numbered message) }
{
    call::<Row>(message, desk, Step::Drop { screen }, table, Board::HALL)
}

#[unsafe(no_mangle)]
pub extern "C" fn board_swap(
    message: u16,
    desk: u16,
    position: u16,
    session: u16,
    table: &mut [u8],
) -> u32
    ensures { bytes_result result table.new ≡ step_bytes hall_limits table.old (desk sends Swap position session numbered message) }
{
    let swap = Step::Swap { position, session };
    call::<Row>(message, desk, swap, table, Board::HALL)
}

#[unsafe(no_mangle)]
pub extern "C" fn board_retire(message: u16, desk: u16, table: &mut [u8]) -> u32
    ensures { bytes_result result table.new ≡ step_bytes hall_limits table.old (desk sends Retire numbered message) }
{
    call::<Row>(message, desk, Step::Retire, table, Board::HALL)
}

#[unsafe(no_mangle)]
pub extern "C" fn board_collect(message: u16, desk: u16, table: &mut [u8]) -> u32
    ensures { bytes_result result table.new ≡ step_bytes hall_limits table.old (desk sends Collect numbered message) }
{
    call::<Row>(message, desk, Step::Collect, table, Board::HALL)
}

// A run: steps of mixed kinds, six words each, done one after another as the calls above do them; two words reply to each.
#[unsafe(no_mangle)]
pub extern "C" fn board_run(steps: &[u8], replies: &mut [u8], table: &mut [u8]) -> u32
    ensures table_after { run_result result replies.new table.new ≡ run_bytes hall_limits steps.now (lent_of replies.old table.old) }
    ensures unchanged { steps.exit.now ≡ steps.entry.now }
{
    answer(run(steps, replies, table, Board::HALL))
}

// ---- The same in the training room.

#[unsafe(no_mangle)]
pub extern "C" fn training_open(desks: u16, screens: u16, positions: u16, table: &mut [u8]) -> u32
    ensures { bytes_result result table.new ≡ open_bytes training_limits (hall_of desks screens positions) table.old }
{
    call_open::<Row>(desks, screens, positions, table, Board::TRAINING)
}

#[unsafe(no_mangle)]
pub extern "C" fn training_take(
    message: u16,
    desk: u16,
    screen: u16,
    position: u16,
    table: &mut [u8],
) -> u32
    ensures { bytes_result result table.new ≡ step_bytes training_limits table.old (desk sends Take screen position numbered message) }
{
    let take = Step::Take { screen, position };
    call::<Row>(message, desk, take, table, Board::TRAINING)
}

#[unsafe(no_mangle)]
pub extern "C" fn training_drop(message: u16, desk: u16, screen: u16, table: &mut [u8]) -> u32
    ensures { bytes_result result table.new ≡ step_bytes training_limits table.old (desk sends Drop screen numbered message) }
{
    call::<Row>(message, desk, Step::Drop { screen }, table, Board::TRAINING)
}

#[unsafe(no_mangle)]
pub extern "C" fn training_swap(
    message: u16,
    desk: u16,
    position: u16,
    session: u16,
    table: &mut [u8],
) -> u32
    ensures { bytes_result result table.new ≡ step_bytes training_limits table.old (desk sends Swap position session numbered message) }
{
    let swap = Step::Swap { position, session };
    call::<Row>(message, desk, swap, table, Board::TRAINING)
}

#[unsafe(no_mangle)]
pub extern "C" fn training_retire(message: u16, desk: u16, table: &mut [u8]) -> u32
    ensures { bytes_result result table.new ≡ step_bytes training_limits table.old (desk sends Retire numbered message) }
{
    call::<Row>(message, desk, Step::Retire, table, Board::TRAINING)
}

#[unsafe(no_mangle)]
pub extern "C" fn training_collect(message: u16, desk: u16, table: &mut [u8]) -> u32
    ensures { bytes_result result table.new ≡ step_bytes training_limits table.old (desk sends Collect numbered message) }
{
    call::<Row>(message, desk, Step::Collect, table, Board::TRAINING)
}

// ---- The same in the hall, on a board whose lists are rings. Document 02, "A list that turns".

#[unsafe(no_mangle)]
pub extern "C" fn ring_open(desks: u16, screens: u16, positions: u16, table: &mut [u8]) -> u32
    ensures { bytes_result result table.new ≡ open_ring_bytes hall_limits (hall_of desks screens positions) table.old }
{
    call_open::<Ring>(desks, screens, positions, table, Board::HALL)
}

#[unsafe(no_mangle)]
pub extern "C" fn ring_take(
    message: u16,
    desk: u16,
    screen: u16,
    position: u16,
    table: &mut [u8],
) -> u32
    ensures { bytes_result result table.new ≡ step_ring_bytes hall_limits table.old (desk sends Take screen position numbered message) }
{
    let take = Step::Take { screen, position };
    call::<Ring>(message, desk, take, table, Board::HALL)
}

#[unsafe(no_mangle)]
pub extern "C" fn ring_drop(message: u16, desk: u16, screen: u16, table: &mut [u8]) -> u32
    ensures { bytes_result result table.new ≡ step_ring_bytes hall_limits table.old (desk sends Drop screen numbered message) }
{
    call::<Ring>(message, desk, Step::Drop { screen }, table, Board::HALL)
}

#[unsafe(no_mangle)]
pub extern "C" fn ring_swap(
    message: u16,
    desk: u16,
    position: u16,
    session: u16,
    table: &mut [u8],
) -> u32
    ensures { bytes_result result table.new ≡ step_ring_bytes hall_limits table.old (desk sends Swap position session numbered message) }
{
    let swap = Step::Swap { position, session };
    call::<Ring>(message, desk, swap, table, Board::HALL)
}

#[unsafe(no_mangle)]
pub extern "C" fn ring_retire(message: u16, desk: u16, table: &mut [u8]) -> u32
    ensures { bytes_result result table.new ≡ step_ring_bytes hall_limits table.old (desk sends Retire numbered message) }
{
    call::<Ring>(message, desk, Step::Retire, table, Board::HALL)
}

#[unsafe(no_mangle)]
pub extern "C" fn ring_collect(message: u16, desk: u16, table: &mut [u8]) -> u32
    ensures { bytes_result result table.new ≡ step_ring_bytes hall_limits table.old (desk sends Collect numbered message) }
{
    call::<Ring>(message, desk, Step::Collect, table, Board::HALL)
}
