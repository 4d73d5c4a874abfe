#![tactic(auto)]

ghost use Rattle.std.specs.Prelude.{◌≡◌, ◌+◌, ◌-◌, ◌*◌, ◌<◌, ◌≤◌, length, take, drop as drop_words, [], ◌∷◌};
ghost use Rattle.rules.specs.Bytes.{words_of_bytes};
ghost use Rattle.rules.specs.Hall.{hall_limits, hall_of, max_all_screens, max_desks, max_positions, training_limits};
ghost use Rattle.rules.specs.Lists.{chunks, every};
ghost use Rattle.rules.specs.Messages.{next_in};
ghost use Rattle.rules.specs.Runs.{request_for};
ghost use Rattle.rules.specs.Steps.{Collect, Drop, Retire, Swap, Take, ◌numbered◌, ◌sends◌, collect_seeing, in_range};
ghost use Rattle.rules.specs.Table.{header_words, in_hall, in_limits, max_words};
ghost use Rattle.board.specs.Kind.{Kind, Laws, RetiredAs, SoundRecord, first, need_of, start_for};
ghost use Rattle.board.specs.FirstLaws.{first_laws};
ghost use Rattle.limits.specs.Room.{limits_of};
ghost use Rattle.reply.specs.Answer.{answer_of, table_result};
ghost use Rattle.board.specs.Admission.{Admits, admission_of, header_of, screen_for, soundness_of};
ghost use Rattle.board.specs.Opening.{OpeningAnswer};
ghost use Rattle.board.specs.Results.{Matches, Opened, Performed, Requested, Stepped, moved_on, step_of};

use codes::Code;
use desk::{OWED, SCANNED, collect_record, record_words, retire_record, sound_record, tail_offset};
use limits::{Limits, within};
use reply::{Reason, Reply};
use words::{clear, count, put_word, word};

// Offsets in a table: P, the desks.
pub const DESKS: usize = 0;

// c, the screens per desk.
pub const SCREENS: usize = 1;

// L, the positions.
pub const POSITIONS: usize = 2;

// The words before the session at each position.
pub const HEADER: usize = 3;

// The board: the limits of its rooms, and the words that a table needs.
#[derive(Clone, Copy)]
pub struct Board;

impl Board {
    // The hall's limits for P, c and L, the most that a table has room for, and for a session.
    pub const MAX_DESKS: usize = 16;

    pub const MAX_SCREENS: usize = 4;

    pub const MAX_POSITIONS: usize = 64;

    pub const MAX_SESSION: u16 = 65535;

    // The training room's limits for P, c and a session. Its limit for L is the hall's.
    pub const TRAINING_DESKS: usize = 4;

    pub const TRAINING_SCREENS: usize = 1;

    pub const TRAINING_SESSION: u16 = 999;

    // The limits of the two rooms.
    pub const HALL: Limits = Limits {
        desks: Board::MAX_DESKS as u16,
        screens: Board::MAX_SCREENS as u16,
        positions: Board::MAX_POSITIONS as u16,
        sessions: Board::MAX_SESSION,
    };

    pub const TRAINING: Limits = Limits {
        desks: Board::TRAINING_DESKS as u16,
        screens: Board::TRAINING_SCREENS as u16,
        positions: Board::MAX_POSITIONS as u16,
        sessions: Board::TRAINING_SESSION,
    };

    // The words that the largest hall needs, and their bytes.
    pub const MAX_WORDS: usize = 2403;

    pub const MAX_BYTES: usize = 2 * Board::MAX_WORDS;

    // The words that a hall needs: 3 + L + S + P times the words of a record.
    pub fn need<K: Records>(desks: u16, screens: u16, positions: u16) -> usize
        ensures { result ≡ need_of K.kind (hall_of desks screens positions) }
    {
        let p = desks as usize;
        let s = p * screens as usize;
        HEADER + (positions as usize + (s + p * K::record_words(s)))
    }
}

// What differs between boards: the records of their desks. The rules of a kind of board are a value, `kind`.
pub trait Records {
    ghost kind: { Kind };

    // The words of a record, in a hall of s screens. Precondition: s is at most the product of two 16-bit numbers.
    fn record_words(s: usize) -> usize
        requires { s ≤ 65535 * 65535 }
        ensures { result ≡ kind.width s };

    // Whether a record is sound. Precondition: it is whole (the board has shown that the table is long enough).
    fn sound_record(r: &[u8], s: usize) -> bool
        requires { (s ≤ max_all_screens) × (length r.now ≡ 2 * kind.width s) }
        ensures { result ≡ kind.record_sound s (words_of_bytes r.now) };

    // Retire, on a record. Precondition, here and for a collect: it is sound; the board asks soundness before every step.
    fn retire(r: &mut [u8], s: usize) -> Reply
        requires { SoundRecord kind s r.old }
        ensures { RetiredAs kind s (words_of_bytes r.old) (answer_of result) (words_of_bytes r.new) };

    // Collect, on a record, where the n screens to read, 1 or 2, show x and y.
    fn collect(r: &mut [u8], s: usize, n: usize, x: u16, y: u16) -> u16
        requires { SoundRecord kind s r.old × (1 ≤ n) × (n ≤ 2) }
        ensures session { result ≡ (collect_seeing s (take n (x ∷ y ∷ [])) (kind.desk s (words_of_bytes r.old))).session }
        ensures record { words_of_bytes r.new ≡ kind.collected s (take n (x ∷ y ∷ [])) (words_of_bytes r.old) };

    ghost laws: { Laws kind };
}

// The first board: a desk's list begins at the first slot of its record.
#[derive(Clone, Copy)]
pub struct Row;

impl Records for Row {
    ghost kind = { first };

    fn record_words(s: usize) -> usize {
        record_words(s)
    }

    fn sound_record(r: &[u8], s: usize) -> bool {
        sound_record(r, s)
    }

    fn retire(r: &mut [u8], s: usize) -> Reply {
        retire_record(r, s)
    }

    fn collect(r: &mut [u8], s: usize, n: usize, x: u16, y: u16) -> u16 {
        collect_record(r, s, n, x, y)
    }

    ghost laws = { first_laws };
}

// The limits of the hall.
pub fn hall_limits() -> Limits
    ensures { limits_of result ≡ hall_limits }
{
    Board::HALL
}

// The limits of the training room.
pub fn training_limits() -> Limits
    ensures { limits_of result ≡ training_limits }
{
    Board::TRAINING
}

// Whether a number is 1 to `most`.
pub fn in_range(n: u16, most: usize) -> bool
    ensures { result ≡ in_range n most }
{
    let x = n as usize;
    1 <= x && x <= most
}

// Whether P, c and L are in range.
fn in_hall(desks: u16, screens: u16, positions: u16) -> bool
    ensures { result ≡ in_hall (hall_of desks screens positions) }
{
    in_range(desks, Board::MAX_DESKS)
        && (in_range(screens, Board::MAX_SCREENS) && in_range(positions, Board::MAX_POSITIONS))
}

// Whether P, c and L are in range, in a room with these limits.
pub fn in_limits(limits: Limits, desks: u16, screens: u16, positions: u16) -> bool
    ensures { result ≡ in_limits (limits_of limits) (hall_of desks screens positions) }
{
    in_hall(desks, screens, positions) && within(limits, desks, screens, positions)
}

// The offset of the record of desk d, with d counted from 0, in a hall of l positions and s screens.
// Precondition: the numbers are within the limits. The end of the last record is the start of one after it, so d may be P.
fn record_start<K: Records>(l: usize, s: usize, d: usize) -> usize
    requires { (l ≤ max_positions) × (s ≤ max_all_screens) × (d ≤ max_desks) }
    ensures { (result ≡ start_for K.kind l s d) × (result ≤ max_words + max_desks) }
{
    HEADER + l + s + d * K::record_words(s)
}

// The offset of screen i of desk d, both counted from 1, in a hall of l positions and c screens per desk.
// Precondition: the hall has that screen.
pub fn screen_at(l: usize, c: usize, d: u16, i: u16) -> usize
    requires { (1 ≤ d) × (1 ≤ i) × (screen_for l c d i ≤ max_words) }
    ensures { result ≡ screen_for l c d i }
{
    HEADER + l + ((d as usize - 1) * c + (i as usize - 1))
}

// Whether the record of each desk is sound.
// Precondition: the numbers are within the limits, and the table is long enough.
fn sound_records<K: Records>(t: &[u8], p: usize, l: usize, s: usize) -> bool
    requires { (p ≤ max_desks) × (l ≤ max_positions) × (s ≤ max_all_screens) × (2 * start_for K.kind l s p ≤ length t.now) }
    ensures { result ≡ every (K.kind.record_sound s) (chunks p (K.kind.width s) (drop_words (header_words + l + s) (words_of_bytes t.now))) }
{
    let size = K::record_words(s);
    for d in 0..p {
        let a = record_start::<K>(l, s, d);
        let e = a + size;
        if !K::sound_record(&t[2 * a..2 * e], s) {
            return false;
        }
    }
    true
}

// The numbers of a hall: P, c and L, and S, the screens of all desks.
#[derive(Clone, Copy)]
pub struct Hall {
    pub desks: usize,
    pub screens: usize,
    pub positions: usize,
    pub all: usize,
}

// Reads the header of a table: its hall, unless a number is out of range or the table is too short for the hall.
fn read_header<K: Records>(t: &[u8], limits: Limits) -> Result<Hall, Reason>
    ensures { result ≡ header_of K.kind (limits_of limits) (words_of_bytes t.now) }
{
    let n = t.len() >> 1;
    if n < HEADER {
        return Err(Reason::Unsound);
    }
    let desks = word(t, DESKS);
    let screens = word(t, SCREENS);
    let positions = word(t, POSITIONS);
    if !in_limits(limits, desks, screens, positions) {
        return Err(Reason::Unsound);
    }
    if n < Board::need::<K>(desks, screens, positions) {
        return Err(Reason::Unsound);
    }
    let p = desks as usize;
    let c = screens as usize;
    let l = positions as usize;
    let s = p * c;
    Ok(Hall {
        desks: p,
        screens: c,
        positions: l,
        all: s,
    })
}

// Asks whether a table is sound, in a room with these limits, and finds its hall: once for a call, and once for a run of steps or for a sheet,
// because every step leaves a sound table sound, with the same hall.
pub fn check<K: Records>(t: &[u8], limits: Limits) -> Result<Hall, Reason>
    ensures { result ≡ soundness_of K.kind (limits_of limits) (words_of_bytes t.now) }
{
    let hall = read_header::<K>(t, limits)?;
    if !sound_records::<K>(t, hall.desks, hall.positions, hall.all) {
        return Err(Reason::Unsound);
    }
    Ok(hall)
}

// A desk's location in a sound table: the numbers of positions, of screens per desk and of all screens, the start and the end of the
// desk's record, and the offset of its next message number.
#[derive(Clone, Copy)]
struct Location {
    pub positions: usize,
    pub screens: usize,
    pub all: usize,
    pub start: usize,
    pub end: usize,
    pub next: usize,
}

// What every step asks first of a sound table: is the desk 1 to P, is the message number the desk's next. Precondition, here, for each
// function whose name ends in `_in` and for `request`: the table is sound in a room with these limits, and this is its hall.
fn admit<K: Records>(
    t: &[u8],
    limits: Limits,
    hall: Hall,
    message: u16,
    desk: u16,
) -> Result<Location, Reason>
    requires { Ok hall ≡ soundness_of K.kind (limits_of limits) (words_of_bytes t.now) }
    ensures { result ≡ admission_of K.kind (words_of_bytes t.now) message desk }
{
    let p = hall.desks;
    let l = hall.positions;
    let s = hall.all;
    if !in_range(desk, p) {
        return Err(Reason::NoDesk);
    }
    let d = desk as usize;
    let a = record_start::<K>(l, s, d - 1);
    let e = record_start::<K>(l, s, d);
    let next = a + tail_offset(s);
    if word(t, next) != message {
        return Err(Reason::OtherMessage);
    }
    Ok(Location {
        positions: l,
        screens: hall.screens,
        all: s,
        start: a,
        end: e,
        next: next,
    })
}

// The next message number of a desk in a sound table of the first board; 0, as the rules say, for a desk that the hall does not have.
pub fn next_in(t: &[u8], limits: Limits, hall: Hall, desk: u16) -> u16
    requires { Ok hall ≡ soundness_of first (limits_of limits) (words_of_bytes t.now) }
    ensures { result ≡ next_in (words_of_bytes t.now) desk }
{
    if !in_range(desk, hall.desks) {
        return 0;
    }
    let s = hall.all;
    let a = record_start::<Row>(hall.positions, s, desk as usize - 1);
    word(t, a + tail_offset(s))
}

// What the opening of a hall asks, in order, of its three numbers and of the words that the table has.
pub fn opening<K: Records>(
    limits: Limits,
    desks: u16,
    screens: u16,
    positions: u16,
    words: usize,
) -> Reply
    ensures { OpeningAnswer K.kind (limits_of limits) (hall_of desks screens positions) words (answer_of result) }
{
    if !in_range(desks, Board::MAX_DESKS) {
        return Err(Reason::BadDesks);
    }
    if !in_range(screens, Board::MAX_SCREENS) {
        return Err(Reason::BadScreens);
    }
    if !in_range(positions, Board::MAX_POSITIONS) {
        return Err(Reason::BadPositions);
    }
    if !within(limits, desks, screens, positions) {
        return Err(Reason::OverLimits);
    }
    if words < Board::need::<K>(desks, screens, positions) {
        return Err(Reason::TableShort);
    }
    Ok(0)
}

// Opening writes P, c, L and zeros up to the need.
pub fn open<K: Records>(
    t: &mut [u8],
    limits: Limits,
    desks: u16,
    screens: u16,
    positions: u16,
) -> Reply
    ensures { Opened K.kind (limits_of limits) (hall_of desks screens positions) t.old result t.new }
{
    opening::<K>(limits, desks, screens, positions, t.len() >> 1)?;
    let n = Board::need::<K>(desks, screens, positions);
    clear(&mut t[0..2 * n]);
    put_word(t, DESKS, desks);
    put_word(t, SCREENS, screens);
    put_word(t, POSITIONS, positions);
    Ok(0)
}

// Ends an admitted step, given its reply: after an acceptance the desk's next message number, word `next`, is the one after the call's; 0
// comes after 65,535. Precondition: the table has that word.
pub fn move_on(t: &mut [u8], next: usize, message: u16, r: Reply) -> Reply
    requires { 2 * next + 1 < length t.old }
    ensures { Matches (moved_on next message (table_result r (words_of_bytes t.old))) t.old result t.new }
{
    let session = r?;
    put_word(t, next, message.wrapping_add(1));
    Ok(session)
}

// Take, of an admitted desk. Precondition, here and for the other steps: the table is sound in a room with these limits, it has the desk,
// and this is its location. (Only a swap asks the limits again.) The message number is left to `move_on`.
fn take_at<K: Records>(
    t: &mut [u8],
    limits: Limits,
    desk: u16,
    location: Location,
    screen: u16,
    position: u16,
) -> Reply
    requires { Admits K.kind (limits_of limits) (words_of_bytes t.old) desk location }
    ensures { Performed K.kind (limits_of limits) desk (Take screen position) t.old result t.new }
{
    let c = location.screens;
    let l = location.positions;
    if !in_range(screen, c) {
        return Err(Reason::NoScreen);
    }
    if !in_range(position, l) {
        return Err(Reason::NoPosition);
    }
    let at = screen_at(l, c, desk, screen);
    if word(t, at) != 0 {
        return Err(Reason::ScreenFull);
    }
    let held = word(t, HEADER + (position as usize - 1));
    if held == 0 {
        return Err(Reason::PositionEmpty);
    }
    put_word(t, at, held);
    Ok(held)
}

// Drop, of an admitted desk.
fn drop_at<K: Records>(
    t: &mut [u8],
    limits: Limits,
    desk: u16,
    location: Location,
    screen: u16,
) -> Reply
    requires { Admits K.kind (limits_of limits) (words_of_bytes t.old) desk location }
    ensures { Performed K.kind (limits_of limits) desk (Drop screen) t.old result t.new }
{
    let c = location.screens;
    let l = location.positions;
    if !in_range(screen, c) {
        return Err(Reason::NoScreen);
    }
    let at = screen_at(l, c, desk, screen);
    let shown = word(t, at);
    if shown == 0 {
        return Err(Reason::ScreenEmpty);
    }
    put_word(t, at, 0);
    Ok(shown)
}

// Swap, of an admitted desk.
fn swap_at<K: Records>(
    t: &mut [u8],
    limits: Limits,
    desk: u16,
    location: Location,
    position: u16,
    session: u16,
) -> Reply
    requires { Admits K.kind (limits_of limits) (words_of_bytes t.old) desk location }
    ensures { Performed K.kind (limits_of limits) desk (Swap position session) t.old result t.new }
{
    if !in_range(position, location.positions) {
        return Err(Reason::NoPosition);
    }
    if session > limits.sessions {
        return Err(Reason::OverLimits);
    }
    let owed = location.start + OWED;
    if word(t, owed) != 0 {
        return Err(Reason::Owing);
    }
    let at = HEADER + (position as usize - 1);
    let old = word(t, at);
    if old == session {
        return Ok(old);
    }
    put_word(t, at, session);
    if old != 0 {
        put_word(t, owed, old);
    }
    Ok(old)
}

// Retire, of an admitted desk: on its record.
fn retire_at<K: Records>(t: &mut [u8], limits: Limits, desk: u16, location: Location) -> Reply
    requires { Admits K.kind (limits_of limits) (words_of_bytes t.old) desk location }
    ensures { Performed K.kind (limits_of limits) desk Retire t.old result t.new }
{
    let a = location.start;
    let e = location.end;
    K::retire(&mut t[2 * a..2 * e], location.all)
}

// Collect, of an admitted desk: on its record, with the next two screens of the hall or the last one alone.
fn collect_at<K: Records>(t: &mut [u8], limits: Limits, desk: u16, location: Location) -> Reply
    requires { Admits K.kind (limits_of limits) (words_of_bytes t.old) desk location }
    ensures { Performed K.kind (limits_of limits) desk Collect t.old result t.new }
{
    let s = location.all;
    let a = location.start;
    let e = location.end;
    let k = count(t, a + SCANNED);
    let at = HEADER + location.positions + k;
    let x = word(t, at);
    if k + 1 < s {
        let y = word(t, at + 1);
        Ok(K::collect(&mut t[2 * a..2 * e], s, 2, x, y))
    } else {
        Ok(K::collect(&mut t[2 * a..2 * e], s, 1, x, 0))
    }
}

// A step, as a desk sends it.
#[derive(Clone, Copy, PartialEq, Eq)]
pub enum Step {
    // The screen shows the position's session; the reply is that session.
    Take { screen: u16, position: u16 },
    // The screen becomes 0; the reply is what it showed.
    Drop { screen: u16 },
    // The position holds the new session or 0; the reply is the old one, and the desk owes it if it is not 0. A repeat, a swap to what the
    // position holds already, only moves the message number on.
    Swap { position: u16, session: u16 },
    // The owed session goes to the end of the list as waiting; nothing is owed; the reply is that session.
    Retire,
    // Its parts (a) to (d); the reply is the session that is handed back, or 0.
    Collect,
}

// A step of an admitted desk. Inlined, as `step_in` is: where the caller has chosen the step, as `request` does by its code, it is not chosen
// again.
#[inline(always)]
fn step_at<K: Records>(
    t: &mut [u8],
    limits: Limits,
    desk: u16,
    location: Location,
    step: Step,
) -> Reply
    requires { Admits K.kind (limits_of limits) (words_of_bytes t.old) desk location }
    ensures { Performed K.kind (limits_of limits) desk (step_of step) t.old result t.new }
{
    match step {
        Step::Take { screen, position } => take_at::<K>(
            t, limits, desk, location, screen, position,
        ),
        Step::Drop { screen } => drop_at::<K>(t, limits, desk, location, screen),
        Step::Swap { position, session } => swap_at::<K>(
            t, limits, desk, location, position, session,
        ),
        Step::Retire => retire_at::<K>(t, limits, desk, location),
        Step::Collect => collect_at::<K>(t, limits, desk, location),
    }
}

// A step, in a sound table: its desk is admitted, it is done, and if it is accepted its message number moves on.
#[inline(always)]
fn step_in<K: Records>(
    t: &mut [u8],
    limits: Limits,
    hall: Hall,
    message: u16,
    desk: u16,
    step: Step,
) -> Reply
    requires { Ok hall ≡ soundness_of K.kind (limits_of limits) (words_of_bytes t.old) }
    ensures { Stepped K.kind (limits_of limits) (desk sends step_of step numbered message) t.old result t.new }
{
    let location = admit::<K>(t, limits, hall, message, desk)?;
    let reply = step_at::<K>(t, limits, desk, location, step);
    move_on(t, location.next, message, reply)
}

// A step: the table is asked whether it is sound, and the step is done in its hall.
pub fn do_step<K: Records>(
    t: &mut [u8],
    limits: Limits,
    message: u16,
    desk: u16,
    step: Step,
) -> Reply
    ensures { Stepped K.kind (limits_of limits) (desk sends step_of step numbered message) t.old result t.new }
{
    let hall = check::<K>(t, limits)?;
    step_in::<K>(t, limits, hall, message, desk, step)
}

// The step that a code requests, in a sound table; the numbers that its code lacks are ignored. A code outside 1 to 5 is answered 17, and
// nothing is written.
pub fn request<K: Records>(
    t: &mut [u8],
    limits: Limits,
    hall: Hall,
    code: u16,
    message: u16,
    desk: u16,
    screen: u16,
    position: u16,
    session: u16,
) -> Reply
    requires { Ok hall ≡ soundness_of K.kind (limits_of limits) (words_of_bytes t.old) }
    ensures { Requested K.kind (limits_of limits) (request_for code message desk screen position session) t.old result t.new }
{
    match Code::try_from(code)? {
        Code::Take => step_in::<K>(
            t,
            limits,
            hall,
            message,
            desk,
            Step::Take { screen, position },
        ),
        Code::Drop => step_in::<K>(t, limits, hall, message, desk, Step::Drop { screen }),
        Code::Swap => step_in::<K>(
            t,
            limits,
            hall,
            message,
            desk,
            Step::Swap { position, session },
        ),
        Code::Retire => step_in::<K>(t, limits, hall, message, desk, Step::Retire),
        Code::Collect => step_in::<K>(t, limits, hall, message, desk, Step::Collect),
    }
}
