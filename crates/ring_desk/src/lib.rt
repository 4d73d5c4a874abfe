#![tactic(auto)]

ghost use Rattle.std.specs.Prelude.{◌≡◌, ◌&&◌, ◌*◌, ◌%◌, ◌≤◌, ◌<◌, length, get_or, take, drop, [], ◌∷◌, ◌++◌};
ghost use Rattle.rules.specs.Bytes.{words_of_bytes};
ghost use Rattle.rules.specs.Hall.{max_all_screens};
ghost use Rattle.rules.specs.Steps.{collect_seeing};
ghost use Rattle.rules.specs.Table.{ready_offset};
ghost use Rattle.words.specs.Words.{all_zero, lacks as lacks_word};
ghost use Rattle.marks.specs.Marks.{find_slot, marks};
ghost use Rattle.reply.specs.Answer.{answer_of};
ghost use Rattle.desk.specs.Record.{Lent, Whole};
ghost use Rattle.ring_rules.specs.Ring.{beginning_in, decode_ring, ring_record_sound, ring_width_for, rotate, slot_after};
ghost use Rattle.ring_desk.specs.RingRecord.{RingEncoded, RingRetired, collect_ring_seeing, ring};
ghost use Rattle.ring_desk.specs.RingLaws.{ring_laws};
ghost use Rattle.ring_desk.specs.Around.{ListFrom, Parted};

use desk::{LIST, MARKS, READY, Slots, TESTED, collect, record_words, retire, sound, used_slots};
use marks::{find_slot, marked, partition};
use reply::Reply;
use words::{all_zero, count, lacks, put_word, word, zeros};

// The number of words of a ring's record, in a hall of s screens: one more than the first board's, for the beginning.
// Precondition: s is at most the product of two 16-bit numbers.
pub fn ring_record_words(s: usize) -> usize
    requires { s ≤ 65535 * 65535 }
    ensures { result ≡ ring_width_for s }
{
    record_words(s) + 1
}

// The slot that comes i places after slot b, around the 2s slots. One subtraction at most, and no division.
fn slot_after(s: usize, b: usize, i: usize) -> usize
    requires { (s ≤ max_all_screens) × (b < 2 * s) × (i ≤ 2 * s) }
    ensures { (result ≡ slot_after s b i) × (result < 2 * s) }
{
    let p = b + i;
    if p < 2 * s {
        return p;
    }
    p - 2 * s
}

// The slot at which the list begins: the last word of the record.
fn beginning(r: &[u8], s: usize) -> usize
    requires { Whole ring s r.now }
    ensures { (result ≡ beginning_in s (words_of_bytes r.now)) × (result < 65536) }
{
    count(r, record_words(s))
}

// Whether none of n slots of the list l, from slot a on and around, holds x. They are one part of l, or two.
// Precondition, here and in each function on a list below: l is the whole list, and a is one of its slots (`ListFrom`).
// They are parameters, and no type of their own: some of the functions read l, and some write it.
fn lacks_around(l: &[u8], s: usize, a: usize, n: usize, x: u16) -> bool
    requires { (ListFrom s l.now a) × (n ≤ 2 * s) }
    ensures { result ≡ lacks_word x (take n (rotate a (words_of_bytes l.now))) }
{
    let e = a + n;
    if e <= 2 * s {
        return lacks(&l[2 * a..2 * e], x);
    }
    if !lacks(&l[2 * a..], x) {
        return false;
    }
    lacks(&l[..2 * (e - 2 * s)], x)
}

// Whether the n used slots of the list l, from slot b on and around, are not 0, and the others are. As many slots must be 0 as are not used,
// and either the used slots or the others are one part of the list: that part is tested, and then the count speaks for the rest.
fn sound_around(l: &[u8], s: usize, b: usize, n: usize) -> bool
    requires { (ListFrom s l.now b) × (n ≤ 2 * s) }
    ensures { result ≡ lacks_word 0 (take n (rotate b (words_of_bytes l.now))) && all_zero (drop n (rotate b (words_of_bytes l.now))) }
{
    if zeros(l) != 2 * s - n {
        return false;
    }
    let e = b + n;
    if e <= 2 * s {
        return lacks(&l[2 * b..2 * e], 0);
    }
    all_zero(&l[2 * (e - 2 * s)..2 * b])
}

// The same. Every step asks this of every desk; a list that begins at slot 0 is tested as on the first board, each slot once.
fn sound_list(l: &[u8], s: usize, b: usize, n: usize) -> bool
    requires { (ListFrom s l.now b) × (n ≤ 2 * s) }
    ensures { result ≡ lacks_word 0 (take n (rotate b (words_of_bytes l.now))) && all_zero (drop n (rotate b (words_of_bytes l.now))) }
{
    if b != 0 {
        return sound_around(l, s, b, n);
    }
    if !lacks(&l[..2 * n], 0) {
        return false;
    }
    all_zero(&l[2 * n..])
}

// The first unmarked one of n slots of the list l, from slot a on and around, that holds session x; or n if there is none. The mark of
// a slot is that of its place among the n. If they pass the end of the list, one test of all slots comes first: usually none holds x.
// Then they are looked through where they lie, as `find_slot` does: a copy of them for `find_slot` would be no plainer.
fn find_around(l: &[u8], s: usize, a: usize, n: usize, m: &[u8], x: u16) -> usize
    requires { (ListFrom s l.now a) × (n ≤ 2 * s) × (length m.now ≡ 16) }
    ensures { result ≡ find_slot x (take n (rotate a (words_of_bytes l.now))) (marks (words_of_bytes m.now)) }
{
    if a + n <= 2 * s {
        return find_slot(&l[2 * a..2 * (a + n)], m, x);
    }
    if lacks_around(l, s, a, n, x) {
        return n;
    }
    for j in 0..n {
        let p = slot_after(s, a, j);
        if word(l, p) == x {
            if !marked(m, j) {
                return j;
            }
        }
    }
    n
}

// The first tested slot: it comes as many places after the beginning as there are ready sessions.
fn first_tested(r: &[u8], s: usize) -> usize
    requires { Lent ring s r.now }
    ensures { (result ≡ slot_after s (beginning_in s (words_of_bytes r.now)) (get_or (words_of_bytes r.now) ready_offset 0)) × (result < 2 * s) }
{
    slot_after(s, beginning(r, s), count(r, READY))
}

// Copies slots of the list l, from slot a on and around, to part: as many as part has words. This and `write_around` go word by word: each
// store to the table is one word, which the tests trace.
fn read_around(part: &mut [u8], l: &[u8], s: usize, a: usize)
    requires { (ListFrom s l.now a) × (length part.old ≤ 2 * (2 * s)) }
    ensures { words_of_bytes part.new ≡ take (length (words_of_bytes part.old)) (rotate a (words_of_bytes l.now)) }
{
    let n = part.len() >> 1;
    for i in 0..n {
        let p = slot_after(s, a, i);
        let x = word(l, p);
        put_word(part, i, x);
    }
}

// Copies the words of part to the slots of the list l, from slot a on and around.
fn write_around(l: &mut [u8], s: usize, a: usize, part: &[u8])
    requires { (ListFrom s l.old a) × (length part.now ≤ 2 * (2 * s)) }
    ensures { rotate a (words_of_bytes l.new) ≡ words_of_bytes part.now ++ drop (length (words_of_bytes part.now)) (rotate a (words_of_bytes l.old)) }
{
    let n = part.len() >> 1;
    for i in 0..n {
        let p = slot_after(s, a, i);
        let x = word(part, i);
        put_word(l, p, x);
    }
}

// Partitions slots of the list l, from slot a on and around, as many as part has words; part is room to work in.
fn partition_in(l: &mut [u8], s: usize, a: usize, m: &[u8; 16], part: &mut [u8])
    requires { (ListFrom s l.old a) × (length part.old ≤ 2 * (2 * s)) × (length part.old % 2 ≡ 0) }
    ensures { Parted (words_of_bytes l.old) (marks (words_of_bytes m.now)) a (length (words_of_bytes part.old)) (words_of_bytes l.new) }
{
    read_around(part, l, s, a);
    partition(part, m);
    write_around(l, s, a, part);
}

// Of n slots of the list l, from slot a on and around, puts the unmarked ones first, then the marked ones, each group in its order. The
// mark of a slot is that of its place among the n. If the n slots pass the end of the list, they are copied out and back.
fn partition_around(l: &mut [u8], s: usize, a: usize, n: usize, m: &[u8; 16])
    requires { (ListFrom s l.old a) × (n ≤ 2 * s) }
    ensures { Parted (words_of_bytes l.old) (marks (words_of_bytes m.now)) a n (words_of_bytes l.new) }
{
    let e = a + n;
    if e <= 2 * s {
        partition(&mut l[2 * a..2 * e], m);
        return;
    }
    let mut part = [0u8; 256];
    partition_in(l, s, a, m, &mut part[..2 * n]);
}

// The list of a ring: around from the slot at which it begins.
pub struct Ring;

impl Slots for Ring {
    ghost layout = { ring };

    ghost laws = { ring_laws };

    fn sound_list(r: &[u8], s: usize) -> bool {
        let b = beginning(r, s);
        if 2 * s <= b {
            return false;
        }
        let n = used_slots(r);
        if 2 * s < n {
            return false;
        }
        sound_list(&r[2 * LIST..2 * (LIST + 2 * s)], s, b, n)
    }

    fn slot(r: &[u8], s: usize, i: usize) -> usize {
        slot_after(s, beginning(r, s), i)
    }

    fn find_tested(r: &[u8], s: usize, x: u16) -> usize {
        let n = count(r, TESTED);
        let a = first_tested(r, s);
        find_around(
            &r[2 * LIST..2 * (LIST + 2 * s)],
            s,
            a,
            n,
            &r[2 * MARKS..2 * LIST],
            x,
        )
    }

    // The beginning stays.
    fn partition_tested(r: &mut [u8], s: usize, m: &[u8; 16]) {
        let n = count(r, TESTED);
        let a = first_tested(r, s);
        partition_around(&mut r[2 * LIST..2 * (LIST + 2 * s)], s, a, n, m);
    }

    // The list begins at the next slot. Three words are written, and no session moves.
    fn hand_back(r: &mut [u8], s: usize) -> u16 {
        let n = word(r, READY);
        if n == 0 {
            return 0;
        }
        let b = beginning(r, s);
        let p = slot_after(s, b, 1);
        let x = word(r, LIST + b);
        put_word(r, LIST + b, 0);
        put_word(r, record_words(s), p as u16);
        put_word(r, READY, n - 1);
        x
    }
}

// Whether a ring's record is sound, in a hall of s screens.
// Precondition: the record is whole (the board has shown that the table is long enough).
pub fn sound_ring(r: &[u8], s: usize) -> bool
    requires { (s ≤ max_all_screens) × (length r.now ≡ 2 * ring_width_for s) }
    ensures { result ≡ ring_record_sound s (words_of_bytes r.now) }
{
    sound::<Ring>(r, s)
}

// Retire, on a ring's record: the owed session goes to the first unused slot around.
// Precondition: the record encodes a desk (`RingEncoded`), as every sound record does; the board asks soundness before every step.
pub fn retire_ring(r: &mut [u8], s: usize) -> Reply
    requires { (RingEncoded s (words_of_bytes r.old)) × (length r.old ≡ 2 * ring_width_for s) }
    ensures { RingRetired s (words_of_bytes r.old) (answer_of result) (words_of_bytes r.new) }
{
    retire::<Ring>(r, s)
}

// Collect, on a ring's record, where the n screens to read, 1 or 2, show x and y (`collect` of `desk` takes them as a slice).
// Precondition: the record encodes a desk (`RingEncoded`) and k does not overflow, as in every sound record; the board asks soundness
// before every step.
pub fn collect_ring(r: &mut [u8], s: usize, n: usize, x: u16, y: u16) -> u16
    requires { (RingEncoded s (words_of_bytes r.old)) × (length r.old ≡ 2 * ring_width_for s) × ((decode_ring s (words_of_bytes r.old)).scanned < 65534) × (1 ≤ n) × (n ≤ 2) }
    ensures { (result ≡ (collect_seeing s (take n (x ∷ y ∷ [])) (decode_ring s (words_of_bytes r.old))).session) × (words_of_bytes r.new ≡ collect_ring_seeing s (take n (x ∷ y ∷ [])) (words_of_bytes r.old)) }
{
    collect::<Ring>(r, s, &[x, y][..n])
}
