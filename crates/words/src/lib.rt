#![tactic(auto)]

ghost use Rattle.std.specs.Prelude.{◌≡◌, ◌+◌, ◌*◌, ◌≤◌, ◌<◌, length, get_or, set, take, replicate};
ghost use Rattle.rules.specs.Bytes.{words_of_bytes};
ghost use Rattle.words.specs.Words.{all_zero, lacks as lacks_word, shift_left, zeros_in};
ghost use Rattle.words.specs.Written.{Written};

// Word i of a table sent as bytes, low byte first.
// Precondition: both its bytes are in the table.
pub fn word(t: &[u8], i: usize) -> u16
    requires { 2 * i + 1 < length t.now }
    ensures { result ≡ get_or (words_of_bytes t.now) i 0 }
{
    u16::from_le_bytes([t[2 * i], t[2 * i + 1]])
}

// The same, as an index or a count. Precondition: as for `word`.
pub fn count(t: &[u8], i: usize) -> usize
    requires { 2 * i + 1 < length t.now }
    ensures { (result ≡ get_or (words_of_bytes t.now) i 0) × (result < 65536) }
{
    word(t, i) as usize
}

// Writes w to word i; no other byte is written. The library's `to_le_bytes` divides in its source, and no call from C may divide.
// Precondition: both its bytes are in the table.
pub fn put_word(t: &mut [u8], i: usize, w: u16)
    requires { 2 * i + 1 < length t.old }
    ensures { Written t.old (set (words_of_bytes t.old) i w) t.new }
{
    t[2 * i] = (w & 255) as u8;
    t[2 * i + 1] = (w >> 8) as u8;
}

// Whether every word of a part is 0. The loop has no early exit, so the compiler vectorises it.
pub fn all_zero(l: &[u8]) -> bool
    ensures { result ≡ all_zero (words_of_bytes l.now) }
{
    let mut bits = 0;
    for i in 0..l.len() >> 1 {
        bits |= word(l, i);
    }
    bits == 0
}

// Whether no word of a part is x. This loop has no early exit either.
pub fn lacks(l: &[u8], x: u16) -> bool
    ensures { result ≡ lacks_word x (words_of_bytes l.now) }
{
    let mut found = false;
    for i in 0..l.len() >> 1 {
        found |= word(l, i) == x;
    }
    !found
}

// The number of words of a part that are 0, counted in 16 bits: as wide as the words, so that the vectorised loop has as many at a time as
// those above. Precondition: the count fits.
pub fn zeros(l: &[u8]) -> usize
    requires { length l.now < 2 * 65536 }
    ensures { result ≡ zeros_in (words_of_bytes l.now) }
{
    let mut found: u16 = 0;
    for i in 0..l.len() >> 1 {
        found += (word(l, i) == 0) as u16;
    }
    found as usize
}

// Sets every byte to 0.
pub fn clear(l: &mut [u8])
    ensures { l.new ≡ replicate (length l.old) 0 }
{
    l.fill(0);
}

// Removes the first word, moves the rest up by one and puts 0 last; an empty part stays as it is.
pub fn shift_left(l: &mut [u8])
    ensures { Written l.old (shift_left (words_of_bytes l.old)) l.new }
{
    let n = l.len() >> 1;
    if n == 0 {
        return;
    }
    l.copy_within(2..2 * n, 0);
    put_word(l, n - 1, 0);
}

// Copies the first words of src over those of dst.
// Precondition: src has at least as many words as dst.
pub fn copy_in(dst: &mut [u8], src: &[u16])
    requires { length dst.old ≤ 2 * length src.now + 1 }
    ensures { Written dst.old (take (length (words_of_bytes dst.old)) src.now) dst.new }
{
    for i in 0..dst.len() >> 1 {
        put_word(dst, i, src[i]);
    }
}
