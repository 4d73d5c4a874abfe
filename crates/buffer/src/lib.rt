// Puts bytes into a slice that the caller lends: what all writers share.
#![tactic(auto)]

ghost use Rattle.std.specs.Prelude.{[], ◌∷◌, ◌≡◌, ◌+◌, ◌≤◌, leb, length};

// Whether so many bytes fit into a slice of this length from an offset on.
pub fn fits(length: usize, at: usize, count: usize) -> bool
    ensures { result ≡ leb (at + count) length }
{
    at <= length && count <= length - at
}

// A slice that is lent, and how many of its first bytes were put into it, one after another.
#[derive(Drop)]
pub struct Buffer<'a> {
    pub bytes: &'a mut [u8],
    pub len: usize,
    pub ghost within: { len ≤ length bytes.now },
}

impl<'a> Buffer<'a> {
    ghost use Rattle.buffer.specs.Put.{Cleared, Fits, Put, put_so_far};

    // Nothing was put yet.
    pub fn new(bytes: &'a mut [u8]) -> Buffer<'a>
        ensures same_reference { result.bytes.ghost_name ≡ bytes.entry.ghost_name }
        ensures bytes { result.bytes.now ≡ bytes.old }
        ensures len { result.len ≡ 0 }
    {
        Buffer { bytes, len: 0 }
    }

    // The bytes that were put.
    pub fn written(&self) -> &[u8]
        ensures { result.now ≡ put_so_far self.now }
    {
        &self.bytes[..self.len]
    }

    // Whether so many more bytes fit.
    pub fn fits(&self, count: usize) -> bool
        ensures { result ≡ leb (self.now.len + count) (length self.now.bytes.now) }
    {
        fits(self.bytes.len(), self.len, count)
    }

    // From here on bytes are put from the start again.
    pub fn clear(&mut self)
        ensures { Cleared self.old self.new }
    {
        self.len = 0;
    }

    // Puts one byte.
    // Precondition: there is room for it.
    pub fn put_byte(&mut self, byte: u8)
        requires { Fits self.old (byte ∷ []) }
        ensures { Put self.old self.new (byte ∷ []) }
    {
        self.bytes[self.len] = byte;
        self.len += 1;
    }

    // Puts bytes.
    // Precondition: there is room for them.
    pub fn put(&mut self, bytes: &[u8])
        requires { Fits self.old bytes.now }
        ensures { Put self.old self.new bytes.now }
    {
        let end = self.len + bytes.len();
        self.bytes[self.len..end].copy_from_slice(bytes);
        self.len = end;
    }
}
