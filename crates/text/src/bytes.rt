// Up to N bytes, one behind another, such as the text on a page or the calls of an auction.
ghost use Rattle.std.specs.Prelude.{◌≡◌, ◌≤◌, [], ◌∷◌, length};

use itoa::{Buffer, Integer};

// The first bytes of an array, as many as are used.
// Not the kit's `ArrayVec`, which is no `Copy`: a finished board is copied with its calls and cards.
#[derive(Clone, Copy)]
pub struct Bytes<const N: usize> {
    bytes: [u8; N],
    used: usize,
    ghost within: { used ≤ N },
}

impl<const N: usize> Bytes<N> {
    ghost use Rattle.text.specs.Bytes.{kept, written, Wrote};

    // No bytes.
    pub fn new() -> Self
        ensures empty { written result ≡ [] }
    {
        Bytes {
            bytes: [0; N],
            used: 0,
        }
    }

    // These bytes, as far as there is room.
    pub fn from_slice(bytes: &[u8]) -> Self
        ensures kept { written result ≡ kept N bytes.now }
        ensures whole { length bytes.now ≤ N → written result ≡ bytes.now }
    {
        let mut all = Bytes::new();
        all.put_all(bytes);
        all
    }

    // The bytes.
    pub fn as_slice(&self) -> &[u8]
        ensures bytes { result.now ≡ written self.now }
    {
        &self.bytes[..self.used]
    }

    // Puts a byte behind the others.
    pub fn put(&mut self, byte: u8)
        ensures wrote { Wrote (byte ∷ []) self.old self.new }
    {
        if self.used < N {
            self.bytes[self.used] = byte;
            self.used += 1;
        }
    }

    // Puts some bytes behind the others.
    pub fn put_all(&mut self, bytes: &[u8])
        ensures wrote { Wrote bytes.now self.old self.new }
    {
        // Room is asked for once, and the loop is compiled to one copy.
        let used = self.used;
        let fitting = (N - used).min(bytes.len());
        for (i, &byte) in bytes[..fitting].iter().enumerate() {
            self.bytes[used + i] = byte;
        }
        self.used = used + fitting;
    }

    // Puts a number in decimal behind the others.
    pub fn put_decimal<I: Integer>(&mut self, number: I)
        ensures wrote { Wrote (I.text number) self.old self.new }
    {
        self.put_all(Buffer::new().format(number).as_bytes());
    }
}
