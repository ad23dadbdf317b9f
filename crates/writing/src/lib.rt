// Bytes and numbers into the caller's buffer, from a place on: all of them, or none.
#![tactic(auto)]

ghost use Rattle.std.specs.Prelude.{◌≡◌, ℕ, ◌-◌, ◌^◌, min, List, length, decimal};
ghost use Rattle.writing.specs.Writing.{has_room, written, after_write, line_bytes};

use itoa::Buffer;

// What can be written: bytes, and how many they are.
pub trait Text {
    ghost bytes: { Self → List ℕ };

    // The largest usize stands for anything that a usize cannot hold.
    fn len(&self) -> usize
        ensures { result ≡ min (length (bytes self.now)) (2 ^ 64 - 1) };

    // Writes the bytes from `at` on, all of them or nothing, and answers the place behind them.
    fn put(&self, buffer: &mut [u8], at: usize) -> Option<usize>
        ensures value { result ≡ written buffer.old at (bytes self.now) }
        ensures after { buffer.new ≡ after_write buffer.old at (bytes self.now) };

    // Whether the bytes fit from `at` on. What is put together of several texts asks it first, once for the whole.
    fn fits(&self, buffer: &[u8], at: usize) -> bool
        ensures { result ≡ has_room buffer.now at (bytes self.now) }
    {
        buffer
            .len()
            .checked_sub(at)
            .is_some_and(|room| self.len() <= room)
    }
}

impl Text for &[u8] {
    ghost bytes = { λ bytes. bytes.now };

    fn len(&self) -> usize {
        (*self).len()
    }

    fn put(&self, buffer: &mut [u8], at: usize) -> Option<usize> {
        let end = at
            .checked_add((*self).len())
            .filter(|end| *end <= buffer.len())?;
        buffer[at..end].copy_from_slice(self);
        Some(end)
    }
}

// A number as its decimal digits.
impl Text for u32 {
    ghost bytes = { decimal };

    fn len(&self) -> usize
        ensures value { result ≡ min (length (decimal self.now)) (2 ^ 64 - 1) }
        ensures exact { result ≡ length (decimal self.now) }
    {
        Buffer::new().format(*self).len()
    }

    fn put(&self, buffer: &mut [u8], at: usize) -> Option<usize> {
        Buffer::new().format(*self).as_bytes().put(buffer, at)
    }
}

// A line: a word, the numbers behind it, each behind a comma, and a line feed.
#[derive(Clone, Copy)]
pub struct Line<'a> {
    pub word: &'a [u8],
    pub fields: &'a [u32],
}

impl Text for Line<'_> {
    ghost bytes = { λ line. line_bytes line.word.now line.fields.now };

    #[tactic(auto, using(crate::proofs::Lines::line_room))]
    fn len(&self) -> usize {
        let mut len = self.word.len().saturating_add(1);
        for field in self.fields {
            len = len.saturating_add(1).saturating_add(field.len());
        }
        len
    }

    #[tactic(auto, using(crate::proofs::Lines::line_room))]
    fn put(&self, buffer: &mut [u8], at: usize) -> Option<usize> {
        if !self.fits(buffer, at) {
            return None;
        }
        let mut end = self.word.put(buffer, at)?;
        for field in self.fields {
            buffer[end] = b',';
            end = field.put(buffer, end + 1)?;
        }
        buffer[end] = b'\n';
        Some(end + 1)
    }
}
