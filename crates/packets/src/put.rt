// RULES 5.3 and 5.6. The writers of a packet's parts. Each is called where its text fits, and leaves every other byte
// as it was.
ghost use Rattle.std.specs.Prelude.{[], ◌∷◌, ◌≤◌, ◌<◌, length};
ghost use Rattle.limits.specs.Limits.{data_bytes};
ghost use Rattle.marks.specs.Marks.{marks_of};
ghost use Rattle.texts.specs.Put.{Put, Room};
ghost use Rattle.texts.specs.Decimal.{decimal};
ghost use Rattle.texts.specs.Readers.{bool_text, items_text, list_text};
ghost use Rattle.packets.specs.Packets.{bitmap_text, data_text};
ghost use Rattle.packets.specs.Writers.{RoomIn, Wrote};

use crate::field::Field;
use crate::{Bitmap, Data};

// A lent buffer, and the place in it where the next text goes. A loop goes on a writer of its own, whose place stays
// in a register: behind `self` it is stored and read again for each byte, and a packet of 64 marks took twice as long.
// For the same reason the digits of a number go by buffer and place, and what puts a field and its data is inlined into
// the two writers of packets: without that, small packets took up to a third longer.
#[derive(Drop)]
pub struct Writer<'a> {
    pub buf: &'a mut [u8],
    pub at: usize,
}

impl<'a> Writer<'a> {
    pub(crate) fn byte(&mut self, b: u8)
        requires { self.old.at < length self.old.buf.now }
        ensures { Wrote self.old (b ∷ []) self.new }
    {
        self.buf[self.at] = b;
        self.at += 1;
    }

    // By copy_from_slice, `,true` and `,false` as one text each, 64 marks took 0.185 us, byte by byte 0.117.
    pub(crate) fn all(&mut self, src: &[u8])
        requires { RoomIn self.old src.now }
        ensures { Wrote self.old src.now self.new }
    {
        let mut w = Writer {
            buf: &mut *self.buf,
            at: self.at,
        };
        for &b in src {
            w.byte(b);
        }
        self.at = w.at;
    }

    pub(crate) fn decimal(&mut self, n: u64)
        requires { RoomIn self.old (decimal n) }
        ensures { Wrote self.old (decimal n) self.new }
    {
        self.at = digits(self.buf, self.at, n);
    }

    // A byte in decimal: at most three digits, so with no recursion. Where digits goes by tens it ends here.
    fn small(&mut self, b: u8)
        requires { RoomIn self.old (decimal b) }
        ensures { Wrote self.old (decimal b) self.new }
    {
        if b < 10 {
            return self.byte(b + b'0');
        }
        if b < 100 {
            self.byte(b / 10 + b'0');
            return self.byte(b % 10 + b'0');
        }
        self.byte(b / 100 + b'0');
        self.byte(b / 10 % 10 + b'0');
        self.byte(b % 10 + b'0');
    }

    // What follows a bitmap's first entry: n marks of m, the lowest first, each behind a comma, and the bracket.
    fn marks(&mut self, m: u64, n: usize)
        requires { RoomIn self.old (items_text bool_text (marks_of m n)) }
        ensures { Wrote self.old (items_text bool_text (marks_of m n)) self.new }
    {
        let mut w = Writer {
            buf: &mut *self.buf,
            at: self.at,
        };
        let mut rest = m;
        for done in 0..n {
            w.byte(b',');
            (rest % 2 == 1).put(&mut w);
            rest = rest / 2;
        }
        w.byte(b']');
        self.at = w.at;
    }

    pub(crate) fn bitmap(&mut self, b: Bitmap)
        requires { RoomIn self.old (bitmap_text b) }
        ensures { Wrote self.old (bitmap_text b) self.new }
    {
        if b.len == 0 {
            return self.all(b"[]");
        }
        self.byte(b'[');
        (b.marks % 2 == 1).put(self);
        self.marks(b.marks / 2, b.len - 1);
    }

    // What follows the first byte of an array.
    #[inline(always)]
    fn rest(&mut self, bytes: &[u8])
        requires { RoomIn self.old (items_text decimal bytes.now) }
        ensures { Wrote self.old (items_text decimal bytes.now) self.new }
    {
        let mut w = Writer {
            buf: &mut *self.buf,
            at: self.at,
        };
        for &b in bytes {
            w.byte(b',');
            w.small(b);
        }
        w.byte(b']');
        self.at = w.at;
    }

    // Bytes as an array.
    #[inline(always)]
    fn bytes(&mut self, bytes: &[u8])
        requires { RoomIn self.old (list_text decimal bytes.now) }
        ensures { Wrote self.old (list_text decimal bytes.now) self.new }
    {
        let Some((&byte, rest)) = bytes.split_first() else {
            return self.all(b"[]");
        };
        self.byte(b'[');
        self.small(byte);
        self.rest(rest);
    }

    #[inline(always)]
    #[tactic(auto, unfolding(crate::specs::Packets::data_text))]
    pub(crate) fn data(&mut self, d: Data)
        requires { (d.len ≤ data_bytes) × RoomIn self.old (data_text d) }
        ensures { Wrote self.old (data_text d) self.new }
    {
        let bytes = d.bytes;
        self.bytes(&bytes[..d.len]);
    }
}

// A number from index at on, and the index behind it. The digits before the last one first, so that nothing has to be
// turned round.
fn digits(buf: &mut [u8], at: usize, n: u64) -> usize
    requires { Room buf.old at (decimal n) }
    ensures { Put buf.old at (decimal n) result buf.new }
{
    if n <= 255 {
        let mut w = Writer { buf, at };
        w.small(n as u8);
        return w.at;
    }
    let at = digits(buf, at, n / 10);
    let mut w = Writer { buf, at };
    w.byte((n % 10) as u8 + b'0');
    w.at
}
