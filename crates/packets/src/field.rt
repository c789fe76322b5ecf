// RULES 5.3, 5.4 and 7.5. What stands in a packet's fields: the text of each value, how long it is, how it is written
// and how it is read.
ghost use Rattle.std.specs.Prelude.{◌≡◌, ⊤, true, false, ℕ, List, ◌++◌, ◌^◌, ◌+◌, ◌≤◌, ◌<◌, length};
ghost use Rattle.limits.specs.Limits.{bitmap_entries, data_bytes};
ghost use Rattle.texts.specs.Decimal.{decimal};
ghost use Rattle.texts.specs.Readers.{Reader, behind, num_at, bool_at, bool_text};
ghost use Rattle.packets.specs.Packets.{Within, phase_text, bitmap_text, data_text, option_text};
ghost use Rattle.packets.specs.Writers.{RoomIn, Wrote};
ghost use Rattle.packets.specs.Reading.{phase_at, bitmap_at, data_at, option_at};

use crate::put::Writer;
use crate::{Bitmap, Data, TwoPcPhase, len, read};

pub(crate) trait Field: Copy {
    // The text of a value.
    ghost text: { Self → List ℕ };

    // The values that have one within the limits, and how long it is at most.
    ghost Fits: { Self → Type 0 };

    ghost most: { ℕ };

    // What is found where a value may stand.
    ghost found: { Reader Self };

    fn text_len(self) -> usize
        requires { Fits self }
        ensures { (result ≡ length (text self)) × (result ≤ most) };

    // Called where the text fits.
    fn put(self, w: &mut Writer)
        requires { Fits self × RoomIn w.old (text self) }
        ensures { Wrote w.old (text self) w.new };

    // Takes exactly what `put` writes, and answers with the place behind it.
    fn read(s: &[u8], at: usize) -> Option<(Self, usize)>
        ensures { result ≡ found s.now at };
}

impl Field for u64 {
    ghost text = { decimal };

    ghost Fits = { λ _. ⊤ };

    ghost most = { 20 };

    ghost found = { num_at (2 ^ 64) };

    fn text_len(self) -> usize {
        len::decimal_len(self)
    }

    fn put(self, w: &mut Writer) {
        w.decimal(self)
    }

    fn read(s: &[u8], at: usize) -> Option<(u64, usize)> {
        read::read_num(s, at, u64::MAX)
    }
}

impl Field for bool {
    ghost text = { bool_text };

    ghost Fits = { λ _. ⊤ };

    ghost most = { 5 };

    ghost found = { bool_at };

    fn text_len(self) -> usize {
        if self { 4 } else { 5 }
    }

    fn put(self, w: &mut Writer) {
        if self {
            w.all(b"true")
        } else {
            w.all(b"false")
        }
    }

    fn read(s: &[u8], at: usize) -> Option<(bool, usize)> {
        read::read_bool(s, at)
    }
}

impl Field for TwoPcPhase {
    ghost text = { phase_text };

    ghost Fits = { λ _. ⊤ };

    ghost most = { 11 };

    ghost found = { phase_at };

    fn text_len(self) -> usize {
        self.text().len()
    }

    // Phase by phase, so that each name is put as text whose length is known: by `self.text()` it went byte by byte.
    fn put(self, w: &mut Writer) {
        match self {
            TwoPcPhase::Prepare => w.all(TwoPcPhase::Prepare.text()),
            TwoPcPhase::Committed => w.all(TwoPcPhase::Committed.text()),
            TwoPcPhase::Aborted => w.all(TwoPcPhase::Aborted.text()),
        }
    }

    fn read(s: &[u8], at: usize) -> Option<(TwoPcPhase, usize)> {
        read::read_phase(s, at)
    }
}

impl Field for Bitmap {
    ghost text = { bitmap_text };

    ghost Fits = { λ b. b.len ≤ bitmap_entries };

    ghost most = { 386 };

    ghost found = { bitmap_at };

    fn text_len(self) -> usize {
        len::bitmap_len(self)
    }

    fn put(self, w: &mut Writer) {
        w.bitmap(self)
    }

    fn read(s: &[u8], at: usize) -> Option<(Bitmap, usize)> {
        read::read_bitmap(s, at)
    }
}

impl Field for Data {
    ghost text = { data_text };

    ghost Fits = { λ d. d.len ≤ data_bytes };

    ghost most = { 129 };

    ghost found = { data_at };

    fn text_len(self) -> usize {
        len::data_len(self)
    }

    #[inline(always)]
    fn put(self, w: &mut Writer) {
        w.data(self)
    }

    fn read(s: &[u8], at: usize) -> Option<(Data, usize)> {
        read::read_data(s, at)
    }
}

// What may be absent: null, or a value.
impl<T: Field> Field for Option<T> {
    ghost text = { option_text T.text };

    ghost Fits = { Within T.Fits };

    ghost most = { 4 + T.most };

    ghost found = { option_at T.found };

    fn text_len(self) -> usize {
        match self {
            None => 4,
            Some(value) => value.text_len(),
        }
    }

    fn put(self, w: &mut Writer) {
        match self {
            None => w.all(b"null"),
            Some(value) => value.put(w),
        }
    }

    #[tactic(auto, using(texts::specs::LiteralLaws::lit_le), unfolding(crate::specs::Reading::option_at, texts::specs::Readers::or_null, texts::specs::Readers::map))]
    fn read(s: &[u8], at: usize) -> Option<(Option<T>, usize)> {
        if read::lit_at(s, at, b"null") {
            return Some((None, at + 4));
        }
        let (value, next) = T::read(s, at)?;
        Some((Some(value), next))
    }
}

// A field: its name, with what stands around it, and the value.
#[inline(always)]
pub(crate) fn put_field<T: Field>(w: &mut Writer, key: &[u8], value: T)
    requires { T.Fits value × RoomIn w.old (key.now ++ T.text value) }
    ensures { Wrote w.old (key.now ++ T.text value) w.new }
{
    w.all(key);
    value.put(w);
}

#[tactic(auto, using(texts::specs::LiteralLaws::lit_le), unfolding(texts::specs::Readers::behind))]
pub(crate) fn read_field<T: Field>(s: &[u8], at: usize, key: &[u8]) -> Option<(T, usize)>
    requires { 0 < length key.now }
    ensures { result ≡ behind key.now T.found s.now at }
{
    if !read::lit_at(s, at, key) {
        return None;
    }
    T::read(s, at + key.len())
}
