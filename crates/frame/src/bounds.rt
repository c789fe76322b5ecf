// RULES 16 and 13.2. What a frame line and a listing line never exceed, and what one who lists lines needs to hold of
// them.

// The digits of a frame. A line that has more is refused.
pub const DIGITS: usize = 60000;

// The bytes of a line that are worth keeping: one more than a frame may have says that the line is too long, whatever
// follows.
pub const KEPT: usize = DIGITS + 1;

// The words of a frame.
pub const WORDS: usize = 3745;

// The bytes of a listing line: a name of 255, a blank and 20 digits.
pub const LISTING: usize = 276;

// A listing line and its end.
pub const ENDED: usize = LISTING + 1;
