// RULES 14.2. Where a line ends.
ghost use Rattle.std.specs.Prelude.{true, ◌≡◌, ◌≤◌, length};
ghost use Rattle.std.specs.List.{position};
ghost use Rattle.lines.specs.Feeding.{ends_line};
ghost use Rattle.lines.specs.Ends.{Unbroken};

// The byte that ends a line.
const END: u8 = b'\n';

// How many bytes are looked at together.
const BLOCK: usize = 32;

// Whether no line ends in a block. All bytes are looked at, also behind an end: a loop without a branch takes many at
// once. Of 60000 bytes without an end this takes 2 us, blocks with `all` 30, and `position` without blocks 30.
fn is_unbroken(block: &[u8]) -> bool
    ensures { result ≡ true → Unbroken block.now 0 (length block.now) }
{
    let mut good = true;
    for &b in block {
        good &= b != END;
    }
    good
}

// Passes over blocks in which no line ends, since most of a long line is such blocks; the place behind them.
fn pass_blocks(text: &[u8]) -> usize
    ensures { (result ≤ length text.now) × Unbroken text.now 0 result }
{
    let blocks = text.len() / BLOCK;
    for k in 0..blocks {
        let from = BLOCK * k;
        if !is_unbroken(&text[from..from + BLOCK]) {
            return from;
        }
    }
    BLOCK * blocks
}

// How many bytes stand before the first end of a line, if there is one.
fn first_end(text: &[u8]) -> Option<usize>
    ensures { result ≡ position ends_line text.now }
{
    text.iter().position(|&b| b == END)
}

// The same, block by block as far as that goes.
pub(crate) fn line_end(text: &[u8]) -> Option<usize>
    ensures { result ≡ position ends_line text.now }
{
    let from = pass_blocks(text);
    let ahead = first_end(&text[from..])?;
    Some(from + ahead)
}
