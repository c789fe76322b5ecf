// RULES none. Sets of up to 64 marks, each in one word: mark i is binary digit i. Contracts speak of membership alone,
// and hold for every argument: an index of 64 or more is no member, and is not set.
ghost use Rattle.std.specs.Prelude.{◌≡◌, ◌||◌, ◌&&◌, not, ℕ, eqb, ltb};
ghost use Rattle.std.specs.Iterator.{at_most};
ghost use Rattle.marks.specs.Marks.{has, count_of, all_of, Lowest, TakesLowest};

pub fn is_marked(m: u64, i: usize) -> bool
    ensures { result ≡ has m i }
{
    if i >= 64 {
        return false;
    }
    (m >> i) % 2 == 1
}

#[tactic(auto, using(marks::specs::Sets::with_near))]
pub fn with_mark(m: u64, i: usize) -> u64
    ensures { (j : ℕ) → has result j ≡ (has m j || (ltb j 64 && eqb j i)) }
{
    if i >= 64 {
        return m;
    }
    m | (1 << i)
}

#[tactic(auto, using(marks::specs::Sets::without_far, marks::specs::Sets::without_near))]
pub fn without_mark(m: u64, i: usize) -> u64
    ensures { (j : ℕ) → has result j ≡ (has m j && not (eqb j i)) }
{
    if i >= 64 {
        return m;
    }
    m ^ (m & (1 << i))
}

#[tactic(auto, using(marks::specs::Laws::has_or))]
pub fn union(a: u64, b: u64) -> u64
    ensures { (j : ℕ) → has result j ≡ (has a j || has b j) }
{
    a | b
}

#[tactic(auto, using(marks::specs::Laws::has_and))]
pub fn intersection(a: u64, b: u64) -> u64
    ensures { (j : ℕ) → has result j ≡ (has a j && has b j) }
{
    a & b
}

// The marks of a that b has not.
#[tactic(auto, using(marks::specs::Laws::has_minus))]
pub fn difference(a: u64, b: u64) -> u64
    ensures { (j : ℕ) → has result j ≡ (has a j && not (has b j)) }
{
    a ^ (a & b)
}

// The set of the first n marks; of all 64 where n is larger.
#[tactic(auto, using(marks::specs::Sets::below_all, marks::specs::Sets::below_few))]
pub fn first_marks(n: usize) -> u64
    ensures { (j : ℕ) → has result j ≡ (ltb j n && ltb j 64) }
{
    if n >= 64 {
        return u64::MAX;
    }
    (1 << n) - 1
}

// Every one of the first n marks is there.
pub fn all_marked(m: u64, n: usize) -> bool
    ensures { result ≡ all_of n (λ j. has m j) }
{
    if n > 64 {
        return false;
    }
    difference(first_marks(n), m) == 0
}

#[tactic(auto, using(marks::specs::Sets::ones_count))]
pub fn count_marks(m: u64) -> usize
    ensures { result ≡ count_of m 64 }
{
    u64::count_ones(m) as usize
}

// The lowest mark, or 64 where there is none.
#[tactic(auto, using(marks::specs::Sets::zeros_lowest))]
pub fn lowest_mark(m: u64) -> usize
    ensures { Lowest m result }
{
    u64::trailing_zeros(m) as usize
}

// The marks of a word, the lowest first: the word of those that are still to come.
#[derive(Clone, Copy)]
pub struct Marks(u64);

pub fn iter(m: u64) -> Marks
    ensures { result.0 ≡ m }
{
    Marks(m)
}

impl Iterator for Marks {
    type Item = usize;

    ghost next_gives = { λ s r t. TakesLowest s.0 r t.0 };

    ghost remaining = { λ s. at_most (count_of s.0 64) };

    fn next(&mut self) -> Option<usize> {
        if self.0 == 0 {
            return None;
        }
        let i = lowest_mark(self.0);
        self.0 = without_mark(self.0, i);
        Some(i)
    }
}
