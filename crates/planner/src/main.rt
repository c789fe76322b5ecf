// RULES 14.2 and 14.3. Reads frames from standard input, one to a line, and prints the listing line of each.
#![tactic(auto)]

ghost use Rattle.std.specs.Prelude.{◌≡◌, ◌+◌, ◌≤◌, ◌<◌, length, take, drop, Some, IfOk, IfSome};
ghost use Rattle.frame.specs.Bounds.{kept_bytes, frame_words};
ghost use Rattle.lines.specs.Feeding.{end_out};
ghost use Rattle.planner.specs.Turns.{left_of, TakesIn};

use frame::bounds;
use lines::feed;
use std::fmt;
use std::io::{Eprint, Error, ErrorKind, Print, Read, Stderr, Stdin, Stdout};

// What is kept of a line, and room behind it to read on.
const INPUT: usize = 73728;

// Listing lines are gathered here and written together.
const OUTPUT: usize = 8192;

// Why the program ends before its input does.
#[derive(Clone, Copy)]
enum Failure {
    Read(Error),
    Write(Error),
}

impl fmt::Display for Failure {
    fn fmt<W: fmt::Write>(&self, f: &mut fmt::Formatter<W>) -> fmt::Result {
        match self {
            Failure::Read(e) => write!(f, "planner: cannot read: {e}"),
            Failure::Write(e) => write!(f, "planner: cannot write: {e}"),
        }
    }
}

// A read that a signal cut short is made again, and what there is of the present line stays, n bytes. One that fails
// ends the program: of a line that could not be read to its end nothing is listed.
fn not_read(n: usize, e: Error) -> Result<Option<usize>, Failure>
    ensures { IfOk result (λ left. left ≡ Some n) }
{
    if e.kind() == ErrorKind::Interrupted {
        return Ok(Some(n));
    }
    Err(Failure::Read(e))
}

// What the program reads and writes to, and the words and the output that each answer is lent: two buffers of their
// own, as no word stands beside a byte.
#[derive(Clone, Copy)]
struct Planner {
    input: Stdin,
    output: Stdout,
    words: [u64; bounds::WORDS],
    out: [u8; OUTPUT],
}

impl Planner {
    fn write(&self, text: &[u8]) -> Result<(), Failure> {
        self.output.write_all(text).map_err(Failure::Write)
    }

    // What a read brought is answered before the next read: who waits for a line's answer gets it. Where the output is
    // full it is written, and filled anew. From the place handed back on stands the line that is left. A `while`: a
    // turn goes on where the call says.
    fn answer(&mut self, text: &[u8], n: usize) -> Result<usize, Failure>
        ensures { IfOk result (λ from. (from ≤ length text.now) × (drop from text.now ≡ left_of (take n text.now) (drop n text.now))) }
    {
        let mut from: usize = 0;
        let mut at = n;
        while at < text.len() {
            let fed = feed::feed(
                &text[from..],
                at - from,
                &mut self.words,
                &mut self.out,
                0,
            ).unwrap();
            self.write(&self.out[..fed.used])?;
            at = from + fed.at;
            from += fed.from;
        }
        Ok(from)
    }

    fn answer_last(&mut self, line: &[u8]) -> Result<(), Failure>
        ensures { self.new.out ≡ end_out line.now frame_words self.old.out }
    {
        let used = feed::finish(line, &mut self.words, &mut self.out).unwrap();
        self.write(&self.out[..used])
    }

    // Of the text the first n bytes are the present line, and the others were read. If none were, the input is over,
    // and the present line is its last. Else this many bytes at the front are the line that is left.
    fn take_in(&mut self, text: &mut [u8], n: usize) -> Result<Option<usize>, Failure>
        ensures { TakesIn text.old self.old.out n frame_words result text.new self.new.out }
    {
        if text.len() <= n {
            self.answer_last(text)?;
            return Ok(None);
        }
        let from = self.answer(text, n)?;
        Ok(Some(feed::keep(text, from)))
    }

    // A read that did not fail answered how many bytes it brought behind the n of the present line.
    fn after_read(&mut self, buf: &mut [u8], n: usize, got: usize) -> Result<Option<usize>, Failure>
        ensures { (IfOk result (λ left. IfSome left (λ kept. kept ≤ kept_bytes))) × (n + got ≤ length buf.old → TakesIn (take (n + got) buf.old) self.old.out n frame_words result (take (n + got) buf.new) self.new.out) }
    {
        let end = n.saturating_add(got).min(buf.len());
        self.take_in(&mut buf[..end], n)
    }

    // One read behind the n bytes of the present line, which may bring few bytes. The clause says what the turn before
    // answered: a struct of n alone would have its fact and be no plainer.
    fn one_turn(&mut self, buf: &mut [u8; INPUT], n: usize) -> Result<Option<usize>, Failure>
        requires { n ≤ kept_bytes }
        ensures { IfOk result (λ left. IfSome left (λ kept. kept ≤ kept_bytes)) }
    {
        let mut input = self.input;
        match input.read(&mut buf[n..]) {
            Ok(got) => self.after_read(buf, n, got),
            Err(e) => not_read(n, e),
        }
    }

    fn read_all(&mut self, buf: &mut [u8; INPUT]) -> Result<(), Failure> {
        let mut n: usize = 0;
        for _ in 0..u64::MAX {
            let Some(kept) = self.one_turn(buf, n)? else {
                return Ok(());
            };
            n = kept;
        }
        Ok(())
    }
}

// Standard error says what failed. If it cannot be written either, nobody is left who could be told.
fn complain(errors: Stderr, failure: Failure) {
    match eprintln!(errors; "{failure}") {
        Ok(()) => {}
        Err(_) => {}
    }
}

fn main(rt: HostRuntime) {
    let mut buf = [0u8; INPUT];
    let mut planner = Planner {
        input: rt.stdin(),
        output: rt.stdout(),
        words: [0u64; bounds::WORDS],
        out: [0u8; OUTPUT],
    };
    if let Err(failure) = planner.read_all(&mut buf) {
        complain(rt.stderr(), failure);
    }
}
