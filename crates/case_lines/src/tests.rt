// RULES none. Calls of what no program calls: `numbers`, `answer_lines` and `words_from`.
use super::*;
use std::alloc::Allocator;
use std::io::{BufRead, Lines};
use std::test::Fail;

// What is typed, in place of standard input.
#[derive(Clone, Copy)]
struct Typed(&'static [u8]);

impl Input for Typed {
    type Reader = &'static [u8];

    fn read_line<A: Allocator + Clone>(&self, buf: &mut String<A>) -> io::Result<usize> {
        self.reader().read_line(buf)
    }

    fn lines<A: Allocator>(&self, alloc: A) -> Lines<&'static [u8], A> {
        self.reader().lines(alloc)
    }

    fn reader(&self) -> &'static [u8] {
        self.0
    }
}

// How many questions were asked, and the sum of all of their numbers.
#[derive(Clone, Copy)]
struct Desk {
    questions: u64,
    sum: u64,
}

impl Answers for Desk {
    fn answer(&mut self, question: &[u64]) -> io::Result<()> {
        self.questions = self.questions.wrapping_add(1);
        for &n in question {
            self.sum = self.sum.wrapping_add(n);
        }
        Ok(())
    }
}

const IDLE: Desk = Desk {
    questions: 0,
    sum: 0,
};

#[test]
fn plain_lines_have_their_numbers(rt: HostRuntime) -> Result<(), Fail> {
    for (line, want) in [
        ("7", [7].as_slice()),
        ("1 2 3", &[1, 2, 3]),
        ("007 +5 18446744073709551615", &[7, 5, u64::MAX]),
    ] {
        assert_eq!(rt; numbers(rt.alloc(), line)?.as_slice(), want, "of {line}");
    }
    Ok(())
}

#[test]
fn other_lines_are_refused(rt: HostRuntime) {
    for line in [
        "",
        " ",
        "1  2",
        "1 2 ",
        "1,2",
        "0x1",
        "-1",
        "18446744073709551616",
    ] {
        assert!(rt; numbers(rt.alloc(), line).is_err(), "of {line}");
    }
}

#[test]
fn each_line_asks_once(rt: HostRuntime) -> Result<(), Fail> {
    let mut desk = IDLE;
    answer_lines(&(Typed(b"1 2\n3\n4 5 6"), rt.alloc()), &mut desk)?;
    assert_eq!(rt; desk.questions, 3);
    assert_eq!(rt; desk.sum, 21);
    Ok(())
}

#[test]
fn lines_ask_up_to_the_first_that_is_refused(rt: HostRuntime) {
    let mut desk = IDLE;
    let answered = answer_lines(&(Typed(b"1 2\n3 x\n4 5 6\n"), rt.alloc()), &mut desk);
    assert!(rt; answered.is_err());
    assert_eq!(rt; desk.questions, 1);
    assert_eq!(rt; desk.sum, 3);
}

#[test]
fn words_go_up_by_a_step(rt: HostRuntime) -> Result<(), Fail> {
    assert_eq!(rt;
        words_from(rt.alloc(), 5, 3, 4)?.as_slice(),
        [5, 8, 11, 14].as_slice()
    );
    assert_eq!(rt;
        words_from(rt.alloc(), u64::MAX, 2, 2)?.as_slice(),
        [u64::MAX, 1].as_slice()
    );
    assert!(rt; words_from(rt.alloc(), 5, 3, 0)?.is_empty());
    Ok(())
}
