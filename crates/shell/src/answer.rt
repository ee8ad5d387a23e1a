// The answers, and the bytes of each. They are put by hand and not by a `Display`: what is promised of `say` holds
// of every number, of one from 1000 on the last three digits.
ghost use Rattle.std.specs.Prelude.{◌≡◌, ◌++◌, ◌+◌, ◌%◌, length};
ghost use Rattle.ground.specs.Refusal.{number};
ghost use Rattle.shell.specs.declared.answer.Answer.TheVariants.{Refused};
ghost use Rattle.shell.specs.Answer.{decimal, two_numbers, words_of, said};
ghost use Rattle.shell.specs.Inside.{Room, Adds};

use ground::refusal::Refusal;
use profile::samples::PathRefusal;

// The room for answers that wait to be written.
pub const ROOM: usize = 65536;

// The bytes of the longest answer, `path 200 blocked` and a line feed.
pub const LONGEST: usize = 17;

// What a line is answered: `use` with base and zone; `site` with the number of sites held; `path` with N
// and whether it is clear; `masts` with two heights; `taken`; `full`; `unknown`; `refused` with a
// number; `bad` with a column.
#[derive(Clone, Copy)]
pub enum Answer {
    Used(u32, u32),
    Held(usize),
    Seen(u32, bool),
    Planned(u32, u32),
    Taken,
    Full,
    Unknown,
    Refused(u32),
    Bad(usize),
}

impl From<Refusal> for Answer {
    ghost from_gives = { λ refusal answer. answer ≡ Refused (number refusal) };

    fn from(refusal: Refusal) -> Answer {
        Answer::Refused(refusal.number())
    }
}

impl From<PathRefusal> for Answer {
    ghost from_gives = { λ met answer. answer ≡ Refused (number met.refusal) };

    fn from(met: PathRefusal) -> Answer {
        Answer::from(met.refusal)
    }
}

// The answers that wait to be written: the first `filled` bytes of the room. The type states no bound of them,
// since callers may pass any.
#[derive(Drop)]
pub struct Answers {
    pub bytes: [u8; ROOM],
    pub filled: usize,
}

// The digit of a number below 10, and of any other the last one.
fn digit_of(n: usize) -> u8
    ensures { result ≡ 48 + n % 10 }
{
    b'0' + (n % 10) as u8
}

impl Answers {
    // Adds the bytes of a word.
    fn put(&mut self, word: &[u8])
        requires { Room self.old (length word.now) }
        ensures { Adds word.now self.old self.new }
    {
        let start = self.filled;
        let end = start + word.len();
        self.bytes[start..end].copy_from_slice(word);
        self.filled = end;
    }

    // Adds a number below 1000 in decimal digits.
    #[tactic(auto, unfolding(crate::specs::Answer::decimal))]
    fn put_number(&mut self, n: usize)
        requires { Room self.old 3 }
        ensures { Adds (decimal n) self.old self.new }
    {
        if n < 10 {
            self.put(&[digit_of(n)]);
        } else if n < 100 {
            self.put(&[digit_of(n / 10), digit_of(n)]);
        } else {
            self.put(&[digit_of(n / 100), digit_of(n / 10), digit_of(n)]);
        }
    }

    // Adds a word and a number.
    fn put_one(&mut self, word: &[u8], n: usize)
        requires { Room self.old (length word.now + 3) }
        ensures { Adds (word.now ++ decimal n) self.old self.new }
    {
        self.put(word);
        self.put_number(n);
    }

    // Adds a word and two numbers, with a space between them.
    fn put_two(&mut self, word: &[u8], a: u32, b: u32)
        requires { Room self.old (length word.now + 7) }
        ensures { Adds (word.now ++ two_numbers a b) self.old self.new }
    {
        self.put_one(word, a as usize);
        self.put_one(b" ", b as usize);
    }

    // Adds the words of an answer.
    #[tactic(auto, using(crate::proofs::Laws::Written::both, crate::proofs::Laws::Answer::decimal_short), unfolding(crate::specs::Answer::words_of))]
    fn put_words(&mut self, answer: Answer)
        requires { Room self.old 16 }
        ensures { Adds (words_of answer) self.old self.new }
    {
        match answer {
            Answer::Used(base, zone) => self.put_two(b"use ", base, zone),
            Answer::Held(count) => self.put_one(b"site ", count),
            Answer::Seen(n, clear) => {
                self.put_one(b"path ", n as usize);
                if clear {
                    self.put(b" clear");
                } else {
                    self.put(b" blocked");
                }
            }
            Answer::Planned(a, b) => self.put_two(b"masts ", a, b),
            Answer::Taken => self.put(b"taken"),
            Answer::Full => self.put(b"full"),
            Answer::Unknown => self.put(b"unknown"),
            Answer::Refused(number) => self.put_one(b"refused ", number as usize),
            Answer::Bad(column) => self.put_one(b"bad ", column),
        }
    }

    // Adds an answer, as a line.
    #[tactic(auto, using(crate::proofs::Laws::Answer::words_short))]
    pub fn say(&mut self, answer: Answer)
        requires { Room self.old 17 }
        ensures { Adds (said answer) self.old self.new }
    {
        self.put_words(answer);
        self.put(b"\n");
    }

    // Adds `bad` and the column, as `say` does; most lines that are pasted wrongly need no more.
    #[tactic(auto, using(crate::proofs::Laws::Written::both, crate::proofs::Laws::Answer::decimal_short), unfolding(crate::specs::Answer::words_of))]
    pub(crate) fn say_bad(&mut self, column: usize)
        requires { Room self.old 17 }
        ensures { Adds (said (Answer.Bad column)) self.old self.new }
    {
        self.put_one(b"bad ", column);
        self.put(b"\n");
    }
}
