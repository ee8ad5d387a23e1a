// An input, line by line. It may come in pieces: what is left of a piece after its last line feed is kept
// in front of the next.
ghost use Rattle.std.specs.Prelude.{◌≡◌, ◌≤◌, length};
ghost use Rattle.shell.specs.Inside.{Feeds, Keeps, EndsKept};

use crate::answer;
use crate::answer::{Answers, LONGEST};
use crate::command::{FileName, Shell};
use lines::text;

// The room for input: what was kept of a line, and a piece.
pub const PIECE: usize = 65536;

// One byte more than the longest legal line: what is kept of a line that is not ended yet.
pub const MOST_KEPT: usize = 48;

// Why the lines of an input are not answered further: a line asks for the file of a name; the line at the
// place is not ended yet; or there is no room for its answer.
#[derive(Clone, Copy)]
pub enum Next {
    Use(FileName),
    More,
    Full,
}

// How far the lines of an input are answered: why no further, and the place of the next line.
#[derive(Clone, Copy)]
pub struct Step {
    pub next: Next,
    pub at: usize,
}

// The input: the bytes before the end were read, and the lines before the place are answered.
#[derive(Drop)]
pub struct Input {
    pub bytes: [u8; PIECE],
    pub at: usize,
    pub end: usize,
}

// Answers the lines that are ended in the input from a place on, one after the other, after the answers that
// wait; up to a `use`, whose file the caller looks for, or as far as there is room. The place goes from line to
// line, so the loop has no range.
pub fn answer_lines(
    input: &[u8],
    from: usize,
    shell: &mut Shell,
    file: &[u8],
    answers: &mut Answers,
) -> Step
    requires { length answers.old.bytes ≡ 65536 }
    ensures { Feeds input.now from shell.old file.now answers.old shell.new answers.new result }
{
    let mut at = from;
    while answers.filled <= answer::ROOM - LONGEST {
        let read = lines::read_line(input, at);
        let end = text::line_end(input, read.at);
        if input.len() <= end {
            return Step {
                next: Next::More,
                at,
            };
        }
        at = end + 1;
        match read.line {
            Err(column) => answers.say_bad(column),
            Ok(line) => match shell.answer_line(line, file) {
                Ok(answer) => answers.say(answer),
                Err(name) => {
                    return Step {
                        next: Next::Use(name),
                        at,
                    };
                }
            },
        }
    }
    Step {
        next: Next::Full,
        at,
    }
}

impl Input {
    // Moves what is left from the place on to the front, at most 48 bytes of it, and forgets the rest.
    pub fn keep(&mut self)
        requires { length self.old.bytes ≡ 65536 }
        ensures kept { Keeps self.old.bytes self.old.at self.old.end self.new.bytes self.new.end }
        ensures front { self.new.at ≡ 0 }
    {
        let from = self.at;
        let last = self.end.min(PIECE).min(from.saturating_add(MOST_KEPT));
        self.at = 0;
        if last <= from {
            self.end = 0;
        } else {
            self.bytes.copy_within(from..last, 0);
            self.end = last - from;
        }
    }

    // Ends the line that was kept at the front, if one was, where no more input comes.
    pub fn end_kept(&mut self)
        requires { (length self.old.bytes ≡ 65536) × (self.old.end ≤ 48) }
        ensures ended { EndsKept self.old.bytes self.old.end self.new.bytes self.new.end }
        ensures place { self.new.at ≡ self.old.at }
    {
        if 0 < self.end {
            self.bytes[self.end] = text::LINE_FEED;
            self.end += 1;
        }
    }
}
