// A session: a text in pieces, whose lines are answered as far as each piece goes.
ghost use Rattle.std.specs.Prelude.{◌≡◌, ◌+◌, ◌≤◌, length, IfSome};
ghost use Rattle.shell.specs.Inside.{HasRead, Waits};

use crate::file;
use shell::answer::{Answer, Answers};
use shell::command::{FileName, Shell};
use shell::feed::{Input, Next, PIECE};
use shell::{answer, feed};
use std::mem;

// The longest text.
pub(crate) const MOST_TEXT: usize = 8192;

// The longest piece after the first.
const MOST_PIECE: usize = 7;

// More turns than any text needs: one for each piece, each `use`, and each time that the room for answers is
// full.
const TURNS: u32 = 100000;

// What is left of a text, and the size of the next piece of it.
#[derive(Clone, Copy)]
struct Pieces<'a> {
    text: &'a [u8],
    size: usize,
}

// Prints the answers that wait after the first bytes of the room, which are left alone.
fn flush(rt: &impl Print, answers: &mut Answers, first: usize)
    requires { Waits answers.old × (first ≤ 65536) }
    ensures { Waits answers.new }
{
    if first <= answers.filled {
        let _ = rt.write_all(&answers.bytes[first..answers.filled]);
    }
    answers.filled = first;
}

// Answers a `use`: the file of the name is built in the room and checked. Gives its length where it passed,
// and so is in use from now on.
fn use_file(
    name: FileName,
    room: &mut [u8],
    shell: &mut Shell,
    answers: &mut Answers,
) -> Option<usize>
    requires room { length room.old ≡ 62464 }
    requires room_to_answer { Waits answers.old × (answers.old.filled ≤ 65519) }
    ensures waits { Waits answers.new }
    ensures in_room { IfSome result (λ n. n ≤ 62464) }
{
    let built = file::build(room, name.zone);
    let used = shell.on_use(built.map(|length| &room[..length]), name);
    answers.say(used.unwrap_or_else(Answer::from));
    if used.is_ok() { built } else { None }
}

impl<'a> Pieces<'a> {
    // The next piece, where there is more text.
    fn next(&mut self) -> Option<&'a [u8]>
        ensures left { length self.new.text.now ≤ length self.old.text.now }
        ensures piece { IfSome result (λ piece. length piece.now + length self.new.text.now ≤ length self.old.text.now) }
    {
        if self.text.is_empty() {
            return None;
        }
        let (piece, rest) = self.text.split_at(self.size.min(self.text.len()));
        self.text = rest;
        self.size = self.size % MOST_PIECE + 1;
        Some(piece)
    }
}

// Puts the next piece of the text after what is left of a line, which is ended where the text has ended.
fn read_on(pieces: &mut Pieces, input: &mut Input)
    requires { HasRead input.old × (length pieces.old.text.now ≤ 8192) }
    ensures { HasRead input.new × (length pieces.new.text.now ≤ 8192) }
{
    input.keep();
    if let Some(piece) = pieces.next() {
        let end = input.end + piece.len();
        input.bytes[input.end..end].copy_from_slice(piece);
        input.end = end;
    } else {
        input.end_kept();
    }
}

// The input of which nothing is read yet.
fn no_input() -> Input
    ensures { HasRead result }
{
    Input {
        bytes: [0; PIECE],
        at: 0,
        end: 0,
    }
}

// Answers the lines of a text, and prints the answers. The text comes in pieces: the first of `size` bytes,
// and the others of one byte more each time, from 1 to 7 and over again. The answers wait in the room after
// its first bytes, which are left alone.
pub(crate) fn run(rt: &impl Print, text: &[u8], size: usize, first: usize)
    requires { (length text.now ≤ 8192) × (first ≤ 65536) }
{
    let mut pieces = Pieces { text, size };
    let mut shell = Shell::start();
    let mut answers = Answers {
        bytes: [0; answer::ROOM],
        filled: first,
    };
    let mut input = no_input();
    let mut one = [0u8; file::LONGEST];
    let mut other = [0u8; file::LONGEST];
    let mut file = &mut one;
    let mut spare = &mut other;
    let mut length = 0;
    for _ in 0..TURNS {
        let lines = &input.bytes[..input.end];
        let step = feed::answer_lines(lines, input.at, &mut shell, &file[..length], &mut answers);
        input.at = step.at;
        match step.next {
            Next::Use(name) => {
                let used = use_file(name, &mut spare[..], &mut shell, &mut answers);
                if let Some(new) = used {
                    mem::swap(&mut file, &mut spare);
                    length = new;
                }
            }
            Next::Full => flush(rt, &mut answers, first),
            Next::More => {
                read_on(&mut pieces, &mut input);
                if input.end == 0 {
                    break;
                }
            }
        }
    }
    flush(rt, &mut answers, first);
}
