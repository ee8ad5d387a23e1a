// Answers the lines of its standard input through the libraries of the plan shell, over terrain files that
// it builds: first as one piece, then in pieces of 1 to 7 bytes with little room for answers. It prints both
// lots of answers, which are the same, so that a wrong program of those libraries is seen by what it answers.
#![tactic(auto)]

ghost use Rattle.std.specs.Prelude.{◌≤◌, length};

mod file;
mod session;

use session::MOST_TEXT;
use shell::answer;
use std::io::Read;

// The bytes left for answers in the second session: three of the longest, and some more.
const LITTLE: usize = 60;

// Reads until the room is full, the input ends or a read fails, and gives how many bytes were read. A read gives as
// many bytes as it likes, and the library's `read_to_end` wants a heap.
fn read_full(input: &mut impl Read, room: &mut [u8]) -> usize
    ensures { result ≤ length room.new }
{
    let mut length = 0;
    while length < room.len() {
        let Ok(more) = input.read(&mut room[length..]) else {
            break;
        };
        if more == 0 {
            break;
        }
        length += more;
    }
    length
}

// Prints the answers of both sessions, with a line between them.
fn main(rt: HostRuntime) {
    let mut room = [0u8; MOST_TEXT];
    let count = read_full(&mut rt.stdin(), &mut room);
    let text = &room[..count];
    session::run(&rt, text, MOST_TEXT, 0);
    let _ = rt.write_all(b"--\n");
    session::run(&rt, text, 1, answer::ROOM - LITTLE);
}
