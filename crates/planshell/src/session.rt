// A session: reads pieces of input, has their lines answered, and writes the answers before it reads on, so
// that a person at a terminal sees each answer as the line is ended, and a pipe is not written answer by
// answer.
ghost use Rattle.std.specs.Prelude.{◌≤◌, length, IfSome};
ghost use Rattle.shell.specs.Inside.{HasRead, Waits};

use crate::folder::Folder;
use shell::answer::{Answer, Answers};
use shell::command::{FileName, MOST_BYTES, Shell};
use shell::feed::{Input, Next, PIECE};
use shell::{answer, feed};
use std::io::Read;
use std::rt::Files;
use std::{io, mem};

// The room for a file: one byte more than 60 records, by which a longer one is known.
const FILE: usize = MOST_BYTES + 1;

// Writes the answers that wait.
fn flush(rt: &impl Print, answers: &mut Answers) -> io::Result<()>
    requires { Waits answers.old }
    ensures { Waits answers.new }
{
    let written = rt.write_all(&answers.bytes[..answers.filled]);
    answers.filled = 0;
    written
}

// Answers a `use`: the file of the name is loaded into the room and checked. Gives its length where it
// passed, and so is in use from now on.
fn use_file(
    rt: &impl Files,
    folder: &mut Folder,
    name: FileName,
    room: &mut [u8],
    shell: &mut Shell,
    answers: &mut Answers,
) -> Option<usize>
    requires { Waits answers.old × (answers.old.filled ≤ 65519) }
    ensures waits { Waits answers.new }
    ensures in_room { IfSome result (λ n. n ≤ length room.old) }
{
    let loaded = folder.load(rt, name, room).ok();
    let used = shell.on_use(loaded.map(|length| &room[..length]), name);
    answers.say(used.unwrap_or_else(Answer::from));
    if used.is_ok() { loaded } else { None }
}

// Reads a piece of input after what is left of a line, and says whether there was one; where there was none,
// the input has ended, and so is the line.
fn read_on(reader: &mut impl Read, input: &mut Input) -> io::Result<bool>
    requires { HasRead input.old }
    ensures { HasRead input.new }
{
    input.keep();
    let more = reader.read(&mut input.bytes[input.end..])?;
    if more == 0 {
        input.end_kept();
        return Ok(false);
    }
    input.end += more;
    Ok(true)
}

// Writes the answers that wait, and reads on where the input has not ended, which is kept in `ended`. Says whether
// there are bytes to go on with.
fn go_on(
    rt: &impl Print,
    reader: &mut impl Read,
    input: &mut Input,
    answers: &mut Answers,
    ended: &mut bool,
) -> io::Result<bool>
    requires { HasRead input.old × Waits answers.old }
    ensures { HasRead input.new × Waits answers.new }
{
    flush(rt, answers)?;
    if *ended {
        return Ok(false);
    }
    *ended = !read_on(reader, input)?;
    Ok(0 < input.end)
}

// The input of which nothing is read yet.
fn no_input() -> Input
    ensures { HasRead result }
{
    Input {
        bytes: [0; PIECE],
        at: 0,
        end: 0,
    }
}

// Answers the lines of the input until it ends, a read fails or the output is closed. No session uses up the
// turns.
pub(crate) fn serve<R: Files + Print>(
    rt: &R,
    reader: &mut impl Read,
    folder: &mut Folder,
) -> io::Result<()> {
    let mut shell = Shell::start();
    let mut answers = Answers {
        bytes: [0; answer::ROOM],
        filled: 0,
    };
    let mut input = no_input();
    let mut first = [0u8; FILE];
    let mut second = [0u8; FILE];
    let mut file = &mut first;
    let mut spare = &mut second;
    let mut length = 0;
    let mut ended = false;
    for _ in 0..u64::MAX {
        let lines = &input.bytes[..input.end];
        let step = feed::answer_lines(lines, input.at, &mut shell, &file[..length], &mut answers);
        input.at = step.at;
        match step.next {
            Next::Use(name) => {
                let used = use_file(rt, folder, name, &mut spare[..], &mut shell, &mut answers);
                if let Some(new) = used {
                    mem::swap(&mut file, &mut spare);
                    length = new;
                }
            }
            Next::Full => flush(rt, &mut answers)?,
            Next::More => {
                if !go_on(rt, reader, &mut input, &mut answers, &mut ended)? {
                    break;
                }
            }
        }
    }
    Ok(())
}
