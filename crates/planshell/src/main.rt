// The plan shell as a program: lines from standard input, answers to standard output, terrain files from
// the folder that its first argument names, or from the one that it is run in.
#![tactic(auto)]

ghost use Rattle.std.specs.Prelude.{◌≡◌, ◌≤◌, length, IfSome};

mod folder;
mod help;
mod session;

use folder::Folder;
use std::env::{Env, FillError};

// Puts an argument at the start of the buffer and gives its length, 0 where it is longer than the buffer, since it
// is complained of as the empty one is; `None` where there is no such argument.
fn argument(rt: &impl Env, i: usize, buf: &mut [u8]) -> Option<usize>
    ensures bound { IfSome result (λ n. n ≤ length buf.new) }
    ensures room { length buf.new ≡ length buf.old }
{
    match rt.arg(i, buf) {
        Ok(length) => Some(length),
        Err(FillError::TooLong) => Some(0),
        Err(FillError::NotPresent) => None,
    }
}

// Whether there is such an argument.
fn is_given(rt: &impl Env, i: usize) -> bool {
    let mut first = [0u8; 1];
    argument(rt, i, &mut first).is_some()
}

// Runs a session; or shows the help; or says on standard error what is wrong with the arguments.
fn main(rt: HostRuntime) {
    let mut room = [0u8; folder::PATH];
    let mut folder = Folder::here();
    if let Some(length) = argument(&rt, 1, &mut room) {
        let name = &room[..length];
        if help::is_asked(name) {
            help::show(&rt);
            return;
        }
        if is_given(&rt, 2) {
            help::complain_of_more(&rt.stderr());
            return;
        }
        let Some(named) = Folder::find(&rt, name) else {
            help::complain(&rt.stderr(), name);
            return;
        };
        folder = named;
    }
    let _ = session::serve(&rt, &mut rt.stdin(), &mut folder);
}
