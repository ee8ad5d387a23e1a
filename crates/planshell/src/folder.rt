// The folder of the terrain files, and the files in it.
ghost use Rattle.std.specs.Prelude.{◌+◌, ◌≤◌, length as list_length, IfOk};

use shell::command::FileName;
use std::io::Read;
use std::rt::Files;
use std::{fs, io, str};

// The room for a path.
pub const PATH: usize = 4096;

// The longest name of a folder, so that a slash and a file's name fit after it in a path.
pub const LONGEST: usize = 4080;

// A folder of terrain files: its path and a slash, or nothing of the folder that the program is run in, and
// room after them for a file's name.
#[derive(Drop)]
pub(crate) struct Folder {
    path: [u8; PATH],
    start: usize,
    ghost room: { start + 4 ≤ list_length path },
}

// The error of a name that no file can have.
fn no_name() -> io::Error {
    io::Error::from(io::ErrorKind::InvalidFilename)
}

// Opens a file or a folder for reading. Its path is text in UTF-8, as the standard library takes no other.
fn open<R: Files>(rt: &R, path: &[u8]) -> io::Result<R::File> {
    match str::from_utf8(path) {
        Ok(text) => fs::open(rt, text),
        Err(_) => Err(no_name()),
    }
}

// Reads a file to its end, or until the room is full, and gives how many bytes were read. A file that fills
// the room may have more. A read gives as many bytes as it likes, and the library's `read_to_end` wants a heap.
fn read_file(file: &mut impl Read, room: &mut [u8]) -> io::Result<usize>
    ensures { IfOk result (λ n. n ≤ list_length room.old) }
{
    let mut length = 0;
    while length < room.len() {
        let more = file.read(&mut room[length..])?;
        if more == 0 {
            break;
        }
        length += more;
    }
    Ok(length)
}

impl Folder {
    // The folder that the program is run in.
    pub(crate) fn here() -> Self {
        Folder {
            path: [0; PATH],
            start: 0,
        }
    }

    // The folder of this path, where there is one.
    pub(crate) fn find(rt: &impl Files, name: &[u8]) -> Option<Self> {
        let length = name.len();
        if (length == 0) | (LONGEST < length) {
            return None;
        }
        let mut path = [0; PATH];
        path[..length].copy_from_slice(name);
        path[length..length + 2].copy_from_slice(b"/.");
        open(rt, &path[..length + 2]).ok()?;
        Some(Folder {
            path,
            start: length + 1,
        })
    }

    // Loads the file of a name into the room, and gives how many bytes were read.
    pub(crate) fn load(
        &mut self,
        rt: &impl Files,
        name: FileName,
        room: &mut [u8],
    ) -> io::Result<usize>
        ensures { IfOk result (λ n. n ≤ list_length room.old) }
    {
        let file_name = ground::name::file_name(name.base, name.zone).map_err(|_| no_name())?;
        let end = self.start + 4;
        self.path[self.start..end].copy_from_slice(&file_name);
        let mut file = open(rt, &self.path[..end])?;
        read_file(&mut file, room)
    }
}
