// The lines of the plan shell: what a line says, or the column at which it goes wrong. Each part is read from the
// input and the place at which it begins, which is where the one before it ended.
#![tactic(auto)]

ghost use Rattle.std.specs.Prelude.{◌≡◌, drop};
ghost use Rattle.lines.specs.Line.{use_rest, site_rest, path_rest, masts_rest, command};
ghost use Rattle.lines.specs.Inside.{said_from, ended_from, ReadsLine};

use text::{LINE_FEED, after_word, byte_at};
use word::{Token, read_byte, read_name, read_spaced_number, read_two_names};

pub mod text;
mod word;

// What a line says: a command, each name as its key.
#[derive(Clone, Copy)]
pub enum Line {
    Use(u32, u32),
    Site(u64, u32, u32),
    Path(u64, u64),
    Masts(u64, u64, u32, u32),
}

// What a line says, or the column, from 1, at which it is bad; and a place in it: the end of its command, or
// where it is bad.
#[derive(Clone, Copy)]
pub struct Read {
    pub line: Result<Line, usize>,
    pub at: usize,
}

// The command that goes on with the NAME4 at a place, after `use `.
#[tactic(auto, using(crate::proofs::Laws::Steps::use_steps))]
fn read_use(s: &[u8], from: usize) -> Result<Token<Line>, usize>
    ensures { result ≡ said_from from (use_rest (drop from s.now)) }
{
    if byte_at(s, from) != b'N' {
        return Err(from);
    }
    let letter = read_byte(s, from + 1, b'A', b'U')?;
    let tens = read_byte(s, from + 2, b'0', b'6')?;
    let units = read_byte(s, from + 3, b'0', b'9')?;
    match 10 * tens + units {
        zone @ 1..=60 => Ok(Token {
            value: Line::Use(4 * letter, zone),
            at: from + 4,
        }),
        _ => Err(from + 3),
    }
}

// The command that goes on with a name and two numbers at a place, after `site `.
#[tactic(auto, using(crate::proofs::Laws::Steps::site_steps))]
fn read_site(s: &[u8], from: usize) -> Result<Token<Line>, usize>
    ensures { result ≡ said_from from (site_rest (drop from s.now)) }
{
    let name = read_name(s, from)?;
    let easting = read_spaced_number(s, name.at)?;
    let northing = read_spaced_number(s, easting.at)?;
    Ok(Token {
        value: Line::Site(name.value, easting.value, northing.value),
        at: northing.at,
    })
}

// The command that goes on with two names at a place, after `path `.
#[tactic(auto, using(crate::proofs::Laws::Steps::path_steps))]
fn read_path(s: &[u8], from: usize) -> Result<Token<Line>, usize>
    ensures { result ≡ said_from from (path_rest (drop from s.now)) }
{
    let names = read_two_names(s, from)?;
    let (first, second) = names.value;
    Ok(Token {
        value: Line::Path(first, second),
        at: names.at,
    })
}

// The command that goes on with two names and two numbers at a place, after `masts `.
#[tactic(auto, using(crate::proofs::Laws::Steps::masts_steps))]
fn read_masts(s: &[u8], from: usize) -> Result<Token<Line>, usize>
    ensures { result ≡ said_from from (masts_rest (drop from s.now)) }
{
    let names = read_two_names(s, from)?;
    let (first, second) = names.value;
    let a = read_spaced_number(s, names.at)?;
    let b = read_spaced_number(s, a.at)?;
    Ok(Token {
        value: Line::Masts(first, second, a.value, b.value),
        at: b.at,
    })
}

// The command at a place, told by its first byte.
#[tactic(auto, using(crate::proofs::Laws::Steps::command_steps))]
fn read_command(s: &[u8], from: usize) -> Result<Token<Line>, usize>
    ensures { result ≡ said_from from (command (drop from s.now)) }
{
    match byte_at(s, from) {
        b'u' => read_use(s, after_word(s, from + 1, b"se ")?),
        b's' => read_site(s, after_word(s, from + 1, b"ite ")?),
        b'p' => read_path(s, after_word(s, from + 1, b"ath ")?),
        b'm' => read_masts(s, after_word(s, from + 1, b"asts ")?),
        _ => Err(from),
    }
}

// The command at a place, where its line ends after it; or the place of the first byte that is not right.
fn read_whole(s: &[u8], from: usize) -> Result<Token<Line>, usize>
    ensures { result ≡ ended_from s.now (said_from from (command (drop from s.now))) }
{
    let said = read_command(s, from)?;
    if byte_at(s, said.at) != LINE_FEED {
        return Err(said.at);
    }
    Ok(said)
}

// What the line at a place says, and a place in it: the end of its command, or where it is bad.
pub fn read_line(s: &[u8], from: usize) -> Read
    ensures { ReadsLine s.now from result }
{
    match read_whole(s, from) {
        Ok(Token { value, at }) => Read {
            line: Ok(value),
            at,
        },
        Err(at) => Read {
            line: Err(at - from + 1),
            at,
        },
    }
}
