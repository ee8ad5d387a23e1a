// The words of a line: names and numbers. Each has its own loop: one for both would take the test of a character, the
// base, the type and the most characters as parameters.
ghost use Rattle.std.specs.Prelude.{◌≡◌, drop};
ghost use Rattle.lines.specs.Line.{name, number, spaced_number};
ghost use Rattle.lines.specs.Inside.{figure, byte_from, word_from, number_from, names_from, both_names};

use crate::text::byte_at;

// The base of keys: the characters of a name are the digits 1 to 37.
const CHARACTERS: u64 = 38;

// The last digit of a capital, Z.
const LAST_CAPITAL: u64 = 26;

// The most characters of a name after the first.
const MORE_CHARACTERS: usize = 11;

// The most digits of a number after the first.
const MORE_DIGITS: usize = 6;

// What some bytes say, and the place after them.
#[derive(Clone, Copy)]
pub struct Token<T> {
    pub value: T,
    pub at: usize,
}

// A character of a name as a digit of its key: 1 to 26 for capitals, 27 to 36 for digits, 37 for a
// hyphen; none for any other byte.
#[tactic(auto, unfolding(crate::specs::Key::letter))]
fn figure(b: u8) -> Option<u64>
    ensures { result ≡ figure b }
{
    if b.is_ascii_uppercase() {
        Some((b - 64) as u64)
    } else if b.is_ascii_digit() {
        Some((b - 21) as u64)
    } else if b == b'-' {
        Some(37)
    } else {
        None
    }
}

// How far the byte at a place is above the first of some, of which it is one; or the place, where it is none.
pub(crate) fn read_byte(s: &[u8], at: usize, first: u8, last: u8) -> Result<u32, usize>
    ensures { result ≡ byte_from s.now at first last }
{
    let b = byte_at(s, at);
    if (first..=last).contains(&b) {
        Ok((b - first) as u32)
    } else {
        Err(at)
    }
}

// The NAME at a place.
pub(crate) fn read_name(s: &[u8], from: usize) -> Result<Token<u64>, usize>
    ensures { result ≡ word_from from (name (drop from s.now)) }
{
    let Some(first) = figure(byte_at(s, from)) else {
        return Err(from);
    };
    if LAST_CAPITAL < first {
        return Err(from);
    }
    let mut key = first;
    let end = s.len().min(from + 1 + MORE_CHARACTERS);
    for at in from + 1..end {
        let Some(next) = figure(byte_at(s, at)) else {
            return Ok(Token { value: key, at });
        };
        key = CHARACTERS * key + next;
    }
    Ok(Token {
        value: key,
        at: end,
    })
}

// The number at a place.
pub(crate) fn read_number(s: &[u8], from: usize) -> Result<Token<u32>, usize>
    ensures { result ≡ number_from from (number (drop from s.now)) }
{
    let first = read_byte(s, from, b'0', b'9')?;
    let more = if first == 0 { 0 } else { MORE_DIGITS };
    let mut value = first;
    let end = s.len().min(from + 1 + more);
    for at in from + 1..end {
        let Ok(next) = read_byte(s, at, b'0', b'9') else {
            return Ok(Token { value, at });
        };
        value = 10 * value + next;
    }
    Ok(Token { value, at: end })
}

// The number after a space at a place.
#[tactic(auto, using(crate::proofs::Laws::Steps::spaced_steps))]
pub(crate) fn read_spaced_number(s: &[u8], from: usize) -> Result<Token<u32>, usize>
    ensures { result ≡ number_from from (spaced_number (drop from s.now)) }
{
    if byte_at(s, from) != b' ' {
        return Err(from);
    }
    read_number(s, from + 1)
}

// The two names at a place, with a space between them.
#[inline(always)]
#[tactic(auto, using(crate::proofs::Laws::Steps::names_steps))]
pub(crate) fn read_two_names(s: &[u8], from: usize) -> Result<Token<(u64, u64)>, usize>
    ensures { result ≡ names_from from (both_names (drop from s.now)) }
{
    let first = read_name(s, from)?;
    if byte_at(s, first.at) != b' ' {
        return Err(first.at);
    }
    let second = read_name(s, first.at + 1)?;
    Ok(Token {
        value: (first.value, second.value),
        at: second.at,
    })
}
