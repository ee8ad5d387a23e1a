// The bytes of an input, of which a line ends at a line feed or at the end of the bytes.
ghost use Rattle.std.specs.Prelude.{◌≡◌, ◌+◌, ◌≤◌, ◌<◌, length, drop, get_or};
ghost use Rattle.lines.specs.Line.{text};
ghost use Rattle.lines.specs.Text.{line_at};
ghost use Rattle.lines.specs.Inside.{text_from};

// A line feed, which no command has in it.
pub const LINE_FEED: u8 = b'\n';

// The byte at a place, and a line feed past the end: both end a line.
pub(crate) fn byte_at(s: &[u8], at: usize) -> u8
    ensures { result ≡ get_or s.now at 10 }
{
    s.get(at).copied().unwrap_or(LINE_FEED)
}

// The place after the bytes of the word, where they stand at a place; or the place of the first that
// does not.
pub(crate) fn after_word(s: &[u8], from: usize, word: &[u8]) -> Result<usize, usize>
    ensures { result ≡ text_from from (text word.now (drop from s.now)) }
{
    for (i, expected) in word.iter().enumerate() {
        match s.get(from + i) {
            Some(byte) if byte == expected => {}
            _ => return Err(from + i),
        }
    }
    Ok(from + word.len())
}

// The place of the line feed that ends the line at a place, or the end of the bytes. Four bytes are looked at
// in a turn, as long as there are so many: lines are short, and a search by `memchr` takes longer to begin.
pub fn line_end(s: &[u8], from: usize) -> usize
    ensures { result ≡ from + length (line_at s.now from) }
{
    let fours = s.len().saturating_sub(from) / 4;
    for i in 0..fours {
        let at = from + 4 * i;
        if s[at] == LINE_FEED {
            return at;
        }
        if s[at + 1] == LINE_FEED {
            return at + 1;
        }
        if s[at + 2] == LINE_FEED {
            return at + 2;
        }
        if s[at + 3] == LINE_FEED {
            return at + 3;
        }
    }
    last_end(s, from + 4 * fours)
}

// The place of the line feed that ends the line at a place, or the end of the bytes, one byte in a turn.
fn last_end(s: &[u8], from: usize) -> usize
    ensures { result ≡ from + length (line_at s.now from) }
{
    for at in from..s.len() {
        if s[at] == LINE_FEED {
            return at;
        }
    }
    s.len().max(from)
}
