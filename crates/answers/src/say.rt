// What is printed, and where: rows of numbers, numbers that stand for metres and shares, and the output.
use std::fmt::{self, Display, Formatter, Write};
use std::io;

// The output, of which a write that fails loses only what it was to write, one piece of a text or one number: what
// comes after it is tried. So every call answers `Ok`.
#[derive(Drop)]
pub(crate) struct Output<'a, R>(pub(crate) &'a R);

impl<R: Print> Write for Output<'_, R> {
    // Writes a piece of text, if the output takes it.
    fn write_str(&mut self, piece: &str) -> fmt::Result {
        let _ = self.0.write_all(piece.as_bytes());
        Ok(())
    }
}

impl<R: Print> Print for Output<'_, R> {
    // Writes the value piece by piece, as far as the output takes them.
    fn print<D: Display + Drop>(&self, value: D) -> io::Result<()> {
        let _ = write!(Output(self.0), "{value}");
        Ok(())
    }

    // Writes the value and a line feed piece by piece, as far as the output takes them.
    fn println<D: Display + Drop>(&self, value: D) -> io::Result<()> {
        let _ = writeln!(Output(self.0), "{value}");
        Ok(())
    }

    // Writes the bytes, if the output takes them.
    fn write_all(&self, bytes: &[u8]) -> io::Result<()> {
        let _ = self.0.write_all(bytes);
        Ok(())
    }
}

// Numbers in a row, printed with a space before each.
#[derive(Drop)]
pub(crate) struct Numbers<'a, T>(pub(crate) &'a [T]);

impl<T: Display> Display for Numbers<'_, T> {
    // Writes a space and a number, for each number.
    fn fmt<W: fmt::Write>(&self, f: &mut Formatter<W>) -> fmt::Result {
        for number in self.0 {
            write!(f, " {number}")?;
        }
        Ok(())
    }
}

// The number that metres or a share were expected to stand for; none where they are others.
#[derive(Clone, Copy)]
pub(crate) struct Expected(Option<u32>);

impl Expected {
    // What is printed where there is none: no height and no sample has it.
    const OTHER: u32 = 999999;

    // `tenths` where the metres are exactly tenths / 10.
    pub(crate) fn tenths(metres: f64, tenths: u32) -> Self {
        Expected((f64::from(tenths) / 10.0 == metres).then_some(tenths))
    }

    // n times the share: 0 where the share is 0, and i where it is i / n rounded once.
    pub(crate) fn sample(share: f64, i: u32, n: u32) -> Self {
        if share == 0.0 {
            Expected(Some(0))
        } else {
            Expected((f64::from(i) / f64::from(n) == share).then_some(i))
        }
    }
}

impl Display for Expected {
    // Writes the number, or the one that stands for none.
    fn fmt<W: fmt::Write>(&self, f: &mut Formatter<W>) -> fmt::Result {
        write!(f, "{}", self.0.unwrap_or(Expected::OTHER))
    }
}
