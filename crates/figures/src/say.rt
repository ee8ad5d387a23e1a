// What is printed, and where: metres with one decimal place, lists of numbers, and the output.
ghost use Rattle.std.specs.Iterator.{IsFinite};

use std::fmt::{self, Display, Formatter, Write};
use std::io;

// The output, of which a write that fails loses only what it was to write, one piece of a text or one number: what
// comes after it is tried. So every call answers `Ok`.
#[derive(Drop)]
pub(crate) struct Output<'a, R>(pub(crate) &'a R);

impl<R: Print> Write for Output<'_, R> {
    // Writes a piece of text, if the output takes it.
    fn write_str(&mut self, piece: &str) -> fmt::Result {
        let _ = self.0.write_all(piece.as_bytes());
        Ok(())
    }
}

impl<R: Print> Print for Output<'_, R> {
    // Writes the value piece by piece, as far as the output takes them.
    fn print<D: Display + Drop>(&self, value: D) -> io::Result<()> {
        let _ = write!(Output(self.0), "{value}");
        Ok(())
    }

    // Writes the value and a line feed piece by piece, as far as the output takes them.
    fn println<D: Display + Drop>(&self, value: D) -> io::Result<()> {
        let _ = writeln!(Output(self.0), "{value}");
        Ok(())
    }

    // Writes the bytes, if the output takes them.
    fn write_all(&self, bytes: &[u8]) -> io::Result<()> {
        let _ = self.0.write_all(bytes);
        Ok(())
    }
}

// Metres that are expected to be `tenths` / 10, printed with one decimal place; a question mark where they
// are not.
#[derive(Clone, Copy)]
pub(crate) struct Tenths {
    pub(crate) tenths: u32,
    pub(crate) metres: f64,
}

impl Display for Tenths {
    // Writes the metres or the question mark, and their unit.
    fn fmt<W: fmt::Write>(&self, f: &mut Formatter<W>) -> fmt::Result {
        let tenths = self.tenths;
        if f64::from(tenths) / 10.0 == self.metres {
            write!(f, "{}.{} m", tenths / 10, tenths % 10)
        } else {
            write!(f, "? m")
        }
    }
}

// Prints the numbers, with commas between them.
pub(crate) fn list<I: Iterator<Item = u32> + Drop>(
    rt: &impl Print,
    mut numbers: I,
) -> io::Result<()>
    requires can { I.can_next numbers }
    requires finite { IsFinite (I.remaining numbers) }
{
    let Some(first) = numbers.next() else {
        return Ok(());
    };
    print!(rt; "{first}")?;
    for number in numbers {
        print!(rt; ", {number}")?;
    }
    Ok(())
}
