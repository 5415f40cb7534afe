// The texts of full sheets, and whether a text is what a value prints.
use std::fmt;
use std::fmt::Write;

// What is left of a text once what is written to it was found at its start.
#[derive(Drop)]
struct Unread<'a> {
    text: &'a [u8],
}

impl<'a> fmt::Write for Unread<'a> {
    fn write_str(&mut self, s: &str) -> fmt::Result {
        self.text = self.text.strip_prefix(s.as_bytes()).ok_or(fmt::Error)?;
        Ok(())
    }
}

// Whether a text is what a value prints.
pub fn is_printed(text: &[u8], expected: &(impl fmt::Display)) -> bool {
    let mut unread = Unread { text };
    write!(unread, "{expected}").is_ok() && unread.text.is_empty()
}

// The listing of the longest sheet, in which the lower and the upper half of the units are on in turns.
#[derive(Clone, Copy)]
pub struct Halves;

impl fmt::Display for Halves {
    fn fmt<W: fmt::Write>(&self, f: &mut fmt::Formatter<W>) -> fmt::Result {
        writeln!(f, "units 64 steps 256 bound 65535")?;
        for step in 1..=256 {
            let set = if step % 2 == 1 {
                u64::MAX >> 32
            } else {
                u64::MAX << 32
            };
            writeln!(f, "{step} {set:016x} 32")?;
        }
        writeln!(f, "total 8192")
    }
}

// The listing of the sizes of the longest sheet, with the least and the greatest size of its steps in turns.
#[derive(Clone, Copy)]
pub struct InTurns {
    pub odd: (u8, u8),
    pub even: (u8, u8),
}

impl fmt::Display for InTurns {
    fn fmt<W: fmt::Write>(&self, f: &mut fmt::Formatter<W>) -> fmt::Result {
        for step in 1..=256 {
            let (least, greatest) = if step % 2 == 1 { self.odd } else { self.even };
            writeln!(f, "{step} {least} {greatest}")?;
        }
        Ok(())
    }
}
