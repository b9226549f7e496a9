// Parts of lines, and the lines that are alike.
use crate::Player;
use crate::input::MOST;
use refusal::Refused;
use std::io::Read;
use std::{fmt, io};

// Bytes, two digits each.
#[derive(Clone, Copy)]
pub(crate) struct Hex<'a>(pub(crate) &'a [u8]);

impl fmt::Display for Hex<'_> {
    fn fmt<W: fmt::Write>(&self, f: &mut fmt::Formatter<W>) -> fmt::Result {
        for b in self.0 {
            write!(f, "{b:02x}")?;
        }
        Ok(())
    }
}

// 32-bit FNV-1a of bytes.
fn sum(bytes: &[u8]) -> u32 {
    bytes.iter().fold(
        2166136261,
        |h, b| (h ^ u32::from(*b)).wrapping_mul(16777619),
    )
}

// A room after a call that wrote n bytes: these, `-` where that is no byte, and the sum of the whole room.
#[derive(Clone, Copy)]
pub(crate) struct Room<'a> {
    pub(crate) bytes: &'a [u8],
    pub(crate) written: usize,
}

impl fmt::Display for Room<'_> {
    fn fmt<W: fmt::Write>(&self, f: &mut fmt::Formatter<W>) -> fmt::Result {
        if self.written == 0 {
            write!(f, "-")?;
        } else {
            write!(f, "{}", Hex(octets::part(self.bytes, 0, self.written)))?;
        }
        write!(f, " {:08x}", sum(self.bytes))
    }
}

// How each answer begins: with the number, and the blocks counted.
#[derive(Clone, Copy)]
pub(crate) struct Said(pub(crate) Result<usize, Refused>);

impl fmt::Display for Said {
    fn fmt<W: fmt::Write>(&self, f: &mut fmt::Formatter<W>) -> fmt::Result {
        match self.0 {
            Ok(blocks) => write!(f, "0 {blocks}"),
            Err(Refused { why, blocks }) => write!(f, "{} {blocks}", why.number()),
        }
    }
}

impl<R: Read + Drop, P: Print + Drop> Player<R, P> {
    // The line of a call that answers number and blocks alone, and writes n bytes where it is accepted.
    pub(crate) fn answer(
        &self,
        name: &str,
        said: Result<usize, Refused>,
        bytes: &[u8],
        n: usize,
    ) -> io::Result<()> {
        let written = if said.is_ok() { n } else { 0 };
        println!(self.to; "{name} {} {}", Said(said), Room { bytes, written })
    }

    // A note's text, as a line.
    pub(crate) fn note(&mut self) -> io::Result<()> {
        let mut buffer = [0; MOST];
        let text = self.string(&mut buffer);
        self.to.write_all(b"# ")?;
        self.to.write_all(text)?;
        self.to.write_all(b"\n")
    }
}
