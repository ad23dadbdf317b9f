// What every comparison works with, and how one text is compared.
use crate::dice::Dice;
use crate::product;
use crate::tally::{Tally, count};
use oracle_tests::text;
use std::{fmt, io};

// Differences that are printed in full.
const SHOWN: u64 = 5;

#[derive(Drop)]
pub struct Comparison {
    pub rt: HostRuntime,
    pub dice: Dice,
    pub tally: Tally,
}

// Bytes as text: what is no printable character or line feed is written by its number.
#[derive(Clone, Copy)]
struct Legible<'a>(&'a [u8]);

impl fmt::Display for Legible<'_> {
    fn fmt<W: fmt::Write>(&self, f: &mut fmt::Formatter<W>) -> fmt::Result {
        for byte in self.0 {
            match *byte {
                b'\n' | b' '..=b'~' => write!(f, "{}", char::from(*byte))?,
                number => write!(f, "<{number}>")?,
            }
        }
        Ok(())
    }
}

impl Comparison {
    // Counts a difference, and prints the first ones: the input and both outputs.
    pub fn differ(&mut self, input: &[u8], product: &[u8], oracle: &[u8]) -> io::Result<()> {
        count(&mut self.tally.differences);
        if self.tally.differences > SHOWN {
            return Ok(());
        }
        println!(self.rt;
            "difference:\n{}product:\n{}oracle:\n{}",
            Legible(input),
            Legible(product),
            Legible(oracle)
        )
    }

    // Both analysers print the same of this text; and it is this, where the bytes are given.
    fn prints_of(&mut self, input: &[u8], wanted: Option<&str>) -> io::Result<()> {
        let alloc = self.rt.alloc();
        let oracle = text::printed(alloc, input)?;
        let product = product::printed(alloc, input, product::ROOM)?;
        self.tally.count_text(oracle.as_str())?;
        let same = product.as_slice() == oracle.as_bytes();
        if !same || wanted.is_some_and(|wanted| wanted != oracle.as_str()) {
            self.differ(input, product.as_slice(), oracle.as_bytes())?;
        }
        Ok(())
    }

    // Compares what is printed of a text.
    pub fn compare_text(&mut self, input: &[u8]) -> io::Result<()> {
        self.prints_of(input, None)
    }

    // Compares what is printed of a text, with what is to be printed of it.
    pub fn prints(&mut self, input: &[u8], wanted: &str) -> io::Result<()> {
        self.prints_of(input, Some(wanted))
    }

    // Compares what is printed into a buffer of just the length of the bytes, and into one that is a byte shorter.
    pub fn compare_room(&mut self, input: &[u8]) -> io::Result<()> {
        let alloc = self.rt.alloc();
        let whole = product::printed(alloc, input, product::ROOM)?;
        let exact = product::printed(alloc, input, whole.len())?;
        count(&mut self.tally.short_buffers);
        if exact != whole || !product::refuses_short(alloc, input, whole.len())? {
            let why = b"a buffer too short, or just long enough\n";
            self.differ(input, exact.as_slice(), why)?;
        }
        Ok(())
    }
}
