// Damaged texts: one place of a good text is made wrong.
use crate::dice::Dice;
use crate::sheet::{NodeLine, Sheet};
use oracle_tests::node::Letter;
use std::alloc::{AllocError, Global};
use std::fmt;

// The lines of a text, without their line feeds.
// No one type with `Fields`: a line feed ends each line, a comma only parts fields, and they are damaged in other ways.
#[derive(Drop)]
pub struct Lines {
    alloc: Global,
    lines: Vec<Vec<u8>>,
}

// Pieces one after the other, with this byte behind each.
fn joined(alloc: Global, pieces: &[Vec<u8>], mark: u8) -> Result<Vec<u8>, AllocError> {
    let mut bytes = Vec::new(alloc);
    for piece in pieces {
        bytes.extend_from_slice(piece.as_slice())?;
        bytes.push(mark)?;
    }
    Ok(bytes)
}

// The fields of a line.
#[derive(Drop)]
struct Fields {
    alloc: Global,
    fields: Vec<Vec<u8>>,
}

fn bytes_of<T: fmt::Display>(alloc: Global, written: &T) -> Result<Vec<u8>, AllocError> {
    Ok(format!(in alloc; "{written}")?.into_bytes())
}

// A number that is out of range in some field, or at the edge of its range.
fn odd_number(dice: &mut Dice, near: bool) -> u64 {
    if near || dice.percent(70) {
        dice.of(&[0, 1, 8, 9, 255, 256, 1_000_001, 9_999_999])
    } else {
        dice.of(&[65_535, 65_536, 1_000_000])
    }
}

// Words that are no number and no letter.
const ODD_WORDS: [&[u8]; 20] = [
    b"e",
    b"p",
    b"EE",
    b"X",
    b"E ",
    b"+1",
    b"-1",
    b"1.0",
    b"00",
    b"0000001",
    b"12345678",
    b"10000000",
    b"1 ",
    b" 1",
    b"1\r",
    b"\x00",
    b"\xff",
    b"/",
    b":",
    b"1e3",
];

// Words in place of the kind of a line.
const ODD_KINDS: [&[u8]; 10] = [
    b"nodes", b"Chain", b"ste", b" step", b"", b"node", b"chain", b"step", b"chain ", b"#",
];

// The field with a zero in front, or eight digits long.
fn odd_digits(alloc: Global, dice: &mut Dice, field: &[u8]) -> Result<Vec<u8>, AllocError> {
    if !dice.percent(60) {
        return bytes_of(alloc, &dice.between(10_000_000, 99_999_999));
    }
    let mut longer = b"0".to_vec(alloc)?;
    longer.extend_from_slice(field)?;
    Ok(longer)
}

impl Fields {
    fn of(alloc: Global, line: &[u8]) -> Result<Fields, AllocError> {
        let fields = line
            .split(|byte| *byte == b',')
            .map(|field| field.to_vec(alloc))
            .try_collect(alloc)?;
        Ok(Fields { alloc, fields })
    }

    // Another field in place of the one that stands here, if one does.
    fn change_at<F: FnOnce(&[u8]) -> Result<Vec<u8>, AllocError>>(
        &mut self,
        at: usize,
        other: F,
    ) -> Result<(), AllocError>
        requires { F.IsAlwaysCallable other }
    {
        if let Some(field) = self.fields.get_mut(at) {
            *field = other(field.as_slice())?;
        }
        Ok(())
    }

    // Another field in place of one of these.
    fn change_one(&mut self, dice: &mut Dice) -> Result<(), AllocError> {
        let alloc = self.alloc;
        let last = (self.fields.len() as u64).saturating_sub(1);
        let at = dice.between(1, last) as usize;
        match dice.below(10) {
            0 => self.change_at(0, |_| dice.of(&ODD_KINDS).to_vec(alloc)),
            1 | 2 => self.change_at(at, |_| Ok(Vec::new(alloc))),
            3 | 4 => self.change_at(at, |field| odd_digits(alloc, dice, field)),
            5 | 6 => self.change_at(at, |_| dice.of(&ODD_WORDS).to_vec(alloc)),
            // an end-to-end deadline stays near, so that busy periods do
            _ => self.change_at(at, |_| bytes_of(alloc, &odd_number(dice, at == 3))),
        }
    }

    // A field too many or too few.
    fn change_count(&mut self, dice: &mut Dice) -> Result<(), AllocError> {
        if dice.percent(50) {
            let _ = self.fields.pop();
        } else {
            let more = bytes_of(self.alloc, &odd_number(dice, false))?;
            self.fields.push(more)?;
        }
        Ok(())
    }

    fn line(&self) -> Result<Vec<u8>, AllocError> {
        let mut line = joined(self.alloc, self.fields.as_slice(), b',')?;
        // fields are parted by commas, and no comma stands behind the last
        let _ = line.pop();
        Ok(line)
    }
}

// A line that some text could have.
fn some_line(alloc: Global, dice: &mut Dice) -> Result<Vec<u8>, AllocError> {
    let letter = match dice.below(5) {
        0 => Letter::E,
        1 => Letter::P,
        2 => return b"step,1,1,5,0,0,1".to_vec(alloc),
        3 => return b"chain,1,10,10,0".to_vec(alloc),
        _ => return Ok(Vec::new(alloc)),
    };
    let node = dice.between(1, 8);
    bytes_of(alloc, &NodeLine { node, letter })
}

impl Lines {
    // The lines of a table.
    pub fn of(alloc: Global, sheet: &Sheet) -> Result<Lines, AllocError> {
        let text = format!(in alloc; "{sheet}")?;
        let lines = text
            .lines()
            .map(|line| line.as_bytes().to_vec(alloc))
            .try_collect(alloc)?;
        Ok(Lines { alloc, lines })
    }

    pub fn text(&self) -> Result<Vec<u8>, AllocError> {
        joined(self.alloc, self.lines.as_slice(), b'\n')
    }

    // One line with another field, or another count of fields.
    fn change_one(&mut self, dice: &mut Dice) -> Result<(), AllocError> {
        let at = dice.place(self.lines.len());
        if let Some(line) = self.lines.get_mut(at) {
            let mut fields = Fields::of(self.alloc, line.as_slice())?;
            if dice.percent(85) {
                fields.change_one(dice)?;
            } else {
                fields.change_count(dice)?;
            }
            *line = fields.line()?;
        }
        Ok(())
    }

    fn swap_two(&mut self, dice: &mut Dice) {
        let one = dice.place(self.lines.len());
        let other = dice.place(self.lines.len());
        if one < self.lines.len() && other < self.lines.len() {
            self.lines.swap(one, other);
        }
    }

    fn take_one_out(&mut self, dice: &mut Dice) {
        let at = dice.place(self.lines.len());
        if at < self.lines.len() {
            let _ = self.lines.remove(at);
        }
    }

    // Puts a line in, at any place.
    fn put_in(&mut self, dice: &mut Dice, line: Vec<u8>) -> Result<(), AllocError> {
        let at = dice.place(self.lines.len().saturating_add(1));
        if at <= self.lines.len() {
            self.lines.insert(at, line)?;
        } else {
            self.lines.push(line)?;
        }
        Ok(())
    }

    fn double_one(&mut self, dice: &mut Dice) -> Result<(), AllocError> {
        let at = dice.place(self.lines.len());
        let again = match self.lines.get(at) {
            Some(line) => line.clone()?,
            None => Vec::new(self.alloc),
        };
        self.put_in(dice, again)
    }

    // One damage.
    fn damage_once(&mut self, dice: &mut Dice) -> Result<(), AllocError> {
        match dice.below(20) {
            0 => self.swap_two(dice),
            1 => self.take_one_out(dice),
            2 | 3 => self.double_one(dice)?,
            4 | 5 => {
                let line = some_line(self.alloc, dice)?;
                self.put_in(dice, line)?;
            }
            _ => self.change_one(dice)?,
        }
        Ok(())
    }

    // So many damages, one after the other.
    pub fn damage(&mut self, dice: &mut Dice, times: u64) -> Result<(), AllocError> {
        for _ in 0..times {
            self.damage_once(dice)?;
        }
        Ok(())
    }
}

fn odd_byte(dice: &mut Dice) -> u8 {
    match dice.below(8) {
        0 => b' ',
        1 => b'\r',
        2 => 0,
        3 => 255,
        4 => b',',
        5 => b'\n',
        6 => b'\t',
        _ => (dice.below(256) & 0xff) as u8,
    }
}

// A byte put in, put over another or taken out.
fn change_byte(dice: &mut Dice, text: &mut Vec<u8>) -> Result<(), AllocError> {
    let byte = odd_byte(dice);
    let at = dice.place(text.len());
    let kind = dice.below(3);
    if at >= text.len() {
        text.push(byte)?;
    } else if kind == 0 {
        text.insert(at, byte)?;
    } else if kind == 1 {
        text[at] = byte;
    } else {
        let _ = text.remove(at);
    }
    Ok(())
}

// The text with a carriage return before each line feed.
fn with_returns(alloc: Global, text: &[u8]) -> Result<Vec<u8>, AllocError> {
    let mut other = Vec::new(alloc);
    for byte in text {
        if *byte == b'\n' {
            other.push(b'\r')?;
        }
        other.push(*byte)?;
    }
    Ok(other)
}

// The text over and over again, up to this many bytes; an empty text counts as an empty line.
fn filled(alloc: Global, text: &[u8], len: usize) -> Result<Vec<u8>, AllocError> {
    let again = if text.is_empty() { b"\n" } else { text };
    again.iter().copied().cycle().take(len).collect(alloc)
}

// One damage to the bytes of a text.
pub fn damage_bytes(alloc: Global, dice: &mut Dice, text: &mut Vec<u8>) -> Result<(), AllocError> {
    match dice.below(40) {
        0 => *text = with_returns(alloc, text.as_slice())?,
        1 => {
            let len = dice.of(&[32_767, 32_768, 32_769, 40_000]);
            *text = filled(alloc, text.as_slice(), len)?;
        }
        2..=5 => {
            let _ = text.pop();
        }
        _ => change_byte(dice, text)?,
    }
    Ok(())
}
