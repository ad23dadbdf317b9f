// The tests of a whole text, and its lines.
ghost use Rattle.std.specs.Prelude.{◌≡◌, true, is_ok};
ghost use Rattle.std.specs.Iterator.{item_count};
ghost use Rattle.lines.specs.Texts.{lines_of, ended_lines, ended, text_answer, lines_left, GivesLine};

use crate::faults::{Fault, TableFault};
use crate::parts::cut;
use crate::text::TextCursor;

const LONGEST_TEXT: usize = 32_768;

// The last line is ended by a line feed.
fn is_ended(text: &[u8]) -> bool
    ensures { result ≡ ended text.now }
{
    text.last().is_none_or(|byte| *byte == b'\n')
}

// A text is at most 32,768 bytes long, and each of its lines is ended.
pub fn check_text(text: &[u8]) -> Result<(), TableFault>
    ensures value { result ≡ text_answer text.now }
    ensures lines { is_ok result ≡ true → ended_lines (lines_of text.now) ≡ text.now }
{
    if text.len() > LONGEST_TEXT {
        return Err(Fault::TextTooLong.at(0).on(0));
    }
    if !is_ended(text) {
        let lines = text.split(|byte| *byte == b'\n').count() as u32;
        return Err(Fault::NoLineFeed.at(0).on(lines));
    }
    Ok(())
}

impl<'a> TextCursor<'a> {
    // Before the first line of a text.
    pub fn new(text: &'a [u8]) -> Self
        ensures left { lines_left result ≡ lines_of text.now }
        ensures number { result.number ≡ 0 }
    {
        TextCursor {
            rest: text,
            number: 0,
        }
    }

    // The number of the last line given, counted from 1.
    pub fn number(&self) -> u32
        ensures { result ≡ self.now.number }
    {
        self.number
    }
}

// The lines, each without its line feed.
impl<'a> Iterator for TextCursor<'a> {
    type Item = &'a [u8];

    ghost next_gives = { GivesLine };

    ghost remaining = { item_count lines_left };

    fn next(&mut self) -> Option<&'a [u8]> {
        if self.rest.is_empty() {
            return None;
        }
        let (line, rest) = cut(self.rest, b'\n');
        self.rest = rest;
        self.number = self.number.saturating_add(1);
        Some(line)
    }
}
