// The words of a line, each read by what it has to be.
ghost use Rattle.std.specs.Prelude.{◌≤◌, ◌+◌, ◌-◌, length, IfOk};
ghost use Rattle.std.specs.Iterator.{at_most};

use crate::kinds::kind_named;
use crate::verb::Verb;
use crate::why::Why;

// What is left of a line. A word that is missing is read as an empty one.
#[derive(Clone, Copy)]
pub(crate) struct Words<'a> {
    line: &'a [u8],
    start: usize,
}

impl<'a> Words<'a> {
    pub(crate) fn new(line: &'a [u8]) -> Words<'a> {
        Words { line, start: 0 }
    }

    fn word(&mut self) -> &'a [u8] {
        self.next().unwrap_or(&[])
    }

    pub(crate) fn verb(&mut self) -> Result<Verb, Why<'a>> {
        let word = self.word();
        Verb::named(word).ok_or(Why::Question(word))
    }

    pub(crate) fn kind(&mut self) -> Result<u32, Why<'a>> {
        let word = self.word();
        kind_named(word).ok_or(Why::Kind(word))
    }

    pub(crate) fn number(&mut self) -> Result<usize, Why<'a>> {
        number(self.word())
    }

    // A yes or no: `1` or `0`.
    pub(crate) fn mark(&mut self) -> Result<bool, Why<'a>> {
        match self.word() {
            b"0" => Ok(false),
            b"1" => Ok(true),
            word => Err(Why::Mark(word)),
        }
    }

    // The bytes that a word spells, which are then at the front of a buffer, and how many they are.
    pub(crate) fn bytes(&mut self, buf: &mut [u8]) -> Result<usize, Why<'a>>
        ensures { IfOk result (λ n. n ≤ length buf.new) }
    {
        bytes(self.word(), buf)
    }

    // Nothing comes behind the last word.
    pub(crate) fn end(&self) -> Result<(), Why<'a>> {
        if self.start <= self.line.len() {
            return Err(Why::MoreWords);
        }
        Ok(())
    }
}

// The words are parted by one space each: so the one after a word starts one behind its end, and there is none where that is past the
// line's end.
impl<'a> Iterator for Words<'a> {
    type Item = &'a [u8];

    ghost remaining = { λ words. at_most (length words.line.now + 1 - words.start) };

    fn next(&mut self) -> Option<&'a [u8]> {
        if self.line.len() < self.start {
            return None;
        }
        let end = text::word_end(self.line, self.start);
        let word = &self.line[self.start..end];
        self.start = end + 1;
        Some(word)
    }
}

pub(crate) fn number(word: &[u8]) -> Result<usize, Why<'_>> {
    text::decimal(word).ok_or(Why::Number(word))
}

pub(crate) fn bytes<'a>(word: &'a [u8], buf: &mut [u8]) -> Result<usize, Why<'a>>
    ensures { IfOk result (λ n. n ≤ length buf.new) }
{
    text::unhex(word, buf).ok_or(Why::Bytes(word))
}
