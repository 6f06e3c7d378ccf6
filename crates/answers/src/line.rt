// The line that is read.
use crate::why::Why;

// What is held of a line, in a buffer that the caller lends. One that is too long is one longer than the buffer from then on.
#[derive(Drop)]
pub(crate) struct Line<'a> {
    buf: &'a mut [u8],
    held: usize,
}

impl<'a> Line<'a> {
    pub(crate) fn new(buf: &'a mut [u8]) -> Line<'a> {
        Line { buf, held: 0 }
    }

    pub(crate) fn is_empty(&self) -> bool {
        self.held == 0
    }

    pub(crate) fn clear(&mut self) {
        self.held = 0;
    }

    // Takes what comes next of the line.
    pub(crate) fn push(&mut self, part: &[u8]) {
        if self.held <= self.buf.len() && part.len() <= self.buf.len() - self.held {
            let end = self.held + part.len();
            self.buf[self.held..end].copy_from_slice(part);
            self.held = end;
        } else {
            self.held = self.buf.len() + 1;
        }
    }

    // What is held, if it is not too long.
    pub(crate) fn text(&self) -> Result<&[u8], Why<'_>> {
        self.buf.get(..self.held).ok_or(Why::LongLine)
    }
}
