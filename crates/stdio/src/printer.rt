// A standard stream that is printed on, with the buffer in which text waits for it.
ghost use Rattle.std.specs.Prelude.{false, ◌≡◌, take};
ghost use Rattle.std.specs.Io.KnownBytes.{Appends};
ghost use Rattle.stdio.specs.Output.{waiting, Said, Flushed, Numbered, Kept, KeptNumber};

use crate::output::{Out, flush, number, say};
use crate::stream::Stream;
use std::io::Write;

#[derive(Drop)]
pub struct Printer<W, E, const N: usize> {
    pub to: Stream<W, E>,
    pub buf: [u8; N],
    pub at: Out,
}

impl<W: Write, E: Write, const N: usize> Printer<W, E, N> {
    // Nothing waits and nothing is lost.
    pub fn new(to: Stream<W, E>) -> Printer<W, E, N>
        ensures to { result.to ≡ to }
        ensures at { result.at ≡ waiting 0 }
    {
        Printer {
            to,
            buf: [0; N],
            at: Out::new(),
        }
    }

    // Takes text, as `say` does.
    pub fn say(&mut self, text: &[u8])
        ensures said { Said self.old.buf self.old.at text.now self.new.at self.new.buf }
        ensures kept { self.new.at.lost ≡ false → Kept (W.contents self.old.to.stream) (W.contents self.new.to.stream) (take self.old.at.count self.old.buf) text.now (take self.new.at.count self.new.buf) }
    {
        let at = self.at;
        self.at = say(&mut self.to, &mut self.buf, at, text);
    }

    // Takes a number, in decimal.
    pub fn number(&mut self, n: u64)
        ensures numbered { Numbered self.old.buf self.old.at n self.new.at self.new.buf }
        ensures kept { self.new.at.lost ≡ false → KeptNumber (W.contents self.old.to.stream) (W.contents self.new.to.stream) (take self.old.at.count self.old.buf) n (take self.new.at.count self.new.buf) }
    {
        let at = self.at;
        self.at = number(&mut self.to, &mut self.buf, at, n);
    }

    // Writes out what waits.
    pub fn flush(&mut self)
        ensures flushed { Flushed self.old.at self.new.at }
        ensures unchanged { self.new.buf ≡ self.old.buf }
        ensures sent { self.new.at.lost ≡ false → Appends (W.contents self.old.to.stream) (W.contents self.new.to.stream) (take self.old.at.count self.old.buf) }
    {
        let at = self.at;
        self.at = flush(&mut self.to, &self.buf, at);
    }
}
