// What is said where a stream fails, and that calls that are not ready are made again.
use crate::{Got, Out, Printer, Stream, flush, number, read, say};
use std::alloc::Global;
use std::io::{Error, Read, Result, Write};

// Takes so many bytes, two at a time and every other time none, and then has no room left.
#[derive(Drop)]
struct Narrow {
    room: usize,
    ready: bool,
    taken: Vec<u8>,
}

impl Write for Narrow {
    fn write(&mut self, buf: &[u8]) -> Result<usize> {
        if self.room == 0 {
            return Err(Error::from_raw_os_error(28));
        }
        self.ready = !self.ready;
        if !self.ready {
            return Err(Error::from_raw_os_error(11));
        }
        let n = buf.len().min(self.room).min(2);
        self.taken.extend_from_slice(&buf[..n])?;
        self.room -= n;
        Ok(n)
    }

    fn flush(&mut self) -> Result<()> {
        Ok(())
    }
}

// What text of 8 bytes and a number become on their way through a buffer of 10: the output, whether some was lost, and what was said.
fn written(alloc: Global, room: usize) -> (Stream<Narrow, Vec<u8>>, bool) {
    let narrow = Narrow {
        room,
        ready: true,
        taken: Vec::new(alloc),
    };
    let mut to = Stream::new(narrow, Vec::new(alloc));
    let mut buf = [0u8; 10];
    let at = say(&mut to, &mut buf, Out::new(), b"counted ");
    let at = number(&mut to, &mut buf, at, 1048576);
    let at = say(&mut to, &mut buf, at, b", and that is all");
    let at = flush(&mut to, &buf, at);
    (to, at.lost)
}

#[test]
fn writes_all(rt: HostRuntime) {
    let (to, lost) = written(rt.alloc(), 1000);
    assert!(rt; !lost);
    assert!(rt; to.stream.taken.as_slice() == b"counted 1048576, and that is all".as_slice());
    assert!(rt; to.errors.is_empty());
}

// The same by a printer, which has the buffer and knows what waits in it.
#[test]
fn prints_all(rt: HostRuntime) {
    let narrow = Narrow {
        room: 1000,
        ready: true,
        taken: Vec::new(rt.alloc()),
    };
    let mut printer = Printer::<Narrow, Vec<u8>, 10>::new(Stream::new(
        narrow,
        Vec::new(rt.alloc()),
    ));
    printer.say(b"counted ");
    printer.number(1048576);
    printer.say(b", and that is all");
    printer.flush();
    assert!(rt; !printer.at.lost);
    assert!(rt;
        printer.to.stream.taken.as_slice() == b"counted 1048576, and that is all".as_slice()
    );
    assert!(rt; printer.to.errors.is_empty());
}

#[test]
fn says_what_cannot_be_written(rt: HostRuntime) {
    for room in [0, 1, 7, 8, 9, 14, 15, 31] {
        let (to, lost) = written(rt.alloc(), room);
        assert!(rt; lost, "at {room}");
        assert!(rt; to.stream.taken.len() == room, "at {room}");
        assert!(rt;
            to.errors.as_slice() == b"standard output: No space left on device\n".as_slice(),
            "at {room}"
        );
    }
}

// A signal comes, some bytes are there, and then the input cannot be read.
#[derive(Drop)]
struct Broken {
    reads: usize,
}

impl Read for Broken {
    fn read(&mut self, buf: &mut [u8]) -> Result<usize> {
        self.reads = self.reads.saturating_add(1);
        if self.reads == 1 {
            return Err(Error::from_raw_os_error(4));
        }
        if self.reads == 2 && buf.len() > 0 {
            buf[0] = b'x';
            return Ok(1);
        }
        Err(Error::from_raw_os_error(21))
    }
}

#[test]
fn says_what_cannot_be_read(rt: HostRuntime) {
    let mut from = Stream::new(Broken { reads: 0 }, Vec::new(rt.alloc()));
    let mut buf = [b'.'; 3];
    assert!(rt; matches!(read(&mut from, &mut buf), Got::Bytes(1)));
    assert!(rt; &buf[..] == b"x..".as_slice());
    assert!(rt; from.errors.is_empty());
    assert!(rt; matches!(read(&mut from, &mut buf), Got::Failed));
    assert!(rt; &buf[..] == b"x..".as_slice());
    assert!(rt; from.errors.as_slice() == b"standard input: Is a directory\n".as_slice());
}
