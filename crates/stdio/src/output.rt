// Standard output. Text waits in a buffer that the caller lends, and is written out where the buffer is full or flushed.
ghost use Rattle.std.specs.Prelude.{true, false, ◌≡◌, ◌+◌, ◌≤◌, leb, length, take, IsOk, OnOk};
ghost use Rattle.std.specs.Io.{WritesAtMost};
ghost use Rattle.std.proofs.lemmas.List.Edits.{sets};
ghost use Rattle.std.specs.Io.KnownBytes.{Appends, WriteAppends};
ghost use Rattle.stdio.specs.Output.{Said, Flushed, Numbered, Kept, KeptNumber};

use crate::fail::fail;
use crate::stream::Stream;
use crate::wait::{passes, pause};
use std::io::{Error, ErrorKind, Result, Write};

// How much text waits at the front of the buffer; and if some was lost because a write failed, which was said on standard error. Then no more
// is taken. (It is no `Option` of a count: what comes in lost goes out as it came, with its count.)
#[derive(Clone, Copy)]
pub struct Out {
    pub count: usize,
    pub lost: bool,
}

impl Out {
    // Nothing waits and nothing is lost.
    pub fn new() -> Out
        ensures { (result.count ≡ 0) × (result.lost ≡ false) }
    {
        Out {
            count: 0,
            lost: false,
        }
    }
}

// Writes some of the bytes, from the first on, once there is room for them. (A proved loop ends: its turns are counted to a number that no
// run reaches.)
fn write_some<W: Write>(to: &mut W, bytes: &[u8]) -> Result<usize>
    ensures bound { WritesAtMost result bytes.now }
    ensures sent { WriteAppends (W.contents to.old) (W.contents to.new) result bytes.now }
{
    for _ in 0..u64::MAX {
        match to.write(bytes) {
            Err(why) if passes(&why) => pause(),
            answer => return answer,
        }
    }
    to.write(bytes)
}

// Writes all of the bytes. A write that takes nothing and does not fail has no error of its own.
fn try_write_all<W: Write>(to: &mut W, bytes: &[u8]) -> Result<()>
    ensures none { length bytes.now ≡ 0 → IsOk result }
    ensures sent { OnOk result (Appends (W.contents to.old) (W.contents to.new) bytes.now) }
{
    let mut done = 0;
    while done < bytes.len() {
        let n = write_some(to, &bytes[done..])?;
        if n == 0 {
            return Err(Error::from(ErrorKind::WriteZero));
        }
        done += n;
    }
    Ok(())
}

// Whether all of the bytes are written; if not, it is said on standard error.
fn write_all<W: Write, E: Write>(to: &mut Stream<W, E>, bytes: &[u8]) -> bool
    ensures none { length bytes.now ≡ 0 → result ≡ true }
    ensures sent { result ≡ true → Appends (W.contents to.old.stream) (W.contents to.new.stream) bytes.now }
{
    match try_write_all(&mut to.stream, bytes) {
        Ok(()) => true,
        Err(why) => {
            fail(&mut to.errors, "standard output", &why);
            false
        }
    }
}

// Writes what waits at the front of a buffer.
fn write_front<W: Write, E: Write>(to: &mut Stream<W, E>, buf: &[u8], count: usize) -> bool
    ensures none { count ≡ 0 → result ≡ true }
    ensures sent { result ≡ true → Appends (W.contents to.old.stream) (W.contents to.new.stream) (take count buf.now) }
{
    if count < buf.len() {
        write_all(to, &buf[..count])
    } else {
        write_all(to, buf)
    }
}

// Writes out what waits.
pub fn flush<W: Write, E: Write>(to: &mut Stream<W, E>, buf: &[u8], at: Out) -> Out
    ensures flushed { Flushed at result }
    ensures sent { result.lost ≡ false → Appends (W.contents to.old.stream) (W.contents to.new.stream) (take at.count buf.now) }
{
    if at.lost {
        return at;
    }
    Out {
        count: 0,
        lost: !write_front(to, buf, at.count),
    }
}

fn fits(count: usize, n: usize, room: usize) -> bool
    ensures { result ≡ leb (count + n) room }
{
    n <= room && count <= room - n
}

// Copies text into a buffer that has room for it from a place on.
fn lay(buf: &mut [u8], at: usize, text: &[u8])
    requires { at + length text.now ≤ length buf.old }
    ensures { buf.new ≡ sets buf.old at text.now }
{
    buf[at..at + text.len()].copy_from_slice(text);
}

// Takes text: lays it behind what waits, or, where there is no room for it, writes out what waits first. Text that is longer than the buffer
// is written at once.
pub fn say<W: Write, E: Write>(to: &mut Stream<W, E>, buf: &mut [u8], at: Out, text: &[u8]) -> Out
    ensures said { Said buf.old at text.now result buf.new }
    ensures kept { result.lost ≡ false → Kept (W.contents to.old.stream) (W.contents to.new.stream) (take at.count buf.old) text.now (take result.count buf.new) }
{
    if at.lost {
        return at;
    }
    let count = at.count;
    if fits(count, text.len(), buf.len()) {
        lay(buf, count, text);
        return Out {
            count: count + text.len(),
            lost: false,
        };
    }
    let f = flush(to, buf, at);
    if f.lost {
        return f;
    }
    if text.len() <= buf.len() {
        lay(buf, 0, text);
        return Out {
            count: text.len(),
            lost: false,
        };
    }
    Out {
        count: 0,
        lost: !write_all(to, text),
    }
}

// Takes a number, in decimal.
pub fn number<W: Write, E: Write>(to: &mut Stream<W, E>, buf: &mut [u8], at: Out, n: u64) -> Out
    ensures numbered { Numbered buf.old at n result buf.new }
    ensures kept { result.lost ≡ false → KeptNumber (W.contents to.old.stream) (W.contents to.new.stream) (take at.count buf.old) n (take result.count buf.new) }
{
    let mut digits = [0u8; 20];
    let k = io::decimal(n, &mut digits);
    say(to, buf, at, &digits[..k])
}

// Says something on standard error, at once. What cannot be said there is lost: there is nowhere else to say it.
pub fn complain<E: Write>(errors: &mut E, text: &[u8]) {
    let _ = errors.write_all(text);
}
