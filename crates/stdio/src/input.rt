// Standard input.
ghost use Rattle.std.specs.Prelude.{◌≤◌, length};
ghost use Rattle.std.specs.Io.{ReadsAtMost};
ghost use Rattle.std.specs.Io.KnownBytes.{ReadConsumes};
ghost use Rattle.stdio.specs.Input.{Reads, Takes};

use crate::fail::fail;
use crate::stream::Stream;
use crate::wait::{passes, pause};
use std::io::{Read, Result, Write};

// What a reading gave. It is no `Result`: there are three outcomes, and what cannot be read was said already.
#[derive(Clone, Copy)]
pub enum Got {
    // The input has ended.
    End,
    // It cannot be read, which was said on standard error.
    Failed,
    // So many bytes are at the front of the buffer.
    Bytes(usize),
}

// Reads once there is something. (A proved loop ends: its turns are counted to a number that no run reaches.)
fn wait_and_read<R: Read>(from: &mut R, space: &mut [u8]) -> Result<usize>
    ensures bound { ReadsAtMost result space.new }
    ensures bytes { ReadConsumes (R.remaining from.old) (R.remaining from.new) result space.new }
{
    for _ in 0..u64::MAX {
        match from.read(space) {
            Err(why) if passes(&why) => pause(),
            answer => return answer,
        }
    }
    from.read(space)
}

// Reads into `space` and copies what came to the front of the buffer.
fn read_by<R: Read, E: Write>(from: &mut Stream<R, E>, space: &mut [u8], buf: &mut [u8]) -> Got
    requires { length space.old ≤ length buf.old }
    ensures reads { Reads buf.old result buf.new }
    ensures takes { Takes (R.remaining from.old.stream) (R.remaining from.new.stream) (length space.old) result buf.new }
{
    match wait_and_read(&mut from.stream, space) {
        Ok(0) => Got::End,
        Ok(n) => {
            buf[..n].copy_from_slice(&space[..n]);
            Got::Bytes(n)
        }
        Err(why) => {
            fail(&mut from.errors, "standard input", &why);
            Got::Failed
        }
    }
}

// Reads what there is, at most 4,096 bytes. An empty buffer gets `End`.
pub fn read<R: Read, E: Write>(from: &mut Stream<R, E>, buf: &mut [u8]) -> Got
    ensures reads { Reads buf.old result buf.new }
    ensures takes { Takes (R.remaining from.old.stream) (R.remaining from.new.stream) (length buf.old) result buf.new }
{
    let mut space = [0u8; 4096];
    let n = buf.len().min(space.len());
    read_by(from, &mut space[..n], buf)
}
