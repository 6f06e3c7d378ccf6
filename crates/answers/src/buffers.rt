// The caller's buffers: all bytes EE before anything is written.
ghost use Rattle.std.specs.Prelude.{◌≡◌, length};

use crate::why::Why;

#[derive(Drop)]
pub(crate) struct Buffers {
    // The bytes that half a line spells.
    pub message: [u8; 1100000],
    // As many bytes as a line can ask for.
    pub room: [u8; 1048576],
}

// The first bytes of a room, all EE.
pub(crate) fn cleared<'a, 'b>(room: &'a mut [u8], length: usize) -> Result<&'a mut [u8], Why<'b>> {
    let buf = room.get_mut(..length).ok_or(Why::Room)?;
    buf.fill(0xEE);
    Ok(buf)
}

// The `ensures` give the lengths alone, which lending an array as a slice needs.
pub(crate) fn largest() -> [u8; 1048576]
    ensures { 1048576 ≡ length result }
{
    [0xEE; 1048576]
}

pub(crate) fn message() -> [u8; 1100000]
    ensures { 1100000 ≡ length result }
{
    [0; 1100000]
}

// A line: a message of 1,048,576 bytes in hex, and all that stands beside it.
pub(crate) fn line() -> [u8; 2200000]
    ensures { 2200000 ≡ length result }
{
    [0; 2200000]
}
