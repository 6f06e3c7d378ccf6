// The public writers, from any place of a larger buffer: refusal 9, 3 for the source, 4, 3 for the encoding, 5. A refusal leaves the buffer
// as it was, and a writing leaves every byte but its own.
ghost use Rattle.std.specs.Prelude.{[]};
ghost use Rattle.xdr.specs.Meaning.Items.{word, hyper, flag, int, long};
ghost use Rattle.xdr.specs.Meaning.Format.{exactly};
ghost use Rattle.xdr.specs.Meaning.Formats.{eight_bytes, bytes, word_list};
ghost use Rattle.xdr.specs.Meaning.Public.{Writes};
ghost use Rattle.xdr.specs.Meaning.Views.{view_wrote};

use crate::inner::{
    opaque_size, put_bool, put_i32, put_i64, put_opaque, put_u32, put_u64, put_words, words_size,
};
use crate::order::{place, room};
use crate::piece::{Piece, inside, words_inside};
use crate::refusal::Refusal;

pub fn write_u32(v: u32, out: &mut [u8], at: usize) -> Result<usize, Refusal>
    ensures { Writes (exactly word) [] v at out.old (view_wrote result) out.new }
{
    let end = room(out.len(), at, 4)?;
    put_u32(v, &mut out[at..]);
    Ok(end)
}

pub fn write_u64(v: u64, out: &mut [u8], at: usize) -> Result<usize, Refusal>
    ensures { Writes (exactly hyper) [] v at out.old (view_wrote result) out.new }
{
    let end = room(out.len(), at, 8)?;
    put_u64(v, &mut out[at..]);
    Ok(end)
}

pub fn write_i32(v: i32, out: &mut [u8], at: usize) -> Result<usize, Refusal>
    ensures { Writes (exactly int) [] v at out.old (view_wrote result) out.new }
{
    let end = room(out.len(), at, 4)?;
    put_i32(v, &mut out[at..]);
    Ok(end)
}

pub fn write_i64(v: i64, out: &mut [u8], at: usize) -> Result<usize, Refusal>
    ensures { Writes (exactly long) [] v at out.old (view_wrote result) out.new }
{
    let end = room(out.len(), at, 8)?;
    put_i64(v, &mut out[at..]);
    Ok(end)
}

pub fn write_bool(v: bool, out: &mut [u8], at: usize) -> Result<usize, Refusal>
    ensures { Writes (exactly flag) [] v at out.old (view_wrote result) out.new }
{
    let end = room(out.len(), at, 4)?;
    put_bool(v, &mut out[at..]);
    Ok(end)
}

pub fn write_eight(v: u64, out: &mut [u8], at: usize) -> Result<usize, Refusal>
    ensures { Writes eight_bytes [] v at out.old (view_wrote result) out.new }
{
    let end = room(out.len(), at, 8)?;
    put_u64(v, &mut out[at..]);
    Ok(end)
}

// Opaque bytes, which are a piece of a source.
pub fn write_opaque(src: &[u8], x: Piece, out: &mut [u8], at: usize) -> Result<usize, Refusal>
    ensures { Writes bytes src.now x at out.old (view_wrote result) out.new }
{
    let end = place(
        src.len(),
        inside(src, x),
        opaque_size(x.count),
        out.len(),
        at,
    )?;
    put_opaque(src, x, &mut out[at..]);
    Ok(end)
}

// A list of words, which is a piece of a source that counts words.
pub fn write_words(src: &[u8], x: Piece, out: &mut [u8], at: usize) -> Result<usize, Refusal>
    ensures { Writes word_list src.now x at out.old (view_wrote result) out.new }
{
    let end = place(
        src.len(),
        words_inside(src, x),
        words_size(x.count),
        out.len(),
        at,
    )?;
    put_words(src, x, &mut out[at..]);
    Ok(end)
}
