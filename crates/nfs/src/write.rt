// The public writers, from any place of a larger buffer: refusal 9, 3 for the source, 4, 3 for the encoding, 5. A refusal leaves the buffer
// as it was, and a writing leaves every byte but its own.
ghost use Rattle.std.specs.Prelude.{[]};
ghost use Rattle.nfs.specs.Meaning.Set.{time_how, set-atime, set-mtime, sattr};
ghost use Rattle.xdr.specs.Meaning.Format.{exactly};
ghost use Rattle.xdr.specs.Meaning.Formats.{bytes};
ghost use Rattle.xdr.specs.Meaning.Public.{Writes};
ghost use Rattle.xdr.specs.Meaning.Views.{view_wrote};

use crate::dir::nfsstring;
use crate::put::set::{
    put_sattr3, put_set_atime, put_set_mtime, sattr3_size, set_atime_size, set_mtime_size,
};
use crate::set::{_time_how, sattr3, set_atime, set_mtime};
use xdr::order::room;
use xdr::{Refusal, write_opaque, write_u32};

pub fn write_time_how(v: _time_how, out: &mut [u8], at: usize) -> Result<usize, Refusal>
    ensures { Writes (exactly time_how) [] v at out.old (view_wrote result) out.new }
{
    write_u32(v.number(), out, at)
}

pub fn write_set_atime(v: set_atime, out: &mut [u8], at: usize) -> Result<usize, Refusal>
    ensures { Writes (exactly set-atime) [] v at out.old (view_wrote result) out.new }
{
    let end = room(out.len(), at, set_atime_size(v))?;
    put_set_atime(v, &mut out[at..]);
    Ok(end)
}

pub fn write_set_mtime(v: set_mtime, out: &mut [u8], at: usize) -> Result<usize, Refusal>
    ensures { Writes (exactly set-mtime) [] v at out.old (view_wrote result) out.new }
{
    let end = room(out.len(), at, set_mtime_size(v))?;
    put_set_mtime(v, &mut out[at..]);
    Ok(end)
}

pub fn write_sattr3(v: sattr3, out: &mut [u8], at: usize) -> Result<usize, Refusal>
    ensures { Writes (exactly sattr) [] v at out.old (view_wrote result) out.new }
{
    let end = room(out.len(), at, sattr3_size(v))?;
    put_sattr3(v, &mut out[at..]);
    Ok(end)
}

// A name or a path, as opaques are written.
pub fn write_nfsstring(
    src: &[u8],
    x: nfsstring,
    out: &mut [u8],
    at: usize,
) -> Result<usize, Refusal>
    ensures { Writes bytes src.now x at out.old (view_wrote result) out.new }
{
    write_opaque(src, x, out, at)
}
