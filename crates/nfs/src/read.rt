// The public readers: refusal 3, refusal 9, then the kind.
ghost use Rattle.nfs.specs.Meaning.Set.{time_how, set-atime, set-mtime, sattr};
ghost use Rattle.xdr.specs.Meaning.Format.{exactly};
ghost use Rattle.xdr.specs.Meaning.Formats.{bytes};
ghost use Rattle.xdr.specs.Meaning.Public.{Answers};
ghost use Rattle.xdr.specs.Meaning.Views.{view};

use crate::dir::nfsstring;
use crate::inner::set::{sattr3_at, set_atime_at, set_mtime_at, time_how_at};
use crate::set::{_time_how, sattr3, set_atime, set_mtime};
use xdr::inner::opaque_at;
use xdr::order::open_at;
use xdr::{Refusal, Took};

pub fn read_time_how(src: &[u8], at: usize) -> Result<Took<_time_how>, Refusal>
    ensures { Answers (exactly time_how) src.now at (view result) }
{
    open_at(src, at)?;
    time_how_at(src, at)
}

pub fn read_set_atime(src: &[u8], at: usize) -> Result<Took<set_atime>, Refusal>
    ensures { Answers (exactly set-atime) src.now at (view result) }
{
    open_at(src, at)?;
    set_atime_at(src, at)
}

pub fn read_set_mtime(src: &[u8], at: usize) -> Result<Took<set_mtime>, Refusal>
    ensures { Answers (exactly set-mtime) src.now at (view result) }
{
    open_at(src, at)?;
    set_mtime_at(src, at)
}

pub fn read_sattr3(src: &[u8], at: usize) -> Result<Took<sattr3>, Refusal>
    ensures { Answers (exactly sattr) src.now at (view result) }
{
    open_at(src, at)?;
    sattr3_at(src, at)
}

// A name or a path (`filename3`, `nfspath3`).
pub fn read_nfsstring(src: &[u8], at: usize) -> Result<Took<nfsstring>, Refusal>
    ensures { Answers bytes src.now at (view result) }
{
    open_at(src, at)?;
    opaque_at(src, at)
}
