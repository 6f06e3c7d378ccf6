// Messages whose pieces lie in two sources.
ghost use Rattle.std.specs.Prelude.{◌≤◌, length};
ghost use Rattle.xdr.specs.Meaning.Views.{view_wrote};
ghost use Rattle.xdr.specs.Laws.Write.{Put};
ghost use Rattle.nfs.specs.Meaning.Dir.{diropargs};
ghost use Rattle.nfs.specs.Meaning.Sources.{diropargs_from, WritesDiropargsFrom, FitsDiropargsFrom};
ghost use Rattle.nfs.specs.Laws.Dir.{diropargs_size};
ghost use Rattle.nfs.specs.Laws.Sources.{DirReady};

use crate::dir::{diropargs3, diropargs3_size, nfs_fh3_inside, nfs_fh3_size, put_nfs_fh3};
use xdr::inner::put_opaque;
use xdr::order::{longer, place};
use xdr::{MOST, Refusal, inside};

fn put_diropargs3_from(dirs: &[u8], names: &[u8], x: diropargs3, out: &mut [u8])
    requires dir_ready { DirReady dirs.now names.now x }
    requires x_in_bounds { diropargs_size x ≤ length out.old }
    ensures { Put out.old out.new (diropargs_size x) (diropargs.codec.kind.write (diropargs_from dirs.now names.now x)) }
{
    let dir = x.dir;
    let name = x.name;
    let n = nfs_fh3_size(dir);
    put_nfs_fh3(dirs, dir, out);
    put_opaque(names, name, &mut out[n..]);
}

// The handle is a piece of `dirs`, and the name of `names`.
pub fn write_diropargs3_from(
    dirs: &[u8],
    names: &[u8],
    x: diropargs3,
    out: &mut [u8],
    at: usize,
) -> Result<usize, Refusal>
    ensures { WritesDiropargsFrom dirs.now names.now x at out.old (view_wrote result) out.new }
{
    let dir = x.dir;
    let name = x.name;
    let end = place(
        longer(dirs.len(), names.len()),
        nfs_fh3_inside(dirs, dir) & inside(names, name),
        diropargs3_size(x),
        out.len(),
        at,
    )?;
    put_diropargs3_from(dirs, names, x, &mut out[at..]);
    Ok(end)
}

// The same by tests one after another, where the message fits: the place after it. Where it does not, nothing is written and nothing is said of
// why: the writer above says that.
pub fn fit_diropargs3_from(
    dirs: &[u8],
    names: &[u8],
    x: diropargs3,
    out: &mut [u8],
    at: usize,
) -> Option<usize>
    ensures { FitsDiropargsFrom dirs.now names.now x at out.old result out.new }
{
    let dir = x.dir;
    let name = x.name;
    if MOST < dirs.len() {
        return None;
    }
    if MOST < names.len() {
        return None;
    }
    if !nfs_fh3_inside(dirs, dir) {
        return None;
    }
    if !inside(names, name) {
        return None;
    }
    let size = diropargs3_size(x);
    if MOST < size {
        return None;
    }
    if out.len() < at {
        return None;
    }
    if out.len() - at < size {
        return None;
    }
    put_diropargs3_from(dirs, names, x, &mut out[at..]);
    Some(at + size)
}
