// Paths of the mount protocol (RFC 1813, appendix I): strings of at most 1,024 bytes. A longer one is read whole, and then refused with 10.
ghost use Rattle.std.specs.Prelude.{◌≡◌};
ghost use Rattle.xdr.specs.Meaning.Formats.{bytes};
ghost use Rattle.xdr.specs.Meaning.Public.{Answers};
ghost use Rattle.xdr.specs.Meaning.Within.{WritesWithin};
ghost use Rattle.xdr.specs.Meaning.Views.{view, view_wrote};
ghost use Rattle.mount.specs.Meaning.Path.{dirpath, long_path};

use xdr::inner::opaque_at;
use xdr::order::{open_at, place};
use xdr::{Piece, Refusal, Took, inside, write_opaque};

// The longest path.
pub const MNTPATHLEN: usize = 1024;

// A path: its bytes are a piece.
pub type dirpath = Piece;

pub fn dirpath_at(src: &[u8], at: usize) -> Result<Took<Piece>, Refusal>
    ensures { view result ≡ dirpath.held.read src.now at }
{
    let path = opaque_at(src, at)?;
    if MNTPATHLEN < path.value.count {
        return Err(Refusal::LongPath(at));
    }
    Ok(path)
}

pub fn read_dirpath(src: &[u8], at: usize) -> Result<Took<Piece>, Refusal>
    ensures { Answers dirpath src.now at (view result) }
{
    open_at(src, at)?;
    dirpath_at(src, at)
}

// 10 comes right after 4, and so before anything is said of the encoding.
pub fn write_dirpath(src: &[u8], x: Piece, out: &mut [u8], at: usize) -> Result<usize, Refusal>
    ensures { WritesWithin bytes long_path src.now x at out.old (view_wrote result) out.new }
{
    if x.count <= MNTPATHLEN {
        return write_opaque(src, x, out, at);
    }
    place(src.len(), inside(src, x), 0, out.len(), at)?;
    Err(Refusal::LongPath(0))
}
