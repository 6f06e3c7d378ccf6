// Statuses.
ghost use Rattle.std.specs.Prelude.{◌≡◌};
ghost use Rattle.nfsattr.specs.Meaning.Stat.{nfsstat};
ghost use Rattle.xdr.specs.Meaning.Public.{laid};

use crate::stat::nfsstat3;
use xdr::inner::put_u32;

pub fn put_nfsstat3(v: nfsstat3, out: &mut [u8])
    ensures { out.new ≡ laid (nfsstat.kind.write v) out.old }
{
    put_u32(v.number(), out);
}
