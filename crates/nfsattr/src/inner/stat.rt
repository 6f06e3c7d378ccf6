// Statuses.
ghost use Rattle.std.specs.Prelude.{◌≡◌};
ghost use Rattle.nfsattr.specs.Meaning.Stat.{nfsstat};
ghost use Rattle.xdr.specs.Meaning.Views.{view};

use crate::stat::nfsstat3;
use xdr::inner::u32_at;
use xdr::{Refusal, Took};

pub fn nfsstat3_at(src: &[u8], at: usize) -> Result<Took<nfsstat3>, Refusal>
    ensures { view result ≡ nfsstat.kind.read src.now at }
{
    let v = u32_at(src, at)?;
    let Some(x) = nfsstat3::of(v.value) else {
        return Err(Refusal::Undeclared(at));
    };
    Ok(Took {
        value: x,
        next: v.next,
        plain: true,
    })
}
