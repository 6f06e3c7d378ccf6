// What may be set.
ghost use Rattle.std.specs.Prelude.{◌≡◌};
ghost use Rattle.nfs.specs.Meaning.Set.{time_how, set-atime, set-mtime, sattr};
ghost use Rattle.xdr.specs.Meaning.Views.{view};

use crate::change::{set_gid3_at, set_mode3_at, set_size3_at, set_uid3_at};
use crate::set::{_time_how, sattr3, set_atime, set_mtime};
use nfsattr::inner::attr::nfstime3_at;
use xdr::inner::u32_at;
use xdr::{Refusal, Took};

pub fn time_how_at(src: &[u8], at: usize) -> Result<Took<_time_how>, Refusal>
    ensures { view result ≡ time_how.kind.read src.now at }
{
    let v = u32_at(src, at)?;
    let Some(x) = _time_how::of(v.value) else {
        return Err(Refusal::Undeclared(at));
    };
    Ok(Took {
        value: x,
        next: v.next,
        plain: true,
    })
}

pub fn set_atime_at(src: &[u8], at: usize) -> Result<Took<set_atime>, Refusal>
    ensures { view result ≡ set-atime.kind.read src.now at }
{
    let tag = u32_at(src, at)?;
    match tag.value {
        0 => Ok(Took {
            value: set_atime::DONT_CHANGE,
            next: tag.next,
            plain: true,
        }),
        1 => Ok(Took {
            value: set_atime::SET_TO_SERVER_TIME,
            next: tag.next,
            plain: true,
        }),
        2 => {
            let t = nfstime3_at(src, tag.next)?;
            Ok(Took {
                value: set_atime::SET_TO_CLIENT_TIME(t.value),
                next: t.next,
                plain: t.plain,
            })
        }
        _ => Err(Refusal::Undeclared(at)),
    }
}

pub fn set_mtime_at(src: &[u8], at: usize) -> Result<Took<set_mtime>, Refusal>
    ensures { view result ≡ set-mtime.kind.read src.now at }
{
    let tag = u32_at(src, at)?;
    match tag.value {
        0 => Ok(Took {
            value: set_mtime::DONT_CHANGE,
            next: tag.next,
            plain: true,
        }),
        1 => Ok(Took {
            value: set_mtime::SET_TO_SERVER_TIME,
            next: tag.next,
            plain: true,
        }),
        2 => {
            let t = nfstime3_at(src, tag.next)?;
            Ok(Took {
                value: set_mtime::SET_TO_CLIENT_TIME(t.value),
                next: t.next,
                plain: t.plain,
            })
        }
        _ => Err(Refusal::Undeclared(at)),
    }
}

pub fn sattr3_at(src: &[u8], at: usize) -> Result<Took<sattr3>, Refusal>
    ensures { view result ≡ sattr.kind.read src.now at }
{
    let mode = set_mode3_at(src, at)?;
    let uid = set_uid3_at(src, mode.next)?;
    let gid = set_gid3_at(src, uid.next)?;
    let size = set_size3_at(src, gid.next)?;
    let atime = set_atime_at(src, size.next)?;
    let mtime = set_mtime_at(src, atime.next)?;
    Ok(Took {
        value: sattr3 {
            mode: mode.value,
            uid: uid.value,
            gid: gid.value,
            size: size.value,
            atime: atime.value,
            mtime: mtime.value,
        },
        next: mtime.next,
        plain: mode.plain & uid.plain & gid.plain & size.plain & atime.plain & mtime.plain,
    })
}
