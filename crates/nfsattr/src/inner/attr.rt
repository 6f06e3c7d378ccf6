// Attributes.
ghost use Rattle.std.specs.Prelude.{◌≡◌};
ghost use Rattle.nfsattr.specs.Meaning.Attr.{ftype, specdata, nfstime, fattr, wcc-attr, pre-op-attr, post-op-attr, wcc-data, fsinfo};
ghost use Rattle.nfsattr.specs.Laws.Groups.{ids, sizes, times, transfer, limits};
ghost use Rattle.xdr.specs.Meaning.Views.{view};

use crate::attr::{
    fattr3, fileid3, fsinfo3, ftype3, gid3, mode3, nfstime3, post_op_attr, pre_op_attr, size3,
    specdata3, uid3, wcc_attr, wcc_data,
};
use xdr::inner::{bool_at, u32_at, u32_pair_at, u64_at, u64_pair_at};
use xdr::{Refusal, Took};

// Fields that stand together in `fattr3`: its readers and writers go by these.
#[derive(Clone, Copy)]
pub struct Ids {
    pub ftype: ftype3,
    pub mode: mode3,
    pub nlink: u32,
    pub uid: uid3,
    pub gid: gid3,
}

impl Ids {
    pub const SIZE: usize = 20;
}

#[derive(Clone, Copy)]
pub struct Sizes {
    pub size: size3,
    pub used: size3,
    pub rdev: specdata3,
    pub fsid: u64,
    pub fileid: fileid3,
}

impl Sizes {
    pub const SIZE: usize = 40;
}

#[derive(Clone, Copy)]
pub struct Times {
    pub atime: nfstime3,
    pub mtime: nfstime3,
    pub ctime: nfstime3,
}

impl Times {
    pub const SIZE: usize = 24;
}

// The same of `fsinfo3`: of a READ or a WRITE the most bytes, the preferred number and what it is best a multiple of; and the rest.
#[derive(Clone, Copy)]
pub struct Transfer {
    pub max: u32,
    pub pref: u32,
    pub mult: u32,
}

impl Transfer {
    pub const SIZE: usize = 12;
}

#[derive(Clone, Copy)]
pub struct Limits {
    pub dtpref: u32,
    pub maxfilesize: size3,
    pub time_delta: nfstime3,
    pub properties: u32,
}

impl Limits {
    pub const SIZE: usize = 24;
}

pub fn ftype3_at(src: &[u8], at: usize) -> Result<Took<ftype3>, Refusal>
    ensures { view result ≡ ftype.kind.read src.now at }
{
    let v = u32_at(src, at)?;
    let Some(x) = ftype3::of(v.value) else {
        return Err(Refusal::Undeclared(at));
    };
    Ok(Took {
        value: x,
        next: v.next,
        plain: true,
    })
}

pub fn specdata3_at(src: &[u8], at: usize) -> Result<Took<specdata3>, Refusal>
    ensures { view result ≡ specdata.kind.read src.now at }
{
    let specdata1_and_specdata2 = u32_pair_at(src, at)?;
    Ok(Took {
        value: specdata3 {
            specdata1: specdata1_and_specdata2.value.0,
            specdata2: specdata1_and_specdata2.value.1,
        },
        next: specdata1_and_specdata2.next,
        plain: specdata1_and_specdata2.plain,
    })
}

pub fn nfstime3_at(src: &[u8], at: usize) -> Result<Took<nfstime3>, Refusal>
    ensures { view result ≡ nfstime.kind.read src.now at }
{
    let seconds_and_nseconds = u32_pair_at(src, at)?;
    Ok(Took {
        value: nfstime3 {
            seconds: seconds_and_nseconds.value.0,
            nseconds: seconds_and_nseconds.value.1,
        },
        next: seconds_and_nseconds.next,
        plain: seconds_and_nseconds.plain,
    })
}

pub fn ids_at(src: &[u8], at: usize) -> Result<Took<Ids>, Refusal>
    ensures { view result ≡ ids.kind.read src.now at }
{
    let ftype = ftype3_at(src, at)?;
    let mode_and_nlink = u32_pair_at(src, ftype.next)?;
    let uid_and_gid = u32_pair_at(src, mode_and_nlink.next)?;
    Ok(Took {
        value: Ids {
            ftype: ftype.value,
            mode: mode_and_nlink.value.0,
            nlink: mode_and_nlink.value.1,
            uid: uid_and_gid.value.0,
            gid: uid_and_gid.value.1,
        },
        next: uid_and_gid.next,
        plain: ftype.plain & mode_and_nlink.plain & uid_and_gid.plain,
    })
}

pub fn sizes_at(src: &[u8], at: usize) -> Result<Took<Sizes>, Refusal>
    ensures { view result ≡ sizes.kind.read src.now at }
{
    let size_and_used = u64_pair_at(src, at)?;
    let rdev = specdata3_at(src, size_and_used.next)?;
    let fsid_and_fileid = u64_pair_at(src, rdev.next)?;
    Ok(Took {
        value: Sizes {
            size: size_and_used.value.0,
            used: size_and_used.value.1,
            rdev: rdev.value,
            fsid: fsid_and_fileid.value.0,
            fileid: fsid_and_fileid.value.1,
        },
        next: fsid_and_fileid.next,
        plain: size_and_used.plain & rdev.plain & fsid_and_fileid.plain,
    })
}

pub fn times_at(src: &[u8], at: usize) -> Result<Took<Times>, Refusal>
    ensures { view result ≡ times.kind.read src.now at }
{
    let atime = nfstime3_at(src, at)?;
    let mtime = nfstime3_at(src, atime.next)?;
    let ctime = nfstime3_at(src, mtime.next)?;
    Ok(Took {
        value: Times {
            atime: atime.value,
            mtime: mtime.value,
            ctime: ctime.value,
        },
        next: ctime.next,
        plain: atime.plain & mtime.plain & ctime.plain,
    })
}

fn fattr3_short(src: &[u8], at: usize) -> Result<Took<fattr3>, Refusal>
    ensures { view result ≡ fattr.kind.read src.now at }
{
    let ids = ids_at(src, at)?;
    let sizes = sizes_at(src, ids.next)?;
    let times = times_at(src, sizes.next)?;
    let ftype = ids.value.ftype;
    let rdev = sizes.value.rdev;
    let atime = times.value.atime;
    let mtime = times.value.mtime;
    let ctime = times.value.ctime;
    Ok(Took {
        value: fattr3 {
            ftype,
            mode: ids.value.mode,
            nlink: ids.value.nlink,
            uid: ids.value.uid,
            gid: ids.value.gid,
            size: sizes.value.size,
            used: sizes.value.used,
            rdev,
            fsid: sizes.value.fsid,
            fileid: sizes.value.fileid,
            atime,
            mtime,
            ctime,
        },
        next: times.next,
        plain: ids.plain & sizes.plain & times.plain,
    })
}

fn fattr3_whole(src: &[u8], at: usize) -> Result<Took<fattr3>, Refusal>
    ensures { view result ≡ fattr.kind.read src.now at }
{
    let ids = ids_at(src, at)?;
    let sizes = sizes_at(src, ids.next)?;
    let times = times_at(src, sizes.next)?;
    let ftype = ids.value.ftype;
    let rdev = sizes.value.rdev;
    let atime = times.value.atime;
    let mtime = times.value.mtime;
    let ctime = times.value.ctime;
    Ok(Took {
        value: fattr3 {
            ftype,
            mode: ids.value.mode,
            nlink: ids.value.nlink,
            uid: ids.value.uid,
            gid: ids.value.gid,
            size: sizes.value.size,
            used: sizes.value.used,
            rdev,
            fsid: sizes.value.fsid,
            fileid: sizes.value.fileid,
            atime,
            mtime,
            ctime,
        },
        next: times.next,
        plain: ids.plain & sizes.plain & times.plain,
    })
}

// Where all of it is there, one test of room will do: the compiler then drops those of the fields. It would make one call of two calls of
// one function, so the same body stands under two names.
pub fn fattr3_at(src: &[u8], at: usize) -> Result<Took<fattr3>, Refusal>
    ensures { view result ≡ fattr.kind.read src.now at }
{
    if src.len() < fattr3::SIZE {
        return fattr3_short(src, at);
    }
    if src.len() - fattr3::SIZE < at {
        return fattr3_short(src, at);
    }
    fattr3_whole(src, at)
}

pub fn wcc_attr_at(src: &[u8], at: usize) -> Result<Took<wcc_attr>, Refusal>
    ensures { view result ≡ wcc-attr.kind.read src.now at }
{
    let size = u64_at(src, at)?;
    let mtime = nfstime3_at(src, size.next)?;
    let ctime = nfstime3_at(src, mtime.next)?;
    Ok(Took {
        value: wcc_attr {
            size: size.value,
            mtime: mtime.value,
            ctime: ctime.value,
        },
        next: ctime.next,
        plain: size.plain & mtime.plain & ctime.plain,
    })
}

pub fn pre_op_attr_at(src: &[u8], at: usize) -> Result<Took<pre_op_attr>, Refusal>
    ensures { view result ≡ pre-op-attr.kind.read src.now at }
{
    let follows = bool_at(src, at)?;
    if !follows.value {
        return Ok(Took {
            value: pre_op_attr::Void,
            next: follows.next,
            plain: follows.plain,
        });
    }
    let v = wcc_attr_at(src, follows.next)?;
    Ok(Took {
        value: pre_op_attr::attributes(v.value),
        next: v.next,
        plain: follows.plain & v.plain,
    })
}

pub fn post_op_attr_at(src: &[u8], at: usize) -> Result<Took<post_op_attr>, Refusal>
    ensures { view result ≡ post-op-attr.kind.read src.now at }
{
    let follows = bool_at(src, at)?;
    if !follows.value {
        return Ok(Took {
            value: post_op_attr::Void,
            next: follows.next,
            plain: follows.plain,
        });
    }
    let v = fattr3_at(src, follows.next)?;
    Ok(Took {
        value: post_op_attr::attributes(v.value),
        next: v.next,
        plain: follows.plain & v.plain,
    })
}

pub fn wcc_data_at(src: &[u8], at: usize) -> Result<Took<wcc_data>, Refusal>
    ensures { view result ≡ wcc-data.kind.read src.now at }
{
    let before = pre_op_attr_at(src, at)?;
    let after = post_op_attr_at(src, before.next)?;
    Ok(Took {
        value: wcc_data {
            before: before.value,
            after: after.value,
        },
        next: after.next,
        plain: before.plain & after.plain,
    })
}

pub fn transfer_at(src: &[u8], at: usize) -> Result<Took<Transfer>, Refusal>
    ensures { view result ≡ transfer.kind.read src.now at }
{
    let max = u32_at(src, at)?;
    let pref_and_mult = u32_pair_at(src, max.next)?;
    Ok(Took {
        value: Transfer {
            max: max.value,
            pref: pref_and_mult.value.0,
            mult: pref_and_mult.value.1,
        },
        next: pref_and_mult.next,
        plain: max.plain & pref_and_mult.plain,
    })
}

pub fn limits_at(src: &[u8], at: usize) -> Result<Took<Limits>, Refusal>
    ensures { view result ≡ limits.kind.read src.now at }
{
    let dtpref = u32_at(src, at)?;
    let maxfilesize = u64_at(src, dtpref.next)?;
    let time_delta = nfstime3_at(src, maxfilesize.next)?;
    let properties = u32_at(src, time_delta.next)?;
    Ok(Took {
        value: Limits {
            dtpref: dtpref.value,
            maxfilesize: maxfilesize.value,
            time_delta: time_delta.value,
            properties: properties.value,
        },
        next: properties.next,
        plain: dtpref.plain & maxfilesize.plain & time_delta.plain & properties.plain,
    })
}

pub fn fsinfo3_at(src: &[u8], at: usize) -> Result<Took<fsinfo3>, Refusal>
    ensures { view result ≡ fsinfo.kind.read src.now at }
{
    let obj_attributes = post_op_attr_at(src, at)?;
    let rt = transfer_at(src, obj_attributes.next)?;
    let wt = transfer_at(src, rt.next)?;
    let rest = limits_at(src, wt.next)?;
    let time_delta = rest.value.time_delta;
    Ok(Took {
        value: fsinfo3 {
            obj_attributes: obj_attributes.value,
            rtmax: rt.value.max,
            rtpref: rt.value.pref,
            rtmult: rt.value.mult,
            wtmax: wt.value.max,
            wtpref: wt.value.pref,
            wtmult: wt.value.mult,
            dtpref: rest.value.dtpref,
            maxfilesize: rest.value.maxfilesize,
            time_delta,
            properties: rest.value.properties,
        },
        next: rest.next,
        plain: obj_attributes.plain & rt.plain & wt.plain & rest.plain,
    })
}
