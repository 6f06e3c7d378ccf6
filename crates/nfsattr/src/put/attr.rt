// Attributes.
ghost use Rattle.std.specs.Prelude.{◌≡◌, ◌++◌, length};
ghost use Rattle.nfsattr.specs.Meaning.Attr.{ftype, specdata, nfstime, fattr, wcc-attr, pre-op-attr, post-op-attr, wcc-data, fsinfo};
ghost use Rattle.nfsattr.specs.Laws.Groups.{ids, sizes, times, transfer, limits};
ghost use Rattle.xdr.specs.Meaning.Public.{laid};

use crate::attr::{
    fattr3, fileid3, fsinfo3, ftype3, gid3, mode3, nfstime3, post_op_attr, pre_op_attr, size3,
    specdata3, uid3, wcc_attr, wcc_data,
};
use crate::inner::attr::{Ids, Limits, Sizes, Times, Transfer};
use xdr::inner::{
    put_bool, put_u32, put_u32_pair, put_u32_three, put_u32_u64, put_u64, put_u64_pair,
};

pub fn put_ftype3(v: ftype3, out: &mut [u8])
    ensures { out.new ≡ laid (ftype.kind.write v) out.old }
{
    put_u32(v.number(), out);
}

pub fn put_specdata3(v: specdata3, out: &mut [u8])
    ensures { out.new ≡ laid (specdata.kind.write v) out.old }
{
    put_u32_pair(v.specdata1, v.specdata2, out);
}

pub fn put_nfstime3(v: nfstime3, out: &mut [u8])
    ensures { out.new ≡ laid (nfstime.kind.write v) out.old }
{
    put_u32_pair(v.seconds, v.nseconds, out);
}

fn put_ids(ftype: ftype3, mode: mode3, nlink: u32, uid: uid3, gid: gid3, out: &mut [u8])
    ensures { out.new ≡ laid (ids.kind.write (record { ftype = ftype; mode = mode; nlink = nlink; uid = uid; gid = gid })) out.old }
{
    if out.len() < Ids::SIZE {
        return;
    }
    put_ftype3(ftype, &mut out[0..]);
    put_u32_pair(mode, nlink, &mut out[4..]);
    put_u32_pair(uid, gid, &mut out[12..]);
}

fn put_sizes(size: size3, used: size3, rdev: specdata3, fsid: u64, fileid: fileid3, out: &mut [u8])
    ensures { out.new ≡ laid (sizes.kind.write (record { size = size; used = used; rdev = rdev; fsid = fsid; fileid = fileid })) out.old }
{
    if out.len() < Sizes::SIZE {
        return;
    }
    put_u64_pair(size, used, &mut out[0..]);
    put_specdata3(rdev, &mut out[16..]);
    put_u64_pair(fsid, fileid, &mut out[24..]);
}

fn put_two_times(first: nfstime3, second: nfstime3, out: &mut [u8])
    ensures { out.new ≡ laid (nfstime.kind.write first ++ nfstime.kind.write second) out.old }
{
    if out.len() < 16 {
        return;
    }
    put_nfstime3(first, &mut out[0..]);
    put_nfstime3(second, &mut out[8..]);
}

fn put_times(atime: nfstime3, mtime: nfstime3, ctime: nfstime3, out: &mut [u8])
    ensures { out.new ≡ laid (times.kind.write (record { atime = atime; mtime = mtime; ctime = ctime })) out.old }
{
    if out.len() < Times::SIZE {
        return;
    }
    put_nfstime3(atime, &mut out[0..]);
    put_two_times(mtime, ctime, &mut out[8..]);
}

pub fn put_fattr3(v: fattr3, out: &mut [u8])
    ensures { out.new ≡ laid (fattr.kind.write v) out.old }
{
    if out.len() < fattr3::SIZE {
        return;
    }
    let ftype = v.ftype;
    put_ids(ftype, v.mode, v.nlink, v.uid, v.gid, &mut out[0..]);
    put_sizes(v.size, v.used, v.rdev, v.fsid, v.fileid, &mut out[20..]);
    put_times(v.atime, v.mtime, v.ctime, &mut out[60..]);
}

pub fn put_wcc_attr(v: wcc_attr, out: &mut [u8])
    ensures { out.new ≡ laid (wcc-attr.kind.write v) out.old }
{
    if out.len() < wcc_attr::SIZE {
        return;
    }
    put_u64(v.size, &mut out[0..]);
    put_two_times(v.mtime, v.ctime, &mut out[8..]);
}

pub fn put_pre_op_attr(v: pre_op_attr, out: &mut [u8])
    ensures { out.new ≡ laid (pre-op-attr.kind.write v) out.old }
{
    match v {
        pre_op_attr::Void => put_bool(false, out),
        pre_op_attr::attributes(x) => {
            if out.len() < 4 + wcc_attr::SIZE {
                return;
            }
            put_bool(true, &mut out[0..]);
            put_wcc_attr(x, &mut out[4..]);
        }
    }
}

pub fn pre_op_attr_size(v: pre_op_attr) -> usize
    ensures { result ≡ length (pre-op-attr.kind.write v) }
{
    match v {
        pre_op_attr::Void => 4,
        pre_op_attr::attributes(_) => 4 + wcc_attr::SIZE,
    }
}

pub fn put_post_op_attr(v: post_op_attr, out: &mut [u8])
    ensures { out.new ≡ laid (post-op-attr.kind.write v) out.old }
{
    match v {
        post_op_attr::Void => put_bool(false, out),
        post_op_attr::attributes(x) => {
            if out.len() < 4 + fattr3::SIZE {
                return;
            }
            put_bool(true, &mut out[0..]);
            put_fattr3(x, &mut out[4..]);
        }
    }
}

pub fn post_op_attr_size(v: post_op_attr) -> usize
    ensures { result ≡ length (post-op-attr.kind.write v) }
{
    match v {
        post_op_attr::Void => 4,
        post_op_attr::attributes(_) => 4 + fattr3::SIZE,
    }
}

pub fn put_wcc_data(v: wcc_data, out: &mut [u8])
    ensures { out.new ≡ laid (wcc-data.kind.write v) out.old }
{
    let before = v.before;
    let after = v.after;
    let n = pre_op_attr_size(before);
    if out.len() < n + post_op_attr_size(after) {
        return;
    }
    put_pre_op_attr(before, &mut out[0..]);
    put_post_op_attr(after, &mut out[n..]);
}

pub fn wcc_data_size(v: wcc_data) -> usize
    ensures { result ≡ length (wcc-data.kind.write v) }
{
    let before = v.before;
    let after = v.after;
    pre_op_attr_size(before) + post_op_attr_size(after)
}

pub fn put_transfer(v: Transfer, out: &mut [u8])
    ensures { out.new ≡ laid (transfer.kind.write v) out.old }
{
    put_u32_three(v.max, v.pref, v.mult, out);
}

pub fn put_limits(v: Limits, out: &mut [u8])
    ensures { out.new ≡ laid (limits.kind.write v) out.old }
{
    if out.len() < Limits::SIZE {
        return;
    }
    put_u32_u64(v.dtpref, v.maxfilesize, &mut out[0..]);
    put_u32_three(
        v.time_delta.seconds,
        v.time_delta.nseconds,
        v.properties,
        &mut out[12..],
    );
}

fn put_transfers(rt: Transfer, wt: Transfer, out: &mut [u8])
    ensures { out.new ≡ laid (transfer.kind.write rt ++ transfer.kind.write wt) out.old }
{
    if out.len() < 24 {
        return;
    }
    put_transfer(rt, &mut out[0..]);
    put_transfer(wt, &mut out[12..]);
}

// What stands behind the attributes of `fsinfo3`.
const BOUNDS: usize = 48;

fn put_bounds(rt: Transfer, wt: Transfer, rest: Limits, out: &mut [u8])
    ensures { out.new ≡ laid ((transfer.kind.write rt ++ transfer.kind.write wt) ++ limits.kind.write rest) out.old }
{
    if out.len() < BOUNDS {
        return;
    }
    put_transfers(rt, wt, &mut out[0..]);
    put_limits(rest, &mut out[24..]);
}

pub fn put_fsinfo3(v: fsinfo3, out: &mut [u8])
    ensures { out.new ≡ laid (fsinfo.kind.write v) out.old }
{
    let attributes = v.obj_attributes;
    let time_delta = v.time_delta;
    let rt = Transfer {
        max: v.rtmax,
        pref: v.rtpref,
        mult: v.rtmult,
    };
    let wt = Transfer {
        max: v.wtmax,
        pref: v.wtpref,
        mult: v.wtmult,
    };
    let rest = Limits {
        dtpref: v.dtpref,
        maxfilesize: v.maxfilesize,
        time_delta,
        properties: v.properties,
    };
    let n = post_op_attr_size(attributes);
    if out.len() < n + BOUNDS {
        return;
    }
    put_post_op_attr(attributes, &mut out[0..]);
    put_bounds(rt, wt, rest, &mut out[n..]);
}

pub fn fsinfo3_size(v: fsinfo3) -> usize
    ensures { result ≡ length (fsinfo.kind.write v) }
{
    let attributes = v.obj_attributes;
    post_op_attr_size(attributes) + BOUNDS
}
