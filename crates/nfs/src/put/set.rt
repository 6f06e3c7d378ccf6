// What may be set.
ghost use Rattle.std.specs.Prelude.{◌≡◌, length};
ghost use Rattle.nfs.specs.Meaning.Set.{set-atime, set-mtime, sattr};
ghost use Rattle.xdr.specs.Meaning.Public.{laid};
ghost use Rattle.nfs.specs.Laws.Bytes.{owner_bytes, change_bytes};

use crate::change::{
    put_set_gid3, put_set_mode3, put_set_size3, put_set_uid3, set_gid3, set_gid3_size, set_mode3,
    set_mode3_size, set_size3, set_size3_size, set_uid3, set_uid3_size,
};
use crate::set::{sattr3, set_atime, set_mtime};
use nfsattr::attr::nfstime3;
use xdr::inner::{put_bool, put_u32, put_u32_pair, put_u32_three, put_u32_u64};

pub fn put_set_atime(v: set_atime, out: &mut [u8])
    ensures { out.new ≡ laid (set-atime.kind.write v) out.old }
{
    match v {
        set_atime::DONT_CHANGE => put_u32(0, out),
        set_atime::SET_TO_SERVER_TIME => put_u32(1, out),
        set_atime::SET_TO_CLIENT_TIME(t) => put_u32_three(2, t.seconds, t.nseconds, out),
    }
}

pub fn set_atime_size(v: set_atime) -> usize
    ensures { result ≡ length (set-atime.kind.write v) }
{
    match v {
        set_atime::DONT_CHANGE => 4,
        set_atime::SET_TO_SERVER_TIME => 4,
        set_atime::SET_TO_CLIENT_TIME(_) => 4 + nfstime3::SIZE,
    }
}

pub fn put_set_mtime(v: set_mtime, out: &mut [u8])
    ensures { out.new ≡ laid (set-mtime.kind.write v) out.old }
{
    match v {
        set_mtime::DONT_CHANGE => put_u32(0, out),
        set_mtime::SET_TO_SERVER_TIME => put_u32(1, out),
        set_mtime::SET_TO_CLIENT_TIME(t) => put_u32_three(2, t.seconds, t.nseconds, out),
    }
}

pub fn set_mtime_size(v: set_mtime) -> usize
    ensures { result ≡ length (set-mtime.kind.write v) }
{
    match v {
        set_mtime::DONT_CHANGE => 4,
        set_mtime::SET_TO_SERVER_TIME => 4,
        set_mtime::SET_TO_CLIENT_TIME(_) => 4 + nfstime3::SIZE,
    }
}

// `sattr3` in two halves.
fn owner_size(mode: set_mode3, uid: set_uid3, gid: set_gid3) -> usize
    ensures { result ≡ length (owner_bytes mode uid gid) }
{
    let n1 = set_mode3_size(mode);
    let n2 = n1 + set_uid3_size(uid);
    n2 + set_gid3_size(gid)
}

fn put_owner(mode: set_mode3, uid: set_uid3, gid: set_gid3, out: &mut [u8])
    ensures { out.new ≡ laid (owner_bytes mode uid gid) out.old }
{
    let n1 = set_mode3_size(mode);
    let n2 = n1 + set_uid3_size(uid);
    if out.len() < n2 + set_gid3_size(gid) {
        return;
    }
    put_set_mode3(mode, &mut out[0..]);
    put_set_uid3(uid, &mut out[n1..]);
    put_set_gid3(gid, &mut out[n2..]);
}

fn change_size(size: set_size3, atime: set_atime, mtime: set_mtime) -> usize
    ensures { result ≡ length (change_bytes size atime mtime) }
{
    let n1 = set_size3_size(size);
    let n2 = n1 + set_atime_size(atime);
    n2 + set_mtime_size(mtime)
}

fn put_change(size: set_size3, atime: set_atime, mtime: set_mtime, out: &mut [u8])
    ensures { out.new ≡ laid (change_bytes size atime mtime) out.old }
{
    let n1 = set_size3_size(size);
    let n2 = n1 + set_atime_size(atime);
    if out.len() < n2 + set_mtime_size(mtime) {
        return;
    }
    put_set_size3(size, &mut out[0..]);
    put_set_atime(atime, &mut out[n1..]);
    put_set_mtime(mtime, &mut out[n2..]);
}

pub fn sattr3_size(v: sattr3) -> usize
    ensures { result ≡ length (sattr.kind.write v) }
{
    let mode = v.mode;
    let uid = v.uid;
    let gid = v.gid;
    let size = v.size;
    let atime = v.atime;
    let mtime = v.mtime;
    owner_size(mode, uid, gid) + change_size(size, atime, mtime)
}

pub fn put_sattr3(v: sattr3, out: &mut [u8])
    ensures { out.new ≡ laid (sattr.kind.write v) out.old }
{
    let mode = v.mode;
    let uid = v.uid;
    let gid = v.gid;
    let size = v.size;
    let atime = v.atime;
    let mtime = v.mtime;
    let n = owner_size(mode, uid, gid);
    if out.len() < n + change_size(size, atime, mtime) {
        return;
    }
    put_owner(mode, uid, gid, &mut out[0..]);
    put_change(size, atime, mtime, &mut out[n..]);
}
