// The exported writers of single values. Each takes the figures that the reader of its kind gives, without the first two, and writes from
// place `start` of out. 0: info holds the place after the value. After refusal 5 it holds how many bytes are needed, after the others 0.
// Where a list is too short the answer is 254, and where a number does not fit its field 253; then nothing is touched.
ghost use Rattle.std.specs.Prelude.{◌≡◌, ◌≤◌, ◌<◌, length};
ghost use Rattle.std.proofs.Math.Option.{some};
ghost use Rattle.xdr.specs.Meaning.Combinators.{among};
ghost use Rattle.xdr.specs.Meaning.Public.{laid};
ghost use Rattle.nfs.specs.Meaning.Change.{set_mode_to, set_uid_to, set_gid_to, set_size_to};
ghost use Rattle.nfs.specs.Meaning.Set.{atime_to, mtime_to};
ghost use Rattle.rpc.specs.Meaning.Closed.{flavor_number, flavors};
ghost use Rattle.door.specs.Meaning.Copy.{Is};
ghost use Rattle.xdr.specs.Meaning.Views.{view_found, view_option};
ghost use Rattle.door.specs.Meaning.Given.{low, are_words, fattr3_words, fattr3_by, fattr3_given, WriteFattr3Called, diropargs3_given, WriteDiropargs3Called, option_fits, time_fits, sattr3_fits, option_of, time_of, sattr3_by, WriteSattr3Called, call_words, call_by, call_given, WriteCallCalled, unix_words, unix_by, unix_given, WriteUnixCalled};
ghost use Rattle.door.specs.Laws.Parts.{Laid, sattr3_narrow, Tagged, word_bytes, hyper_bytes, time_bytes, owner_of, change_of, sattr_of, SattrQuick, ids_of, sizes_of, times_of, fattr_of, FattrQuick};

use crate::exports::{SHORT_LIST, tell_wrote};
use nfs::{
    diropargs3, fattr3, fit_diropargs3_from, ftype3, nfs_fh3, nfstime3, sattr3, set_atime,
    set_gid3, set_mode3, set_mtime, set_size3, set_uid3, specdata3, write_diropargs3_from,
    write_fattr3, write_sattr3,
};
use rpc::{auth_flavor, auth_unix, call_body, opaque_auth, write_auth_unix_from, write_call_from};
use xdr::inner::{
    opaque_size, put_bool, put_u32, put_u32_pair, put_u32_three, put_u32_u64, put_u64_pair,
};
use xdr::{MOST, Piece, inside};

// A number of a list does not fit its field.
pub const WIDE_NUMBER: u32 = 253;

// How many numbers fit a word. A number that was tested is its own rest.
pub(crate) const WORDS: u64 = 4294967296;

fn fattr3_words(fields: &[u64]) -> bool
    requires { 17 ≤ length fields.now }
    ensures { Is (are_words fattr3_words) fields.now result }
{
    (fields[0] < WORDS)
        & (fields[1] < WORDS)
        & (fields[2] < WORDS)
        & (fields[3] < WORDS)
        & (fields[4] < WORDS)
        & (fields[7] < WORDS)
        & (fields[8] < WORDS)
        & (fields[11] < WORDS)
        & (fields[12] < WORDS)
        & (fields[13] < WORDS)
        & (fields[14] < WORDS)
        & (fields[15] < WORDS)
        & (fields[16] < WORDS)
}

fn fattr3_of(fields: &[u64], ftype: ftype3) -> fattr3
    requires { 17 ≤ length fields.now }
    ensures { result ≡ fattr3_by low fields.now ftype }
{
    fattr3 {
        ftype,
        mode: (fields[1] % WORDS) as u32,
        nlink: (fields[2] % WORDS) as u32,
        uid: (fields[3] % WORDS) as u32,
        gid: (fields[4] % WORDS) as u32,
        size: fields[5],
        used: fields[6],
        rdev: specdata3 {
            specdata1: (fields[7] % WORDS) as u32,
            specdata2: (fields[8] % WORDS) as u32,
        },
        fsid: fields[9],
        fileid: fields[10],
        atime: nfstime3 {
            seconds: (fields[11] % WORDS) as u32,
            nseconds: (fields[12] % WORDS) as u32,
        },
        mtime: nfstime3 {
            seconds: (fields[13] % WORDS) as u32,
            nseconds: (fields[14] % WORDS) as u32,
        },
        ctime: nfstime3 {
            seconds: (fields[15] % WORDS) as u32,
            nseconds: (fields[16] % WORDS) as u32,
        },
    }
}

// What a list's numbers are: a fattr3, or none.
fn given_fattr3(fields: &[u64]) -> Option<fattr3>
    requires { 17 ≤ length fields.now }
    ensures { Is fattr3_given fields.now (view_option result) }
{
    if !fattr3_words(fields) {
        return None;
    }
    let ftype = ftype3::of((fields[0] % WORDS) as u32)?;
    Some(fattr3_of(fields, ftype))
}

// The figures are a fattr3, and there is room for it: then none is made.
fn fattr3_quick(fields: &[u64], len: usize, start: usize) -> bool
    requires { 17 ≤ length fields.now }
    ensures { FattrQuick fields.now len start result }
{
    if !fattr3_words(fields) {
        return false;
    }
    let Some(_) = ftype3::of((fields[0] % WORDS) as u32) else {
        return false;
    };
    if len < start {
        return false;
    }
    84 <= len - start
}

// Laid straight from the figures, in three parts.
fn lay_ids(fields: &[u64], out: &mut [u8])
    requires in_bounds { 17 ≤ length fields.now }
    requires in_bounds_2 { 20 ≤ length out.old }
    ensures { out.new ≡ laid (ids_of fields.now) out.old }
{
    put_u32((fields[0] % WORDS) as u32, &mut out[0..]);
    put_u32_pair(
        (fields[1] % WORDS) as u32,
        (fields[2] % WORDS) as u32,
        &mut out[4..],
    );
    put_u32_pair(
        (fields[3] % WORDS) as u32,
        (fields[4] % WORDS) as u32,
        &mut out[12..],
    );
}

fn lay_sizes(fields: &[u64], out: &mut [u8])
    requires in_bounds { 17 ≤ length fields.now }
    requires in_bounds_2 { 40 ≤ length out.old }
    ensures { out.new ≡ laid (sizes_of fields.now) out.old }
{
    put_u64_pair(fields[5], fields[6], &mut out[0..]);
    put_u32_pair(
        (fields[7] % WORDS) as u32,
        (fields[8] % WORDS) as u32,
        &mut out[16..],
    );
    put_u64_pair(fields[9], fields[10], &mut out[24..]);
}

fn lay_times(fields: &[u64], out: &mut [u8])
    requires in_bounds { 17 ≤ length fields.now }
    requires in_bounds_2 { 24 ≤ length out.old }
    ensures { out.new ≡ laid (times_of fields.now) out.old }
{
    put_u32_pair(
        (fields[11] % WORDS) as u32,
        (fields[12] % WORDS) as u32,
        &mut out[0..],
    );
    put_u32_pair(
        (fields[13] % WORDS) as u32,
        (fields[14] % WORDS) as u32,
        &mut out[8..],
    );
    put_u32_pair(
        (fields[15] % WORDS) as u32,
        (fields[16] % WORDS) as u32,
        &mut out[16..],
    );
}

fn lay_fattr3(fields: &[u64], out: &mut [u8])
    requires in_bounds { 17 ≤ length fields.now }
    requires in_bounds_2 { 84 ≤ length out.old }
    ensures { out.new ≡ laid (fattr_of fields.now) out.old }
{
    lay_ids(fields, &mut out[0..]);
    lay_sizes(fields, &mut out[20..]);
    lay_times(fields, &mut out[60..]);
}

// Where a number is wide, the type is not declared, or there is no room: it says which. It is handed slices of its own, so that those of its
// caller need not lie in memory.
fn write_fattr3_carefully(fields: &[u64], out: &mut [u8], start: usize, info: &mut [u64]) -> u32
    requires in_bounds { 17 ≤ length fields.now }
    requires in_bounds_2 { 1 ≤ length info.old }
    ensures { WriteFattr3Called fields.now out.old start info.old result out.new info.new }
{
    let Some(v) = given_fattr3(fields) else {
        return WIDE_NUMBER;
    };
    let w = write_fattr3(v, out, start);
    tell_wrote(w, info)
}

pub fn yugerzat_write_fattr3(fields: &[u64], out: &mut [u8], start: usize, info: &mut [u64]) -> u32
    ensures { WriteFattr3Called fields.now out.old start info.old result out.new info.new }
{
    if fields.len() < 17 {
        return SHORT_LIST;
    }
    if info.len() < 1 {
        return SHORT_LIST;
    }
    if !fattr3_quick(fields, out.len(), start) {
        return write_fattr3_carefully(&fields[0..], &mut out[0..], start, &mut info[0..]);
    }
    lay_fattr3(fields, &mut out[start..]);
    info[0] = (start + 84) as u64;
    0
}

// Every figure is a place or a count.
fn diropargs3_of(fields: &[u64]) -> diropargs3
    requires { 4 ≤ length fields.now }
    ensures { Is diropargs3_given fields.now (some result) }
{
    diropargs3 {
        dir: nfs_fh3 {
            data: Piece {
                at: fields[0] as usize,
                count: fields[1] as usize,
                clean: true,
            },
        },
        name: Piece {
            at: fields[2] as usize,
            count: fields[3] as usize,
            clean: true,
        },
    }
}

// Where it does not fit: it says why. It is handed slices of its own too, and hands on one of its own: so its caller need not keep how many
// figures there are.
fn write_diropargs3_carefully(
    dirs: &[u8],
    names: &[u8],
    fields: &[u64],
    out: &mut [u8],
    start: usize,
    info: &mut [u64],
) -> u32
    requires in_bounds { 4 ≤ length fields.now }
    requires in_bounds_2 { 1 ≤ length info.old }
    ensures { WriteDiropargs3Called dirs.now names.now fields.now out.old start info.old result out.new info.new }
{
    let v = diropargs3_of(&fields[0..]);
    let w = write_diropargs3_from(dirs, names, v, out, start);
    tell_wrote(w, info)
}

// The handle is a piece of dirs, and the name of names.
pub fn yugerzat_write_diropargs3(
    dirs: &[u8],
    names: &[u8],
    fields: &[u64],
    out: &mut [u8],
    start: usize,
    info: &mut [u64],
) -> u32
    ensures { WriteDiropargs3Called dirs.now names.now fields.now out.old start info.old result out.new info.new }
{
    if fields.len() < 4 {
        return SHORT_LIST;
    }
    if info.len() < 1 {
        return SHORT_LIST;
    }
    let v = diropargs3_of(fields);
    let fitted = fit_diropargs3_from(dirs, names, v, out, start);
    let Some(end) = fitted else {
        return write_diropargs3_carefully(
            &dirs[0..],
            &names[0..],
            &fields[0..],
            &mut out[0..],
            start,
            &mut info[0..],
        );
    };
    info[0] = end as u64;
    0
}

fn option_fits(flag: u64, v: u64) -> bool
    ensures { result ≡ option_fits flag v }
{
    (flag == 0) | (v < WORDS)
}

fn time_fits(tag: u64, seconds: u64, nseconds: u64) -> bool
    ensures { result ≡ time_fits tag seconds nseconds }
{
    (tag < 2) | ((tag == 2) & ((seconds < WORDS) & (nseconds < WORDS)))
}

fn sattr3_fits(fields: &[u64]) -> bool
    requires { 14 ≤ length fields.now }
    ensures { Is sattr3_fits fields.now result }
{
    let mode = option_fits(fields[0], fields[1]);
    let uid = option_fits(fields[2], fields[3]);
    let gid = option_fits(fields[4], fields[5]);
    let atime = time_fits(fields[8], fields[9], fields[10]);
    let mtime = time_fits(fields[11], fields[12], fields[13]);
    mode & uid & gid & atime & mtime
}

fn mode_of(flag: u64, v: u64) -> set_mode3
    ensures { result ≡ set_mode_to (option_of flag (low v)) }
{
    if flag == 0 {
        return set_mode3::Void;
    }
    set_mode3::mode((v % WORDS) as u32)
}

fn uid_of(flag: u64, v: u64) -> set_uid3
    ensures { result ≡ set_uid_to (option_of flag (low v)) }
{
    if flag == 0 {
        return set_uid3::Void;
    }
    set_uid3::uid((v % WORDS) as u32)
}

fn gid_of(flag: u64, v: u64) -> set_gid3
    ensures { result ≡ set_gid_to (option_of flag (low v)) }
{
    if flag == 0 {
        return set_gid3::Void;
    }
    set_gid3::gid((v % WORDS) as u32)
}

fn size_of(flag: u64, v: u64) -> set_size3
    ensures { result ≡ set_size_to (option_of flag v) }
{
    if flag == 0 {
        return set_size3::Void;
    }
    set_size3::size(v)
}

fn atime_of(tag: u64, seconds: u64, nseconds: u64) -> set_atime
    ensures { result ≡ atime_to (time_of tag (low seconds) (low nseconds)) }
{
    if tag == 0 {
        return set_atime::DONT_CHANGE;
    }
    if tag == 1 {
        return set_atime::SET_TO_SERVER_TIME;
    }
    set_atime::SET_TO_CLIENT_TIME(nfstime3 {
        seconds: (seconds % WORDS) as u32,
        nseconds: (nseconds % WORDS) as u32,
    })
}

fn mtime_of(tag: u64, seconds: u64, nseconds: u64) -> set_mtime
    ensures { result ≡ mtime_to (time_of tag (low seconds) (low nseconds)) }
{
    if tag == 0 {
        return set_mtime::DONT_CHANGE;
    }
    if tag == 1 {
        return set_mtime::SET_TO_SERVER_TIME;
    }
    set_mtime::SET_TO_CLIENT_TIME(nfstime3 {
        seconds: (seconds % WORDS) as u32,
        nseconds: (nseconds % WORDS) as u32,
    })
}

fn sattr3_of(fields: &[u64]) -> sattr3
    requires { 14 ≤ length fields.now }
    ensures { result ≡ sattr3_by low fields.now }
{
    let mode = mode_of(fields[0], fields[1]);
    let uid = uid_of(fields[2], fields[3]);
    let gid = gid_of(fields[4], fields[5]);
    let size = size_of(fields[6], fields[7]);
    let atime = atime_of(fields[8], fields[9], fields[10]);
    let mtime = mtime_of(fields[11], fields[12], fields[13]);
    sattr3 {
        mode,
        uid,
        gid,
        size,
        atime,
        mtime,
    }
}

// Every number that may be a word is one, and every tag is declared: what stands behind a flag of 0 too, so that it is one test.
fn sattr3_narrow(fields: &[u64]) -> bool
    requires { 14 ≤ length fields.now }
    ensures { Is sattr3_narrow fields.now result }
{
    (fields[1] < WORDS)
        & (fields[3] < WORDS)
        & (fields[5] < WORDS)
        & (fields[9] < WORDS)
        & (fields[10] < WORDS)
        & (fields[12] < WORDS)
        & (fields[13] < WORDS)
        & (fields[8] < 3)
        & (fields[11] < 3)
}

// Narrow figures, and room for the longest sattr3: then no sattr3 is made, and its size is not asked.
fn sattr3_quick(fields: &[u64], len: usize, start: usize) -> bool
    requires { 14 ≤ length fields.now }
    ensures { SattrQuick fields.now len start result }
{
    if !sattr3_narrow(fields) {
        return false;
    }
    if len < start {
        return false;
    }
    60 <= len - start
}

// Laid straight from the figures: each answers how many bytes it laid. The room is for the most that it can be.
fn lay_word(flag: u64, v: u64, out: &mut [u8]) -> usize
    requires { 8 ≤ length out.old }
    ensures { Laid 8 (word_bytes flag v) out.old result out.new }
{
    if flag == 0 {
        put_bool(false, out);
        return 4;
    }
    put_u32_pair(1, (v % WORDS) as u32, out);
    8
}

fn lay_hyper(flag: u64, v: u64, out: &mut [u8]) -> usize
    requires { 12 ≤ length out.old }
    ensures { Laid 12 (hyper_bytes flag v) out.old result out.new }
{
    if flag == 0 {
        put_bool(false, out);
        return 4;
    }
    put_u32_u64(1, v, out);
    12
}

fn lay_time(tag: u64, seconds: u64, nseconds: u64, out: &mut [u8]) -> usize
    requires tag_bound { tag < 3 }
    requires in_bounds { 12 ≤ length out.old }
    ensures { Laid 12 (time_bytes tag seconds nseconds) out.old result out.new }
{
    if tag != 2 {
        put_u32(tag as u32, out);
        return 4;
    }
    put_u32_three(2, (seconds % WORDS) as u32, (nseconds % WORDS) as u32, out);
    12
}

fn lay_owner(fields: &[u64], out: &mut [u8]) -> usize
    requires in_bounds { 14 ≤ length fields.now }
    requires in_bounds_2 { 24 ≤ length out.old }
    ensures { Laid 24 (owner_of fields.now) out.old result out.new }
{
    let n1 = lay_word(fields[0], fields[1], &mut out[0..]);
    let n2 = n1 + lay_word(fields[2], fields[3], &mut out[n1..]);
    n2 + lay_word(fields[4], fields[5], &mut out[n2..])
}

fn lay_change(fields: &[u64], out: &mut [u8]) -> usize
    requires in_bounds { 14 ≤ length fields.now }
    requires tagged { Tagged fields.now }
    requires in_bounds_2 { 36 ≤ length out.old }
    ensures { Laid 36 (change_of fields.now) out.old result out.new }
{
    let n1 = lay_hyper(fields[6], fields[7], &mut out[0..]);
    let n2 = n1 + lay_time(fields[8], fields[9], fields[10], &mut out[n1..]);
    n2 + lay_time(fields[11], fields[12], fields[13], &mut out[n2..])
}

fn lay_sattr3(fields: &[u64], out: &mut [u8]) -> usize
    requires in_bounds { 14 ≤ length fields.now }
    requires tagged { Tagged fields.now }
    requires in_bounds_2 { 60 ≤ length out.old }
    ensures { Laid 60 (sattr_of fields.now) out.old result out.new }
{
    let n = lay_owner(fields, &mut out[0..]);
    n + lay_change(fields, &mut out[n..])
}

// Where a number is wide, or fewer bytes are free than the longest sattr3 has: by the sattr3 itself, whose size is asked. It is handed slices
// of its own too.
fn write_sattr3_carefully(fields: &[u64], out: &mut [u8], start: usize, info: &mut [u64]) -> u32
    requires in_bounds { 14 ≤ length fields.now }
    requires in_bounds_2 { 1 ≤ length info.old }
    ensures { WriteSattr3Called fields.now out.old start info.old result out.new info.new }
{
    if !sattr3_fits(fields) {
        return WIDE_NUMBER;
    }
    let v = sattr3_of(fields);
    let w = write_sattr3(v, out, start);
    tell_wrote(w, info)
}

// A flag other than 0 is true. What stands behind a flag of 0, or a time's tag of 0 or 1, is passed over.
pub fn yugerzat_write_sattr3(fields: &[u64], out: &mut [u8], start: usize, info: &mut [u64]) -> u32
    ensures { WriteSattr3Called fields.now out.old start info.old result out.new info.new }
{
    if fields.len() < 14 {
        return SHORT_LIST;
    }
    if info.len() < 1 {
        return SHORT_LIST;
    }
    if !sattr3_quick(fields, out.len(), start) {
        return write_sattr3_carefully(&fields[0..], &mut out[0..], start, &mut info[0..]);
    }
    let n = lay_sattr3(fields, &mut out[start..]);
    info[0] = (start + n) as u64;
    0
}

pub(crate) fn flavor_of(v: u64) -> Option<auth_flavor>
    ensures { view_found result ≡ among flavor_number flavors v }
{
    match v {
        0 => Some(auth_flavor::AUTH_NULL),
        1 => Some(auth_flavor::AUTH_UNIX),
        2 => Some(auth_flavor::AUTH_SHORT),
        3 => Some(auth_flavor::AUTH_DES),
        _ => None,
    }
}

fn call_words(fields: &[u64]) -> bool
    requires { 11 ≤ length fields.now }
    ensures { Is (are_words call_words) fields.now result }
{
    (fields[0] < WORDS)
        & (fields[1] < WORDS)
        & (fields[2] < WORDS)
        & (fields[3] < WORDS)
        & (fields[4] < WORDS)
}

fn call_of(fields: &[u64], cred: auth_flavor, verf: auth_flavor) -> call_body
    requires { 11 ≤ length fields.now }
    ensures { result ≡ call_by low fields.now cred verf }
{
    call_body {
        rpcvers: (fields[1] % WORDS) as u32,
        prog: (fields[2] % WORDS) as u32,
        vers: (fields[3] % WORDS) as u32,
        proc: (fields[4] % WORDS) as u32,
        cred: opaque_auth {
            flavor: cred,
            body: Piece {
                at: fields[6] as usize,
                count: fields[7] as usize,
                clean: true,
            },
        },
        verf: opaque_auth {
            flavor: verf,
            body: Piece {
                at: fields[9] as usize,
                count: fields[10] as usize,
                clean: true,
            },
        },
    }
}

// What a list's numbers are: a call with its xid, or none.
fn given_call(fields: &[u64]) -> Option<(u32, call_body)>
    requires { 11 ≤ length fields.now }
    ensures { Is call_given fields.now (view_option result) }
{
    if !call_words(fields) {
        return None;
    }
    let cred = flavor_of(fields[5])?;
    let verf = flavor_of(fields[8])?;
    Some(((fields[0] % WORDS) as u32, call_of(fields, cred, verf)))
}

// Whether a call fits, by tests that end at the first no. It promises nothing: whatever it says, the same is written.
fn call_room(creds: &[u8], verfs: &[u8], fields: &[u64], room: usize, start: usize) -> bool
    requires { 11 ≤ length fields.now }
{
    if MOST < creds.len() {
        return false;
    }
    if MOST < verfs.len() {
        return false;
    }
    let cred = Piece {
        at: fields[6] as usize,
        count: fields[7] as usize,
        clean: true,
    };
    let verf = Piece {
        at: fields[9] as usize,
        count: fields[10] as usize,
        clean: true,
    };
    if !inside(creds, cred) {
        return false;
    }
    if !inside(verfs, verf) {
        return false;
    }
    let size = 32 + opaque_size(cred.count) + opaque_size(verf.count);
    if MOST < size {
        return false;
    }
    if room < start {
        return false;
    }
    size <= room - start
}

fn write_given_call(
    creds: &[u8],
    verfs: &[u8],
    fields: &[u64],
    out: &mut [u8],
    start: usize,
    info: &mut [u64],
) -> u32
    requires in_bounds { 11 ≤ length fields.now }
    requires in_bounds_2 { 1 ≤ length info.old }
    ensures { WriteCallCalled creds.now verfs.now fields.now out.old start info.old result out.new info.new }
{
    let Some((xid, call)) = given_call(fields) else {
        return WIDE_NUMBER;
    };
    let w = write_call_from(creds, verfs, xid, call, out, start);
    tell_wrote(w, info)
}

// The same where it does not fit, so that where it does the compiler need keep nothing for refusals. It is lent slices of its own.
fn write_call_carefully(
    creds: &[u8],
    verfs: &[u8],
    fields: &[u64],
    out: &mut [u8],
    start: usize,
    info: &mut [u64],
) -> u32
    requires in_bounds { 11 ≤ length fields.now }
    requires in_bounds_2 { 1 ≤ length info.old }
    ensures { WriteCallCalled creds.now verfs.now fields.now out.old start info.old result out.new info.new }
{
    write_given_call(creds, verfs, fields, out, start, info)
}

// The figures of a call: xid, rpcvers, prog, vers, proc, then flavor, place and count of the credential, a piece of creds, and of the
// verifier, a piece of verfs.
pub fn yugerzat_write_call(
    creds: &[u8],
    verfs: &[u8],
    fields: &[u64],
    out: &mut [u8],
    start: usize,
    info: &mut [u64],
) -> u32
    ensures { WriteCallCalled creds.now verfs.now fields.now out.old start info.old result out.new info.new }
{
    if fields.len() < 11 {
        return SHORT_LIST;
    }
    if info.len() < 1 {
        return SHORT_LIST;
    }
    if call_room(creds, verfs, fields, out.len(), start) {
        return write_given_call(creds, verfs, fields, out, start, info);
    }
    write_call_carefully(
        &creds[0..],
        &verfs[0..],
        &fields[0..],
        &mut out[0..],
        start,
        &mut info[0..],
    )
}

fn unix_words(fields: &[u64]) -> bool
    requires { 7 ≤ length fields.now }
    ensures { Is (are_words unix_words) fields.now result }
{
    (fields[0] < WORDS) & (fields[3] < WORDS) & (fields[4] < WORDS)
}

fn unix_of(fields: &[u64]) -> auth_unix
    requires { 7 ≤ length fields.now }
    ensures { result ≡ unix_by low fields.now }
{
    auth_unix {
        stamp: (fields[0] % WORDS) as u32,
        machinename: Piece {
            at: fields[1] as usize,
            count: fields[2] as usize,
            clean: true,
        },
        uid: (fields[3] % WORDS) as u32,
        gid: (fields[4] % WORDS) as u32,
        gids: Piece {
            at: fields[5] as usize,
            count: fields[6] as usize,
            clean: true,
        },
    }
}

// What a list's numbers are: an auth_unix, or none.
fn given_unix(fields: &[u64]) -> Option<auth_unix>
    requires { 7 ≤ length fields.now }
    ensures { Is unix_given fields.now (view_option result) }
{
    if !unix_words(fields) {
        return None;
    }
    Some(unix_of(fields))
}

// The figures of an auth_unix: stamp, place and count of the name, a piece of names, uid, gid, and place and count of the gids, words of groups.
pub fn yugerzat_write_auth_unix(
    names: &[u8],
    groups: &[u8],
    fields: &[u64],
    out: &mut [u8],
    start: usize,
    info: &mut [u64],
) -> u32
    ensures { WriteUnixCalled names.now groups.now fields.now out.old start info.old result out.new info.new }
{
    if fields.len() < 7 {
        return SHORT_LIST;
    }
    if info.len() < 1 {
        return SHORT_LIST;
    }
    let Some(v) = given_unix(fields) else {
        return WIDE_NUMBER;
    };
    let w = write_auth_unix_from(names, groups, v, out, start);
    tell_wrote(w, info)
}
