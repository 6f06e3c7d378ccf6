// The exported readers of single values. Each takes a list for its figures: 254 where it is too short, and then nothing is touched. 0: the
// list holds the place after the value, 1 if it was in published form and else 0, and the value's figures. A refusal: its place,
// how many bytes it wants, and zeros.
ghost use Rattle.std.specs.Prelude.{◌≡◌, true, cond, [], ◌∷◌, ◌++◌, ◌+◌, ◌≤◌, length, drop, replicate};
ghost use Rattle.xdr.specs.Meaning.Refusal.{number_of, place_of, wanting_of};
ghost use Rattle.nfs.specs.Meaning.Change.{set_mode_from, set_uid_from, set_gid_from, set_size_from};
ghost use Rattle.nfs.specs.Meaning.Set.{atime_from, mtime_from};
ghost use Rattle.rpc.specs.Meaning.Crate.{crate};
ghost use Rattle.rpc.specs.declared.message.rpc_body.TheVariants.{REPLY};
ghost use Rattle.rpc.specs.declared.reply.reply_body.TheVariants.{MSG_ACCEPTED, MSG_DENIED};
ghost use Rattle.door.specs.Meaning.Figures.{Shown, Shows};
ghost use Rattle.door.specs.Meaning.Values.{piece_figures, diropargs3_figures, Diropargs3Called, fattr3_figures, Fattr3Called, option_figures, time_figures, sattr3_figures, Sattr3Called, call_figures, accept_figures, body_figures, RpcMsgCalled, unix_figures, UnixCalled, PartCalled};

use crate::exports::SHORT_LIST;
use crate::fattr3::take_fattr3;
use crate::figures::{bit, put_figures, put_two};
use crate::sattr3::take_sattr3;
use nfs::{
    diropargs3, fattr3, read_diropargs3, read_fattr3, read_sattr3, sattr3, set_atime, set_gid3,
    set_mode3, set_mtime, set_size3, set_uid3,
};
use rpc::{
    accept_body, accepted_reply, auth_unix, call_body, read_auth_unix_in, read_rpc_msg,
    rejected_reply, reply_body, rpc_body, rpc_msg,
};
use xdr::{Piece, Refusal, Took, inside};

// Whether a piece lies inside a message: 0 and the piece, or 4 and the empty piece at the start.
pub fn yugerzat_part(message: &[u8], at: usize, count: usize, info: &mut [u64]) -> u32
    ensures { PartCalled message.now (record { at = at; count = count; clean = true }) info.old result info.new }
{
    if info.len() < 2 {
        return SHORT_LIST;
    }
    if inside(
        message,
        Piece {
            at,
            count,
            clean: true,
        },
    ) {
        put_figures(&[at as u64, count as u64], 0, info);
        return 0;
    }
    put_figures(&[], 2, info);
    4
}

// A refusal's number; its place, how many bytes it wants, and zeros for a value of `count` figures.
pub(crate) fn tell_refused(r: Refusal, count: usize, info: &mut [u64]) -> u32
    requires { 2 + count ≤ length info.old }
    ensures { (result ≡ number_of r) × Shown (place_of r ∷ wanting_of r ∷ replicate count 0) info.old info.new }
{
    put_figures(&[r.place() as u64, r.wanting() as u64], count, info);
    r.number()
}

fn put_diropargs3(v: diropargs3, next: usize, plain: bool, info: &mut [u64])
    requires { 6 ≤ length info.old }
    ensures { Shown (next ∷ cond plain 1 0 ∷ diropargs3_figures v) info.old info.new }
{
    let dir = v.dir;
    let data = dir.data;
    let name = v.name;
    put_figures(
        &[
            next as u64,
            bit(plain),
            data.at as u64,
            data.count as u64,
            name.at as u64,
            name.count as u64,
        ],
        0,
        info,
    );
}

// The figures of a diropargs3: place and count of the handle, place and count of the name.
pub fn yugerzat_read_diropargs3(src: &[u8], at: usize, info: &mut [u64]) -> u32
    ensures { Diropargs3Called src.now at info.old result info.new }
{
    if info.len() < 6 {
        return SHORT_LIST;
    }
    let v = read_diropargs3(src, at);
    match v {
        Err(r) => tell_refused(r, 4, info),
        Ok(Took { value, next, plain }) => {
            put_diropargs3(value, next, plain, info);
            0
        }
    }
}

fn fattr3_figures(v: fattr3, number: u32, next: usize, plain: u64) -> [u64; 19]
    ensures { result ≡ next ∷ plain ∷ number ∷ drop 1 (fattr3_figures v) }
{
    let rdev = v.rdev;
    let atime = v.atime;
    let mtime = v.mtime;
    let ctime = v.ctime;
    [
        next as u64,
        plain,
        number as u64,
        v.mode as u64,
        v.nlink as u64,
        v.uid as u64,
        v.gid as u64,
        v.size,
        v.used,
        rdev.specdata1 as u64,
        rdev.specdata2 as u64,
        v.fsid,
        v.fileid,
        atime.seconds as u64,
        atime.nseconds as u64,
        mtime.seconds as u64,
        mtime.nseconds as u64,
        ctime.seconds as u64,
        ctime.nseconds as u64,
    ]
}

fn put_fattr3(v: fattr3, next: usize, plain: u64, info: &mut [u64])
    requires { 19 ≤ length info.old }
    ensures { Shown (next ∷ plain ∷ fattr3_figures v) info.old info.new }
{
    let ftype = v.ftype;
    put_figures(&fattr3_figures(v, ftype.number(), next, plain), 0, info);
}

// By the reader that says why it refuses.
fn read_fattr3_carefully(src: &[u8], at: usize, info: &mut [u64]) -> u32
    requires { 19 ≤ length info.old }
    ensures { Fattr3Called src.now at info.old result info.new }
{
    let v = read_fattr3(src, at);
    match v {
        Err(r) => tell_refused(r, 17, info),
        Ok(Took { value, next, plain }) => {
            put_fattr3(value, next, bit(plain), info);
            0
        }
    }
}

// The figures of a fattr3, which is always in published form: the number of its type, mode, nlink, uid, gid, size, used, the two numbers of
// rdev, fsid, fileid, then seconds and nanoseconds of atime, mtime and ctime.
pub fn yugerzat_read_fattr3(src: &[u8], at: usize, info: &mut [u64]) -> u32
    ensures { Fattr3Called src.now at info.old result info.new }
{
    if info.len() < 19 {
        return SHORT_LIST;
    }
    let Some(taken) = take_fattr3(src, at, info) else {
        return read_fattr3_carefully(src, at, info);
    };
    put_two(taken.next as u64, bit(taken.plain), info, 0);
    0
}

fn call_figures(m: call_body, cred: u32, verf: u32, xid: u32, next: usize, plain: u64) -> [u64; 14]
    ensures { result ≡ next ∷ plain ∷ xid ∷ 0 ∷ m.rpcvers ∷ m.prog ∷ m.vers ∷ m.proc ∷ cred ∷ (piece_figures m.cred.body ++ (verf ∷ piece_figures m.verf.body)) }
{
    let cred_auth = m.cred;
    let cred_body = cred_auth.body;
    let verf_auth = m.verf;
    let verf_body = verf_auth.body;
    [
        next as u64,
        plain,
        xid as u64,
        0,
        m.rpcvers as u64,
        m.prog as u64,
        m.vers as u64,
        m.proc as u64,
        cred as u64,
        cred_body.at as u64,
        cred_body.count as u64,
        verf as u64,
        verf_body.at as u64,
        verf_body.count as u64,
    ]
}

pub(crate) fn put_call(m: call_body, xid: u32, next: usize, plain: bool, info: &mut [u64])
    requires { 14 ≤ length info.old }
    ensures { Shown (next ∷ cond plain 1 0 ∷ xid ∷ 0 ∷ call_figures m) info.old info.new }
{
    let cred = m.cred;
    let verf = m.verf;
    let cred_flavor = cred.flavor;
    let verf_flavor = verf.flavor;
    let figures = call_figures(
        m,
        cred_flavor.number(),
        verf_flavor.number(),
        xid,
        next,
        bit(plain),
    );
    put_figures(&figures, 0, info);
}

// accept_stat's number, and the two versions of PROG_MISMATCH.
fn accept_figures(b: accept_body) -> Three
    ensures { (result.first ∷ result.second ∷ result.third ∷ []) ≡ accept_figures crate b }
{
    match b {
        accept_body::SUCCESS => Three {
            first: 0,
            second: 0,
            third: 0,
        },
        accept_body::PROG_UNAVAIL => Three {
            first: 1,
            second: 0,
            third: 0,
        },
        accept_body::PROG_MISMATCH(v) => Three {
            first: 2,
            second: v.low as u64,
            third: v.high as u64,
        },
        accept_body::PROC_UNAVAIL => Three {
            first: 3,
            second: 0,
            third: 0,
        },
        accept_body::GARBAGE_ARGS => Three {
            first: 4,
            second: 0,
            third: 0,
        },
    }
}

fn put_reply(m: reply_body, xid: u32, next: usize, plain: bool, info: &mut [u64])
    requires { 14 ≤ length info.old }
    ensures { Shows (λ m. next ∷ cond plain 1 0 ∷ xid ∷ body_figures crate (REPLY m)) m info.old info.new }
{
    match m {
        reply_body::MSG_ACCEPTED(a) => put_accepted(a, xid, next, plain, info),
        reply_body::MSG_DENIED(d) => put_denied(d, xid, next, plain, info),
    }
}

fn put_accepted(m: accepted_reply, xid: u32, next: usize, plain: bool, info: &mut [u64])
    requires { 14 ≤ length info.old }
    ensures { Shown (next ∷ cond plain 1 0 ∷ xid ∷ body_figures crate (REPLY (MSG_ACCEPTED m))) info.old info.new }
{
    let verf = m.verf;
    let flavor = verf.flavor;
    let body = verf.body;
    let data = m.reply_data;
    let told = accept_figures(data);
    put_figures(
        &[
            next as u64,
            bit(plain),
            xid as u64,
            1,
            flavor.number() as u64,
            body.at as u64,
            body.count as u64,
            told.first,
            told.second,
            told.third,
        ],
        4,
        info,
    );
}

fn put_denied(m: rejected_reply, xid: u32, next: usize, plain: bool, info: &mut [u64])
    requires { 14 ≤ length info.old }
    ensures { Shows (λ m. next ∷ cond plain 1 0 ∷ xid ∷ body_figures crate (REPLY (MSG_DENIED m))) m info.old info.new }
{
    match m {
        rejected_reply::RPC_MISMATCH(v) => put_figures(
            &[
                next as u64,
                bit(plain),
                xid as u64,
                2,
                v.low as u64,
                v.high as u64,
            ],
            8,
            info,
        ),
        rejected_reply::AUTH_ERROR(s) => put_figures(
            &[next as u64, bit(plain), xid as u64, 3, s.number() as u64],
            9,
            info,
        ),
    }
}

fn put_message(m: rpc_msg, next: usize, plain: bool, info: &mut [u64])
    requires { 14 ≤ length info.old }
    ensures { Shows (λ b. next ∷ cond plain 1 0 ∷ m.xid ∷ body_figures crate b) m.body info.old info.new }
{
    let xid = m.xid;
    let body = m.body;
    match body {
        rpc_body::CALL(c) => put_call(c, xid, next, plain, info),
        rpc_body::REPLY(r) => put_reply(r, xid, next, plain, info),
    }
}

// The figures of a message: xid, a tag and ten more, zeros where there are fewer. 0, a call: rpcvers, prog, vers, proc, then flavor, place and
// count of the credential and of the verifier. 1, an accepted reply: the verifier's three, the number of its accept_stat and the two versions of
// PROG_MISMATCH. 2, denied by the version: the two versions. 3, denied by authentication: the number of its auth_stat.
pub fn yugerzat_read_rpc_msg(message: &[u8], at: usize, info: &mut [u64]) -> u32
    ensures { RpcMsgCalled crate message.now at info.old result info.new }
{
    if info.len() < 14 {
        return SHORT_LIST;
    }
    let v = read_rpc_msg(message, at);
    match v {
        Err(r) => tell_refused(r, 12, info),
        Ok(Took { value, next, plain }) => {
            put_message(value, next, plain, info);
            0
        }
    }
}

fn put_unix(v: auth_unix, next: usize, plain: bool, info: &mut [u64])
    requires { 9 ≤ length info.old }
    ensures { Shown (next ∷ cond plain 1 0 ∷ unix_figures v) info.old info.new }
{
    let name = v.machinename;
    let gids = v.gids;
    put_figures(
        &[
            next as u64,
            bit(plain),
            v.stamp as u64,
            name.at as u64,
            name.count as u64,
            v.uid as u64,
            v.gid as u64,
            gids.at as u64,
            gids.count as u64,
        ],
        0,
        info,
    );
}

// The figures of the auth_unix in a credential's body, which is given by place and count: stamp, place and count of the name, uid, gid, place
// and count of the gids.
pub fn yugerzat_read_auth_unix(message: &[u8], at: usize, count: usize, info: &mut [u64]) -> u32
    ensures { UnixCalled message.now at count info.old result info.new }
{
    if info.len() < 9 {
        return SHORT_LIST;
    }
    let v = read_auth_unix_in(
        message,
        Piece {
            at,
            count,
            clean: true,
        },
    );
    match v {
        Err(r) => tell_refused(r, 7, info),
        Ok(Took { value, next, plain }) => {
            put_unix(value, next, plain, info);
            0
        }
    }
}

// Two and three figures that a part of a value has.
#[derive(Clone, Copy)]
struct Two {
    first: u64,
    second: u64,
}

#[derive(Clone, Copy)]
pub(crate) struct Three {
    pub first: u64,
    pub second: u64,
    pub third: u64,
}

fn mode_figures(m: set_mode3) -> Two
    ensures { (result.first ∷ result.second ∷ []) ≡ option_figures (set_mode_from m) }
{
    match m {
        set_mode3::Void => Two {
            first: 0,
            second: 0,
        },
        set_mode3::mode(v) => Two {
            first: 1,
            second: v as u64,
        },
    }
}

fn uid_figures(m: set_uid3) -> Two
    ensures { (result.first ∷ result.second ∷ []) ≡ option_figures (set_uid_from m) }
{
    match m {
        set_uid3::Void => Two {
            first: 0,
            second: 0,
        },
        set_uid3::uid(v) => Two {
            first: 1,
            second: v as u64,
        },
    }
}

fn gid_figures(m: set_gid3) -> Two
    ensures { (result.first ∷ result.second ∷ []) ≡ option_figures (set_gid_from m) }
{
    match m {
        set_gid3::Void => Two {
            first: 0,
            second: 0,
        },
        set_gid3::gid(v) => Two {
            first: 1,
            second: v as u64,
        },
    }
}

fn size_figures(m: set_size3) -> Two
    ensures { (result.first ∷ result.second ∷ []) ≡ option_figures (set_size_from m) }
{
    match m {
        set_size3::Void => Two {
            first: 0,
            second: 0,
        },
        set_size3::size(v) => Two {
            first: 1,
            second: v,
        },
    }
}

fn atime_figures(m: set_atime) -> Three
    ensures { (result.first ∷ result.second ∷ result.third ∷ []) ≡ time_figures (atime_from m) }
{
    match m {
        set_atime::DONT_CHANGE => Three {
            first: 0,
            second: 0,
            third: 0,
        },
        set_atime::SET_TO_SERVER_TIME => Three {
            first: 1,
            second: 0,
            third: 0,
        },
        set_atime::SET_TO_CLIENT_TIME(t) => Three {
            first: 2,
            second: t.seconds as u64,
            third: t.nseconds as u64,
        },
    }
}

fn mtime_figures(m: set_mtime) -> Three
    ensures { (result.first ∷ result.second ∷ result.third ∷ []) ≡ time_figures (mtime_from m) }
{
    match m {
        set_mtime::DONT_CHANGE => Three {
            first: 0,
            second: 0,
            third: 0,
        },
        set_mtime::SET_TO_SERVER_TIME => Three {
            first: 1,
            second: 0,
            third: 0,
        },
        set_mtime::SET_TO_CLIENT_TIME(t) => Three {
            first: 2,
            second: t.seconds as u64,
            third: t.nseconds as u64,
        },
    }
}

fn put_sattr3(v: sattr3, next: usize, plain: bool, info: &mut [u64])
    requires { 16 ≤ length info.old }
    ensures { Shown (next ∷ cond plain 1 0 ∷ sattr3_figures v) info.old info.new }
{
    let mode = v.mode;
    let uid = v.uid;
    let gid = v.gid;
    let size = v.size;
    let atime = v.atime;
    let mtime = v.mtime;
    let mode = mode_figures(mode);
    let uid = uid_figures(uid);
    let gid = gid_figures(gid);
    let size = size_figures(size);
    let atime = atime_figures(atime);
    let mtime = mtime_figures(mtime);
    put_figures(
        &[
            next as u64,
            bit(plain),
            mode.first,
            mode.second,
            uid.first,
            uid.second,
            gid.first,
            gid.second,
            size.first,
            size.second,
            atime.first,
            atime.second,
            atime.third,
            mtime.first,
            mtime.second,
            mtime.third,
        ],
        0,
        info,
    );
}

// By the reader that says why it refuses.
fn read_sattr3_carefully(src: &[u8], at: usize, info: &mut [u64]) -> u32
    requires { 16 ≤ length info.old }
    ensures { Sattr3Called src.now at info.old result info.new }
{
    let v = read_sattr3(src, at);
    match v {
        Err(r) => tell_refused(r, 14, info),
        Ok(Took { value, next, plain }) => {
            put_sattr3(value, next, plain, info);
            0
        }
    }
}

// The figures of a sattr3: for mode, uid, gid and size 1 and the number that is set, or zeros; for atime and mtime the tag, then seconds and
// nanoseconds where the client sets them.
pub fn yugerzat_read_sattr3(src: &[u8], at: usize, info: &mut [u64]) -> u32
    ensures { Sattr3Called src.now at info.old result info.new }
{
    if info.len() < 16 {
        return SHORT_LIST;
    }
    let Some(taken) = take_sattr3(src, at, info) else {
        return read_sattr3_carefully(src, at, info);
    };
    put_two(taken.next as u64, bit(taken.plain), info, 0);
    0
}
