// made by tools/generate from kinds.txt
// Judging, by the number of a kind and for each kind by itself.
ghost use Rattle.door.specs.Meaning.Exports.{JudgeCalled};

use crate::exports::{SHORT_LIST, judge_any, tell_judged};
use crate::files::{
    Diropargs3, Fattr3, Fsinfo3, Ftype3, NfsFh3, Nfsstat3, Nfsstring, Nfstime3, PostOpAttr,
    PostOpFh3, PreOpAttr, Sattr3, SetAtime, SetGid3, SetMode3, SetMtime, SetSize3, SetUid3,
    Specdata3, Symlinkdata3, TimeHow, WccAttr, WccData,
};
use crate::items::{Bool, Eight, I32, I64, Opaque, U32, U64, Words};
use crate::kind::{Loose, Plain, copy, copy_plain};
use crate::messages::{
    AcceptBody, AcceptStat, AcceptedReply, AuthFlavor, AuthStat, AuthUnix, CallBody,
    CurrentAcceptBody, CurrentAcceptStat, CurrentAcceptedReply, CurrentAuthStat,
    CurrentRejectedReply, CurrentReplyBody, CurrentRpcBody, CurrentRpcMsg, MismatchInfo, MsgType,
    OpaqueAuth, RejectStat, RejectedReply, ReplyBody, ReplyStat, RpcBody, RpcMsg,
};
use crate::mounts::{Dirpath, Exports, Mapping, Mountres3, Mountstat3};
use crate::procedures::{
    Getattr3args, Getattr3res, Lookup3args, Lookup3res, Read3args, Read3res, Sattrguard3,
    Setattr3args, Setattr3res, StableHow, Write3args, Write3res,
};

// What is read of a kind, and nothing written.
fn judge<K: Loose>(src: &[u8], at: usize, info: &mut [u64]) -> u32
    ensures { JudgeCalled K.number src.now at info.old result info.new }
{
    if info.len() < 3 {
        return SHORT_LIST;
    }
    let c = copy::<K>(src, at, &mut [], 0);
    tell_judged(c, info)
}

// The same of a kind without loose forms.
fn judge_plain<K: Plain>(src: &[u8], at: usize, info: &mut [u64]) -> u32
    ensures { JudgeCalled K.number src.now at info.old result info.new }
{
    if info.len() < 3 {
        return SHORT_LIST;
    }
    let c = copy_plain::<K>(src, at, &mut [], 0);
    tell_judged(c, info)
}

// Reads a message of a kind from place `at` of src, and writes nothing. 0: info holds the place after what was read, 1 if that was in
// published form and else 0, and how many bytes its rewriting has. A refusal: its place, how many bytes it wants, and 0.
pub fn yugerzat_judge(kind: u32, src: &[u8], at: usize, info: &mut [u64]) -> u32
    ensures { JudgeCalled kind src.now at info.old result info.new }
{
    match kind {
        0 => yugerzat_judge_bool(src, at, info),
        1 => yugerzat_judge_i32(src, at, info),
        2 => yugerzat_judge_i64(src, at, info),
        3 => yugerzat_judge_u32(src, at, info),
        4 => yugerzat_judge_u64(src, at, info),
        5 => yugerzat_judge_eight(src, at, info),
        6 => yugerzat_judge_opaque(src, at, info),
        7 => yugerzat_judge_nfsstring(src, at, info),
        8 => yugerzat_judge_words(src, at, info),
        9 => yugerzat_judge_msg_type(src, at, info),
        10 => yugerzat_judge_reply_stat(src, at, info),
        11 => yugerzat_judge_accept_stat(src, at, info),
        12 => yugerzat_judge_reject_stat(src, at, info),
        13 => yugerzat_judge_auth_stat(src, at, info),
        14 => yugerzat_judge_auth_flavor(src, at, info),
        15 => yugerzat_judge_time_how(src, at, info),
        16 => yugerzat_judge_nfsstat3(src, at, info),
        17 => yugerzat_judge_ftype3(src, at, info),
        18 => yugerzat_judge_auth_unix(src, at, info),
        19 => yugerzat_judge_opaque_auth(src, at, info),
        20 => yugerzat_judge_rpc_msg(src, at, info),
        21 => yugerzat_judge_rpc_body(src, at, info),
        22 => yugerzat_judge_call_body(src, at, info),
        23 => yugerzat_judge_reply_body(src, at, info),
        _ => judge_more(kind, src, at, info),
    }
}

fn judge_more(kind: u32, src: &[u8], at: usize, info: &mut [u64]) -> u32
    ensures { JudgeCalled kind src.now at info.old result info.new }
{
    match kind {
        24 => yugerzat_judge_accepted_reply(src, at, info),
        25 => yugerzat_judge_accept_body(src, at, info),
        26 => yugerzat_judge_rejected_reply(src, at, info),
        27 => yugerzat_judge_mismatch_info(src, at, info),
        28 => yugerzat_judge_specdata3(src, at, info),
        29 => yugerzat_judge_nfs_fh3(src, at, info),
        30 => yugerzat_judge_nfstime3(src, at, info),
        31 => yugerzat_judge_fattr3(src, at, info),
        32 => yugerzat_judge_fsinfo3(src, at, info),
        33 => yugerzat_judge_wcc_attr(src, at, info),
        34 => yugerzat_judge_pre_op_attr(src, at, info),
        35 => yugerzat_judge_post_op_attr(src, at, info),
        36 => yugerzat_judge_wcc_data(src, at, info),
        37 => yugerzat_judge_post_op_fh3(src, at, info),
        38 => yugerzat_judge_set_mode3(src, at, info),
        39 => yugerzat_judge_set_uid3(src, at, info),
        40 => yugerzat_judge_set_gid3(src, at, info),
        41 => yugerzat_judge_set_size3(src, at, info),
        42 => yugerzat_judge_set_atime(src, at, info),
        43 => yugerzat_judge_set_mtime(src, at, info),
        44 => yugerzat_judge_sattr3(src, at, info),
        45 => yugerzat_judge_diropargs3(src, at, info),
        46 => yugerzat_judge_symlinkdata3(src, at, info),
        47 => yugerzat_judge_stable_how(src, at, info),
        _ => judge_rest(kind, src, at, info),
    }
}

fn judge_rest(kind: u32, src: &[u8], at: usize, info: &mut [u64]) -> u32
    ensures { JudgeCalled kind src.now at info.old result info.new }
{
    match kind {
        48 => yugerzat_judge_sattrguard3(src, at, info),
        49 => yugerzat_judge_getattr3args(src, at, info),
        50 => yugerzat_judge_getattr3res(src, at, info),
        51 => yugerzat_judge_setattr3args(src, at, info),
        52 => yugerzat_judge_setattr3res(src, at, info),
        53 => yugerzat_judge_lookup3args(src, at, info),
        54 => yugerzat_judge_lookup3res(src, at, info),
        55 => yugerzat_judge_read3args(src, at, info),
        56 => yugerzat_judge_read3res(src, at, info),
        57 => yugerzat_judge_write3args(src, at, info),
        58 => yugerzat_judge_write3res(src, at, info),
        59 => yugerzat_judge_current_accept_stat(src, at, info),
        60 => yugerzat_judge_current_auth_stat(src, at, info),
        61 => yugerzat_judge_current_accept_body(src, at, info),
        62 => yugerzat_judge_current_accepted_reply(src, at, info),
        63 => yugerzat_judge_current_rejected_reply(src, at, info),
        64 => yugerzat_judge_current_reply_body(src, at, info),
        65 => yugerzat_judge_current_rpc_body(src, at, info),
        66 => yugerzat_judge_current_rpc_msg(src, at, info),
        67 => yugerzat_judge_dirpath(src, at, info),
        68 => yugerzat_judge_mountstat3(src, at, info),
        69 => yugerzat_judge_mountres3(src, at, info),
        70 => yugerzat_judge_exports(src, at, info),
        71 => yugerzat_judge_mapping(src, at, info),
        _ => judge_any(kind, src, at, info),
    }
}

pub fn yugerzat_judge_bool(src: &[u8], at: usize, info: &mut [u64]) -> u32
    ensures { JudgeCalled 0 src.now at info.old result info.new }
{
    judge::<Bool>(src, at, info)
}

pub fn yugerzat_judge_i32(src: &[u8], at: usize, info: &mut [u64]) -> u32
    ensures { JudgeCalled 1 src.now at info.old result info.new }
{
    judge_plain::<I32>(src, at, info)
}

pub fn yugerzat_judge_i64(src: &[u8], at: usize, info: &mut [u64]) -> u32
    ensures { JudgeCalled 2 src.now at info.old result info.new }
{
    judge_plain::<I64>(src, at, info)
}

pub fn yugerzat_judge_u32(src: &[u8], at: usize, info: &mut [u64]) -> u32
    ensures { JudgeCalled 3 src.now at info.old result info.new }
{
    judge_plain::<U32>(src, at, info)
}

pub fn yugerzat_judge_u64(src: &[u8], at: usize, info: &mut [u64]) -> u32
    ensures { JudgeCalled 4 src.now at info.old result info.new }
{
    judge_plain::<U64>(src, at, info)
}

pub fn yugerzat_judge_eight(src: &[u8], at: usize, info: &mut [u64]) -> u32
    ensures { JudgeCalled 5 src.now at info.old result info.new }
{
    judge_plain::<Eight>(src, at, info)
}

pub fn yugerzat_judge_opaque(src: &[u8], at: usize, info: &mut [u64]) -> u32
    ensures { JudgeCalled 6 src.now at info.old result info.new }
{
    judge::<Opaque>(src, at, info)
}

pub fn yugerzat_judge_nfsstring(src: &[u8], at: usize, info: &mut [u64]) -> u32
    ensures { JudgeCalled 7 src.now at info.old result info.new }
{
    judge::<Nfsstring>(src, at, info)
}

pub fn yugerzat_judge_words(src: &[u8], at: usize, info: &mut [u64]) -> u32
    ensures { JudgeCalled 8 src.now at info.old result info.new }
{
    judge::<Words>(src, at, info)
}

pub fn yugerzat_judge_msg_type(src: &[u8], at: usize, info: &mut [u64]) -> u32
    ensures { JudgeCalled 9 src.now at info.old result info.new }
{
    judge_plain::<MsgType>(src, at, info)
}

pub fn yugerzat_judge_reply_stat(src: &[u8], at: usize, info: &mut [u64]) -> u32
    ensures { JudgeCalled 10 src.now at info.old result info.new }
{
    judge_plain::<ReplyStat>(src, at, info)
}

pub fn yugerzat_judge_accept_stat(src: &[u8], at: usize, info: &mut [u64]) -> u32
    ensures { JudgeCalled 11 src.now at info.old result info.new }
{
    judge_plain::<AcceptStat>(src, at, info)
}

pub fn yugerzat_judge_reject_stat(src: &[u8], at: usize, info: &mut [u64]) -> u32
    ensures { JudgeCalled 12 src.now at info.old result info.new }
{
    judge_plain::<RejectStat>(src, at, info)
}

pub fn yugerzat_judge_auth_stat(src: &[u8], at: usize, info: &mut [u64]) -> u32
    ensures { JudgeCalled 13 src.now at info.old result info.new }
{
    judge_plain::<AuthStat>(src, at, info)
}

pub fn yugerzat_judge_auth_flavor(src: &[u8], at: usize, info: &mut [u64]) -> u32
    ensures { JudgeCalled 14 src.now at info.old result info.new }
{
    judge_plain::<AuthFlavor>(src, at, info)
}

pub fn yugerzat_judge_time_how(src: &[u8], at: usize, info: &mut [u64]) -> u32
    ensures { JudgeCalled 15 src.now at info.old result info.new }
{
    judge_plain::<TimeHow>(src, at, info)
}

pub fn yugerzat_judge_nfsstat3(src: &[u8], at: usize, info: &mut [u64]) -> u32
    ensures { JudgeCalled 16 src.now at info.old result info.new }
{
    judge_plain::<Nfsstat3>(src, at, info)
}

pub fn yugerzat_judge_ftype3(src: &[u8], at: usize, info: &mut [u64]) -> u32
    ensures { JudgeCalled 17 src.now at info.old result info.new }
{
    judge_plain::<Ftype3>(src, at, info)
}

pub fn yugerzat_judge_auth_unix(src: &[u8], at: usize, info: &mut [u64]) -> u32
    ensures { JudgeCalled 18 src.now at info.old result info.new }
{
    judge::<AuthUnix>(src, at, info)
}

pub fn yugerzat_judge_opaque_auth(src: &[u8], at: usize, info: &mut [u64]) -> u32
    ensures { JudgeCalled 19 src.now at info.old result info.new }
{
    judge::<OpaqueAuth>(src, at, info)
}

pub fn yugerzat_judge_rpc_msg(src: &[u8], at: usize, info: &mut [u64]) -> u32
    ensures { JudgeCalled 20 src.now at info.old result info.new }
{
    judge::<RpcMsg>(src, at, info)
}

pub fn yugerzat_judge_rpc_body(src: &[u8], at: usize, info: &mut [u64]) -> u32
    ensures { JudgeCalled 21 src.now at info.old result info.new }
{
    judge::<RpcBody>(src, at, info)
}

pub fn yugerzat_judge_call_body(src: &[u8], at: usize, info: &mut [u64]) -> u32
    ensures { JudgeCalled 22 src.now at info.old result info.new }
{
    judge::<CallBody>(src, at, info)
}

pub fn yugerzat_judge_reply_body(src: &[u8], at: usize, info: &mut [u64]) -> u32
    ensures { JudgeCalled 23 src.now at info.old result info.new }
{
    judge::<ReplyBody>(src, at, info)
}

pub fn yugerzat_judge_accepted_reply(src: &[u8], at: usize, info: &mut [u64]) -> u32
    ensures { JudgeCalled 24 src.now at info.old result info.new }
{
    judge::<AcceptedReply>(src, at, info)
}

pub fn yugerzat_judge_accept_body(src: &[u8], at: usize, info: &mut [u64]) -> u32
    ensures { JudgeCalled 25 src.now at info.old result info.new }
{
    judge::<AcceptBody>(src, at, info)
}

pub fn yugerzat_judge_rejected_reply(src: &[u8], at: usize, info: &mut [u64]) -> u32
    ensures { JudgeCalled 26 src.now at info.old result info.new }
{
    judge::<RejectedReply>(src, at, info)
}

pub fn yugerzat_judge_mismatch_info(src: &[u8], at: usize, info: &mut [u64]) -> u32
    ensures { JudgeCalled 27 src.now at info.old result info.new }
{
    judge_plain::<MismatchInfo>(src, at, info)
}

pub fn yugerzat_judge_specdata3(src: &[u8], at: usize, info: &mut [u64]) -> u32
    ensures { JudgeCalled 28 src.now at info.old result info.new }
{
    judge_plain::<Specdata3>(src, at, info)
}

pub fn yugerzat_judge_nfs_fh3(src: &[u8], at: usize, info: &mut [u64]) -> u32
    ensures { JudgeCalled 29 src.now at info.old result info.new }
{
    judge::<NfsFh3>(src, at, info)
}

pub fn yugerzat_judge_nfstime3(src: &[u8], at: usize, info: &mut [u64]) -> u32
    ensures { JudgeCalled 30 src.now at info.old result info.new }
{
    judge_plain::<Nfstime3>(src, at, info)
}

pub fn yugerzat_judge_fattr3(src: &[u8], at: usize, info: &mut [u64]) -> u32
    ensures { JudgeCalled 31 src.now at info.old result info.new }
{
    judge_plain::<Fattr3>(src, at, info)
}

pub fn yugerzat_judge_fsinfo3(src: &[u8], at: usize, info: &mut [u64]) -> u32
    ensures { JudgeCalled 32 src.now at info.old result info.new }
{
    judge::<Fsinfo3>(src, at, info)
}

pub fn yugerzat_judge_wcc_attr(src: &[u8], at: usize, info: &mut [u64]) -> u32
    ensures { JudgeCalled 33 src.now at info.old result info.new }
{
    judge_plain::<WccAttr>(src, at, info)
}

pub fn yugerzat_judge_pre_op_attr(src: &[u8], at: usize, info: &mut [u64]) -> u32
    ensures { JudgeCalled 34 src.now at info.old result info.new }
{
    judge::<PreOpAttr>(src, at, info)
}

pub fn yugerzat_judge_post_op_attr(src: &[u8], at: usize, info: &mut [u64]) -> u32
    ensures { JudgeCalled 35 src.now at info.old result info.new }
{
    judge::<PostOpAttr>(src, at, info)
}

pub fn yugerzat_judge_wcc_data(src: &[u8], at: usize, info: &mut [u64]) -> u32
    ensures { JudgeCalled 36 src.now at info.old result info.new }
{
    judge::<WccData>(src, at, info)
}

pub fn yugerzat_judge_post_op_fh3(src: &[u8], at: usize, info: &mut [u64]) -> u32
    ensures { JudgeCalled 37 src.now at info.old result info.new }
{
    judge::<PostOpFh3>(src, at, info)
}

pub fn yugerzat_judge_set_mode3(src: &[u8], at: usize, info: &mut [u64]) -> u32
    ensures { JudgeCalled 38 src.now at info.old result info.new }
{
    judge::<SetMode3>(src, at, info)
}

pub fn yugerzat_judge_set_uid3(src: &[u8], at: usize, info: &mut [u64]) -> u32
    ensures { JudgeCalled 39 src.now at info.old result info.new }
{
    judge::<SetUid3>(src, at, info)
}

pub fn yugerzat_judge_set_gid3(src: &[u8], at: usize, info: &mut [u64]) -> u32
    ensures { JudgeCalled 40 src.now at info.old result info.new }
{
    judge::<SetGid3>(src, at, info)
}

pub fn yugerzat_judge_set_size3(src: &[u8], at: usize, info: &mut [u64]) -> u32
    ensures { JudgeCalled 41 src.now at info.old result info.new }
{
    judge::<SetSize3>(src, at, info)
}

pub fn yugerzat_judge_set_atime(src: &[u8], at: usize, info: &mut [u64]) -> u32
    ensures { JudgeCalled 42 src.now at info.old result info.new }
{
    judge_plain::<SetAtime>(src, at, info)
}

pub fn yugerzat_judge_set_mtime(src: &[u8], at: usize, info: &mut [u64]) -> u32
    ensures { JudgeCalled 43 src.now at info.old result info.new }
{
    judge_plain::<SetMtime>(src, at, info)
}

pub fn yugerzat_judge_sattr3(src: &[u8], at: usize, info: &mut [u64]) -> u32
    ensures { JudgeCalled 44 src.now at info.old result info.new }
{
    judge::<Sattr3>(src, at, info)
}

pub fn yugerzat_judge_diropargs3(src: &[u8], at: usize, info: &mut [u64]) -> u32
    ensures { JudgeCalled 45 src.now at info.old result info.new }
{
    judge::<Diropargs3>(src, at, info)
}

pub fn yugerzat_judge_symlinkdata3(src: &[u8], at: usize, info: &mut [u64]) -> u32
    ensures { JudgeCalled 46 src.now at info.old result info.new }
{
    judge::<Symlinkdata3>(src, at, info)
}

pub fn yugerzat_judge_stable_how(src: &[u8], at: usize, info: &mut [u64]) -> u32
    ensures { JudgeCalled 47 src.now at info.old result info.new }
{
    judge_plain::<StableHow>(src, at, info)
}

pub fn yugerzat_judge_sattrguard3(src: &[u8], at: usize, info: &mut [u64]) -> u32
    ensures { JudgeCalled 48 src.now at info.old result info.new }
{
    judge::<Sattrguard3>(src, at, info)
}

pub fn yugerzat_judge_getattr3args(src: &[u8], at: usize, info: &mut [u64]) -> u32
    ensures { JudgeCalled 49 src.now at info.old result info.new }
{
    judge::<Getattr3args>(src, at, info)
}

pub fn yugerzat_judge_getattr3res(src: &[u8], at: usize, info: &mut [u64]) -> u32
    ensures { JudgeCalled 50 src.now at info.old result info.new }
{
    judge_plain::<Getattr3res>(src, at, info)
}

pub fn yugerzat_judge_setattr3args(src: &[u8], at: usize, info: &mut [u64]) -> u32
    ensures { JudgeCalled 51 src.now at info.old result info.new }
{
    judge::<Setattr3args>(src, at, info)
}

pub fn yugerzat_judge_setattr3res(src: &[u8], at: usize, info: &mut [u64]) -> u32
    ensures { JudgeCalled 52 src.now at info.old result info.new }
{
    judge::<Setattr3res>(src, at, info)
}

pub fn yugerzat_judge_lookup3args(src: &[u8], at: usize, info: &mut [u64]) -> u32
    ensures { JudgeCalled 53 src.now at info.old result info.new }
{
    judge::<Lookup3args>(src, at, info)
}

pub fn yugerzat_judge_lookup3res(src: &[u8], at: usize, info: &mut [u64]) -> u32
    ensures { JudgeCalled 54 src.now at info.old result info.new }
{
    judge::<Lookup3res>(src, at, info)
}

pub fn yugerzat_judge_read3args(src: &[u8], at: usize, info: &mut [u64]) -> u32
    ensures { JudgeCalled 55 src.now at info.old result info.new }
{
    judge::<Read3args>(src, at, info)
}

pub fn yugerzat_judge_read3res(src: &[u8], at: usize, info: &mut [u64]) -> u32
    ensures { JudgeCalled 56 src.now at info.old result info.new }
{
    judge::<Read3res>(src, at, info)
}

pub fn yugerzat_judge_write3args(src: &[u8], at: usize, info: &mut [u64]) -> u32
    ensures { JudgeCalled 57 src.now at info.old result info.new }
{
    judge::<Write3args>(src, at, info)
}

pub fn yugerzat_judge_write3res(src: &[u8], at: usize, info: &mut [u64]) -> u32
    ensures { JudgeCalled 58 src.now at info.old result info.new }
{
    judge::<Write3res>(src, at, info)
}

pub fn yugerzat_judge_current_accept_stat(src: &[u8], at: usize, info: &mut [u64]) -> u32
    ensures { JudgeCalled 59 src.now at info.old result info.new }
{
    judge_plain::<CurrentAcceptStat>(src, at, info)
}

pub fn yugerzat_judge_current_auth_stat(src: &[u8], at: usize, info: &mut [u64]) -> u32
    ensures { JudgeCalled 60 src.now at info.old result info.new }
{
    judge_plain::<CurrentAuthStat>(src, at, info)
}

pub fn yugerzat_judge_current_accept_body(src: &[u8], at: usize, info: &mut [u64]) -> u32
    ensures { JudgeCalled 61 src.now at info.old result info.new }
{
    judge::<CurrentAcceptBody>(src, at, info)
}

pub fn yugerzat_judge_current_accepted_reply(src: &[u8], at: usize, info: &mut [u64]) -> u32
    ensures { JudgeCalled 62 src.now at info.old result info.new }
{
    judge::<CurrentAcceptedReply>(src, at, info)
}

pub fn yugerzat_judge_current_rejected_reply(src: &[u8], at: usize, info: &mut [u64]) -> u32
    ensures { JudgeCalled 63 src.now at info.old result info.new }
{
    judge::<CurrentRejectedReply>(src, at, info)
}

pub fn yugerzat_judge_current_reply_body(src: &[u8], at: usize, info: &mut [u64]) -> u32
    ensures { JudgeCalled 64 src.now at info.old result info.new }
{
    judge::<CurrentReplyBody>(src, at, info)
}

pub fn yugerzat_judge_current_rpc_body(src: &[u8], at: usize, info: &mut [u64]) -> u32
    ensures { JudgeCalled 65 src.now at info.old result info.new }
{
    judge::<CurrentRpcBody>(src, at, info)
}

pub fn yugerzat_judge_current_rpc_msg(src: &[u8], at: usize, info: &mut [u64]) -> u32
    ensures { JudgeCalled 66 src.now at info.old result info.new }
{
    judge::<CurrentRpcMsg>(src, at, info)
}

pub fn yugerzat_judge_dirpath(src: &[u8], at: usize, info: &mut [u64]) -> u32
    ensures { JudgeCalled 67 src.now at info.old result info.new }
{
    judge::<Dirpath>(src, at, info)
}

pub fn yugerzat_judge_mountstat3(src: &[u8], at: usize, info: &mut [u64]) -> u32
    ensures { JudgeCalled 68 src.now at info.old result info.new }
{
    judge_plain::<Mountstat3>(src, at, info)
}

pub fn yugerzat_judge_mountres3(src: &[u8], at: usize, info: &mut [u64]) -> u32
    ensures { JudgeCalled 69 src.now at info.old result info.new }
{
    judge::<Mountres3>(src, at, info)
}

pub fn yugerzat_judge_exports(src: &[u8], at: usize, info: &mut [u64]) -> u32
    ensures { JudgeCalled 70 src.now at info.old result info.new }
{
    judge::<Exports>(src, at, info)
}

pub fn yugerzat_judge_mapping(src: &[u8], at: usize, info: &mut [u64]) -> u32
    ensures { JudgeCalled 71 src.now at info.old result info.new }
{
    judge_plain::<Mapping>(src, at, info)
}
