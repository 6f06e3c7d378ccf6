// made by tools/generate from kinds.txt
// Rewriting, by the number of a kind and for each kind by itself.
ghost use Rattle.door.specs.Meaning.Exports.{RewriteCalled};

use crate::exports::{SHORT_LIST, rewrite_any, tell_copied};
use crate::files::{
    Diropargs3, Fattr3, Fsinfo3, Ftype3, NfsFh3, Nfsstat3, Nfsstring, Nfstime3, PostOpAttr,
    PostOpFh3, PreOpAttr, SetAtime, SetGid3, SetMode3, SetMtime, SetSize3, SetUid3, Specdata3,
    Symlinkdata3, TimeHow, WccAttr, WccData,
};
use crate::items::{Bool, Eight, I32, I64, Opaque, U32, U64, Words};
use crate::kind::{Loose, Plain, copy, copy_plain};
use crate::messages::{
    AcceptBody, AcceptStat, AcceptedReply, AuthFlavor, AuthStat, AuthUnix, CallBody,
    CurrentAcceptBody, CurrentAcceptStat, CurrentAcceptedReply, CurrentAuthStat,
    CurrentRejectedReply, CurrentReplyBody, CurrentRpcBody, CurrentRpcMsg, MismatchInfo, MsgType,
    OpaqueAuth, RejectStat, RejectedReply, ReplyBody, ReplyStat, RpcBody, RpcMsg,
};
use crate::mounts::{Dirpath, Exports, Mapping, Mountres3, Mountstat3};
use crate::procedures::{
    Getattr3args, Getattr3res, Lookup3args, Lookup3res, Read3args, Read3res, Sattrguard3,
    Setattr3args, Setattr3res, StableHow, Write3args, Write3res,
};
use crate::settle::rewrite_sattr3;

// What is read of a kind, written anew from the start of a buffer.
fn rewrite<K: Loose>(src: &[u8], at: usize, out: &mut [u8], info: &mut [u64]) -> u32
    ensures { RewriteCalled K.number src.now at out.old info.old result out.new info.new }
{
    if info.len() < 3 {
        return SHORT_LIST;
    }
    let c = copy::<K>(src, at, out, 0);
    tell_copied(c, info)
}

// The same of a kind without loose forms.
fn rewrite_plain<K: Plain>(src: &[u8], at: usize, out: &mut [u8], info: &mut [u64]) -> u32
    ensures { RewriteCalled K.number src.now at out.old info.old result out.new info.new }
{
    if info.len() < 3 {
        return SHORT_LIST;
    }
    let c = copy_plain::<K>(src, at, out, 0);
    tell_copied(c, info)
}

// Reads a message of a kind from place `at` of src, and writes it in published form from the start of out. 0: info holds the place after
// what was read, 1 if that was in published form and else 0, and the count of bytes written. A refusal of the reading: info holds its
// place, how many bytes it wants, and 0. A refusal of the writing: two zeros, and how many bytes are needed (5), or 0.
pub fn yugerzat_rewrite(kind: u32, src: &[u8], at: usize, out: &mut [u8], info: &mut [u64]) -> u32
    ensures { RewriteCalled kind src.now at out.old info.old result out.new info.new }
{
    match kind {
        0 => yugerzat_rewrite_bool(src, at, out, info),
        1 => yugerzat_rewrite_i32(src, at, out, info),
        2 => yugerzat_rewrite_i64(src, at, out, info),
        3 => yugerzat_rewrite_u32(src, at, out, info),
        4 => yugerzat_rewrite_u64(src, at, out, info),
        5 => yugerzat_rewrite_eight(src, at, out, info),
        6 => yugerzat_rewrite_opaque(src, at, out, info),
        7 => yugerzat_rewrite_nfsstring(src, at, out, info),
        8 => yugerzat_rewrite_words(src, at, out, info),
        9 => yugerzat_rewrite_msg_type(src, at, out, info),
        10 => yugerzat_rewrite_reply_stat(src, at, out, info),
        11 => yugerzat_rewrite_accept_stat(src, at, out, info),
        12 => yugerzat_rewrite_reject_stat(src, at, out, info),
        13 => yugerzat_rewrite_auth_stat(src, at, out, info),
        14 => yugerzat_rewrite_auth_flavor(src, at, out, info),
        15 => yugerzat_rewrite_time_how(src, at, out, info),
        16 => yugerzat_rewrite_nfsstat3(src, at, out, info),
        17 => yugerzat_rewrite_ftype3(src, at, out, info),
        18 => yugerzat_rewrite_auth_unix(src, at, out, info),
        19 => yugerzat_rewrite_opaque_auth(src, at, out, info),
        20 => yugerzat_rewrite_rpc_msg(src, at, out, info),
        21 => yugerzat_rewrite_rpc_body(src, at, out, info),
        22 => yugerzat_rewrite_call_body(src, at, out, info),
        23 => yugerzat_rewrite_reply_body(src, at, out, info),
        _ => rewrite_more(kind, src, at, out, info),
    }
}

fn rewrite_more(kind: u32, src: &[u8], at: usize, out: &mut [u8], info: &mut [u64]) -> u32
    ensures { RewriteCalled kind src.now at out.old info.old result out.new info.new }
{
    match kind {
        24 => yugerzat_rewrite_accepted_reply(src, at, out, info),
        25 => yugerzat_rewrite_accept_body(src, at, out, info),
        26 => yugerzat_rewrite_rejected_reply(src, at, out, info),
        27 => yugerzat_rewrite_mismatch_info(src, at, out, info),
        28 => yugerzat_rewrite_specdata3(src, at, out, info),
        29 => yugerzat_rewrite_nfs_fh3(src, at, out, info),
        30 => yugerzat_rewrite_nfstime3(src, at, out, info),
        31 => yugerzat_rewrite_fattr3(src, at, out, info),
        32 => yugerzat_rewrite_fsinfo3(src, at, out, info),
        33 => yugerzat_rewrite_wcc_attr(src, at, out, info),
        34 => yugerzat_rewrite_pre_op_attr(src, at, out, info),
        35 => yugerzat_rewrite_post_op_attr(src, at, out, info),
        36 => yugerzat_rewrite_wcc_data(src, at, out, info),
        37 => yugerzat_rewrite_post_op_fh3(src, at, out, info),
        38 => yugerzat_rewrite_set_mode3(src, at, out, info),
        39 => yugerzat_rewrite_set_uid3(src, at, out, info),
        40 => yugerzat_rewrite_set_gid3(src, at, out, info),
        41 => yugerzat_rewrite_set_size3(src, at, out, info),
        42 => yugerzat_rewrite_set_atime(src, at, out, info),
        43 => yugerzat_rewrite_set_mtime(src, at, out, info),
        44 => yugerzat_rewrite_sattr3(src, at, out, info),
        45 => yugerzat_rewrite_diropargs3(src, at, out, info),
        46 => yugerzat_rewrite_symlinkdata3(src, at, out, info),
        47 => yugerzat_rewrite_stable_how(src, at, out, info),
        _ => rewrite_rest(kind, src, at, out, info),
    }
}

fn rewrite_rest(kind: u32, src: &[u8], at: usize, out: &mut [u8], info: &mut [u64]) -> u32
    ensures { RewriteCalled kind src.now at out.old info.old result out.new info.new }
{
    match kind {
        48 => yugerzat_rewrite_sattrguard3(src, at, out, info),
        49 => yugerzat_rewrite_getattr3args(src, at, out, info),
        50 => yugerzat_rewrite_getattr3res(src, at, out, info),
        51 => yugerzat_rewrite_setattr3args(src, at, out, info),
        52 => yugerzat_rewrite_setattr3res(src, at, out, info),
        53 => yugerzat_rewrite_lookup3args(src, at, out, info),
        54 => yugerzat_rewrite_lookup3res(src, at, out, info),
        55 => yugerzat_rewrite_read3args(src, at, out, info),
        56 => yugerzat_rewrite_read3res(src, at, out, info),
        57 => yugerzat_rewrite_write3args(src, at, out, info),
        58 => yugerzat_rewrite_write3res(src, at, out, info),
        59 => yugerzat_rewrite_current_accept_stat(src, at, out, info),
        60 => yugerzat_rewrite_current_auth_stat(src, at, out, info),
        61 => yugerzat_rewrite_current_accept_body(src, at, out, info),
        62 => yugerzat_rewrite_current_accepted_reply(src, at, out, info),
        63 => yugerzat_rewrite_current_rejected_reply(src, at, out, info),
        64 => yugerzat_rewrite_current_reply_body(src, at, out, info),
        65 => yugerzat_rewrite_current_rpc_body(src, at, out, info),
        66 => yugerzat_rewrite_current_rpc_msg(src, at, out, info),
        67 => yugerzat_rewrite_dirpath(src, at, out, info),
        68 => yugerzat_rewrite_mountstat3(src, at, out, info),
        69 => yugerzat_rewrite_mountres3(src, at, out, info),
        70 => yugerzat_rewrite_exports(src, at, out, info),
        71 => yugerzat_rewrite_mapping(src, at, out, info),
        _ => rewrite_any(kind, src, at, out, info),
    }
}

pub fn yugerzat_rewrite_bool(src: &[u8], at: usize, out: &mut [u8], info: &mut [u64]) -> u32
    ensures { RewriteCalled 0 src.now at out.old info.old result out.new info.new }
{
    rewrite::<Bool>(src, at, out, info)
}

pub fn yugerzat_rewrite_i32(src: &[u8], at: usize, out: &mut [u8], info: &mut [u64]) -> u32
    ensures { RewriteCalled 1 src.now at out.old info.old result out.new info.new }
{
    rewrite_plain::<I32>(src, at, out, info)
}

pub fn yugerzat_rewrite_i64(src: &[u8], at: usize, out: &mut [u8], info: &mut [u64]) -> u32
    ensures { RewriteCalled 2 src.now at out.old info.old result out.new info.new }
{
    rewrite_plain::<I64>(src, at, out, info)
}

pub fn yugerzat_rewrite_u32(src: &[u8], at: usize, out: &mut [u8], info: &mut [u64]) -> u32
    ensures { RewriteCalled 3 src.now at out.old info.old result out.new info.new }
{
    rewrite_plain::<U32>(src, at, out, info)
}

pub fn yugerzat_rewrite_u64(src: &[u8], at: usize, out: &mut [u8], info: &mut [u64]) -> u32
    ensures { RewriteCalled 4 src.now at out.old info.old result out.new info.new }
{
    rewrite_plain::<U64>(src, at, out, info)
}

pub fn yugerzat_rewrite_eight(src: &[u8], at: usize, out: &mut [u8], info: &mut [u64]) -> u32
    ensures { RewriteCalled 5 src.now at out.old info.old result out.new info.new }
{
    rewrite_plain::<Eight>(src, at, out, info)
}

pub fn yugerzat_rewrite_opaque(src: &[u8], at: usize, out: &mut [u8], info: &mut [u64]) -> u32
    ensures { RewriteCalled 6 src.now at out.old info.old result out.new info.new }
{
    rewrite::<Opaque>(src, at, out, info)
}

pub fn yugerzat_rewrite_nfsstring(src: &[u8], at: usize, out: &mut [u8], info: &mut [u64]) -> u32
    ensures { RewriteCalled 7 src.now at out.old info.old result out.new info.new }
{
    rewrite::<Nfsstring>(src, at, out, info)
}

pub fn yugerzat_rewrite_words(src: &[u8], at: usize, out: &mut [u8], info: &mut [u64]) -> u32
    ensures { RewriteCalled 8 src.now at out.old info.old result out.new info.new }
{
    rewrite::<Words>(src, at, out, info)
}

pub fn yugerzat_rewrite_msg_type(src: &[u8], at: usize, out: &mut [u8], info: &mut [u64]) -> u32
    ensures { RewriteCalled 9 src.now at out.old info.old result out.new info.new }
{
    rewrite_plain::<MsgType>(src, at, out, info)
}

pub fn yugerzat_rewrite_reply_stat(src: &[u8], at: usize, out: &mut [u8], info: &mut [u64]) -> u32
    ensures { RewriteCalled 10 src.now at out.old info.old result out.new info.new }
{
    rewrite_plain::<ReplyStat>(src, at, out, info)
}

pub fn yugerzat_rewrite_accept_stat(src: &[u8], at: usize, out: &mut [u8], info: &mut [u64]) -> u32
    ensures { RewriteCalled 11 src.now at out.old info.old result out.new info.new }
{
    rewrite_plain::<AcceptStat>(src, at, out, info)
}

pub fn yugerzat_rewrite_reject_stat(src: &[u8], at: usize, out: &mut [u8], info: &mut [u64]) -> u32
    ensures { RewriteCalled 12 src.now at out.old info.old result out.new info.new }
{
    rewrite_plain::<RejectStat>(src, at, out, info)
}

pub fn yugerzat_rewrite_auth_stat(src: &[u8], at: usize, out: &mut [u8], info: &mut [u64]) -> u32
    ensures { RewriteCalled 13 src.now at out.old info.old result out.new info.new }
{
    rewrite_plain::<AuthStat>(src, at, out, info)
}

pub fn yugerzat_rewrite_auth_flavor(src: &[u8], at: usize, out: &mut [u8], info: &mut [u64]) -> u32
    ensures { RewriteCalled 14 src.now at out.old info.old result out.new info.new }
{
    rewrite_plain::<AuthFlavor>(src, at, out, info)
}

pub fn yugerzat_rewrite_time_how(src: &[u8], at: usize, out: &mut [u8], info: &mut [u64]) -> u32
    ensures { RewriteCalled 15 src.now at out.old info.old result out.new info.new }
{
    rewrite_plain::<TimeHow>(src, at, out, info)
}

pub fn yugerzat_rewrite_nfsstat3(src: &[u8], at: usize, out: &mut [u8], info: &mut [u64]) -> u32
    ensures { RewriteCalled 16 src.now at out.old info.old result out.new info.new }
{
    rewrite_plain::<Nfsstat3>(src, at, out, info)
}

pub fn yugerzat_rewrite_ftype3(src: &[u8], at: usize, out: &mut [u8], info: &mut [u64]) -> u32
    ensures { RewriteCalled 17 src.now at out.old info.old result out.new info.new }
{
    rewrite_plain::<Ftype3>(src, at, out, info)
}

pub fn yugerzat_rewrite_auth_unix(src: &[u8], at: usize, out: &mut [u8], info: &mut [u64]) -> u32
    ensures { RewriteCalled 18 src.now at out.old info.old result out.new info.new }
{
    rewrite::<AuthUnix>(src, at, out, info)
}

pub fn yugerzat_rewrite_opaque_auth(src: &[u8], at: usize, out: &mut [u8], info: &mut [u64]) -> u32
    ensures { RewriteCalled 19 src.now at out.old info.old result out.new info.new }
{
    rewrite::<OpaqueAuth>(src, at, out, info)
}

pub fn yugerzat_rewrite_rpc_msg(src: &[u8], at: usize, out: &mut [u8], info: &mut [u64]) -> u32
    ensures { RewriteCalled 20 src.now at out.old info.old result out.new info.new }
{
    rewrite::<RpcMsg>(src, at, out, info)
}

pub fn yugerzat_rewrite_rpc_body(src: &[u8], at: usize, out: &mut [u8], info: &mut [u64]) -> u32
    ensures { RewriteCalled 21 src.now at out.old info.old result out.new info.new }
{
    rewrite::<RpcBody>(src, at, out, info)
}

pub fn yugerzat_rewrite_call_body(src: &[u8], at: usize, out: &mut [u8], info: &mut [u64]) -> u32
    ensures { RewriteCalled 22 src.now at out.old info.old result out.new info.new }
{
    rewrite::<CallBody>(src, at, out, info)
}

pub fn yugerzat_rewrite_reply_body(src: &[u8], at: usize, out: &mut [u8], info: &mut [u64]) -> u32
    ensures { RewriteCalled 23 src.now at out.old info.old result out.new info.new }
{
    rewrite::<ReplyBody>(src, at, out, info)
}

pub fn yugerzat_rewrite_accepted_reply(
    src: &[u8],
    at: usize,
    out: &mut [u8],
    info: &mut [u64],
) -> u32
    ensures { RewriteCalled 24 src.now at out.old info.old result out.new info.new }
{
    rewrite::<AcceptedReply>(src, at, out, info)
}

pub fn yugerzat_rewrite_accept_body(src: &[u8], at: usize, out: &mut [u8], info: &mut [u64]) -> u32
    ensures { RewriteCalled 25 src.now at out.old info.old result out.new info.new }
{
    rewrite::<AcceptBody>(src, at, out, info)
}

pub fn yugerzat_rewrite_rejected_reply(
    src: &[u8],
    at: usize,
    out: &mut [u8],
    info: &mut [u64],
) -> u32
    ensures { RewriteCalled 26 src.now at out.old info.old result out.new info.new }
{
    rewrite::<RejectedReply>(src, at, out, info)
}

pub fn yugerzat_rewrite_mismatch_info(
    src: &[u8],
    at: usize,
    out: &mut [u8],
    info: &mut [u64],
) -> u32
    ensures { RewriteCalled 27 src.now at out.old info.old result out.new info.new }
{
    rewrite_plain::<MismatchInfo>(src, at, out, info)
}

pub fn yugerzat_rewrite_specdata3(src: &[u8], at: usize, out: &mut [u8], info: &mut [u64]) -> u32
    ensures { RewriteCalled 28 src.now at out.old info.old result out.new info.new }
{
    rewrite_plain::<Specdata3>(src, at, out, info)
}

pub fn yugerzat_rewrite_nfs_fh3(src: &[u8], at: usize, out: &mut [u8], info: &mut [u64]) -> u32
    ensures { RewriteCalled 29 src.now at out.old info.old result out.new info.new }
{
    rewrite::<NfsFh3>(src, at, out, info)
}

pub fn yugerzat_rewrite_nfstime3(src: &[u8], at: usize, out: &mut [u8], info: &mut [u64]) -> u32
    ensures { RewriteCalled 30 src.now at out.old info.old result out.new info.new }
{
    rewrite_plain::<Nfstime3>(src, at, out, info)
}

pub fn yugerzat_rewrite_fattr3(src: &[u8], at: usize, out: &mut [u8], info: &mut [u64]) -> u32
    ensures { RewriteCalled 31 src.now at out.old info.old result out.new info.new }
{
    rewrite_plain::<Fattr3>(src, at, out, info)
}

pub fn yugerzat_rewrite_fsinfo3(src: &[u8], at: usize, out: &mut [u8], info: &mut [u64]) -> u32
    ensures { RewriteCalled 32 src.now at out.old info.old result out.new info.new }
{
    rewrite::<Fsinfo3>(src, at, out, info)
}

pub fn yugerzat_rewrite_wcc_attr(src: &[u8], at: usize, out: &mut [u8], info: &mut [u64]) -> u32
    ensures { RewriteCalled 33 src.now at out.old info.old result out.new info.new }
{
    rewrite_plain::<WccAttr>(src, at, out, info)
}

pub fn yugerzat_rewrite_pre_op_attr(src: &[u8], at: usize, out: &mut [u8], info: &mut [u64]) -> u32
    ensures { RewriteCalled 34 src.now at out.old info.old result out.new info.new }
{
    rewrite::<PreOpAttr>(src, at, out, info)
}

pub fn yugerzat_rewrite_post_op_attr(src: &[u8], at: usize, out: &mut [u8], info: &mut [u64]) -> u32
    ensures { RewriteCalled 35 src.now at out.old info.old result out.new info.new }
{
    rewrite::<PostOpAttr>(src, at, out, info)
}

pub fn yugerzat_rewrite_wcc_data(src: &[u8], at: usize, out: &mut [u8], info: &mut [u64]) -> u32
    ensures { RewriteCalled 36 src.now at out.old info.old result out.new info.new }
{
    rewrite::<WccData>(src, at, out, info)
}

pub fn yugerzat_rewrite_post_op_fh3(src: &[u8], at: usize, out: &mut [u8], info: &mut [u64]) -> u32
    ensures { RewriteCalled 37 src.now at out.old info.old result out.new info.new }
{
    rewrite::<PostOpFh3>(src, at, out, info)
}

pub fn yugerzat_rewrite_set_mode3(src: &[u8], at: usize, out: &mut [u8], info: &mut [u64]) -> u32
    ensures { RewriteCalled 38 src.now at out.old info.old result out.new info.new }
{
    rewrite::<SetMode3>(src, at, out, info)
}

pub fn yugerzat_rewrite_set_uid3(src: &[u8], at: usize, out: &mut [u8], info: &mut [u64]) -> u32
    ensures { RewriteCalled 39 src.now at out.old info.old result out.new info.new }
{
    rewrite::<SetUid3>(src, at, out, info)
}

pub fn yugerzat_rewrite_set_gid3(src: &[u8], at: usize, out: &mut [u8], info: &mut [u64]) -> u32
    ensures { RewriteCalled 40 src.now at out.old info.old result out.new info.new }
{
    rewrite::<SetGid3>(src, at, out, info)
}

pub fn yugerzat_rewrite_set_size3(src: &[u8], at: usize, out: &mut [u8], info: &mut [u64]) -> u32
    ensures { RewriteCalled 41 src.now at out.old info.old result out.new info.new }
{
    rewrite::<SetSize3>(src, at, out, info)
}

pub fn yugerzat_rewrite_set_atime(src: &[u8], at: usize, out: &mut [u8], info: &mut [u64]) -> u32
    ensures { RewriteCalled 42 src.now at out.old info.old result out.new info.new }
{
    rewrite_plain::<SetAtime>(src, at, out, info)
}

pub fn yugerzat_rewrite_set_mtime(src: &[u8], at: usize, out: &mut [u8], info: &mut [u64]) -> u32
    ensures { RewriteCalled 43 src.now at out.old info.old result out.new info.new }
{
    rewrite_plain::<SetMtime>(src, at, out, info)
}

pub fn yugerzat_rewrite_sattr3(src: &[u8], at: usize, out: &mut [u8], info: &mut [u64]) -> u32
    ensures { RewriteCalled 44 src.now at out.old info.old result out.new info.new }
{
    rewrite_sattr3(src, at, out, info)
}

pub fn yugerzat_rewrite_diropargs3(src: &[u8], at: usize, out: &mut [u8], info: &mut [u64]) -> u32
    ensures { RewriteCalled 45 src.now at out.old info.old result out.new info.new }
{
    rewrite::<Diropargs3>(src, at, out, info)
}

pub fn yugerzat_rewrite_symlinkdata3(src: &[u8], at: usize, out: &mut [u8], info: &mut [u64]) -> u32
    ensures { RewriteCalled 46 src.now at out.old info.old result out.new info.new }
{
    rewrite::<Symlinkdata3>(src, at, out, info)
}

pub fn yugerzat_rewrite_stable_how(src: &[u8], at: usize, out: &mut [u8], info: &mut [u64]) -> u32
    ensures { RewriteCalled 47 src.now at out.old info.old result out.new info.new }
{
    rewrite_plain::<StableHow>(src, at, out, info)
}

pub fn yugerzat_rewrite_sattrguard3(src: &[u8], at: usize, out: &mut [u8], info: &mut [u64]) -> u32
    ensures { RewriteCalled 48 src.now at out.old info.old result out.new info.new }
{
    rewrite::<Sattrguard3>(src, at, out, info)
}

pub fn yugerzat_rewrite_getattr3args(src: &[u8], at: usize, out: &mut [u8], info: &mut [u64]) -> u32
    ensures { RewriteCalled 49 src.now at out.old info.old result out.new info.new }
{
    rewrite::<Getattr3args>(src, at, out, info)
}

pub fn yugerzat_rewrite_getattr3res(src: &[u8], at: usize, out: &mut [u8], info: &mut [u64]) -> u32
    ensures { RewriteCalled 50 src.now at out.old info.old result out.new info.new }
{
    rewrite_plain::<Getattr3res>(src, at, out, info)
}

pub fn yugerzat_rewrite_setattr3args(src: &[u8], at: usize, out: &mut [u8], info: &mut [u64]) -> u32
    ensures { RewriteCalled 51 src.now at out.old info.old result out.new info.new }
{
    rewrite::<Setattr3args>(src, at, out, info)
}

pub fn yugerzat_rewrite_setattr3res(src: &[u8], at: usize, out: &mut [u8], info: &mut [u64]) -> u32
    ensures { RewriteCalled 52 src.now at out.old info.old result out.new info.new }
{
    rewrite::<Setattr3res>(src, at, out, info)
}

pub fn yugerzat_rewrite_lookup3args(src: &[u8], at: usize, out: &mut [u8], info: &mut [u64]) -> u32
    ensures { RewriteCalled 53 src.now at out.old info.old result out.new info.new }
{
    rewrite::<Lookup3args>(src, at, out, info)
}

pub fn yugerzat_rewrite_lookup3res(src: &[u8], at: usize, out: &mut [u8], info: &mut [u64]) -> u32
    ensures { RewriteCalled 54 src.now at out.old info.old result out.new info.new }
{
    rewrite::<Lookup3res>(src, at, out, info)
}

pub fn yugerzat_rewrite_read3args(src: &[u8], at: usize, out: &mut [u8], info: &mut [u64]) -> u32
    ensures { RewriteCalled 55 src.now at out.old info.old result out.new info.new }
{
    rewrite::<Read3args>(src, at, out, info)
}

pub fn yugerzat_rewrite_read3res(src: &[u8], at: usize, out: &mut [u8], info: &mut [u64]) -> u32
    ensures { RewriteCalled 56 src.now at out.old info.old result out.new info.new }
{
    rewrite::<Read3res>(src, at, out, info)
}

pub fn yugerzat_rewrite_write3args(src: &[u8], at: usize, out: &mut [u8], info: &mut [u64]) -> u32
    ensures { RewriteCalled 57 src.now at out.old info.old result out.new info.new }
{
    rewrite::<Write3args>(src, at, out, info)
}

pub fn yugerzat_rewrite_write3res(src: &[u8], at: usize, out: &mut [u8], info: &mut [u64]) -> u32
    ensures { RewriteCalled 58 src.now at out.old info.old result out.new info.new }
{
    rewrite::<Write3res>(src, at, out, info)
}

pub fn yugerzat_rewrite_current_accept_stat(
    src: &[u8],
    at: usize,
    out: &mut [u8],
    info: &mut [u64],
) -> u32
    ensures { RewriteCalled 59 src.now at out.old info.old result out.new info.new }
{
    rewrite_plain::<CurrentAcceptStat>(src, at, out, info)
}

pub fn yugerzat_rewrite_current_auth_stat(
    src: &[u8],
    at: usize,
    out: &mut [u8],
    info: &mut [u64],
) -> u32
    ensures { RewriteCalled 60 src.now at out.old info.old result out.new info.new }
{
    rewrite_plain::<CurrentAuthStat>(src, at, out, info)
}

pub fn yugerzat_rewrite_current_accept_body(
    src: &[u8],
    at: usize,
    out: &mut [u8],
    info: &mut [u64],
) -> u32
    ensures { RewriteCalled 61 src.now at out.old info.old result out.new info.new }
{
    rewrite::<CurrentAcceptBody>(src, at, out, info)
}

pub fn yugerzat_rewrite_current_accepted_reply(
    src: &[u8],
    at: usize,
    out: &mut [u8],
    info: &mut [u64],
) -> u32
    ensures { RewriteCalled 62 src.now at out.old info.old result out.new info.new }
{
    rewrite::<CurrentAcceptedReply>(src, at, out, info)
}

pub fn yugerzat_rewrite_current_rejected_reply(
    src: &[u8],
    at: usize,
    out: &mut [u8],
    info: &mut [u64],
) -> u32
    ensures { RewriteCalled 63 src.now at out.old info.old result out.new info.new }
{
    rewrite::<CurrentRejectedReply>(src, at, out, info)
}

pub fn yugerzat_rewrite_current_reply_body(
    src: &[u8],
    at: usize,
    out: &mut [u8],
    info: &mut [u64],
) -> u32
    ensures { RewriteCalled 64 src.now at out.old info.old result out.new info.new }
{
    rewrite::<CurrentReplyBody>(src, at, out, info)
}

pub fn yugerzat_rewrite_current_rpc_body(
    src: &[u8],
    at: usize,
    out: &mut [u8],
    info: &mut [u64],
) -> u32
    ensures { RewriteCalled 65 src.now at out.old info.old result out.new info.new }
{
    rewrite::<CurrentRpcBody>(src, at, out, info)
}

pub fn yugerzat_rewrite_current_rpc_msg(
    src: &[u8],
    at: usize,
    out: &mut [u8],
    info: &mut [u64],
) -> u32
    ensures { RewriteCalled 66 src.now at out.old info.old result out.new info.new }
{
    rewrite::<CurrentRpcMsg>(src, at, out, info)
}

pub fn yugerzat_rewrite_dirpath(src: &[u8], at: usize, out: &mut [u8], info: &mut [u64]) -> u32
    ensures { RewriteCalled 67 src.now at out.old info.old result out.new info.new }
{
    rewrite::<Dirpath>(src, at, out, info)
}

pub fn yugerzat_rewrite_mountstat3(src: &[u8], at: usize, out: &mut [u8], info: &mut [u64]) -> u32
    ensures { RewriteCalled 68 src.now at out.old info.old result out.new info.new }
{
    rewrite_plain::<Mountstat3>(src, at, out, info)
}

pub fn yugerzat_rewrite_mountres3(src: &[u8], at: usize, out: &mut [u8], info: &mut [u64]) -> u32
    ensures { RewriteCalled 69 src.now at out.old info.old result out.new info.new }
{
    rewrite::<Mountres3>(src, at, out, info)
}

pub fn yugerzat_rewrite_exports(src: &[u8], at: usize, out: &mut [u8], info: &mut [u64]) -> u32
    ensures { RewriteCalled 70 src.now at out.old info.old result out.new info.new }
{
    rewrite::<Exports>(src, at, out, info)
}

pub fn yugerzat_rewrite_mapping(src: &[u8], at: usize, out: &mut [u8], info: &mut [u64]) -> u32
    ensures { RewriteCalled 71 src.now at out.old info.old result out.new info.new }
{
    rewrite_plain::<Mapping>(src, at, out, info)
}
