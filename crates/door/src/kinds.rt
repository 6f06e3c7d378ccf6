// made by tools/generate from kinds.txt
// A message of a kind that is named by its number.
ghost use Rattle.door.specs.Meaning.Copy.{view_copied};
ghost use Rattle.door.specs.Meaning.Kinds.{item_kinds, closed_kinds, message_kinds, attribute_kinds, change_kinds, procedure_kinds, current_kinds, mount_kinds, kinds, CopiesOf, CopiesIn};

use crate::copy::Copied;
use crate::files::{
    Diropargs3, Fattr3, Fsinfo3, Ftype3, NfsFh3, Nfsstat3, Nfsstring, Nfstime3, PostOpAttr,
    PostOpFh3, PreOpAttr, Sattr3, SetAtime, SetGid3, SetMode3, SetMtime, SetSize3, SetUid3,
    Specdata3, Symlinkdata3, TimeHow, WccAttr, WccData,
};
use crate::items::{Bool, Eight, I32, I64, Opaque, U32, U64, Words};
use crate::kind::{copy, copy_plain};
use crate::messages::{
    AcceptBody, AcceptStat, AcceptedReply, AuthFlavor, AuthStat, AuthUnix, CallBody,
    CurrentAcceptBody, CurrentAcceptStat, CurrentAcceptedReply, CurrentAuthStat,
    CurrentRejectedReply, CurrentReplyBody, CurrentRpcBody, CurrentRpcMsg, MismatchInfo, MsgType,
    OpaqueAuth, RejectStat, RejectedReply, ReplyBody, ReplyStat, RpcBody, RpcMsg,
};
use crate::mounts::{Dirpath, Exports, Mapping, Mountres3, Mountstat3};
use crate::procedures::{
    Getattr3args, Getattr3res, Lookup3args, Lookup3res, Read3args, Read3res, Sattrguard3,
    Setattr3args, Setattr3res, StableHow, Write3args, Write3res,
};

// The items.
fn copy_item(kind: u32, src: &[u8], at: usize, out: &mut [u8], start: usize) -> Copied
    ensures { CopiesIn item_kinds kind src.now at start out.old (view_copied result) out.new }
{
    match kind {
        0 => copy::<Bool>(src, at, out, start),
        1 => copy_plain::<I32>(src, at, out, start),
        2 => copy_plain::<I64>(src, at, out, start),
        3 => copy_plain::<U32>(src, at, out, start),
        4 => copy_plain::<U64>(src, at, out, start),
        5 => copy_plain::<Eight>(src, at, out, start),
        6 => copy::<Opaque>(src, at, out, start),
        7 => copy::<Nfsstring>(src, at, out, start),
        8 => copy::<Words>(src, at, out, start),
        _ => Copied::Unknown,
    }
}

// The closed enumerations of RFC 5531 and RFC 1813.
fn copy_closed(kind: u32, src: &[u8], at: usize, out: &mut [u8], start: usize) -> Copied
    ensures { CopiesIn closed_kinds kind src.now at start out.old (view_copied result) out.new }
{
    match kind {
        0 => copy_plain::<MsgType>(src, at, out, start),
        1 => copy_plain::<ReplyStat>(src, at, out, start),
        2 => copy_plain::<AcceptStat>(src, at, out, start),
        3 => copy_plain::<RejectStat>(src, at, out, start),
        4 => copy_plain::<AuthStat>(src, at, out, start),
        5 => copy_plain::<AuthFlavor>(src, at, out, start),
        6 => copy_plain::<TimeHow>(src, at, out, start),
        7 => copy_plain::<Nfsstat3>(src, at, out, start),
        8 => copy_plain::<Ftype3>(src, at, out, start),
        _ => Copied::Unknown,
    }
}

// The messages of RFC 5531.
fn copy_message(kind: u32, src: &[u8], at: usize, out: &mut [u8], start: usize) -> Copied
    ensures { CopiesIn message_kinds kind src.now at start out.old (view_copied result) out.new }
{
    match kind {
        0 => copy::<AuthUnix>(src, at, out, start),
        1 => copy::<OpaqueAuth>(src, at, out, start),
        2 => copy::<RpcMsg>(src, at, out, start),
        3 => copy::<RpcBody>(src, at, out, start),
        4 => copy::<CallBody>(src, at, out, start),
        5 => copy::<ReplyBody>(src, at, out, start),
        6 => copy::<AcceptedReply>(src, at, out, start),
        7 => copy::<AcceptBody>(src, at, out, start),
        8 => copy::<RejectedReply>(src, at, out, start),
        9 => copy_plain::<MismatchInfo>(src, at, out, start),
        _ => Copied::Unknown,
    }
}

// Attributes and what holds them (RFC 1813).
fn copy_attributes(kind: u32, src: &[u8], at: usize, out: &mut [u8], start: usize) -> Copied
    ensures { CopiesIn attribute_kinds kind src.now at start out.old (view_copied result) out.new }
{
    match kind {
        0 => copy_plain::<Specdata3>(src, at, out, start),
        1 => copy::<NfsFh3>(src, at, out, start),
        2 => copy_plain::<Nfstime3>(src, at, out, start),
        3 => copy_plain::<Fattr3>(src, at, out, start),
        4 => copy::<Fsinfo3>(src, at, out, start),
        5 => copy_plain::<WccAttr>(src, at, out, start),
        6 => copy::<PreOpAttr>(src, at, out, start),
        7 => copy::<PostOpAttr>(src, at, out, start),
        8 => copy::<WccData>(src, at, out, start),
        9 => copy::<PostOpFh3>(src, at, out, start),
        _ => Copied::Unknown,
    }
}

// What a call changes, and names (RFC 1813).
fn copy_change(kind: u32, src: &[u8], at: usize, out: &mut [u8], start: usize) -> Copied
    ensures { CopiesIn change_kinds kind src.now at start out.old (view_copied result) out.new }
{
    match kind {
        0 => copy::<SetMode3>(src, at, out, start),
        1 => copy::<SetUid3>(src, at, out, start),
        2 => copy::<SetGid3>(src, at, out, start),
        3 => copy::<SetSize3>(src, at, out, start),
        4 => copy_plain::<SetAtime>(src, at, out, start),
        5 => copy_plain::<SetMtime>(src, at, out, start),
        6 => copy::<Sattr3>(src, at, out, start),
        7 => copy::<Diropargs3>(src, at, out, start),
        8 => copy::<Symlinkdata3>(src, at, out, start),
        _ => Copied::Unknown,
    }
}

// Arguments and results of procedures (RFC 1813).
fn copy_procedure(kind: u32, src: &[u8], at: usize, out: &mut [u8], start: usize) -> Copied
    ensures { CopiesIn procedure_kinds kind src.now at start out.old (view_copied result) out.new }
{
    match kind {
        0 => copy_plain::<StableHow>(src, at, out, start),
        1 => copy::<Sattrguard3>(src, at, out, start),
        2 => copy::<Getattr3args>(src, at, out, start),
        3 => copy_plain::<Getattr3res>(src, at, out, start),
        4 => copy::<Setattr3args>(src, at, out, start),
        5 => copy::<Setattr3res>(src, at, out, start),
        6 => copy::<Lookup3args>(src, at, out, start),
        7 => copy::<Lookup3res>(src, at, out, start),
        8 => copy::<Read3args>(src, at, out, start),
        9 => copy::<Read3res>(src, at, out, start),
        10 => copy::<Write3args>(src, at, out, start),
        11 => copy::<Write3res>(src, at, out, start),
        _ => Copied::Unknown,
    }
}

// Replies in the current reading (RFC 5531).
fn copy_current(kind: u32, src: &[u8], at: usize, out: &mut [u8], start: usize) -> Copied
    ensures { CopiesIn current_kinds kind src.now at start out.old (view_copied result) out.new }
{
    match kind {
        0 => copy_plain::<CurrentAcceptStat>(src, at, out, start),
        1 => copy_plain::<CurrentAuthStat>(src, at, out, start),
        2 => copy::<CurrentAcceptBody>(src, at, out, start),
        3 => copy::<CurrentAcceptedReply>(src, at, out, start),
        4 => copy::<CurrentRejectedReply>(src, at, out, start),
        5 => copy::<CurrentReplyBody>(src, at, out, start),
        6 => copy::<CurrentRpcBody>(src, at, out, start),
        7 => copy::<CurrentRpcMsg>(src, at, out, start),
        _ => Copied::Unknown,
    }
}

// The mount protocol (RFC 1813, appendix I) and the port mapper (RFC 1057).
fn copy_mount(kind: u32, src: &[u8], at: usize, out: &mut [u8], start: usize) -> Copied
    ensures { CopiesIn mount_kinds kind src.now at start out.old (view_copied result) out.new }
{
    match kind {
        0 => copy::<Dirpath>(src, at, out, start),
        1 => copy_plain::<Mountstat3>(src, at, out, start),
        2 => copy::<Mountres3>(src, at, out, start),
        3 => copy::<Exports>(src, at, out, start),
        4 => copy_plain::<Mapping>(src, at, out, start),
        _ => Copied::Unknown,
    }
}

// Reads a message of the kind from a place of one buffer and writes it, in published form, from a place of another.
pub fn copy_kind(kind: u32, src: &[u8], at: usize, out: &mut [u8], start: usize) -> Copied
    ensures { CopiesOf kinds kind src.now at start out.old (view_copied result) out.new }
{
    if kind < 9 {
        return copy_item(kind, src, at, out, start);
    }
    if kind < 18 {
        return copy_closed(kind - 9, src, at, out, start);
    }
    if kind < 28 {
        return copy_message(kind - 18, src, at, out, start);
    }
    if kind < 38 {
        return copy_attributes(kind - 28, src, at, out, start);
    }
    if kind < 47 {
        return copy_change(kind - 38, src, at, out, start);
    }
    if kind < 59 {
        return copy_procedure(kind - 47, src, at, out, start);
    }
    if kind < 67 {
        return copy_current(kind - 59, src, at, out, start);
    }
    copy_mount(kind - 67, src, at, out, start)
}
