// Calls to the programs mount, version 3 (RFC 1813, appendix I), and port mapper, version 2 (RFC 1057, appendix A): those that need no
// server are answered here, and the others are read and handed on.
ghost use Rattle.std.specs.Prelude.{◌≡◌};
ghost use Rattle.xdr.specs.Meaning.Views.{view_option};
ghost use Rattle.mount.specs.Meaning.Ask.{mnt, umnt, getport, taking, path_at, mapping_at, mount_procedure, portmap_procedure, in_version, mount_serves, portmap_serves, handed_on, xid_of, outcome, replying, carried_out, Asks};
ghost use Rattle.mount.specs.Meaning.Views.{view_asked};
ghost use Rattle.mount.specs.Laws.Ask.{Sendable};

use crate::path::read_dirpath;
use crate::portmap::{mapping, read_mapping};
use rpc::{
    auth_unix, make_success_reply, proc_unavail_reply_message, prog_mismatch_reply_message,
    rpc_msg, write_rpc_msg,
};
use rpcwire::{Choice, choose};
use xdr::{Piece, Refusal, read_u32};

const MOUNT_PROGRAM: u32 = 100005;

const MOUNT_V3: u32 = 3;

const MOUNTPROC3_NULL: u32 = 0;

const MOUNTPROC3_MNT: u32 = 1;

const MOUNTPROC3_UMNT: u32 = 3;

const MOUNTPROC3_EXPORT: u32 = 5;

const PMAP_PROG: u32 = 100000;

const PMAP_VERS: u32 = 2;

const PMAPPROC_NULL: u32 = 0;

const PMAPPROC_GETPORT: u32 = 3;

// What becomes of a message. All but one of these outcomes are no refusal, and each is carried out in its own way.
#[derive(Clone, Copy)]
pub enum Asked {
    Refused(Refusal),
    // A reply of so many bytes stands at the front of the output.
    Replied(usize),
    // The call was seen before: nothing is sent.
    Silent,
    // Another program is to answer, as `choose` says.
    HandOver {
        prog: u32,
        vers: u32,
        proc: u32,
        caller: Option<auth_unix>,
        arguments: usize,
    },
    // A procedure is to answer. `next` is the place behind its arguments.
    Mnt {
        caller: Option<auth_unix>,
        path: Piece,
        next: usize,
    },
    Umnt {
        caller: Option<auth_unix>,
        path: Piece,
        next: usize,
    },
    Export {
        caller: Option<auth_unix>,
        next: usize,
    },
    Getport {
        caller: Option<auth_unix>,
        value: mapping,
        next: usize,
    },
}

// A reply has no pieces, so it needs no source; and all that can be wrong with it is too little room.
fn reply(message: &[u8], m: rpc_msg, out: &mut [u8]) -> Asked
    requires { Sendable m }
    ensures { outcome (view_asked result) out.new ≡ replying m out.old }
{
    match write_rpc_msg(&message[..0], m, out, 0) {
        Err(short) => Asked::Refused(short),
        Ok(n) => Asked::Replied(n),
    }
}

fn read_mnt(message: &[u8], caller: Option<auth_unix>, arguments: usize) -> Asked
    ensures { view_asked result ≡ taking (mnt (view_option caller)) (path_at message.now arguments) }
{
    match read_dirpath(message, arguments) {
        Err(r) => Asked::Refused(r),
        Ok(path) => Asked::Mnt {
            caller,
            path: path.value,
            next: path.next,
        },
    }
}

fn read_umnt(message: &[u8], caller: Option<auth_unix>, arguments: usize) -> Asked
    ensures { view_asked result ≡ taking (umnt (view_option caller)) (path_at message.now arguments) }
{
    match read_dirpath(message, arguments) {
        Err(r) => Asked::Refused(r),
        Ok(path) => Asked::Umnt {
            caller,
            path: path.value,
            next: path.next,
        },
    }
}

fn read_getport(message: &[u8], caller: Option<auth_unix>, arguments: usize) -> Asked
    ensures { view_asked result ≡ taking (getport (view_option caller)) (mapping_at message.now arguments) }
{
    match read_mapping(message, arguments) {
        Err(r) => Asked::Refused(r),
        Ok(mapping) => Asked::Getport {
            caller,
            value: mapping.value,
            next: mapping.next,
        },
    }
}

fn by_mount_procedure(
    message: &[u8],
    xid: u32,
    proc: u32,
    caller: Option<auth_unix>,
    arguments: usize,
    out: &mut [u8],
) -> Asked
    ensures { outcome (view_asked result) out.new ≡ carried_out (mount_procedure message.now xid (view_option caller) arguments proc) out.old }
{
    match proc {
        MOUNTPROC3_NULL => reply(message, make_success_reply(xid), out),
        MOUNTPROC3_MNT => read_mnt(message, caller, arguments),
        MOUNTPROC3_UMNT => read_umnt(message, caller, arguments),
        MOUNTPROC3_EXPORT => Asked::Export {
            caller,
            next: arguments,
        },
        _ => reply(message, proc_unavail_reply_message(xid), out),
    }
}

fn by_portmap_procedure(
    message: &[u8],
    xid: u32,
    proc: u32,
    caller: Option<auth_unix>,
    arguments: usize,
    out: &mut [u8],
) -> Asked
    ensures { outcome (view_asked result) out.new ≡ carried_out (portmap_procedure message.now xid (view_option caller) arguments proc) out.old }
{
    match proc {
        PMAPPROC_NULL => reply(message, make_success_reply(xid), out),
        PMAPPROC_GETPORT => read_getport(message, caller, arguments),
        _ => reply(message, proc_unavail_reply_message(xid), out),
    }
}

// The version is tested first, whatever the procedure is.
fn by_mount_version(
    message: &[u8],
    xid: u32,
    vers: u32,
    proc: u32,
    caller: Option<auth_unix>,
    arguments: usize,
    out: &mut [u8],
) -> Asked
    ensures { outcome (view_asked result) out.new ≡ carried_out (in_version xid mount_serves vers (mount_procedure message.now xid (view_option caller) arguments proc)) out.old }
{
    if vers != MOUNT_V3 {
        return reply(message, prog_mismatch_reply_message(xid, MOUNT_V3), out);
    }
    by_mount_procedure(message, xid, proc, caller, arguments, out)
}

fn by_portmap_version(
    message: &[u8],
    xid: u32,
    vers: u32,
    proc: u32,
    caller: Option<auth_unix>,
    arguments: usize,
    out: &mut [u8],
) -> Asked
    ensures { outcome (view_asked result) out.new ≡ carried_out (in_version xid portmap_serves vers (portmap_procedure message.now xid (view_option caller) arguments proc)) out.old }
{
    if vers != PMAP_VERS {
        return reply(message, prog_mismatch_reply_message(xid, PMAP_VERS), out);
    }
    by_portmap_procedure(message, xid, proc, caller, arguments, out)
}

// Answers a hand_over. `xid` is that of the message, and the rest is what the hand_over has; a reply is written to the front of the output.
// A hand_over to a program that is not of this crate is given back.
pub fn answer(
    message: &[u8],
    xid: u32,
    prog: u32,
    vers: u32,
    proc: u32,
    caller: Option<auth_unix>,
    arguments: usize,
    out: &mut [u8],
) -> Asked
    ensures { outcome (view_asked result) out.new ≡ carried_out (handed_on message.now xid (view_option caller) arguments prog vers proc) out.old }
{
    match prog {
        MOUNT_PROGRAM => by_mount_version(message, xid, vers, proc, caller, arguments, out),
        PMAP_PROG => by_portmap_version(message, xid, vers, proc, caller, arguments, out),
        _ => Asked::HandOver {
            prog,
            vers,
            proc,
            caller,
            arguments,
        },
    }
}

// A message that was handed over has a first word.
fn xid_of(message: &[u8]) -> u32
    ensures { result ≡ xid_of message.now }
{
    match read_u32(message, 0) {
        Err(_) => 0,
        Ok(word) => word.value,
    }
}

// Answers a message: `choose`, and then `answer` of a hand_over. `seen` says if the call came before.
pub fn ask(message: &[u8], seen: bool, out: &mut [u8]) -> Asked
    ensures { Asks message.now seen out.old (view_asked result) out.new }
{
    match choose(message, seen, out) {
        Choice::Refused(r) => Asked::Refused(r),
        Choice::Replied(n) => Asked::Replied(n),
        Choice::Silent => Asked::Silent,
        Choice::HandOver {
            prog,
            vers,
            proc,
            caller,
            arguments,
        } => answer(
            message,
            xid_of(message),
            prog,
            vers,
            proc,
            caller,
            arguments,
            out,
        ),
    }
}
