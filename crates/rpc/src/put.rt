// Kinds laid at the front of a buffer that has room, field by field: each field's writer is lent the tail.
ghost use Rattle.std.specs.Prelude.{◌≡◌, ◌+◌, ◌≤◌, length};
ghost use Rattle.xdr.specs.Meaning.Public.{output};
ghost use Rattle.xdr.specs.Laws.Write.{Put, Ready};
ghost use Rattle.rpc.specs.Meaning.Auth.{opaque-auth, auth-unix};
ghost use Rattle.rpc.specs.Meaning.Reading.{mismatch-info};
ghost use Rattle.rpc.specs.Meaning.Crate.{crate, accept-body, accepted-reply, rejected-reply, reply-body, rpc-body, rpc-msg};
ghost use Rattle.rpc.specs.Meaning.Message.{call-body};
ghost use Rattle.rpc.specs.Meaning.Sources.{unix_from, call_from, message_from};
ghost use Rattle.rpc.specs.Laws.Sources.{UnixReady, CallReady};
ghost use Rattle.rpc.specs.Laws.Sizes.{auth_size, unix_size, call_size};
ghost use Rattle.rpc.specs.Laws.ReplySizes.{accept_tag, accept_size, accepted_size, reject_size, reply_size, body_size, msg_size};

use crate::auth::{auth_unix, opaque_auth};
use crate::fit::opaque_auth_size;
use crate::message::{call_body, rpc_body, rpc_msg};
use crate::reply::{accept_body, accepted_reply, mismatch_info, rejected_reply, reply_body};
use xdr::inner::{opaque_size, put_opaque, put_u32, put_u32_pair, put_words};

pub(crate) fn put_mismatch_info(m: mismatch_info, out: &mut [u8])
    requires { 8 ≤ length out.old }
    ensures { Put out.old out.new 8 (mismatch-info.kind.write m) }
{
    put_u32_pair(m.low, m.high, out);
}

pub(crate) fn put_opaque_auth(src: &[u8], m: opaque_auth, out: &mut [u8])
    requires ready { Ready opaque-auth src.now m }
    requires m_in_bounds { auth_size m ≤ length out.old }
    ensures { Put out.old out.new (auth_size m) (output opaque-auth src.now m) }
{
    let flavor = m.flavor;
    let body = m.body;
    put_u32(flavor.number(), out);
    put_opaque(src, body, &mut out[4..]);
}

// The name is a piece of one source, and the gids of another, which may be the same.
pub(crate) fn put_auth_unix_from(names: &[u8], groups: &[u8], m: auth_unix, out: &mut [u8])
    requires unix_ready { UnixReady names.now groups.now m }
    requires m_in_bounds { unix_size m ≤ length out.old }
    ensures { Put out.old out.new (unix_size m) (auth-unix.codec.kind.write (unix_from names.now groups.now m)) }
{
    let machinename = m.machinename;
    let gids = m.gids;
    put_u32(m.stamp, out);
    put_opaque(names, machinename, &mut out[4..]);
    let a = 4 + opaque_size(machinename.count);
    let b = a + 8;
    put_u32_pair(m.uid, m.gid, &mut out[a..]);
    put_words(groups, gids, &mut out[b..]);
}

pub(crate) fn put_auth_unix(src: &[u8], m: auth_unix, out: &mut [u8])
    requires ready { Ready auth-unix src.now m }
    requires m_in_bounds { unix_size m ≤ length out.old }
    ensures { Put out.old out.new (unix_size m) (output auth-unix src.now m) }
{
    put_auth_unix_from(src, src, m, out);
}

// The credential's body is a piece of one source, and the verifier's of another, which may be the same.
pub(crate) fn put_call_body_from(creds: &[u8], verfs: &[u8], m: call_body, out: &mut [u8])
    requires call_ready { CallReady creds.now verfs.now m }
    requires m_in_bounds { call_size m ≤ length out.old }
    ensures { Put out.old out.new (call_size m) (call-body.codec.kind.write (call_from creds.now verfs.now m)) }
{
    let cred = m.cred;
    let verf = m.verf;
    put_u32_pair(m.rpcvers, m.prog, out);
    put_u32_pair(m.vers, m.proc, &mut out[8..]);
    put_opaque_auth(creds, cred, &mut out[16..]);
    let a = 16 + opaque_auth_size(cred);
    put_opaque_auth(verfs, verf, &mut out[a..]);
}

// The rpc_msg of a call.
pub(crate) fn put_call_from(creds: &[u8], verfs: &[u8], xid: u32, m: call_body, out: &mut [u8])
    requires call_ready { CallReady creds.now verfs.now m }
    requires m_in_bounds { 8 + call_size m ≤ length out.old }
    ensures { Put out.old out.new (8 + call_size m) (rpc-msg.codec.kind.write (message_from creds.now verfs.now xid m)) }
{
    put_u32_pair(xid, 0, out);
    put_call_body_from(creds, verfs, m, &mut out[8..]);
}

pub(crate) fn put_call_body(src: &[u8], m: call_body, out: &mut [u8])
    requires ready { Ready call-body src.now m }
    requires m_in_bounds { call_size m ≤ length out.old }
    ensures { Put out.old out.new (call_size m) (output call-body src.now m) }
{
    put_call_body_from(src, src, m, out);
}

fn accept_tag(m: accept_body) -> u32
    ensures { result ≡ accept_tag crate m }
{
    match m {
        accept_body::SUCCESS => 0,
        accept_body::PROG_UNAVAIL => 1,
        accept_body::PROG_MISMATCH(_) => 2,
        accept_body::PROC_UNAVAIL => 3,
        accept_body::GARBAGE_ARGS => 4,
    }
}

pub(crate) fn put_accept_body(m: accept_body, out: &mut [u8])
    requires { accept_size crate m ≤ length out.old }
    ensures { Put out.old out.new (accept_size crate m) (accept-body.kind.write m) }
{
    put_u32(accept_tag(m), out);
    let accept_body::PROG_MISMATCH(v) = m else {
        return;
    };
    put_mismatch_info(v, &mut out[4..]);
}

pub(crate) fn put_accepted_reply(src: &[u8], m: accepted_reply, out: &mut [u8])
    requires ready { Ready accepted-reply src.now m }
    requires m_in_bounds { accepted_size crate m ≤ length out.old }
    ensures { Put out.old out.new (accepted_size crate m) (output accepted-reply src.now m) }
{
    let verf = m.verf;
    let reply_data = m.reply_data;
    put_opaque_auth(src, verf, out);
    let a = opaque_auth_size(verf);
    put_accept_body(reply_data, &mut out[a..]);
}

pub(crate) fn put_rejected_reply(m: rejected_reply, out: &mut [u8])
    requires { reject_size crate m ≤ length out.old }
    ensures { Put out.old out.new (reject_size crate m) (rejected-reply.kind.write m) }
{
    match m {
        rejected_reply::RPC_MISMATCH(v) => {
            put_u32(0, out);
            put_mismatch_info(v, &mut out[4..]);
        }
        rejected_reply::AUTH_ERROR(a) => put_u32_pair(1, a.number(), out),
    }
}

pub(crate) fn put_reply_body(src: &[u8], m: reply_body, out: &mut [u8])
    requires ready { Ready reply-body src.now m }
    requires m_in_bounds { reply_size crate m ≤ length out.old }
    ensures { Put out.old out.new (reply_size crate m) (output reply-body src.now m) }
{
    match m {
        reply_body::MSG_ACCEPTED(a) => {
            put_u32(0, out);
            put_accepted_reply(src, a, &mut out[4..]);
        }
        reply_body::MSG_DENIED(r) => {
            put_u32(1, out);
            put_rejected_reply(r, &mut out[4..]);
        }
    }
}

pub(crate) fn put_rpc_body(src: &[u8], m: rpc_body, out: &mut [u8])
    requires ready { Ready rpc-body src.now m }
    requires m_in_bounds { body_size crate m ≤ length out.old }
    ensures { Put out.old out.new (body_size crate m) (output rpc-body src.now m) }
{
    match m {
        rpc_body::CALL(c) => {
            put_u32(0, out);
            put_call_body(src, c, &mut out[4..]);
        }
        rpc_body::REPLY(r) => {
            put_u32(1, out);
            put_reply_body(src, r, &mut out[4..]);
        }
    }
}

pub(crate) fn put_rpc_msg(src: &[u8], m: rpc_msg, out: &mut [u8])
    requires ready { Ready rpc-msg src.now m }
    requires m_in_bounds { msg_size crate m ≤ length out.old }
    ensures { Put out.old out.new (msg_size crate m) (output rpc-msg src.now m) }
{
    let body = m.body;
    put_u32(m.xid, out);
    put_rpc_body(src, body, &mut out[4..]);
}
