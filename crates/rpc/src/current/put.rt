// Kinds of the current reading laid at the front of a buffer that has room, as in `put`.
ghost use Rattle.std.specs.Prelude.{◌≡◌, ◌≤◌, length};
ghost use Rattle.xdr.specs.Meaning.Public.{output};
ghost use Rattle.xdr.specs.Laws.Write.{Put, Ready};
ghost use Rattle.rpc.specs.Meaning.Current.{current, current_accept_body, current_accepted_reply, current_rejected_reply, current_reply_body, current_rpc_body, current_rpc_msg};
ghost use Rattle.rpc.specs.Laws.ReplySizes.{accept_tag, accept_size, accepted_size, reject_size, reply_size, body_size, msg_size};

use crate::current::message::{rpc_body, rpc_msg};
use crate::current::reply::{accept_body, accepted_reply, rejected_reply, reply_body};
use crate::fit::opaque_auth_size;
use crate::put::{put_call_body, put_mismatch_info, put_opaque_auth};
use xdr::inner::{put_u32, put_u32_pair};

fn accept_tag(m: accept_body) -> u32
    ensures { result ≡ accept_tag current m }
{
    match m {
        accept_body::SUCCESS => 0,
        accept_body::PROG_UNAVAIL => 1,
        accept_body::PROG_MISMATCH(_) => 2,
        accept_body::PROC_UNAVAIL => 3,
        accept_body::GARBAGE_ARGS => 4,
        accept_body::SYSTEM_ERR => 5,
    }
}

pub(crate) fn put_accept_body(m: accept_body, out: &mut [u8])
    requires { accept_size current m ≤ length out.old }
    ensures { Put out.old out.new (accept_size current m) (current_accept_body.kind.write m) }
{
    put_u32(accept_tag(m), out);
    let accept_body::PROG_MISMATCH(v) = m else {
        return;
    };
    put_mismatch_info(v, &mut out[4..]);
}

pub(crate) fn put_accepted_reply(src: &[u8], m: accepted_reply, out: &mut [u8])
    requires ready { Ready current_accepted_reply src.now m }
    requires m_in_bounds { accepted_size current m ≤ length out.old }
    ensures { Put out.old out.new (accepted_size current m) (output current_accepted_reply src.now m) }
{
    let verf = m.verf;
    let reply_data = m.reply_data;
    put_opaque_auth(src, verf, out);
    let a = opaque_auth_size(verf);
    put_accept_body(reply_data, &mut out[a..]);
}

pub(crate) fn put_rejected_reply(m: rejected_reply, out: &mut [u8])
    requires { reject_size current m ≤ length out.old }
    ensures { Put out.old out.new (reject_size current m) (current_rejected_reply.kind.write m) }
{
    match m {
        rejected_reply::RPC_MISMATCH(v) => {
            put_u32(0, out);
            put_mismatch_info(v, &mut out[4..]);
        }
        rejected_reply::AUTH_ERROR(a) => put_u32_pair(1, a.number(), out),
    }
}

pub(crate) fn put_reply_body(src: &[u8], m: reply_body, out: &mut [u8])
    requires ready { Ready current_reply_body src.now m }
    requires m_in_bounds { reply_size current m ≤ length out.old }
    ensures { Put out.old out.new (reply_size current m) (output current_reply_body src.now m) }
{
    match m {
        reply_body::MSG_ACCEPTED(a) => {
            put_u32(0, out);
            put_accepted_reply(src, a, &mut out[4..]);
        }
        reply_body::MSG_DENIED(r) => {
            put_u32(1, out);
            put_rejected_reply(r, &mut out[4..]);
        }
    }
}

pub(crate) fn put_rpc_body(src: &[u8], m: rpc_body, out: &mut [u8])
    requires ready { Ready current_rpc_body src.now m }
    requires m_in_bounds { body_size current m ≤ length out.old }
    ensures { Put out.old out.new (body_size current m) (output current_rpc_body src.now m) }
{
    match m {
        rpc_body::CALL(c) => {
            put_u32(0, out);
            put_call_body(src, c, &mut out[4..]);
        }
        rpc_body::REPLY(r) => {
            put_u32(1, out);
            put_reply_body(src, r, &mut out[4..]);
        }
    }
}

pub(crate) fn put_rpc_msg(src: &[u8], m: rpc_msg, out: &mut [u8])
    requires ready { Ready current_rpc_msg src.now m }
    requires m_in_bounds { msg_size current m ≤ length out.old }
    ensures { Put out.old out.new (msg_size current m) (output current_rpc_msg src.now m) }
{
    let body = m.body;
    put_u32(m.xid, out);
    put_rpc_body(src, body, &mut out[4..]);
}
