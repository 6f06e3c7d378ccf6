// What a writer of the current reading asks before it writes, as in `fit`.
ghost use Rattle.std.specs.Prelude.{◌≡◌, ◌≤◌};
ghost use Rattle.rpc.specs.Meaning.Current.{current, current_accepted_reply, current_reply_body, current_rpc_body};
ghost use Rattle.rpc.specs.Laws.ReplySizes.{accept_size, accepted_size, reject_size, reply_size, body_size};

use crate::current::message::rpc_body;
use crate::current::reply::{accept_body, accepted_reply, rejected_reply, reply_body};
use crate::fit::{call_body_inside, call_body_size, opaque_auth_inside, opaque_auth_size};
use crate::reply::mismatch_info;
use xdr::inside;

pub(crate) fn accepted_reply_inside(src: &[u8], m: accepted_reply) -> bool
    ensures { result ≡ current_accepted_reply.held.inside src.now m }
{
    let verf = m.verf;
    opaque_auth_inside(src, verf)
}

pub(crate) fn reply_body_inside(src: &[u8], m: reply_body) -> bool
    ensures { result ≡ current_reply_body.held.inside src.now m }
{
    match m {
        reply_body::MSG_ACCEPTED(a) => accepted_reply_inside(src, a),
        reply_body::MSG_DENIED(_) => true,
    }
}

pub(crate) fn rpc_body_inside(src: &[u8], m: rpc_body) -> bool
    ensures { result ≡ current_rpc_body.held.inside src.now m }
{
    match m {
        rpc_body::CALL(c) => call_body_inside(src, c),
        rpc_body::REPLY(r) => reply_body_inside(src, r),
    }
}

pub(crate) fn accept_body_size(m: accept_body) -> usize
    ensures { (result ≡ accept_size current m) × (result ≤ 12) }
{
    match m {
        accept_body::SUCCESS => 4,
        accept_body::PROG_UNAVAIL => 4,
        accept_body::PROG_MISMATCH(_) => 4 + mismatch_info::SIZE,
        accept_body::PROC_UNAVAIL => 4,
        accept_body::GARBAGE_ARGS => 4,
        accept_body::SYSTEM_ERR => 4,
    }
}

pub(crate) fn accepted_reply_size(m: accepted_reply) -> usize
    ensures { (result ≡ accepted_size current m) × (result ≤ 1048596) }
{
    let verf = m.verf;
    let reply_data = m.reply_data;
    opaque_auth_size(verf) + accept_body_size(reply_data)
}

pub(crate) fn rejected_reply_size(m: rejected_reply) -> usize
    ensures { (result ≡ reject_size current m) × (result ≤ 12) }
{
    match m {
        rejected_reply::RPC_MISMATCH(_) => 4 + mismatch_info::SIZE,
        rejected_reply::AUTH_ERROR(_) => 8,
    }
}

pub(crate) fn reply_body_size(m: reply_body) -> usize
    ensures { (result ≡ reply_size current m) × (result ≤ 1048600) }
{
    match m {
        reply_body::MSG_ACCEPTED(a) => 4 + accepted_reply_size(a),
        reply_body::MSG_DENIED(r) => 4 + rejected_reply_size(r),
    }
}

pub(crate) fn rpc_body_size(m: rpc_body) -> usize
    ensures { (result ≡ body_size current m) × (result ≤ 2097188) }
{
    match m {
        rpc_body::CALL(c) => 4 + call_body_size(c),
        rpc_body::REPLY(r) => 4 + reply_body_size(r),
    }
}
