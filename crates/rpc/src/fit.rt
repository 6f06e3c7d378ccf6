// What a writer asks before it writes: whether the pieces lie inside the source, and how long the encoding is.
ghost use Rattle.std.specs.Prelude.{◌≡◌, ◌&&◌, ◌≤◌};
ghost use Rattle.rpc.specs.Meaning.Auth.{opaque-auth, auth-unix};
ghost use Rattle.rpc.specs.Meaning.Crate.{crate, accepted-reply, reply-body, rpc-body};
ghost use Rattle.rpc.specs.Meaning.Message.{call-body};
ghost use Rattle.rpc.specs.Laws.Sizes.{auth_size, unix_size, call_size};
ghost use Rattle.rpc.specs.Laws.ReplySizes.{accept_size, accepted_size, reject_size, reply_size, body_size};

use crate::auth::{auth_unix, opaque_auth};
use crate::message::{call_body, rpc_body};
use crate::reply::{accept_body, accepted_reply, mismatch_info, rejected_reply, reply_body};
use xdr::inner::{opaque_size, words_size};
use xdr::{inside, words_inside};

pub(crate) fn opaque_auth_inside(src: &[u8], m: opaque_auth) -> bool
    ensures { result ≡ opaque-auth.held.inside src.now m }
{
    let body = m.body;
    inside(src, body)
}

pub(crate) fn auth_unix_inside(src: &[u8], m: auth_unix) -> bool
    ensures { result ≡ auth-unix.held.inside src.now m }
{
    let machinename = m.machinename;
    let gids = m.gids;
    inside(src, machinename) & words_inside(src, gids)
}

pub(crate) fn call_body_inside(src: &[u8], m: call_body) -> bool
    ensures { result ≡ call-body.held.inside src.now m }
{
    let cred = m.cred;
    let verf = m.verf;
    opaque_auth_inside(src, cred) & opaque_auth_inside(src, verf)
}

// The same, where the verifier's body is a piece of another source.
pub(crate) fn call_inside_from(creds: &[u8], verfs: &[u8], m: call_body) -> bool
    ensures { result ≡ (opaque-auth.held.inside creds.now m.cred && opaque-auth.held.inside verfs.now m.verf) }
{
    let cred = m.cred;
    let verf = m.verf;
    opaque_auth_inside(creds, cred) & opaque_auth_inside(verfs, verf)
}

pub(crate) fn accepted_reply_inside(src: &[u8], m: accepted_reply) -> bool
    ensures { result ≡ accepted-reply.held.inside src.now m }
{
    let verf = m.verf;
    opaque_auth_inside(src, verf)
}

pub(crate) fn reply_body_inside(src: &[u8], m: reply_body) -> bool
    ensures { result ≡ reply-body.held.inside src.now m }
{
    match m {
        reply_body::MSG_ACCEPTED(a) => accepted_reply_inside(src, a),
        reply_body::MSG_DENIED(_) => true,
    }
}

pub(crate) fn rpc_body_inside(src: &[u8], m: rpc_body) -> bool
    ensures { result ≡ rpc-body.held.inside src.now m }
{
    match m {
        rpc_body::CALL(c) => call_body_inside(src, c),
        rpc_body::REPLY(r) => reply_body_inside(src, r),
    }
}

pub(crate) fn opaque_auth_size(m: opaque_auth) -> usize
    ensures { (result ≡ auth_size m) × (result ≤ 1048584) }
{
    let body = m.body;
    4 + opaque_size(body.count)
}

pub(crate) fn auth_unix_size(m: auth_unix) -> usize
    ensures { (result ≡ unix_size m) × (result ≤ 5242900) }
{
    let machinename = m.machinename;
    let gids = m.gids;
    12 + opaque_size(machinename.count) + words_size(gids.count)
}

pub(crate) fn call_body_size(m: call_body) -> usize
    ensures { (result ≡ call_size m) × (result ≤ 2097184) }
{
    let cred = m.cred;
    let verf = m.verf;
    16 + opaque_auth_size(cred) + opaque_auth_size(verf)
}

pub(crate) fn accept_body_size(m: accept_body) -> usize
    ensures { (result ≡ accept_size crate m) × (result ≤ 12) }
{
    match m {
        accept_body::SUCCESS => 4,
        accept_body::PROG_UNAVAIL => 4,
        accept_body::PROG_MISMATCH(_) => 4 + mismatch_info::SIZE,
        accept_body::PROC_UNAVAIL => 4,
        accept_body::GARBAGE_ARGS => 4,
    }
}

pub(crate) fn accepted_reply_size(m: accepted_reply) -> usize
    ensures { (result ≡ accepted_size crate m) × (result ≤ 1048596) }
{
    let verf = m.verf;
    let reply_data = m.reply_data;
    opaque_auth_size(verf) + accept_body_size(reply_data)
}

pub(crate) fn rejected_reply_size(m: rejected_reply) -> usize
    ensures { (result ≡ reject_size crate m) × (result ≤ 12) }
{
    match m {
        rejected_reply::RPC_MISMATCH(_) => 4 + mismatch_info::SIZE,
        rejected_reply::AUTH_ERROR(_) => 8,
    }
}

pub(crate) fn reply_body_size(m: reply_body) -> usize
    ensures { (result ≡ reply_size crate m) × (result ≤ 1048600) }
{
    match m {
        reply_body::MSG_ACCEPTED(a) => 4 + accepted_reply_size(a),
        reply_body::MSG_DENIED(r) => 4 + rejected_reply_size(r),
    }
}

pub(crate) fn rpc_body_size(m: rpc_body) -> usize
    ensures { (result ≡ body_size crate m) × (result ≤ 2097188) }
{
    match m {
        rpc_body::CALL(c) => 4 + call_body_size(c),
        rpc_body::REPLY(r) => 4 + reply_body_size(r),
    }
}
