// The public writers, from any place of a larger buffer. A refusal leaves the buffer as it was, and a writing leaves every byte but its own.
// Pieces are of a source that is lent beside the value; kinds without pieces need none.
ghost use Rattle.std.specs.Prelude.{[]};
ghost use Rattle.xdr.specs.Meaning.Format.{exactly};
ghost use Rattle.xdr.specs.Meaning.Public.{Writes};
ghost use Rattle.xdr.specs.Meaning.Views.{view_wrote};
ghost use Rattle.rpc.specs.Meaning.Closed.{msg-type, reply-stat, reject-stat, auth-flavor};
ghost use Rattle.rpc.specs.Meaning.Crate.{accept-stat, auth-stat, accept-body, accepted-reply, rejected-reply, reply-body, rpc-body, rpc-msg};
ghost use Rattle.rpc.specs.Meaning.Auth.{opaque-auth, auth-unix};
ghost use Rattle.rpc.specs.Meaning.Reading.{mismatch-info};
ghost use Rattle.rpc.specs.Meaning.Message.{call-body};
ghost use Rattle.rpc.specs.Meaning.Sources.{WritesUnixFrom, WritesCallFrom};

use crate::auth::{auth_flavor, auth_stat, auth_unix, opaque_auth};
use crate::fit::{
    accept_body_size, accepted_reply_inside, accepted_reply_size, auth_unix_inside, auth_unix_size,
    call_body_inside, call_body_size, call_inside_from, opaque_auth_inside, opaque_auth_size,
    rejected_reply_size, reply_body_inside, reply_body_size, rpc_body_inside, rpc_body_size,
};
use crate::message::{call_body, msg_type, rpc_body, rpc_msg};
use crate::put::{
    put_accept_body, put_accepted_reply, put_auth_unix, put_auth_unix_from, put_call_body,
    put_call_from, put_mismatch_info, put_opaque_auth, put_rejected_reply, put_reply_body,
    put_rpc_body, put_rpc_msg,
};
use crate::reply::{
    accept_body, accept_stat, accepted_reply, mismatch_info, reject_stat, rejected_reply,
    reply_body, reply_stat,
};
use xdr::order::{longer, place};
use xdr::{Refusal, inside, words_inside, write_u32};

// A closed enumeration is the word of its number.
pub fn write_msg_type(m: msg_type, out: &mut [u8], at: usize) -> Result<usize, Refusal>
    ensures { Writes (exactly msg-type) [] m at out.old (view_wrote result) out.new }
{
    write_u32(m.number(), out, at)
}

pub fn write_reply_stat(m: reply_stat, out: &mut [u8], at: usize) -> Result<usize, Refusal>
    ensures { Writes (exactly reply-stat) [] m at out.old (view_wrote result) out.new }
{
    write_u32(m.number(), out, at)
}

pub fn write_accept_stat(m: accept_stat, out: &mut [u8], at: usize) -> Result<usize, Refusal>
    ensures { Writes (exactly accept-stat) [] m at out.old (view_wrote result) out.new }
{
    write_u32(m.number(), out, at)
}

pub fn write_reject_stat(m: reject_stat, out: &mut [u8], at: usize) -> Result<usize, Refusal>
    ensures { Writes (exactly reject-stat) [] m at out.old (view_wrote result) out.new }
{
    write_u32(m.number(), out, at)
}

pub fn write_auth_flavor(m: auth_flavor, out: &mut [u8], at: usize) -> Result<usize, Refusal>
    ensures { Writes (exactly auth-flavor) [] m at out.old (view_wrote result) out.new }
{
    write_u32(m.number(), out, at)
}

pub fn write_auth_stat(m: auth_stat, out: &mut [u8], at: usize) -> Result<usize, Refusal>
    ensures { Writes (exactly auth-stat) [] m at out.old (view_wrote result) out.new }
{
    write_u32(m.number(), out, at)
}

pub fn write_opaque_auth(
    src: &[u8],
    m: opaque_auth,
    out: &mut [u8],
    at: usize,
) -> Result<usize, Refusal>
    ensures { Writes opaque-auth src.now m at out.old (view_wrote result) out.new }
{
    let end = place(
        src.len(),
        opaque_auth_inside(src, m),
        opaque_auth_size(m),
        out.len(),
        at,
    )?;
    put_opaque_auth(src, m, &mut out[at..]);
    Ok(end)
}

pub fn write_auth_unix(
    src: &[u8],
    m: auth_unix,
    out: &mut [u8],
    at: usize,
) -> Result<usize, Refusal>
    ensures { Writes auth-unix src.now m at out.old (view_wrote result) out.new }
{
    let end = place(
        src.len(),
        auth_unix_inside(src, m),
        auth_unix_size(m),
        out.len(),
        at,
    )?;
    put_auth_unix(src, m, &mut out[at..]);
    Ok(end)
}

pub fn write_mismatch_info(m: mismatch_info, out: &mut [u8], at: usize) -> Result<usize, Refusal>
    ensures { Writes (exactly mismatch-info) [] m at out.old (view_wrote result) out.new }
{
    let end = place(0, true, mismatch_info::SIZE, out.len(), at)?;
    put_mismatch_info(m, &mut out[at..]);
    Ok(end)
}

pub fn write_call_body(
    src: &[u8],
    m: call_body,
    out: &mut [u8],
    at: usize,
) -> Result<usize, Refusal>
    ensures { Writes call-body src.now m at out.old (view_wrote result) out.new }
{
    let end = place(
        src.len(),
        call_body_inside(src, m),
        call_body_size(m),
        out.len(),
        at,
    )?;
    put_call_body(src, m, &mut out[at..]);
    Ok(end)
}

pub fn write_accept_body(m: accept_body, out: &mut [u8], at: usize) -> Result<usize, Refusal>
    ensures { Writes (exactly accept-body) [] m at out.old (view_wrote result) out.new }
{
    let end = place(0, true, accept_body_size(m), out.len(), at)?;
    put_accept_body(m, &mut out[at..]);
    Ok(end)
}

pub fn write_accepted_reply(
    src: &[u8],
    m: accepted_reply,
    out: &mut [u8],
    at: usize,
) -> Result<usize, Refusal>
    ensures { Writes accepted-reply src.now m at out.old (view_wrote result) out.new }
{
    let end = place(
        src.len(),
        accepted_reply_inside(src, m),
        accepted_reply_size(m),
        out.len(),
        at,
    )?;
    put_accepted_reply(src, m, &mut out[at..]);
    Ok(end)
}

pub fn write_rejected_reply(m: rejected_reply, out: &mut [u8], at: usize) -> Result<usize, Refusal>
    ensures { Writes (exactly rejected-reply) [] m at out.old (view_wrote result) out.new }
{
    let end = place(0, true, rejected_reply_size(m), out.len(), at)?;
    put_rejected_reply(m, &mut out[at..]);
    Ok(end)
}

pub fn write_reply_body(
    src: &[u8],
    m: reply_body,
    out: &mut [u8],
    at: usize,
) -> Result<usize, Refusal>
    ensures { Writes reply-body src.now m at out.old (view_wrote result) out.new }
{
    let end = place(
        src.len(),
        reply_body_inside(src, m),
        reply_body_size(m),
        out.len(),
        at,
    )?;
    put_reply_body(src, m, &mut out[at..]);
    Ok(end)
}

pub fn write_rpc_body(src: &[u8], m: rpc_body, out: &mut [u8], at: usize) -> Result<usize, Refusal>
    ensures { Writes rpc-body src.now m at out.old (view_wrote result) out.new }
{
    let end = place(
        src.len(),
        rpc_body_inside(src, m),
        rpc_body_size(m),
        out.len(),
        at,
    )?;
    put_rpc_body(src, m, &mut out[at..]);
    Ok(end)
}

pub fn write_rpc_msg(src: &[u8], m: rpc_msg, out: &mut [u8], at: usize) -> Result<usize, Refusal>
    ensures { Writes rpc-msg src.now m at out.old (view_wrote result) out.new }
{
    let body = m.body;
    let end = place(
        src.len(),
        rpc_body_inside(src, body),
        4 + rpc_body_size(body),
        out.len(),
        at,
    )?;
    put_rpc_msg(src, m, &mut out[at..]);
    Ok(end)
}

// From two sources: the name is a piece of `names`, and the gids of `groups`.
pub fn write_auth_unix_from(
    names: &[u8],
    groups: &[u8],
    m: auth_unix,
    out: &mut [u8],
    at: usize,
) -> Result<usize, Refusal>
    ensures { WritesUnixFrom names.now groups.now m at out.old (view_wrote result) out.new }
{
    let machinename = m.machinename;
    let gids = m.gids;
    let end = place(
        longer(names.len(), groups.len()),
        inside(names, machinename) & words_inside(groups, gids),
        auth_unix_size(m),
        out.len(),
        at,
    )?;
    put_auth_unix_from(names, groups, m, &mut out[at..]);
    Ok(end)
}

// The rpc_msg of a call from two sources: the credential's body is a piece of `creds`, and the verifier's of `verfs`.
pub fn write_call_from(
    creds: &[u8],
    verfs: &[u8],
    xid: u32,
    m: call_body,
    out: &mut [u8],
    at: usize,
) -> Result<usize, Refusal>
    ensures { WritesCallFrom creds.now verfs.now xid m at out.old (view_wrote result) out.new }
{
    let end = place(
        longer(creds.len(), verfs.len()),
        call_inside_from(creds, verfs, m),
        8 + call_body_size(m),
        out.len(),
        at,
    )?;
    put_call_from(creds, verfs, xid, m, &mut out[at..]);
    Ok(end)
}
