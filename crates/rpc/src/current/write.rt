// The public writers of the current reading. Its closed enumerations are the words of their numbers.
ghost use Rattle.std.specs.Prelude.{[]};
ghost use Rattle.xdr.specs.Meaning.Format.{exactly};
ghost use Rattle.xdr.specs.Meaning.Public.{Writes};
ghost use Rattle.xdr.specs.Meaning.Views.{view_wrote};
ghost use Rattle.rpc.specs.Meaning.Current.{current_accept_stat, current_auth_stat, current_accept_body, current_accepted_reply, current_rejected_reply, current_reply_body, current_rpc_body, current_rpc_msg};

use crate::current::fit::{
    accept_body_size, accepted_reply_inside, accepted_reply_size, rejected_reply_size,
    reply_body_inside, reply_body_size, rpc_body_inside, rpc_body_size,
};
use crate::current::message::{rpc_body, rpc_msg};
use crate::current::put::{
    put_accept_body, put_accepted_reply, put_rejected_reply, put_reply_body, put_rpc_body,
    put_rpc_msg,
};
use crate::current::reply::{
    accept_body, accept_stat, accepted_reply, auth_stat, rejected_reply, reply_body,
};
use xdr::order::place;
use xdr::{Refusal, write_u32};

pub fn write_current_accept_stat(
    m: accept_stat,
    out: &mut [u8],
    at: usize,
) -> Result<usize, Refusal>
    ensures { Writes (exactly current_accept_stat) [] m at out.old (view_wrote result) out.new }
{
    write_u32(m.number(), out, at)
}

pub fn write_current_auth_stat(m: auth_stat, out: &mut [u8], at: usize) -> Result<usize, Refusal>
    ensures { Writes (exactly current_auth_stat) [] m at out.old (view_wrote result) out.new }
{
    write_u32(m.number(), out, at)
}

pub fn write_current_accept_body(
    m: accept_body,
    out: &mut [u8],
    at: usize,
) -> Result<usize, Refusal>
    ensures { Writes (exactly current_accept_body) [] m at out.old (view_wrote result) out.new }
{
    let end = place(0, true, accept_body_size(m), out.len(), at)?;
    put_accept_body(m, &mut out[at..]);
    Ok(end)
}

pub fn write_current_accepted_reply(
    src: &[u8],
    m: accepted_reply,
    out: &mut [u8],
    at: usize,
) -> Result<usize, Refusal>
    ensures { Writes current_accepted_reply src.now m at out.old (view_wrote result) out.new }
{
    let end = place(
        src.len(),
        accepted_reply_inside(src, m),
        accepted_reply_size(m),
        out.len(),
        at,
    )?;
    put_accepted_reply(src, m, &mut out[at..]);
    Ok(end)
}

pub fn write_current_rejected_reply(
    m: rejected_reply,
    out: &mut [u8],
    at: usize,
) -> Result<usize, Refusal>
    ensures { Writes (exactly current_rejected_reply) [] m at out.old (view_wrote result) out.new }
{
    let end = place(0, true, rejected_reply_size(m), out.len(), at)?;
    put_rejected_reply(m, &mut out[at..]);
    Ok(end)
}

pub fn write_current_reply_body(
    src: &[u8],
    m: reply_body,
    out: &mut [u8],
    at: usize,
) -> Result<usize, Refusal>
    ensures { Writes current_reply_body src.now m at out.old (view_wrote result) out.new }
{
    let end = place(
        src.len(),
        reply_body_inside(src, m),
        reply_body_size(m),
        out.len(),
        at,
    )?;
    put_reply_body(src, m, &mut out[at..]);
    Ok(end)
}

pub fn write_current_rpc_body(
    src: &[u8],
    m: rpc_body,
    out: &mut [u8],
    at: usize,
) -> Result<usize, Refusal>
    ensures { Writes current_rpc_body src.now m at out.old (view_wrote result) out.new }
{
    let end = place(
        src.len(),
        rpc_body_inside(src, m),
        rpc_body_size(m),
        out.len(),
        at,
    )?;
    put_rpc_body(src, m, &mut out[at..]);
    Ok(end)
}

pub fn write_current_rpc_msg(
    src: &[u8],
    m: rpc_msg,
    out: &mut [u8],
    at: usize,
) -> Result<usize, Refusal>
    ensures { Writes current_rpc_msg src.now m at out.old (view_wrote result) out.new }
{
    let body = m.body;
    let end = place(
        src.len(),
        rpc_body_inside(src, body),
        4 + rpc_body_size(body),
        out.len(),
        at,
    )?;
    put_rpc_msg(src, m, &mut out[at..]);
    Ok(end)
}
