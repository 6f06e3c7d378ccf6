// For the crates above, and no door for users: the kinds of the current reading, in a message whose length and start were tested already.
ghost use Rattle.std.specs.Prelude.{◌≡◌, false};
ghost use Rattle.xdr.specs.Meaning.Answer.{took};
ghost use Rattle.rpc.specs.Meaning.Current.{current_accept_stat, current_auth_stat, current_accept_body, current_accepted_reply, current_rejected_reply, current_reply_body, current_rpc_body, current_rpc_msg};
ghost use Rattle.xdr.specs.Meaning.Views.{view};
ghost use Rattle.rpc.specs.Laws.Current.{stray_reply, stray_body};

use crate::current::message::{rpc_body, rpc_msg};
use crate::current::reply::{
    accept_body, accept_stat, accepted_reply, auth_stat, rejected_reply, reply_body,
};
use crate::inner::{call_body_at, mismatch_info_at, opaque_auth_at};
use crate::makers::no_auth;
use crate::message::call_body;
use crate::reply::mismatch_info;
use xdr::inner::u32_at;
use xdr::{Refusal, Took};

pub fn accept_stat_at(src: &[u8], at: usize) -> Result<Took<accept_stat>, Refusal>
    ensures { view result ≡ current_accept_stat.kind.read src.now at }
{
    let v = u32_at(src, at)?;
    let value = match v.value {
        0 => accept_stat::SUCCESS,
        1 => accept_stat::PROG_UNAVAIL,
        2 => accept_stat::PROG_MISMATCH,
        3 => accept_stat::PROC_UNAVAIL,
        4 => accept_stat::GARBAGE_ARGS,
        5 => accept_stat::SYSTEM_ERR,
        _ => return Err(Refusal::Undeclared(at)),
    };
    Ok(Took {
        value,
        next: v.next,
        plain: true,
    })
}

pub fn auth_stat_at(src: &[u8], at: usize) -> Result<Took<auth_stat>, Refusal>
    ensures { view result ≡ current_auth_stat.kind.read src.now at }
{
    let v = u32_at(src, at)?;
    let value = match v.value {
        0 => auth_stat::AUTH_OK,
        1 => auth_stat::AUTH_BADCRED,
        2 => auth_stat::AUTH_REJECTEDCRED,
        3 => auth_stat::AUTH_BADVERF,
        4 => auth_stat::AUTH_REJECTEDVERF,
        5 => auth_stat::AUTH_TOOWEAK,
        6 => auth_stat::AUTH_INVALIDRESP,
        7 => auth_stat::AUTH_FAILED,
        8 => auth_stat::AUTH_KERB_GENERIC,
        9 => auth_stat::AUTH_TIMEEXPIRE,
        10 => auth_stat::AUTH_TKT_FILE,
        11 => auth_stat::AUTH_DECODE,
        12 => auth_stat::AUTH_NET_ADDR,
        13 => auth_stat::RPCSEC_GSS_CREDPROBLEM,
        14 => auth_stat::RPCSEC_GSS_CTXPROBLEM,
        _ => return Err(Refusal::Undeclared(at)),
    };
    Ok(Took {
        value,
        next: v.next,
        plain: true,
    })
}

// Tolerance 5: a tag above 5 is GARBAGE_ARGS.
pub fn accept_body_at(src: &[u8], at: usize) -> Result<Took<accept_body>, Refusal>
    ensures { view result ≡ current_accept_body.kind.read src.now at }
{
    let tag = u32_at(src, at)?;
    let value = match tag.value {
        0 => accept_body::SUCCESS,
        1 => accept_body::PROG_UNAVAIL,
        2 => {
            let m = mismatch_info_at(src, tag.next)?;
            return Ok(Took {
                value: accept_body::PROG_MISMATCH(m.value),
                next: m.next,
                plain: m.plain,
            });
        }
        3 => accept_body::PROC_UNAVAIL,
        4 => accept_body::GARBAGE_ARGS,
        5 => accept_body::SYSTEM_ERR,
        _ => {
            return Ok(Took {
                value: accept_body::GARBAGE_ARGS,
                next: tag.next,
                plain: false,
            });
        }
    };
    Ok(Took {
        value,
        next: tag.next,
        plain: true,
    })
}

pub fn accepted_reply_at(src: &[u8], at: usize) -> Result<Took<accepted_reply>, Refusal>
    ensures { view result ≡ current_accepted_reply.held.read src.now at }
{
    let verf = opaque_auth_at(src, at)?;
    let reply_data = accept_body_at(src, verf.next)?;
    Ok(Took {
        value: accepted_reply {
            verf: verf.value,
            reply_data: reply_data.value,
        },
        next: reply_data.next,
        plain: verf.plain & reply_data.plain,
    })
}

// Tolerance 6: a tag of 2 or more is RPC_MISMATCH 0, 0, and nothing more is read.
pub fn rejected_reply_at(src: &[u8], at: usize) -> Result<Took<rejected_reply>, Refusal>
    ensures { view result ≡ current_rejected_reply.kind.read src.now at }
{
    let tag = u32_at(src, at)?;
    match tag.value {
        0 => {
            let m = mismatch_info_at(src, tag.next)?;
            Ok(Took {
                value: rejected_reply::RPC_MISMATCH(m.value),
                next: m.next,
                plain: m.plain,
            })
        }
        1 => {
            let a = auth_stat_at(src, tag.next)?;
            Ok(Took {
                value: rejected_reply::AUTH_ERROR(a.value),
                next: a.next,
                plain: a.plain,
            })
        }
        _ => Ok(Took {
            value: rejected_reply::RPC_MISMATCH(mismatch_info { low: 0, high: 0 }),
            next: tag.next,
            plain: false,
        }),
    }
}

fn stray_reply(n: usize) -> Result<Took<reply_body>, Refusal>
    ensures { view result ≡ took stray_reply n false }
{
    Ok(Took {
        value: reply_body::MSG_ACCEPTED(accepted_reply {
            verf: no_auth(),
            reply_data: accept_body::SUCCESS,
        }),
        next: n,
        plain: false,
    })
}

// Tolerance 4: a tag of 2 or more is MSG_ACCEPTED, null verifier, SUCCESS, and nothing more is read.
pub fn reply_body_at(src: &[u8], at: usize) -> Result<Took<reply_body>, Refusal>
    ensures { view result ≡ current_reply_body.held.read src.now at }
{
    let tag = u32_at(src, at)?;
    match tag.value {
        0 => {
            let a = accepted_reply_at(src, tag.next)?;
            Ok(Took {
                value: reply_body::MSG_ACCEPTED(a.value),
                next: a.next,
                plain: a.plain,
            })
        }
        1 => {
            let d = rejected_reply_at(src, tag.next)?;
            Ok(Took {
                value: reply_body::MSG_DENIED(d.value),
                next: d.next,
                plain: d.plain,
            })
        }
        _ => stray_reply(tag.next),
    }
}

fn stray_body(n: usize) -> Result<Took<rpc_body>, Refusal>
    ensures { view result ≡ took stray_body n false }
{
    Ok(Took {
        value: rpc_body::CALL(call_body {
            rpcvers: 0,
            prog: 0,
            vers: 0,
            proc: 0,
            cred: no_auth(),
            verf: no_auth(),
        }),
        next: n,
        plain: false,
    })
}

// Tolerance 3: a tag of 2 or more is a CALL with every field zero and empty, and nothing more is read.
pub fn rpc_body_at(src: &[u8], at: usize) -> Result<Took<rpc_body>, Refusal>
    ensures { view result ≡ current_rpc_body.held.read src.now at }
{
    let tag = u32_at(src, at)?;
    match tag.value {
        0 => {
            let c = call_body_at(src, tag.next)?;
            Ok(Took {
                value: rpc_body::CALL(c.value),
                next: c.next,
                plain: c.plain,
            })
        }
        1 => {
            let r = reply_body_at(src, tag.next)?;
            Ok(Took {
                value: rpc_body::REPLY(r.value),
                next: r.next,
                plain: r.plain,
            })
        }
        _ => stray_body(tag.next),
    }
}

pub fn rpc_msg_at(src: &[u8], at: usize) -> Result<Took<rpc_msg>, Refusal>
    ensures { view result ≡ current_rpc_msg.held.read src.now at }
{
    let xid = u32_at(src, at)?;
    let body = rpc_body_at(src, xid.next)?;
    Ok(Took {
        value: rpc_msg {
            xid: xid.value,
            body: body.value,
        },
        next: body.next,
        plain: xid.plain & body.plain,
    })
}
