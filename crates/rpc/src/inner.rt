// For the crates above, and no door for users: the kinds of a message whose length and start were tested already. Each is total all the
// same, and exact; it only leaves out refusals 3 and 9.
ghost use Rattle.std.specs.Prelude.{◌≡◌, false};
ghost use Rattle.xdr.specs.Meaning.Answer.{took};
ghost use Rattle.rpc.specs.Meaning.Closed.{msg-type, reply-stat, reject-stat, auth-flavor};
ghost use Rattle.rpc.specs.Meaning.Crate.{accept-stat, auth-stat, accept-body, accepted-reply, rejected-reply, reply-body, rpc-body, rpc-msg};
ghost use Rattle.rpc.specs.Meaning.Auth.{opaque-auth, auth-unix};
ghost use Rattle.rpc.specs.Meaning.UnixIn.{unix_in};
ghost use Rattle.rpc.specs.Meaning.Reading.{mismatch-info};
ghost use Rattle.rpc.specs.Meaning.Message.{call-body};
ghost use Rattle.rpc.specs.Laws.Tags.{stray_reply, stray_body};
ghost use Rattle.xdr.specs.Meaning.Views.{view};

use crate::auth::{auth_flavor, auth_stat, auth_unix, opaque_auth};
use crate::makers::no_auth;
use crate::message::{call_body, msg_type, rpc_body, rpc_msg};
use crate::reply::{
    accept_body, accept_stat, accepted_reply, mismatch_info, reject_stat, rejected_reply,
    reply_body, reply_stat,
};
use xdr::inner::{opaque_at, u32_at, u32_pair_at, whole_opaque_at, words_at};
use xdr::{Piece, Refusal, Took, inside};

pub fn msg_type_at(src: &[u8], at: usize) -> Result<Took<msg_type>, Refusal>
    ensures { view result ≡ msg-type.kind.read src.now at }
{
    let v = u32_at(src, at)?;
    let value = match v.value {
        0 => msg_type::CALL,
        1 => msg_type::REPLY,
        _ => return Err(Refusal::Undeclared(at)),
    };
    Ok(Took {
        value,
        next: v.next,
        plain: true,
    })
}

pub fn reply_stat_at(src: &[u8], at: usize) -> Result<Took<reply_stat>, Refusal>
    ensures { view result ≡ reply-stat.kind.read src.now at }
{
    let v = u32_at(src, at)?;
    let value = match v.value {
        0 => reply_stat::MSG_ACCEPTED,
        1 => reply_stat::MSG_DENIED,
        _ => return Err(Refusal::Undeclared(at)),
    };
    Ok(Took {
        value,
        next: v.next,
        plain: true,
    })
}

pub fn accept_stat_at(src: &[u8], at: usize) -> Result<Took<accept_stat>, Refusal>
    ensures { view result ≡ accept-stat.kind.read src.now at }
{
    let v = u32_at(src, at)?;
    let value = match v.value {
        0 => accept_stat::SUCCESS,
        1 => accept_stat::PROG_UNAVAIL,
        2 => accept_stat::PROG_MISMATCH,
        3 => accept_stat::PROC_UNAVAIL,
        4 => accept_stat::GARBAGE_ARGS,
        _ => return Err(Refusal::Undeclared(at)),
    };
    Ok(Took {
        value,
        next: v.next,
        plain: true,
    })
}

pub fn reject_stat_at(src: &[u8], at: usize) -> Result<Took<reject_stat>, Refusal>
    ensures { view result ≡ reject-stat.kind.read src.now at }
{
    let v = u32_at(src, at)?;
    let value = match v.value {
        0 => reject_stat::RPC_MISMATCH,
        1 => reject_stat::AUTH_ERROR,
        _ => return Err(Refusal::Undeclared(at)),
    };
    Ok(Took {
        value,
        next: v.next,
        plain: true,
    })
}

pub fn auth_flavor_at(src: &[u8], at: usize) -> Result<Took<auth_flavor>, Refusal>
    ensures { view result ≡ auth-flavor.kind.read src.now at }
{
    let v = u32_at(src, at)?;
    let value = match v.value {
        0 => auth_flavor::AUTH_NULL,
        1 => auth_flavor::AUTH_UNIX,
        2 => auth_flavor::AUTH_SHORT,
        3 => auth_flavor::AUTH_DES,
        _ => return Err(Refusal::Undeclared(at)),
    };
    Ok(Took {
        value,
        next: v.next,
        plain: true,
    })
}

pub fn auth_stat_at(src: &[u8], at: usize) -> Result<Took<auth_stat>, Refusal>
    ensures { view result ≡ auth-stat.kind.read src.now at }
{
    let v = u32_at(src, at)?;
    let value = match v.value {
        1 => auth_stat::AUTH_BADCRED,
        2 => auth_stat::AUTH_REJECTEDCRED,
        3 => auth_stat::AUTH_BADVERF,
        4 => auth_stat::AUTH_REJECTEDVERF,
        5 => auth_stat::AUTH_TOOWEAK,
        _ => return Err(Refusal::Undeclared(at)),
    };
    Ok(Took {
        value,
        next: v.next,
        plain: true,
    })
}

pub fn mismatch_info_at(src: &[u8], at: usize) -> Result<Took<mismatch_info>, Refusal>
    ensures { view result ≡ mismatch-info.kind.read src.now at }
{
    let low_and_high = u32_pair_at(src, at)?;
    Ok(Took {
        value: mismatch_info {
            low: low_and_high.value.0,
            high: low_and_high.value.1,
        },
        next: low_and_high.next,
        plain: low_and_high.plain,
    })
}

pub fn opaque_auth_at(src: &[u8], at: usize) -> Result<Took<opaque_auth>, Refusal>
    ensures { view result ≡ opaque-auth.held.read src.now at }
{
    let flavor = auth_flavor_at(src, at)?;
    let body = whole_opaque_at(src, flavor.next)?;
    Ok(Took {
        value: opaque_auth {
            flavor: flavor.value,
            body: body.value,
        },
        next: body.next,
        plain: flavor.plain & body.plain,
    })
}

pub fn auth_unix_at(src: &[u8], at: usize) -> Result<Took<auth_unix>, Refusal>
    ensures { view result ≡ auth-unix.held.read src.now at }
{
    let stamp = u32_at(src, at)?;
    let machinename = opaque_at(src, stamp.next)?;
    let uid_and_gid = u32_pair_at(src, machinename.next)?;
    let gids = words_at(src, uid_and_gid.next)?;
    Ok(Took {
        value: auth_unix {
            stamp: stamp.value,
            machinename: machinename.value,
            uid: uid_and_gid.value.0,
            gid: uid_and_gid.value.1,
            gids: gids.value,
        },
        next: gids.next,
        plain: stamp.plain & machinename.plain & uid_and_gid.plain & gids.plain,
    })
}

// The auth_unix in a credential's body, whose end is the end; places are those of the whole message.
pub fn auth_unix_in(src: &[u8], body: Piece) -> Result<Took<auth_unix>, Refusal>
    ensures { view result ≡ unix_in src.now body }
{
    if !inside(src, body) {
        return Err(Refusal::Ended {
            place: 0,
            wanting: 4,
        });
    }
    let at = body.at;
    let end = at + body.count;
    auth_unix_at(&src[..end], at)
}

pub fn call_body_at(src: &[u8], at: usize) -> Result<Took<call_body>, Refusal>
    ensures { view result ≡ call-body.held.read src.now at }
{
    let rpcvers_and_prog = u32_pair_at(src, at)?;
    let vers_and_proc = u32_pair_at(src, rpcvers_and_prog.next)?;
    let cred = opaque_auth_at(src, vers_and_proc.next)?;
    let verf = opaque_auth_at(src, cred.next)?;
    Ok(Took {
        value: call_body {
            rpcvers: rpcvers_and_prog.value.0,
            prog: rpcvers_and_prog.value.1,
            vers: vers_and_proc.value.0,
            proc: vers_and_proc.value.1,
            cred: cred.value,
            verf: verf.value,
        },
        next: verf.next,
        plain: rpcvers_and_prog.plain & vers_and_proc.plain & cred.plain & verf.plain,
    })
}

// Tolerance 5: a tag above 4 is GARBAGE_ARGS.
pub fn accept_body_at(src: &[u8], at: usize) -> Result<Took<accept_body>, Refusal>
    ensures { view result ≡ accept-body.kind.read src.now at }
{
    let tag = u32_at(src, at)?;
    let value = match tag.value {
        0 => accept_body::SUCCESS,
        1 => accept_body::PROG_UNAVAIL,
        2 => {
            let m = mismatch_info_at(src, tag.next)?;
            return Ok(Took {
                value: accept_body::PROG_MISMATCH(m.value),
                next: m.next,
                plain: m.plain,
            });
        }
        3 => accept_body::PROC_UNAVAIL,
        4 => accept_body::GARBAGE_ARGS,
        _ => {
            return Ok(Took {
                value: accept_body::GARBAGE_ARGS,
                next: tag.next,
                plain: false,
            });
        }
    };
    Ok(Took {
        value,
        next: tag.next,
        plain: true,
    })
}

pub fn accepted_reply_at(src: &[u8], at: usize) -> Result<Took<accepted_reply>, Refusal>
    ensures { view result ≡ accepted-reply.held.read src.now at }
{
    let verf = opaque_auth_at(src, at)?;
    let reply_data = accept_body_at(src, verf.next)?;
    Ok(Took {
        value: accepted_reply {
            verf: verf.value,
            reply_data: reply_data.value,
        },
        next: reply_data.next,
        plain: verf.plain & reply_data.plain,
    })
}

// Tolerance 6: a tag of 2 or more is RPC_MISMATCH 0, 0, and nothing more is read.
pub fn rejected_reply_at(src: &[u8], at: usize) -> Result<Took<rejected_reply>, Refusal>
    ensures { view result ≡ rejected-reply.kind.read src.now at }
{
    let tag = u32_at(src, at)?;
    match tag.value {
        0 => {
            let m = mismatch_info_at(src, tag.next)?;
            Ok(Took {
                value: rejected_reply::RPC_MISMATCH(m.value),
                next: m.next,
                plain: m.plain,
            })
        }
        1 => {
            let a = auth_stat_at(src, tag.next)?;
            Ok(Took {
                value: rejected_reply::AUTH_ERROR(a.value),
                next: a.next,
                plain: a.plain,
            })
        }
        _ => Ok(Took {
            value: rejected_reply::RPC_MISMATCH(mismatch_info { low: 0, high: 0 }),
            next: tag.next,
            plain: false,
        }),
    }
}

fn stray_reply(n: usize) -> Result<Took<reply_body>, Refusal>
    ensures { view result ≡ took stray_reply n false }
{
    Ok(Took {
        value: reply_body::MSG_ACCEPTED(accepted_reply {
            verf: no_auth(),
            reply_data: accept_body::SUCCESS,
        }),
        next: n,
        plain: false,
    })
}

// Tolerance 4: a tag of 2 or more is MSG_ACCEPTED, null verifier, SUCCESS, and nothing more is read.
pub fn reply_body_at(src: &[u8], at: usize) -> Result<Took<reply_body>, Refusal>
    ensures { view result ≡ reply-body.held.read src.now at }
{
    let tag = u32_at(src, at)?;
    match tag.value {
        0 => {
            let a = accepted_reply_at(src, tag.next)?;
            Ok(Took {
                value: reply_body::MSG_ACCEPTED(a.value),
                next: a.next,
                plain: a.plain,
            })
        }
        1 => {
            let d = rejected_reply_at(src, tag.next)?;
            Ok(Took {
                value: reply_body::MSG_DENIED(d.value),
                next: d.next,
                plain: d.plain,
            })
        }
        _ => stray_reply(tag.next),
    }
}

fn stray_body(n: usize) -> Result<Took<rpc_body>, Refusal>
    ensures { view result ≡ took stray_body n false }
{
    Ok(Took {
        value: rpc_body::CALL(call_body {
            rpcvers: 0,
            prog: 0,
            vers: 0,
            proc: 0,
            cred: no_auth(),
            verf: no_auth(),
        }),
        next: n,
        plain: false,
    })
}

// Tolerance 3: a tag of 2 or more is a CALL with every field zero and empty, and nothing more is read.
pub fn rpc_body_at(src: &[u8], at: usize) -> Result<Took<rpc_body>, Refusal>
    ensures { view result ≡ rpc-body.held.read src.now at }
{
    let tag = u32_at(src, at)?;
    match tag.value {
        0 => {
            let c = call_body_at(src, tag.next)?;
            Ok(Took {
                value: rpc_body::CALL(c.value),
                next: c.next,
                plain: c.plain,
            })
        }
        1 => {
            let r = reply_body_at(src, tag.next)?;
            Ok(Took {
                value: rpc_body::REPLY(r.value),
                next: r.next,
                plain: r.plain,
            })
        }
        _ => stray_body(tag.next),
    }
}

pub fn rpc_msg_at(src: &[u8], at: usize) -> Result<Took<rpc_msg>, Refusal>
    ensures { view result ≡ rpc-msg.held.read src.now at }
{
    let xid = u32_at(src, at)?;
    let body = rpc_body_at(src, xid.next)?;
    Ok(Took {
        value: rpc_msg {
            xid: xid.value,
            body: body.value,
        },
        next: body.next,
        plain: xid.plain & body.plain,
    })
}
