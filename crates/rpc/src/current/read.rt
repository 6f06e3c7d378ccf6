// The public readers of the current reading.
ghost use Rattle.xdr.specs.Meaning.Format.{exactly};
ghost use Rattle.xdr.specs.Meaning.Public.{Answers};
ghost use Rattle.rpc.specs.Meaning.Current.{current_accept_stat, current_auth_stat, current_accept_body, current_accepted_reply, current_rejected_reply, current_reply_body, current_rpc_body, current_rpc_msg};
ghost use Rattle.xdr.specs.Meaning.Views.{view};

use crate::current::inner::{
    accept_body_at, accept_stat_at, accepted_reply_at, auth_stat_at, rejected_reply_at,
    reply_body_at, rpc_body_at, rpc_msg_at,
};
use crate::current::message::{rpc_body, rpc_msg};
use crate::current::reply::{
    accept_body, accept_stat, accepted_reply, auth_stat, rejected_reply, reply_body,
};
use xdr::order::open_at;
use xdr::{Refusal, Took};

pub fn read_current_accept_stat(src: &[u8], at: usize) -> Result<Took<accept_stat>, Refusal>
    ensures { Answers (exactly current_accept_stat) src.now at (view result) }
{
    open_at(src, at)?;
    accept_stat_at(src, at)
}

pub fn read_current_auth_stat(src: &[u8], at: usize) -> Result<Took<auth_stat>, Refusal>
    ensures { Answers (exactly current_auth_stat) src.now at (view result) }
{
    open_at(src, at)?;
    auth_stat_at(src, at)
}

// A tag above 5 is GARBAGE_ARGS, which is not plain.
pub fn read_current_accept_body(src: &[u8], at: usize) -> Result<Took<accept_body>, Refusal>
    ensures { Answers (exactly current_accept_body) src.now at (view result) }
{
    open_at(src, at)?;
    accept_body_at(src, at)
}

pub fn read_current_accepted_reply(src: &[u8], at: usize) -> Result<Took<accepted_reply>, Refusal>
    ensures { Answers current_accepted_reply src.now at (view result) }
{
    open_at(src, at)?;
    accepted_reply_at(src, at)
}

// A tag of 2 or more is RPC_MISMATCH 0, 0, which is not plain.
pub fn read_current_rejected_reply(src: &[u8], at: usize) -> Result<Took<rejected_reply>, Refusal>
    ensures { Answers (exactly current_rejected_reply) src.now at (view result) }
{
    open_at(src, at)?;
    rejected_reply_at(src, at)
}

// A tag of 2 or more is MSG_ACCEPTED, null verifier, SUCCESS, which is not plain.
pub fn read_current_reply_body(src: &[u8], at: usize) -> Result<Took<reply_body>, Refusal>
    ensures { Answers current_reply_body src.now at (view result) }
{
    open_at(src, at)?;
    reply_body_at(src, at)
}

// A tag of 2 or more is a CALL with every field zero and empty, which is not plain.
pub fn read_current_rpc_body(src: &[u8], at: usize) -> Result<Took<rpc_body>, Refusal>
    ensures { Answers current_rpc_body src.now at (view result) }
{
    open_at(src, at)?;
    rpc_body_at(src, at)
}

pub fn read_current_rpc_msg(src: &[u8], at: usize) -> Result<Took<rpc_msg>, Refusal>
    ensures { Answers current_rpc_msg src.now at (view result) }
{
    open_at(src, at)?;
    rpc_msg_at(src, at)
}
