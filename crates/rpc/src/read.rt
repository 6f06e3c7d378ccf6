// The public readers: refusal 3, refusal 9, then the kind. What an answer's pieces are, `xdr::part` and `xdr::words_part` hand back.
ghost use Rattle.xdr.specs.Meaning.Format.{exactly};
ghost use Rattle.xdr.specs.Meaning.Public.{Answers};
ghost use Rattle.rpc.specs.Meaning.Closed.{msg-type, reply-stat, reject-stat, auth-flavor};
ghost use Rattle.rpc.specs.Meaning.Crate.{accept-stat, auth-stat, accept-body, accepted-reply, rejected-reply, reply-body, rpc-body, rpc-msg};
ghost use Rattle.rpc.specs.Meaning.Auth.{opaque-auth, auth-unix};
ghost use Rattle.rpc.specs.Meaning.UnixIn.{AnswersIn};
ghost use Rattle.rpc.specs.Meaning.Reading.{mismatch-info};
ghost use Rattle.rpc.specs.Meaning.Message.{call-body};
ghost use Rattle.xdr.specs.Meaning.Views.{view};

use crate::auth::{auth_flavor, auth_stat, auth_unix, opaque_auth};
use crate::inner::{
    accept_body_at, accept_stat_at, accepted_reply_at, auth_flavor_at, auth_stat_at, auth_unix_at,
    auth_unix_in, call_body_at, mismatch_info_at, msg_type_at, opaque_auth_at, reject_stat_at,
    rejected_reply_at, reply_body_at, reply_stat_at, rpc_body_at, rpc_msg_at,
};
use crate::message::{call_body, msg_type, rpc_body, rpc_msg};
use crate::reply::{
    accept_body, accept_stat, accepted_reply, mismatch_info, reject_stat, rejected_reply,
    reply_body, reply_stat,
};
use xdr::order::open_at;
use xdr::{MOST, Piece, Refusal, Took};

// The tags, as kinds of their own (`_msg_type` and so on in the crate): closed enumerations.
pub fn read_msg_type(src: &[u8], at: usize) -> Result<Took<msg_type>, Refusal>
    ensures { Answers (exactly msg-type) src.now at (view result) }
{
    open_at(src, at)?;
    msg_type_at(src, at)
}

pub fn read_reply_stat(src: &[u8], at: usize) -> Result<Took<reply_stat>, Refusal>
    ensures { Answers (exactly reply-stat) src.now at (view result) }
{
    open_at(src, at)?;
    reply_stat_at(src, at)
}

pub fn read_accept_stat(src: &[u8], at: usize) -> Result<Took<accept_stat>, Refusal>
    ensures { Answers (exactly accept-stat) src.now at (view result) }
{
    open_at(src, at)?;
    accept_stat_at(src, at)
}

pub fn read_reject_stat(src: &[u8], at: usize) -> Result<Took<reject_stat>, Refusal>
    ensures { Answers (exactly reject-stat) src.now at (view result) }
{
    open_at(src, at)?;
    reject_stat_at(src, at)
}

// Closed enumerations: refusal 2 at the place of the word.
pub fn read_auth_flavor(src: &[u8], at: usize) -> Result<Took<auth_flavor>, Refusal>
    ensures { Answers (exactly auth-flavor) src.now at (view result) }
{
    open_at(src, at)?;
    auth_flavor_at(src, at)
}

pub fn read_auth_stat(src: &[u8], at: usize) -> Result<Took<auth_stat>, Refusal>
    ensures { Answers (exactly auth-stat) src.now at (view result) }
{
    open_at(src, at)?;
    auth_stat_at(src, at)
}

// Plain if the padding is zero.
pub fn read_opaque_auth(src: &[u8], at: usize) -> Result<Took<opaque_auth>, Refusal>
    ensures { Answers opaque-auth src.now at (view result) }
{
    open_at(src, at)?;
    opaque_auth_at(src, at)
}

pub fn read_auth_unix(src: &[u8], at: usize) -> Result<Took<auth_unix>, Refusal>
    ensures { Answers auth-unix src.now at (view result) }
{
    open_at(src, at)?;
    auth_unix_at(src, at)
}

// The auth_unix in a credential's body: the body's end is the end, places are those of the whole message, and bytes left over in the body
// are ignored. A body that does not lie inside the message is the empty part at its start.
pub fn read_auth_unix_in(src: &[u8], body: Piece) -> Result<Took<auth_unix>, Refusal>
    ensures { AnswersIn src.now body (view result) }
{
    if MOST < src.len() {
        return Err(Refusal::TooLong);
    }
    auth_unix_in(src, body)
}

pub fn read_mismatch_info(src: &[u8], at: usize) -> Result<Took<mismatch_info>, Refusal>
    ensures { Answers (exactly mismatch-info) src.now at (view result) }
{
    open_at(src, at)?;
    mismatch_info_at(src, at)
}

pub fn read_call_body(src: &[u8], at: usize) -> Result<Took<call_body>, Refusal>
    ensures { Answers call-body src.now at (view result) }
{
    open_at(src, at)?;
    call_body_at(src, at)
}

// A tag above 4 is GARBAGE_ARGS, which is not plain.
pub fn read_accept_body(src: &[u8], at: usize) -> Result<Took<accept_body>, Refusal>
    ensures { Answers (exactly accept-body) src.now at (view result) }
{
    open_at(src, at)?;
    accept_body_at(src, at)
}

pub fn read_accepted_reply(src: &[u8], at: usize) -> Result<Took<accepted_reply>, Refusal>
    ensures { Answers accepted-reply src.now at (view result) }
{
    open_at(src, at)?;
    accepted_reply_at(src, at)
}

// A tag of 2 or more is RPC_MISMATCH 0, 0, which is not plain.
pub fn read_rejected_reply(src: &[u8], at: usize) -> Result<Took<rejected_reply>, Refusal>
    ensures { Answers (exactly rejected-reply) src.now at (view result) }
{
    open_at(src, at)?;
    rejected_reply_at(src, at)
}

// A tag of 2 or more is MSG_ACCEPTED, null verifier, SUCCESS, which is not plain.
pub fn read_reply_body(src: &[u8], at: usize) -> Result<Took<reply_body>, Refusal>
    ensures { Answers reply-body src.now at (view result) }
{
    open_at(src, at)?;
    reply_body_at(src, at)
}

// A tag of 2 or more is a CALL with every field zero and empty, which is not plain.
pub fn read_rpc_body(src: &[u8], at: usize) -> Result<Took<rpc_body>, Refusal>
    ensures { Answers rpc-body src.now at (view result) }
{
    open_at(src, at)?;
    rpc_body_at(src, at)
}

pub fn read_rpc_msg(src: &[u8], at: usize) -> Result<Took<rpc_msg>, Refusal>
    ensures { Answers rpc-msg src.now at (view result) }
{
    open_at(src, at)?;
    rpc_msg_at(src, at)
}
