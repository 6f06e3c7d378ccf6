// The replies that a server makes by itself. Their bytes stand in specs/Laws/Makers.
ghost use Rattle.std.specs.Prelude.{◌≡◌};
ghost use Rattle.rpc.specs.Meaning.Auth.{no_auth};
ghost use Rattle.rpc.specs.Meaning.Makers.{accepted_with, proc_unavail, prog_unavail, prog_mismatch, garbage_args, vers_mismatch, vers_mismatch_of, success};

use crate::auth::{auth_flavor, opaque_auth};
use crate::message::{rpc_body, rpc_msg};
use crate::reply::{accept_body, accepted_reply, mismatch_info, rejected_reply, reply_body};
use xdr::Piece;

// The null verifier: no bytes.
pub(crate) fn no_auth() -> opaque_auth
    ensures { result ≡ no_auth }
{
    opaque_auth {
        flavor: auth_flavor::AUTH_NULL,
        body: Piece {
            at: 0,
            count: 0,
            clean: true,
        },
    }
}

// A call that was accepted, with the null verifier.
fn accepted_with(xid: u32, outcome: accept_body) -> rpc_msg
    ensures { result ≡ accepted_with xid outcome }
{
    let verf = no_auth();
    rpc_msg {
        xid,
        body: rpc_body::REPLY(reply_body::MSG_ACCEPTED(accepted_reply {
            verf,
            reply_data: outcome,
        })),
    }
}

pub fn proc_unavail_reply_message(xid: u32) -> rpc_msg
    ensures { result ≡ proc_unavail xid }
{
    accepted_with(xid, accept_body::PROC_UNAVAIL)
}

pub fn prog_unavail_reply_message(xid: u32) -> rpc_msg
    ensures { result ≡ prog_unavail xid }
{
    accepted_with(xid, accept_body::PROG_UNAVAIL)
}

pub fn prog_mismatch_reply_message(xid: u32, accepted_ver: u32) -> rpc_msg
    ensures { result ≡ prog_mismatch xid accepted_ver }
{
    let info = mismatch_info {
        low: accepted_ver,
        high: accepted_ver,
    };
    accepted_with(xid, accept_body::PROG_MISMATCH(info))
}

pub fn garbage_args_reply_message(xid: u32) -> rpc_msg
    ensures { result ≡ garbage_args xid }
{
    accepted_with(xid, accept_body::GARBAGE_ARGS)
}

// A version of RPC that is not served; `served` is named as the lowest and the highest that are.
pub fn rpc_vers_mismatch_of(xid: u32, served: u32) -> rpc_msg
    ensures { result ≡ vers_mismatch_of served xid }
{
    rpc_msg {
        xid,
        body: rpc_body::REPLY(reply_body::MSG_DENIED(rejected_reply::RPC_MISMATCH(
            mismatch_info {
                low: served,
                high: served,
            },
        ))),
    }
}

// The crate names 0 and 0, where RFC 5531 names the versions served.
pub fn rpc_vers_mismatch(xid: u32) -> rpc_msg
    ensures { result ≡ vers_mismatch xid }
{
    rpc_vers_mismatch_of(xid, 0)
}

pub fn make_success_reply(xid: u32) -> rpc_msg
    ensures { result ≡ success xid }
{
    accepted_with(xid, accept_body::SUCCESS)
}
