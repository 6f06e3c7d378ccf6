// The exported writer of a reply's header. Its figures are those that `yugerzat_read_rpc_msg` gives of a reply, from the xid on.
ghost use Rattle.std.specs.Prelude.{◌≡◌, ◌≤◌, length};
ghost use Rattle.xdr.specs.Meaning.Combinators.{among};
ghost use Rattle.rpc.specs.Meaning.Crate.{crate, accept_stat_number, accept_stats, auth_stat_number, auth_stats};
ghost use Rattle.door.specs.Meaning.Copy.{Is};
ghost use Rattle.xdr.specs.Meaning.Views.{view_found, view_option};
ghost use Rattle.door.specs.Meaning.Replies.{info_of, accept_of, accepted_of, mismatch_of, denial_of, reply_of, reply_given, WriteReplyCalled};

use crate::exports::{SHORT_LIST, tell_wrote};
use crate::values_write::{WIDE_NUMBER, WORDS, flavor_of};
use rpc::{
    accept_body, accept_stat, accepted_reply, auth_stat, mismatch_info, opaque_auth,
    rejected_reply, reply_body, rpc_body, rpc_msg, write_rpc_msg,
};
use xdr::Piece;

fn accept_stat_of(v: u64) -> Option<accept_stat>
    ensures { view_found result ≡ among accept_stat_number accept_stats v }
{
    match v {
        0 => Some(accept_stat::SUCCESS),
        1 => Some(accept_stat::PROG_UNAVAIL),
        2 => Some(accept_stat::PROG_MISMATCH),
        3 => Some(accept_stat::PROC_UNAVAIL),
        4 => Some(accept_stat::GARBAGE_ARGS),
        _ => None,
    }
}

fn auth_stat_of(v: u64) -> Option<auth_stat>
    ensures { view_found result ≡ among auth_stat_number auth_stats v }
{
    match v {
        1 => Some(auth_stat::AUTH_BADCRED),
        2 => Some(auth_stat::AUTH_REJECTEDCRED),
        3 => Some(auth_stat::AUTH_BADVERF),
        4 => Some(auth_stat::AUTH_REJECTEDVERF),
        5 => Some(auth_stat::AUTH_TOOWEAK),
        _ => None,
    }
}

pub(crate) fn info_of(low: u64, high: u64) -> Option<mismatch_info>
    ensures { view_option result ≡ info_of low high }
{
    if WORDS <= low {
        return None;
    }
    if WORDS <= high {
        return None;
    }
    Some(mismatch_info {
        low: (low % WORDS) as u32,
        high: (high % WORDS) as u32,
    })
}

// What an accept_stat says, with the versions of PROG_MISMATCH behind it.
fn accept_of(stat: accept_stat, low: u64, high: u64) -> Option<accept_body>
    ensures { view_option result ≡ accept_of crate stat low high }
{
    match stat {
        accept_stat::SUCCESS => Some(accept_body::SUCCESS),
        accept_stat::PROG_UNAVAIL => Some(accept_body::PROG_UNAVAIL),
        accept_stat::PROG_MISMATCH => {
            let v = info_of(low, high)?;
            Some(accept_body::PROG_MISMATCH(v))
        }
        accept_stat::PROC_UNAVAIL => Some(accept_body::PROC_UNAVAIL),
        accept_stat::GARBAGE_ARGS => Some(accept_body::GARBAGE_ARGS),
    }
}

// Accepted: flavor, place and count of the verifier, then the accept_stat and two versions.
fn accepted_of(
    flavor: u64,
    at: usize,
    count: usize,
    stat: u64,
    low: u64,
    high: u64,
) -> Option<reply_body>
    ensures { view_option result ≡ accepted_of crate flavor at count stat low high }
{
    let a = flavor_of(flavor)?;
    let s = accept_stat_of(stat)?;
    let reply_data = accept_of(s, low, high)?;
    Some(reply_body::MSG_ACCEPTED(accepted_reply {
        verf: opaque_auth {
            flavor: a,
            body: Piece {
                at,
                count,
                clean: true,
            },
        },
        reply_data,
    }))
}

// Denied, because of its RPC version.
fn mismatch_of(low: u64, high: u64) -> Option<reply_body>
    ensures { view_option result ≡ mismatch_of crate low high }
{
    let v = info_of(low, high)?;
    Some(reply_body::MSG_DENIED(rejected_reply::RPC_MISMATCH(v)))
}

// Denied, because of its credential.
fn denial_of(stat: u64) -> Option<reply_body>
    ensures { view_option result ≡ denial_of crate stat }
{
    let a = auth_stat_of(stat)?;
    Some(reply_body::MSG_DENIED(rejected_reply::AUTH_ERROR(a)))
}

// What the figures from the tag on are.
fn reply_of(fields: &[u64]) -> Option<reply_body>
    requires { 8 ≤ length fields.now }
    ensures { Is (reply_of crate) fields.now (view_option result) }
{
    match fields[1] {
        1 => accepted_of(
            fields[2],
            fields[3] as usize,
            fields[4] as usize,
            fields[5],
            fields[6],
            fields[7],
        ),
        2 => mismatch_of(fields[2], fields[3]),
        3 => denial_of(fields[2]),
        _ => None,
    }
}

// What a list's numbers are: a reply, or none.
fn given_reply(fields: &[u64]) -> Option<rpc_msg>
    requires { 8 ≤ length fields.now }
    ensures { Is (reply_given crate) fields.now (view_option result) }
{
    if WORDS <= fields[0] {
        return None;
    }
    let reply = reply_of(fields)?;
    Some(rpc_msg {
        xid: (fields[0] % WORDS) as u32,
        body: rpc_body::REPLY(reply),
    })
}

// The figures of a reply: xid, a tag and six more. 1, accepted: flavor, place and count of the verifier, a piece of source, the number of the
// accept_stat and the two versions of PROG_MISMATCH. 2, denied by the version: the two versions. 3, denied by authentication: the number of
// the auth_stat. What the tag has no use for is passed over.
pub fn yugerzat_write_reply(
    source: &[u8],
    fields: &[u64],
    out: &mut [u8],
    start: usize,
    info: &mut [u64],
) -> u32
    ensures { WriteReplyCalled crate source.now fields.now out.old start info.old result out.new info.new }
{
    if fields.len() < 8 {
        return SHORT_LIST;
    }
    if info.len() < 1 {
        return SHORT_LIST;
    }
    let Some(m) = given_reply(fields) else {
        return WIDE_NUMBER;
    };
    let w = write_rpc_msg(source, m, out, start);
    tell_wrote(w, info)
}
