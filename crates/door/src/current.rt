// The current reading: the exported reader of a message and writer of a reply's header, as in `values_read` and `replies`. Figures are the same;
// an accept_stat may be 5, and an auth_stat 0 to 14.
// It stands beside them because rpc has its types twice, in two modules: a trait over both would be longer than these functions.
ghost use Rattle.std.specs.Prelude.{◌≡◌, cond, [], ◌∷◌, ◌≤◌, length};
ghost use Rattle.xdr.specs.Meaning.Combinators.{among};
ghost use Rattle.rpc.specs.Meaning.Current.{current, accept_stat_number, accept_stats, auth_stat_number, auth_stats};
ghost use Rattle.rpc.specs.declared.current.message.rpc_body.TheVariants.{REPLY};
ghost use Rattle.rpc.specs.declared.current.reply.reply_body.TheVariants.{MSG_ACCEPTED, MSG_DENIED};
ghost use Rattle.door.specs.Meaning.Copy.{Is};
ghost use Rattle.door.specs.Meaning.Figures.{Shown, Shows};
ghost use Rattle.door.specs.Meaning.Values.{accept_figures, body_figures, RpcMsgCalled};
ghost use Rattle.xdr.specs.Meaning.Views.{view_found, view_option};
ghost use Rattle.door.specs.Meaning.Replies.{accept_of, accepted_of, mismatch_of, denial_of, reply_of, reply_given, WriteReplyCalled};

use crate::exports::{SHORT_LIST, tell_wrote};
use crate::figures::{bit, put_figures};
use crate::replies::info_of;
use crate::values_read::{Three, put_call, tell_refused};
use crate::values_write::{WIDE_NUMBER, WORDS, flavor_of};
use rpc::current::{
    accept_body, accept_stat, accepted_reply, auth_stat, rejected_reply, reply_body, rpc_body,
    rpc_msg,
};
use rpc::{opaque_auth, read_current_rpc_msg, write_current_rpc_msg};
use xdr::{Piece, Took};

// accept_stat's number, and the two versions of PROG_MISMATCH.
fn accept_figures(b: accept_body) -> Three
    ensures { (result.first ∷ result.second ∷ result.third ∷ []) ≡ accept_figures current b }
{
    match b {
        accept_body::SUCCESS => Three {
            first: 0,
            second: 0,
            third: 0,
        },
        accept_body::PROG_UNAVAIL => Three {
            first: 1,
            second: 0,
            third: 0,
        },
        accept_body::PROG_MISMATCH(v) => Three {
            first: 2,
            second: v.low as u64,
            third: v.high as u64,
        },
        accept_body::PROC_UNAVAIL => Three {
            first: 3,
            second: 0,
            third: 0,
        },
        accept_body::GARBAGE_ARGS => Three {
            first: 4,
            second: 0,
            third: 0,
        },
        accept_body::SYSTEM_ERR => Three {
            first: 5,
            second: 0,
            third: 0,
        },
    }
}

fn put_reply(m: reply_body, xid: u32, next: usize, plain: bool, info: &mut [u64])
    requires { 14 ≤ length info.old }
    ensures { Shows (λ m. next ∷ cond plain 1 0 ∷ xid ∷ body_figures current (REPLY m)) m info.old info.new }
{
    match m {
        reply_body::MSG_ACCEPTED(a) => put_accepted(a, xid, next, plain, info),
        reply_body::MSG_DENIED(d) => put_denied(d, xid, next, plain, info),
    }
}

fn put_accepted(m: accepted_reply, xid: u32, next: usize, plain: bool, info: &mut [u64])
    requires { 14 ≤ length info.old }
    ensures { Shown (next ∷ cond plain 1 0 ∷ xid ∷ body_figures current (REPLY (MSG_ACCEPTED m))) info.old info.new }
{
    let verf = m.verf;
    let flavor = verf.flavor;
    let body = verf.body;
    let data = m.reply_data;
    let told = accept_figures(data);
    put_figures(
        &[
            next as u64,
            bit(plain),
            xid as u64,
            1,
            flavor.number() as u64,
            body.at as u64,
            body.count as u64,
            told.first,
            told.second,
            told.third,
        ],
        4,
        info,
    );
}

fn put_denied(m: rejected_reply, xid: u32, next: usize, plain: bool, info: &mut [u64])
    requires { 14 ≤ length info.old }
    ensures { Shows (λ m. next ∷ cond plain 1 0 ∷ xid ∷ body_figures current (REPLY (MSG_DENIED m))) m info.old info.new }
{
    match m {
        rejected_reply::RPC_MISMATCH(v) => put_figures(
            &[
                next as u64,
                bit(plain),
                xid as u64,
                2,
                v.low as u64,
                v.high as u64,
            ],
            8,
            info,
        ),
        rejected_reply::AUTH_ERROR(s) => put_figures(
            &[next as u64, bit(plain), xid as u64, 3, s.number() as u64],
            9,
            info,
        ),
    }
}

fn put_message(m: rpc_msg, next: usize, plain: bool, info: &mut [u64])
    requires { 14 ≤ length info.old }
    ensures { Shows (λ b. next ∷ cond plain 1 0 ∷ m.xid ∷ body_figures current b) m.body info.old info.new }
{
    let xid = m.xid;
    let body = m.body;
    match body {
        rpc_body::CALL(c) => put_call(c, xid, next, plain, info),
        rpc_body::REPLY(r) => put_reply(r, xid, next, plain, info),
    }
}

// The figures of a message in the current reading, as `yugerzat_read_rpc_msg` gives them.
pub fn yugerzat_read_current_rpc_msg(message: &[u8], at: usize, info: &mut [u64]) -> u32
    ensures { RpcMsgCalled current message.now at info.old result info.new }
{
    if info.len() < 14 {
        return SHORT_LIST;
    }
    let v = read_current_rpc_msg(message, at);
    match v {
        Err(r) => tell_refused(r, 12, info),
        Ok(Took { value, next, plain }) => {
            put_message(value, next, plain, info);
            0
        }
    }
}

fn accept_stat_of(v: u64) -> Option<accept_stat>
    ensures { view_found result ≡ among accept_stat_number accept_stats v }
{
    match v {
        0 => Some(accept_stat::SUCCESS),
        1 => Some(accept_stat::PROG_UNAVAIL),
        2 => Some(accept_stat::PROG_MISMATCH),
        3 => Some(accept_stat::PROC_UNAVAIL),
        4 => Some(accept_stat::GARBAGE_ARGS),
        5 => Some(accept_stat::SYSTEM_ERR),
        _ => None,
    }
}

fn auth_stat_of(v: u64) -> Option<auth_stat>
    ensures { view_found result ≡ among auth_stat_number auth_stats v }
{
    match v {
        0 => Some(auth_stat::AUTH_OK),
        1 => Some(auth_stat::AUTH_BADCRED),
        2 => Some(auth_stat::AUTH_REJECTEDCRED),
        3 => Some(auth_stat::AUTH_BADVERF),
        4 => Some(auth_stat::AUTH_REJECTEDVERF),
        5 => Some(auth_stat::AUTH_TOOWEAK),
        6 => Some(auth_stat::AUTH_INVALIDRESP),
        7 => Some(auth_stat::AUTH_FAILED),
        8 => Some(auth_stat::AUTH_KERB_GENERIC),
        9 => Some(auth_stat::AUTH_TIMEEXPIRE),
        10 => Some(auth_stat::AUTH_TKT_FILE),
        11 => Some(auth_stat::AUTH_DECODE),
        12 => Some(auth_stat::AUTH_NET_ADDR),
        13 => Some(auth_stat::RPCSEC_GSS_CREDPROBLEM),
        14 => Some(auth_stat::RPCSEC_GSS_CTXPROBLEM),
        _ => None,
    }
}

// What an accept_stat says, with the versions of PROG_MISMATCH behind it.
fn accept_of(stat: accept_stat, low: u64, high: u64) -> Option<accept_body>
    ensures { view_option result ≡ accept_of current stat low high }
{
    match stat {
        accept_stat::SUCCESS => Some(accept_body::SUCCESS),
        accept_stat::PROG_UNAVAIL => Some(accept_body::PROG_UNAVAIL),
        accept_stat::PROG_MISMATCH => {
            let v = info_of(low, high)?;
            Some(accept_body::PROG_MISMATCH(v))
        }
        accept_stat::PROC_UNAVAIL => Some(accept_body::PROC_UNAVAIL),
        accept_stat::GARBAGE_ARGS => Some(accept_body::GARBAGE_ARGS),
        accept_stat::SYSTEM_ERR => Some(accept_body::SYSTEM_ERR),
    }
}

// Accepted: flavor, place and count of the verifier, then the accept_stat and two versions.
fn accepted_of(
    flavor: u64,
    at: usize,
    count: usize,
    stat: u64,
    low: u64,
    high: u64,
) -> Option<reply_body>
    ensures { view_option result ≡ accepted_of current flavor at count stat low high }
{
    let a = flavor_of(flavor)?;
    let s = accept_stat_of(stat)?;
    let reply_data = accept_of(s, low, high)?;
    Some(reply_body::MSG_ACCEPTED(accepted_reply {
        verf: opaque_auth {
            flavor: a,
            body: Piece {
                at,
                count,
                clean: true,
            },
        },
        reply_data,
    }))
}

// Denied, because of its RPC version.
fn mismatch_of(low: u64, high: u64) -> Option<reply_body>
    ensures { view_option result ≡ mismatch_of current low high }
{
    let v = info_of(low, high)?;
    Some(reply_body::MSG_DENIED(rejected_reply::RPC_MISMATCH(v)))
}

// Denied, because of its credential.
fn denial_of(stat: u64) -> Option<reply_body>
    ensures { view_option result ≡ denial_of current stat }
{
    let a = auth_stat_of(stat)?;
    Some(reply_body::MSG_DENIED(rejected_reply::AUTH_ERROR(a)))
}

// What the figures from the tag on are.
fn reply_of(fields: &[u64]) -> Option<reply_body>
    requires { 8 ≤ length fields.now }
    ensures { Is (reply_of current) fields.now (view_option result) }
{
    match fields[1] {
        1 => accepted_of(
            fields[2],
            fields[3] as usize,
            fields[4] as usize,
            fields[5],
            fields[6],
            fields[7],
        ),
        2 => mismatch_of(fields[2], fields[3]),
        3 => denial_of(fields[2]),
        _ => None,
    }
}

// What a list's numbers are: a reply, or none.
fn given_reply(fields: &[u64]) -> Option<rpc_msg>
    requires { 8 ≤ length fields.now }
    ensures { Is (reply_given current) fields.now (view_option result) }
{
    if WORDS <= fields[0] {
        return None;
    }
    let reply = reply_of(fields)?;
    Some(rpc_msg {
        xid: (fields[0] % WORDS) as u32,
        body: rpc_body::REPLY(reply),
    })
}

// The figures of a reply in the current reading, as `yugerzat_write_reply` takes them.
pub fn yugerzat_write_current_reply(
    source: &[u8],
    fields: &[u64],
    out: &mut [u8],
    start: usize,
    info: &mut [u64],
) -> u32
    ensures { WriteReplyCalled current source.now fields.now out.old start info.old result out.new info.new }
{
    if fields.len() < 8 {
        return SHORT_LIST;
    }
    if info.len() < 1 {
        return SHORT_LIST;
    }
    let Some(m) = given_reply(fields) else {
        return WIDE_NUMBER;
    };
    let w = write_current_rpc_msg(source, m, out, start);
    tell_wrote(w, info)
}
