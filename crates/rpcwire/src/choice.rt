// The choice of program: what the crate's `handle_rpc` does with a message up to the hand_over to a program.
ghost use Rattle.std.specs.Prelude.{◌≡◌};
ghost use Rattle.rpcwire.specs.Meaning.Choice.{by_version, by_flavor, outcome, replying, carried_out, Chooses};
ghost use Rattle.rpc.specs.Meaning.Crate.{crate};
ghost use Rattle.rpc.specs.Meaning.Current.{current};
ghost use Rattle.xdr.specs.Meaning.Views.{view_option};
ghost use Rattle.rpcwire.specs.Meaning.Views.{view_choice};
ghost use Rattle.rpcwire.specs.Laws.Choice.{Short};

use rpc::inner::auth_unix_in;
use rpc::{
    auth_flavor, auth_unix, call_body, current, prog_unavail_reply_message, read_current_rpc_msg,
    read_rpc_msg, rpc_body, rpc_msg, rpc_vers_mismatch_of, write_rpc_msg,
};
use xdr::Refusal;

// The programs that are served. All others are unavailable: NFS_ACL (100227), NFS_ID_MAP (100270) and NFS_METADATA (200024) among them.
const NFS: u32 = 100003;

const PORTMAP: u32 = 100000;

const MOUNT: u32 = 100005;

// What becomes of a message. Three of the four outcomes are no refusal, and each is carried out in its own way.
#[derive(Clone, Copy)]
pub enum Choice {
    Refused(Refusal),
    // A reply of so many bytes stands at the front of the output.
    Replied(usize),
    // The call was seen before: nothing is sent.
    Silent,
    // A program is to answer. The caller is what an AUTH_UNIX credential says, and none where it has another flavor. The arguments begin at
    // a place of the message.
    HandOver {
        prog: u32,
        vers: u32,
        proc: u32,
        caller: Option<auth_unix>,
        arguments: usize,
    },
}

// A reply has no pieces, so it needs no source; and all that can be wrong with its 24 bytes is too little room.
fn reply(message: &[u8], m: rpc_msg, out: &mut [u8]) -> Choice
    requires { Short m }
    ensures { outcome (view_choice result) out.new ≡ replying m out.old }
{
    let Ok(n) = write_rpc_msg(&message[..0], m, out, 0) else {
        return Choice::Refused(Refusal::NoRoom { needed: 24 });
    };
    Choice::Replied(n)
}

// A call whose credential is read. `serves` is the version of RPC that the reply to another version names.
fn by_version(
    message: &[u8],
    seen: bool,
    serves: u32,
    xid: u32,
    call: call_body,
    caller: Option<auth_unix>,
    arguments: usize,
    out: &mut [u8],
) -> Choice
    ensures { outcome (view_choice result) out.new ≡ carried_out (by_version seen serves xid call (view_option caller) arguments) out.old }
{
    if call.rpcvers != 2 {
        return reply(message, rpc_vers_mismatch_of(xid, serves), out);
    }
    if seen {
        return Choice::Silent;
    }
    let prog = call.prog;
    match prog {
        NFS | PORTMAP | MOUNT => Choice::HandOver {
            prog,
            vers: call.vers,
            proc: call.proc,
            caller,
            arguments,
        },
        _ => reply(message, prog_unavail_reply_message(xid), out),
    }
}

// For the crates above, and no door for users: a message that is a call, which is the same in every reading. The credential is read before
// the version is tested, as in the crate.
pub fn by_call(
    message: &[u8],
    seen: bool,
    serves: u32,
    xid: u32,
    call: call_body,
    arguments: usize,
    out: &mut [u8],
) -> Choice
    ensures { outcome (view_choice result) out.new ≡ carried_out (by_flavor message.now seen serves xid call arguments call.cred.flavor) out.old }
{
    let cred = call.cred;
    let auth_flavor::AUTH_UNIX = cred.flavor else {
        return by_version(message, seen, serves, xid, call, None, arguments, out);
    };
    match auth_unix_in(message, cred.body) {
        Ok(unix) => by_version(
            message,
            seen,
            serves,
            xid,
            call,
            Some(unix.value),
            arguments,
            out,
        ),
        Err(r) => Choice::Refused(r),
    }
}

// Chooses what to answer to a message. `seen` says if the call came before; a reply is written to the front of the output. The reply to
// another version of RPC names 0 and 0, as in the crate.
pub fn choose(message: &[u8], seen: bool, out: &mut [u8]) -> Choice
    ensures { Chooses crate message.now seen out.old (view_choice result) out.new }
{
    let read = match read_rpc_msg(message, 0) {
        Ok(read) => read,
        Err(r) => return Choice::Refused(r),
    };
    let msg = read.value;
    let rpc_body::CALL(call) = msg.body else {
        return Choice::Refused(Refusal::NotCall);
    };
    by_call(message, seen, 0, msg.xid, call, read.next, out)
}

// The same in the current reading, whose server serves version 2 of RPC and names 2 and 2.
pub fn current_choose(message: &[u8], seen: bool, out: &mut [u8]) -> Choice
    ensures { Chooses current message.now seen out.old (view_choice result) out.new }
{
    let read = match read_current_rpc_msg(message, 0) {
        Ok(read) => read,
        Err(r) => return Choice::Refused(r),
    };
    let msg = read.value;
    let current::rpc_body::CALL(call) = msg.body else {
        return Choice::Refused(Refusal::NotCall);
    };
    by_call(message, seen, 2, msg.xid, call, read.next, out)
}
