// made by tools/generate from kinds.txt
// Each kind of RFC 5531, as a kind.
ghost use Rattle.xdr.specs.Meaning.Format.{exactly};
ghost use Rattle.rpc.specs.Meaning.Closed.{msg-type, reply-stat, reject-stat, auth-flavor};
ghost use Rattle.rpc.specs.Meaning.Crate.{accept-stat, auth-stat, rpc-msg, rpc-body, reply-body, accepted-reply, accept-body, rejected-reply};
ghost use Rattle.rpc.specs.Meaning.Auth.{auth-unix, opaque-auth};
ghost use Rattle.rpc.specs.Meaning.Message.{call-body};
ghost use Rattle.rpc.specs.Meaning.Reading.{mismatch-info};
ghost use Rattle.rpc.specs.Meaning.Current.{current_accept_stat, current_auth_stat, current_accept_body, current_accepted_reply, current_rejected_reply, current_reply_body, current_rpc_body, current_rpc_msg};
ghost use Rattle.door.specs.Meaning.Copy.{held_as};
ghost use Rattle.door.specs.Laws.Still.{still-plain, still-msg-type, still-reply-stat, still-accept-stat, still-reject-stat, still-auth-stat, still-auth-flavor, still-mismatch-info, still-current-accept-stat, still-current-auth-stat};

use crate::kind::{Kind, Loose, Plain};
use xdr::{Marks, Refusal, Took};

pub(crate) struct MsgType;

impl Kind for MsgType {
    type Value = rpc::msg_type;

    ghost number = { 9 };

    ghost held = { held_as (exactly msg-type) };

    ghost listed = { λ s at start o c o' d. d };

    fn read(src: &[u8], at: usize) -> Result<Took<rpc::msg_type>, Refusal> {
        rpc::read_msg_type(src, at)
    }

    fn marks(_x: rpc::msg_type) -> Marks {
        Marks::None
    }
}

impl Plain for MsgType {
    ghost plain = { still-plain (exactly msg-type) still-msg-type };
}

pub(crate) struct ReplyStat;

impl Kind for ReplyStat {
    type Value = rpc::reply_stat;

    ghost number = { 10 };

    ghost held = { held_as (exactly reply-stat) };

    ghost listed = { λ s at start o c o' d. d };

    fn read(src: &[u8], at: usize) -> Result<Took<rpc::reply_stat>, Refusal> {
        rpc::read_reply_stat(src, at)
    }

    fn marks(_x: rpc::reply_stat) -> Marks {
        Marks::None
    }
}

impl Plain for ReplyStat {
    ghost plain = { still-plain (exactly reply-stat) still-reply-stat };
}

pub(crate) struct AcceptStat;

impl Kind for AcceptStat {
    type Value = rpc::accept_stat;

    ghost number = { 11 };

    ghost held = { held_as (exactly accept-stat) };

    ghost listed = { λ s at start o c o' d. d };

    fn read(src: &[u8], at: usize) -> Result<Took<rpc::accept_stat>, Refusal> {
        rpc::read_accept_stat(src, at)
    }

    fn marks(_x: rpc::accept_stat) -> Marks {
        Marks::None
    }
}

impl Plain for AcceptStat {
    ghost plain = { still-plain (exactly accept-stat) still-accept-stat };
}

pub(crate) struct RejectStat;

impl Kind for RejectStat {
    type Value = rpc::reject_stat;

    ghost number = { 12 };

    ghost held = { held_as (exactly reject-stat) };

    ghost listed = { λ s at start o c o' d. d };

    fn read(src: &[u8], at: usize) -> Result<Took<rpc::reject_stat>, Refusal> {
        rpc::read_reject_stat(src, at)
    }

    fn marks(_x: rpc::reject_stat) -> Marks {
        Marks::None
    }
}

impl Plain for RejectStat {
    ghost plain = { still-plain (exactly reject-stat) still-reject-stat };
}

pub(crate) struct AuthStat;

impl Kind for AuthStat {
    type Value = rpc::auth_stat;

    ghost number = { 13 };

    ghost held = { held_as (exactly auth-stat) };

    ghost listed = { λ s at start o c o' d. d };

    fn read(src: &[u8], at: usize) -> Result<Took<rpc::auth_stat>, Refusal> {
        rpc::read_auth_stat(src, at)
    }

    fn marks(_x: rpc::auth_stat) -> Marks {
        Marks::None
    }
}

impl Plain for AuthStat {
    ghost plain = { still-plain (exactly auth-stat) still-auth-stat };
}

pub(crate) struct AuthFlavor;

impl Kind for AuthFlavor {
    type Value = rpc::auth_flavor;

    ghost number = { 14 };

    ghost held = { held_as (exactly auth-flavor) };

    ghost listed = { λ s at start o c o' d. d };

    fn read(src: &[u8], at: usize) -> Result<Took<rpc::auth_flavor>, Refusal> {
        rpc::read_auth_flavor(src, at)
    }

    fn marks(_x: rpc::auth_flavor) -> Marks {
        Marks::None
    }
}

impl Plain for AuthFlavor {
    ghost plain = { still-plain (exactly auth-flavor) still-auth-flavor };
}

pub(crate) struct AuthUnix;

impl Kind for AuthUnix {
    type Value = rpc::auth_unix;

    ghost number = { 18 };

    ghost held = { held_as auth-unix };

    ghost listed = { λ s at start o c o' d. d };

    fn read(src: &[u8], at: usize) -> Result<Took<rpc::auth_unix>, Refusal> {
        rpc::read_auth_unix(src, at)
    }

    fn marks(x: rpc::auth_unix) -> Marks {
        x.marks()
    }
}

impl Loose for AuthUnix {
    fn write(src: &[u8], x: rpc::auth_unix, out: &mut [u8], at: usize) -> Result<usize, Refusal> {
        rpc::write_auth_unix(src, x, out, at)
    }
}

pub(crate) struct OpaqueAuth;

impl Kind for OpaqueAuth {
    type Value = rpc::opaque_auth;

    ghost number = { 19 };

    ghost held = { held_as opaque-auth };

    ghost listed = { λ s at start o c o' d. d };

    fn read(src: &[u8], at: usize) -> Result<Took<rpc::opaque_auth>, Refusal> {
        rpc::read_opaque_auth(src, at)
    }

    fn marks(x: rpc::opaque_auth) -> Marks {
        x.marks()
    }
}

impl Loose for OpaqueAuth {
    fn write(src: &[u8], x: rpc::opaque_auth, out: &mut [u8], at: usize) -> Result<usize, Refusal> {
        rpc::write_opaque_auth(src, x, out, at)
    }
}

pub(crate) struct RpcMsg;

impl Kind for RpcMsg {
    type Value = rpc::rpc_msg;

    ghost number = { 20 };

    ghost held = { held_as rpc-msg };

    ghost listed = { λ s at start o c o' d. d };

    fn read(src: &[u8], at: usize) -> Result<Took<rpc::rpc_msg>, Refusal> {
        rpc::read_rpc_msg(src, at)
    }

    fn marks(x: rpc::rpc_msg) -> Marks {
        x.marks()
    }
}

impl Loose for RpcMsg {
    fn write(src: &[u8], x: rpc::rpc_msg, out: &mut [u8], at: usize) -> Result<usize, Refusal> {
        rpc::write_rpc_msg(src, x, out, at)
    }
}

pub(crate) struct RpcBody;

impl Kind for RpcBody {
    type Value = rpc::rpc_body;

    ghost number = { 21 };

    ghost held = { held_as rpc-body };

    ghost listed = { λ s at start o c o' d. d };

    fn read(src: &[u8], at: usize) -> Result<Took<rpc::rpc_body>, Refusal> {
        rpc::read_rpc_body(src, at)
    }

    fn marks(x: rpc::rpc_body) -> Marks {
        x.marks()
    }
}

impl Loose for RpcBody {
    fn write(src: &[u8], x: rpc::rpc_body, out: &mut [u8], at: usize) -> Result<usize, Refusal> {
        rpc::write_rpc_body(src, x, out, at)
    }
}

pub(crate) struct CallBody;

impl Kind for CallBody {
    type Value = rpc::call_body;

    ghost number = { 22 };

    ghost held = { held_as call-body };

    ghost listed = { λ s at start o c o' d. d };

    fn read(src: &[u8], at: usize) -> Result<Took<rpc::call_body>, Refusal> {
        rpc::read_call_body(src, at)
    }

    fn marks(x: rpc::call_body) -> Marks {
        x.marks()
    }
}

impl Loose for CallBody {
    fn write(src: &[u8], x: rpc::call_body, out: &mut [u8], at: usize) -> Result<usize, Refusal> {
        rpc::write_call_body(src, x, out, at)
    }
}

pub(crate) struct ReplyBody;

impl Kind for ReplyBody {
    type Value = rpc::reply_body;

    ghost number = { 23 };

    ghost held = { held_as reply-body };

    ghost listed = { λ s at start o c o' d. d };

    fn read(src: &[u8], at: usize) -> Result<Took<rpc::reply_body>, Refusal> {
        rpc::read_reply_body(src, at)
    }

    fn marks(x: rpc::reply_body) -> Marks {
        x.marks()
    }
}

impl Loose for ReplyBody {
    fn write(src: &[u8], x: rpc::reply_body, out: &mut [u8], at: usize) -> Result<usize, Refusal> {
        rpc::write_reply_body(src, x, out, at)
    }
}

pub(crate) struct AcceptedReply;

impl Kind for AcceptedReply {
    type Value = rpc::accepted_reply;

    ghost number = { 24 };

    ghost held = { held_as accepted-reply };

    ghost listed = { λ s at start o c o' d. d };

    fn read(src: &[u8], at: usize) -> Result<Took<rpc::accepted_reply>, Refusal> {
        rpc::read_accepted_reply(src, at)
    }

    fn marks(x: rpc::accepted_reply) -> Marks {
        x.marks()
    }
}

impl Loose for AcceptedReply {
    fn write(
        src: &[u8],
        x: rpc::accepted_reply,
        out: &mut [u8],
        at: usize,
    ) -> Result<usize, Refusal> {
        rpc::write_accepted_reply(src, x, out, at)
    }
}

pub(crate) struct AcceptBody;

impl Kind for AcceptBody {
    type Value = rpc::accept_body;

    ghost number = { 25 };

    ghost held = { held_as (exactly accept-body) };

    ghost listed = { λ s at start o c o' d. d };

    fn read(src: &[u8], at: usize) -> Result<Took<rpc::accept_body>, Refusal> {
        rpc::read_accept_body(src, at)
    }

    fn marks(_x: rpc::accept_body) -> Marks {
        Marks::None
    }
}

impl Loose for AcceptBody {
    fn write(
        _src: &[u8],
        x: rpc::accept_body,
        out: &mut [u8],
        at: usize,
    ) -> Result<usize, Refusal> {
        rpc::write_accept_body(x, out, at)
    }
}

pub(crate) struct RejectedReply;

impl Kind for RejectedReply {
    type Value = rpc::rejected_reply;

    ghost number = { 26 };

    ghost held = { held_as (exactly rejected-reply) };

    ghost listed = { λ s at start o c o' d. d };

    fn read(src: &[u8], at: usize) -> Result<Took<rpc::rejected_reply>, Refusal> {
        rpc::read_rejected_reply(src, at)
    }

    fn marks(_x: rpc::rejected_reply) -> Marks {
        Marks::None
    }
}

impl Loose for RejectedReply {
    fn write(
        _src: &[u8],
        x: rpc::rejected_reply,
        out: &mut [u8],
        at: usize,
    ) -> Result<usize, Refusal> {
        rpc::write_rejected_reply(x, out, at)
    }
}

pub(crate) struct MismatchInfo;

impl Kind for MismatchInfo {
    type Value = rpc::mismatch_info;

    ghost number = { 27 };

    ghost held = { held_as (exactly mismatch-info) };

    ghost listed = { λ s at start o c o' d. d };

    fn read(src: &[u8], at: usize) -> Result<Took<rpc::mismatch_info>, Refusal> {
        rpc::read_mismatch_info(src, at)
    }

    fn marks(_x: rpc::mismatch_info) -> Marks {
        Marks::None
    }
}

impl Plain for MismatchInfo {
    ghost plain = { still-plain (exactly mismatch-info) still-mismatch-info };
}

pub(crate) struct CurrentAcceptStat;

impl Kind for CurrentAcceptStat {
    type Value = rpc::current::accept_stat;

    ghost number = { 59 };

    ghost held = { held_as (exactly current_accept_stat) };

    ghost listed = { λ s at start o c o' d. d };

    fn read(src: &[u8], at: usize) -> Result<Took<rpc::current::accept_stat>, Refusal> {
        rpc::read_current_accept_stat(src, at)
    }

    fn marks(_x: rpc::current::accept_stat) -> Marks {
        Marks::None
    }
}

impl Plain for CurrentAcceptStat {
    ghost plain = { still-plain (exactly current_accept_stat) still-current-accept-stat };
}

pub(crate) struct CurrentAuthStat;

impl Kind for CurrentAuthStat {
    type Value = rpc::current::auth_stat;

    ghost number = { 60 };

    ghost held = { held_as (exactly current_auth_stat) };

    ghost listed = { λ s at start o c o' d. d };

    fn read(src: &[u8], at: usize) -> Result<Took<rpc::current::auth_stat>, Refusal> {
        rpc::read_current_auth_stat(src, at)
    }

    fn marks(_x: rpc::current::auth_stat) -> Marks {
        Marks::None
    }
}

impl Plain for CurrentAuthStat {
    ghost plain = { still-plain (exactly current_auth_stat) still-current-auth-stat };
}

pub(crate) struct CurrentAcceptBody;

impl Kind for CurrentAcceptBody {
    type Value = rpc::current::accept_body;

    ghost number = { 61 };

    ghost held = { held_as (exactly current_accept_body) };

    ghost listed = { λ s at start o c o' d. d };

    fn read(src: &[u8], at: usize) -> Result<Took<rpc::current::accept_body>, Refusal> {
        rpc::read_current_accept_body(src, at)
    }

    fn marks(_x: rpc::current::accept_body) -> Marks {
        Marks::None
    }
}

impl Loose for CurrentAcceptBody {
    fn write(
        _src: &[u8],
        x: rpc::current::accept_body,
        out: &mut [u8],
        at: usize,
    ) -> Result<usize, Refusal> {
        rpc::write_current_accept_body(x, out, at)
    }
}

pub(crate) struct CurrentAcceptedReply;

impl Kind for CurrentAcceptedReply {
    type Value = rpc::current::accepted_reply;

    ghost number = { 62 };

    ghost held = { held_as current_accepted_reply };

    ghost listed = { λ s at start o c o' d. d };

    fn read(src: &[u8], at: usize) -> Result<Took<rpc::current::accepted_reply>, Refusal> {
        rpc::read_current_accepted_reply(src, at)
    }

    fn marks(x: rpc::current::accepted_reply) -> Marks {
        x.marks()
    }
}

impl Loose for CurrentAcceptedReply {
    fn write(
        src: &[u8],
        x: rpc::current::accepted_reply,
        out: &mut [u8],
        at: usize,
    ) -> Result<usize, Refusal> {
        rpc::write_current_accepted_reply(src, x, out, at)
    }
}

pub(crate) struct CurrentRejectedReply;

impl Kind for CurrentRejectedReply {
    type Value = rpc::current::rejected_reply;

    ghost number = { 63 };

    ghost held = { held_as (exactly current_rejected_reply) };

    ghost listed = { λ s at start o c o' d. d };

    fn read(src: &[u8], at: usize) -> Result<Took<rpc::current::rejected_reply>, Refusal> {
        rpc::read_current_rejected_reply(src, at)
    }

    fn marks(_x: rpc::current::rejected_reply) -> Marks {
        Marks::None
    }
}

impl Loose for CurrentRejectedReply {
    fn write(
        _src: &[u8],
        x: rpc::current::rejected_reply,
        out: &mut [u8],
        at: usize,
    ) -> Result<usize, Refusal> {
        rpc::write_current_rejected_reply(x, out, at)
    }
}

pub(crate) struct CurrentReplyBody;

impl Kind for CurrentReplyBody {
    type Value = rpc::current::reply_body;

    ghost number = { 64 };

    ghost held = { held_as current_reply_body };

    ghost listed = { λ s at start o c o' d. d };

    fn read(src: &[u8], at: usize) -> Result<Took<rpc::current::reply_body>, Refusal> {
        rpc::read_current_reply_body(src, at)
    }

    fn marks(x: rpc::current::reply_body) -> Marks {
        x.marks()
    }
}

impl Loose for CurrentReplyBody {
    fn write(
        src: &[u8],
        x: rpc::current::reply_body,
        out: &mut [u8],
        at: usize,
    ) -> Result<usize, Refusal> {
        rpc::write_current_reply_body(src, x, out, at)
    }
}

pub(crate) struct CurrentRpcBody;

impl Kind for CurrentRpcBody {
    type Value = rpc::current::rpc_body;

    ghost number = { 65 };

    ghost held = { held_as current_rpc_body };

    ghost listed = { λ s at start o c o' d. d };

    fn read(src: &[u8], at: usize) -> Result<Took<rpc::current::rpc_body>, Refusal> {
        rpc::read_current_rpc_body(src, at)
    }

    fn marks(x: rpc::current::rpc_body) -> Marks {
        x.marks()
    }
}

impl Loose for CurrentRpcBody {
    fn write(
        src: &[u8],
        x: rpc::current::rpc_body,
        out: &mut [u8],
        at: usize,
    ) -> Result<usize, Refusal> {
        rpc::write_current_rpc_body(src, x, out, at)
    }
}

pub(crate) struct CurrentRpcMsg;

impl Kind for CurrentRpcMsg {
    type Value = rpc::current::rpc_msg;

    ghost number = { 66 };

    ghost held = { held_as current_rpc_msg };

    ghost listed = { λ s at start o c o' d. d };

    fn read(src: &[u8], at: usize) -> Result<Took<rpc::current::rpc_msg>, Refusal> {
        rpc::read_current_rpc_msg(src, at)
    }

    fn marks(x: rpc::current::rpc_msg) -> Marks {
        x.marks()
    }
}

impl Loose for CurrentRpcMsg {
    fn write(
        src: &[u8],
        x: rpc::current::rpc_msg,
        out: &mut [u8],
        at: usize,
    ) -> Result<usize, Refusal> {
        rpc::write_current_rpc_msg(src, x, out, at)
    }
}
