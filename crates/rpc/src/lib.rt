// The messages of RPC (RFC 5531), as the crate nfsserve reads and writes them, with the crate's names and its tolerances 3 to 6.
//
// `read_X(src, at)` reads an X of a message from a place on; `write_X(.., out, at)` writes one into a buffer from a place on, with the
// source that its pieces are of. The six makers make the replies that a server gives by itself. `current` has replies by RFC 5531's own
// lists, which are longer than the crate's. Every input gets an answer. What the answers mean stands in specs/Meaning.
#![tactic(auto)]

pub mod auth;
pub mod current;
mod fit;
pub mod inner;
mod makers;
mod marks;
pub mod message;
mod put;
mod read;
pub mod reply;
mod write;

pub use auth::{auth_flavor, auth_stat, auth_unix, opaque_auth};
pub use current::{
    read_current_accept_body, read_current_accept_stat, read_current_accepted_reply,
    read_current_auth_stat, read_current_rejected_reply, read_current_reply_body,
    read_current_rpc_body, read_current_rpc_msg, write_current_accept_body,
    write_current_accept_stat, write_current_accepted_reply, write_current_auth_stat,
    write_current_rejected_reply, write_current_reply_body, write_current_rpc_body,
    write_current_rpc_msg,
};
pub use makers::{
    garbage_args_reply_message, make_success_reply, proc_unavail_reply_message,
    prog_mismatch_reply_message, prog_unavail_reply_message, rpc_vers_mismatch,
    rpc_vers_mismatch_of,
};
pub use message::{call_body, msg_type, rpc_body, rpc_msg};
pub use read::{
    read_accept_body, read_accept_stat, read_accepted_reply, read_auth_flavor, read_auth_stat,
    read_auth_unix, read_auth_unix_in, read_call_body, read_mismatch_info, read_msg_type,
    read_opaque_auth, read_reject_stat, read_rejected_reply, read_reply_body, read_reply_stat,
    read_rpc_body, read_rpc_msg,
};
pub use reply::{
    accept_body, accept_stat, accepted_reply, mismatch_info, reject_stat, rejected_reply,
    reply_body, reply_stat,
};
pub use write::{
    write_accept_body, write_accept_stat, write_accepted_reply, write_auth_flavor, write_auth_stat,
    write_auth_unix, write_auth_unix_from, write_call_body, write_call_from, write_mismatch_info,
    write_msg_type, write_opaque_auth, write_reject_stat, write_rejected_reply, write_reply_body,
    write_reply_stat, write_rpc_body, write_rpc_msg,
};
