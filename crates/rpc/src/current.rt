// The current reading: RFC 5531's own accept statuses, with SYSTEM_ERR 5, and its fifteen authentication numbers, where the crate has older
// lists. What does not depend on the lists is the crate's: calls, credentials, versions, the makers of replies.
mod fit;
pub mod inner;
mod marks;
pub mod message;
mod put;
mod read;
pub mod reply;
mod write;

pub use message::{rpc_body, rpc_msg};
pub use read::{
    read_current_accept_body, read_current_accept_stat, read_current_accepted_reply,
    read_current_auth_stat, read_current_rejected_reply, read_current_reply_body,
    read_current_rpc_body, read_current_rpc_msg,
};
pub use reply::{accept_body, accept_stat, accepted_reply, auth_stat, rejected_reply, reply_body};
pub use write::{
    write_current_accept_body, write_current_accept_stat, write_current_accepted_reply,
    write_current_auth_stat, write_current_rejected_reply, write_current_reply_body,
    write_current_rpc_body, write_current_rpc_msg,
};
