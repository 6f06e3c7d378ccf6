// Replies (RFC 5531, section 9): accepted, perhaps with an error, or denied, with the reason.
ghost use Rattle.std.specs.Prelude.{◌≡◌};
ghost use Rattle.rpc.specs.Meaning.Closed.{reply_stat_number, reject_stat_number};
ghost use Rattle.rpc.specs.Meaning.Crate.{accept_stat_number};
ghost use Rattle.rpc.specs.Meaning.Reading.{mismatch-info};
ghost use Rattle.xdr.specs.Meaning.Sizes.{OfSize};

use crate::auth::{auth_stat, opaque_auth};

// The tags of a reply_body, of an accept_body and of a rejected_reply.
#[derive(Clone, Copy)]
pub enum reply_stat {
    MSG_ACCEPTED,
    MSG_DENIED,
}

#[derive(Clone, Copy)]
pub enum accept_stat {
    SUCCESS,
    PROG_UNAVAIL,
    PROG_MISMATCH,
    PROC_UNAVAIL,
    GARBAGE_ARGS,
}

#[derive(Clone, Copy)]
pub enum reject_stat {
    RPC_MISMATCH,
    AUTH_ERROR,
}

// The lowest and the highest version that is served.
#[derive(Clone, Copy)]
pub struct mismatch_info {
    pub low: u32,
    pub high: u32,
}

// What is written of a mismatch_info is always this long.
impl mismatch_info {
    pub const SIZE: usize = 8;

    // The contract holds the constant to the bytes that every mismatch_info has.
    pub fn size() -> usize
        ensures { OfSize result mismatch-info }
    {
        mismatch_info::SIZE
    }
}

// The results of a call that succeeded come behind SUCCESS.
#[derive(Clone, Copy)]
pub enum accept_body {
    SUCCESS,
    PROG_UNAVAIL,
    PROG_MISMATCH(mismatch_info),
    PROC_UNAVAIL,
    GARBAGE_ARGS,
}

#[derive(Clone, Copy)]
pub struct accepted_reply {
    pub verf: opaque_auth,
    pub reply_data: accept_body,
}

#[derive(Clone, Copy)]
pub enum rejected_reply {
    RPC_MISMATCH(mismatch_info),
    AUTH_ERROR(auth_stat),
}

#[derive(Clone, Copy)]
pub enum reply_body {
    MSG_ACCEPTED(accepted_reply),
    MSG_DENIED(rejected_reply),
}

impl reply_stat {
    pub fn number(self) -> u32
        ensures { result ≡ reply_stat_number self }
    {
        match self {
            reply_stat::MSG_ACCEPTED => 0,
            reply_stat::MSG_DENIED => 1,
        }
    }
}

impl accept_stat {
    pub fn number(self) -> u32
        ensures { result ≡ accept_stat_number self }
    {
        match self {
            accept_stat::SUCCESS => 0,
            accept_stat::PROG_UNAVAIL => 1,
            accept_stat::PROG_MISMATCH => 2,
            accept_stat::PROC_UNAVAIL => 3,
            accept_stat::GARBAGE_ARGS => 4,
        }
    }
}

impl reject_stat {
    pub fn number(self) -> u32
        ensures { result ≡ reject_stat_number self }
    {
        match self {
            reject_stat::RPC_MISMATCH => 0,
            reject_stat::AUTH_ERROR => 1,
        }
    }
}
