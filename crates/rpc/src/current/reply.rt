// Replies in the current reading (RFC 5531, section 9).
ghost use Rattle.std.specs.Prelude.{◌≡◌};
ghost use Rattle.rpc.specs.Meaning.Current.{accept_stat_number, auth_stat_number};

use crate::auth::opaque_auth;
use crate::reply::mismatch_info;

// What became of an accepted call; and below, why authentication failed. Both lists are longer than the crate's.
#[derive(Clone, Copy)]
pub enum accept_stat {
    SUCCESS,
    PROG_UNAVAIL,
    PROG_MISMATCH,
    PROC_UNAVAIL,
    GARBAGE_ARGS,
    SYSTEM_ERR,
}

#[derive(Clone, Copy)]
pub enum auth_stat {
    AUTH_OK,
    AUTH_BADCRED,
    AUTH_REJECTEDCRED,
    AUTH_BADVERF,
    AUTH_REJECTEDVERF,
    AUTH_TOOWEAK,
    AUTH_INVALIDRESP,
    AUTH_FAILED,
    AUTH_KERB_GENERIC,
    AUTH_TIMEEXPIRE,
    AUTH_TKT_FILE,
    AUTH_DECODE,
    AUTH_NET_ADDR,
    RPCSEC_GSS_CREDPROBLEM,
    RPCSEC_GSS_CTXPROBLEM,
}

// The results of a call that succeeded come behind SUCCESS.
#[derive(Clone, Copy)]
pub enum accept_body {
    SUCCESS,
    PROG_UNAVAIL,
    PROG_MISMATCH(mismatch_info),
    PROC_UNAVAIL,
    GARBAGE_ARGS,
    SYSTEM_ERR,
}

#[derive(Clone, Copy)]
pub struct accepted_reply {
    pub verf: opaque_auth,
    pub reply_data: accept_body,
}

#[derive(Clone, Copy)]
pub enum rejected_reply {
    RPC_MISMATCH(mismatch_info),
    AUTH_ERROR(auth_stat),
}

#[derive(Clone, Copy)]
pub enum reply_body {
    MSG_ACCEPTED(accepted_reply),
    MSG_DENIED(rejected_reply),
}

impl accept_stat {
    pub fn number(self) -> u32
        ensures { result ≡ accept_stat_number self }
    {
        match self {
            accept_stat::SUCCESS => 0,
            accept_stat::PROG_UNAVAIL => 1,
            accept_stat::PROG_MISMATCH => 2,
            accept_stat::PROC_UNAVAIL => 3,
            accept_stat::GARBAGE_ARGS => 4,
            accept_stat::SYSTEM_ERR => 5,
        }
    }
}

impl auth_stat {
    pub fn number(self) -> u32
        ensures { result ≡ auth_stat_number self }
    {
        match self {
            auth_stat::AUTH_OK => 0,
            auth_stat::AUTH_BADCRED => 1,
            auth_stat::AUTH_REJECTEDCRED => 2,
            auth_stat::AUTH_BADVERF => 3,
            auth_stat::AUTH_REJECTEDVERF => 4,
            auth_stat::AUTH_TOOWEAK => 5,
            auth_stat::AUTH_INVALIDRESP => 6,
            auth_stat::AUTH_FAILED => 7,
            auth_stat::AUTH_KERB_GENERIC => 8,
            auth_stat::AUTH_TIMEEXPIRE => 9,
            auth_stat::AUTH_TKT_FILE => 10,
            auth_stat::AUTH_DECODE => 11,
            auth_stat::AUTH_NET_ADDR => 12,
            auth_stat::RPCSEC_GSS_CREDPROBLEM => 13,
            auth_stat::RPCSEC_GSS_CTXPROBLEM => 14,
        }
    }
}
