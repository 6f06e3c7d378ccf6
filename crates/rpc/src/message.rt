// A message (RFC 5531, section 9): one nested choice, down to the reason a call was denied.
ghost use Rattle.std.specs.Prelude.{◌≡◌};
ghost use Rattle.rpc.specs.Meaning.Closed.{msg_type_number};

use crate::auth::opaque_auth;
use crate::reply::reply_body;

// The tag of an rpc_body.
#[derive(Clone, Copy)]
pub enum msg_type {
    CALL,
    REPLY,
}

// What is called: the remote program, its version, and the procedure. The arguments come behind it.
#[derive(Clone, Copy)]
pub struct call_body {
    pub rpcvers: u32,
    pub prog: u32,
    pub vers: u32,
    pub proc: u32,
    pub cred: opaque_auth,
    pub verf: opaque_auth,
}

#[derive(Clone, Copy)]
pub enum rpc_body {
    CALL(call_body),
    REPLY(reply_body),
}

#[derive(Clone, Copy)]
pub struct rpc_msg {
    pub xid: u32,
    pub body: rpc_body,
}

impl msg_type {
    pub fn number(self) -> u32
        ensures { result ≡ msg_type_number self }
    {
        match self {
            msg_type::CALL => 0,
            msg_type::REPLY => 1,
        }
    }
}
