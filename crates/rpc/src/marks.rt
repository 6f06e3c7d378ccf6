// The marks of each value with pieces, in the order of its fields: whether the padding behind a piece was all zero.
ghost use Rattle.xdr.specs.Meaning.Marks.{MarksAre};
ghost use Rattle.xdr.specs.Meaning.Views.{view_marks};
ghost use Rattle.rpc.specs.Meaning.Auth.{opaque-auth, auth-unix};
ghost use Rattle.rpc.specs.Meaning.Message.{call-body};
ghost use Rattle.rpc.specs.Meaning.Crate.{accepted-reply, reply-body, rpc-body, rpc-msg};

use crate::auth::{auth_unix, opaque_auth};
use crate::message::{call_body, rpc_body, rpc_msg};
use crate::reply::{accepted_reply, reply_body};
use xdr::Marks;

impl opaque_auth {
    pub fn marks(self) -> Marks
        ensures { MarksAre opaque-auth self (view_marks result) }
    {
        let body = self.body;
        Marks::One(body.clean)
    }
}

impl auth_unix {
    pub fn marks(self) -> Marks
        ensures { MarksAre auth-unix self (view_marks result) }
    {
        let name = self.machinename;
        let gids = self.gids;
        Marks::Two(name.clean, gids.clean)
    }
}

impl call_body {
    pub fn marks(self) -> Marks
        ensures { MarksAre call-body self (view_marks result) }
    {
        let cred = self.cred;
        let verf = self.verf;
        let first = cred.body;
        let second = verf.body;
        Marks::Two(first.clean, second.clean)
    }
}

impl accepted_reply {
    pub fn marks(self) -> Marks
        ensures { MarksAre accepted-reply self (view_marks result) }
    {
        let verf = self.verf;
        let body = verf.body;
        Marks::One(body.clean)
    }
}

impl reply_body {
    pub fn marks(self) -> Marks
        ensures { MarksAre reply-body self (view_marks result) }
    {
        match self {
            reply_body::MSG_ACCEPTED(a) => a.marks(),
            reply_body::MSG_DENIED(_) => Marks::None,
        }
    }
}

impl rpc_body {
    pub fn marks(self) -> Marks
        ensures { MarksAre rpc-body self (view_marks result) }
    {
        match self {
            rpc_body::CALL(c) => c.marks(),
            rpc_body::REPLY(r) => r.marks(),
        }
    }
}

impl rpc_msg {
    pub fn marks(self) -> Marks
        ensures { MarksAre rpc-msg self (view_marks result) }
    {
        let body = self.body;
        body.marks()
    }
}
