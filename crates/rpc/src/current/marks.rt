// The marks of each value with pieces, in the current reading.
ghost use Rattle.xdr.specs.Meaning.Marks.{MarksAre};
ghost use Rattle.xdr.specs.Meaning.Views.{view_marks};
ghost use Rattle.rpc.specs.Meaning.Current.{current_accepted_reply, current_reply_body, current_rpc_body, current_rpc_msg};

use crate::current::message::{rpc_body, rpc_msg};
use crate::current::reply::{accepted_reply, reply_body};
use xdr::Marks;

impl accepted_reply {
    pub fn marks(self) -> Marks
        ensures { MarksAre current_accepted_reply self (view_marks result) }
    {
        let verf = self.verf;
        let body = verf.body;
        Marks::One(body.clean)
    }
}

impl reply_body {
    pub fn marks(self) -> Marks
        ensures { MarksAre current_reply_body self (view_marks result) }
    {
        match self {
            reply_body::MSG_ACCEPTED(a) => a.marks(),
            reply_body::MSG_DENIED(_) => Marks::None,
        }
    }
}

impl rpc_body {
    pub fn marks(self) -> Marks
        ensures { MarksAre current_rpc_body self (view_marks result) }
    {
        match self {
            rpc_body::CALL(c) => c.marks(),
            rpc_body::REPLY(r) => r.marks(),
        }
    }
}

impl rpc_msg {
    pub fn marks(self) -> Marks
        ensures { MarksAre current_rpc_msg self (view_marks result) }
    {
        let body = self.body;
        body.marks()
    }
}
