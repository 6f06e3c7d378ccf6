// A message in the current reading. A call is the same in every reading.
use crate::current::reply::reply_body;
use crate::message::call_body;

#[derive(Clone, Copy)]
pub enum rpc_body {
    CALL(call_body),
    REPLY(reply_body),
}

#[derive(Clone, Copy)]
pub struct rpc_msg {
    pub xid: u32,
    pub body: rpc_body,
}
