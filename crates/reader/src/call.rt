// A call read whole, by steps of a reader, for callers that hold none.
ghost use Rattle.xdr.specs.Meaning.Public.{Answers};
ghost use Rattle.reader.specs.Meaning.Call.{mkdir, view_mkdir};

use crate::Reader;
use nfs::{diropargs3, sattr3};
use rpc::rpc_msg;
use xdr::{Refusal, Took};

#[derive(Clone, Copy)]
pub struct Mkdir {
    pub message: rpc_msg,
    pub dirops: diropargs3,
    pub attributes: sattr3,
}

// An rpc_msg, then the arguments of MKDIR.
pub fn read_mkdir(src: &[u8], at: usize) -> Result<Took<Mkdir>, Refusal>
    ensures { Answers mkdir src.now at (view_mkdir result) }
{
    let m = Reader { src, at }.rpc_msg();
    let message = m.answer?;
    let d = m.reader.diropargs3();
    let dirops = d.answer?;
    let a = d.reader.sattr3();
    let attributes = a.answer?;
    Ok(Took {
        value: Mkdir {
            message: message.value,
            dirops: dirops.value,
            attributes: attributes.value,
        },
        next: attributes.next,
        plain: message.plain & (dirops.plain & attributes.plain),
    })
}
