// A record written as one fragment. (The crate's own comment: it could be split into many.)
ghost use Rattle.rpcwire.specs.Meaning.Fragment.{WritesFragment};
ghost use Rattle.xdr.specs.Meaning.Views.{view_wrote};

use xdr::inner::put_u32;
use xdr::{MOST, Refusal};

// Writes a message as a record's only fragment, from a place of a buffer on: a header that says last, then the message. Refusal 9, 3 for
// the message without its header, 5.
pub fn write_fragment(message: &[u8], out: &mut [u8], at: usize) -> Result<usize, Refusal>
    ensures { WritesFragment message.now at out.old (view_wrote result) out.new }
{
    if out.len() < at {
        return Err(Refusal::PastEnd);
    }
    let n = message.len();
    if MOST < n {
        return Err(Refusal::TooLong);
    }
    if out.len() - at < 4 + n {
        return Err(Refusal::NoRoom { needed: 4 + n });
    }
    put_u32(n as u32 + 2147483648, &mut out[at..]);
    let body = at + 4;
    out[body..body + n].copy_from_slice(message);
    Ok(body + n)
}
