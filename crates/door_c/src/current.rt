// The header of a message in the current reading.
ghost use Rattle.rpc.specs.Meaning.Current.{current};
ghost use Rattle.door.specs.Meaning.Values.{RpcMsgCalled};
ghost use Rattle.door.specs.Meaning.Replies.{WriteReplyCalled};

#[unsafe(no_mangle)]
pub extern "C" fn yugerzat_read_current_rpc_msg(message: &[u8], at: usize, info: &mut [u64]) -> u32
    ensures { RpcMsgCalled current message.now at info.old result info.new }
{
    door::current::yugerzat_read_current_rpc_msg(message, at, info)
}

#[unsafe(no_mangle)]
pub extern "C" fn yugerzat_write_current_reply(
    source: &[u8],
    fields: &[u64],
    out: &mut [u8],
    start: usize,
    info: &mut [u64],
) -> u32
    ensures { WriteReplyCalled current source.now fields.now out.old start info.old result out.new info.new }
{
    door::current::yugerzat_write_current_reply(source, fields, out, start, info)
}
