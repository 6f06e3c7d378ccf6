// The writer of a reply's header.
ghost use Rattle.rpc.specs.Meaning.Crate.{crate};
ghost use Rattle.door.specs.Meaning.Replies.{WriteReplyCalled};

#[unsafe(no_mangle)]
pub extern "C" fn yugerzat_write_reply(
    source: &[u8],
    fields: &[u64],
    out: &mut [u8],
    start: usize,
    info: &mut [u64],
) -> u32
    ensures { WriteReplyCalled crate source.now fields.now out.old start info.old result out.new info.new }
{
    door::replies::yugerzat_write_reply(source, fields, out, start, info)
}
