// A record's only fragment, the choice of program, and records from a stream.
ghost use Rattle.rpc.specs.Meaning.Crate.{crate};
ghost use Rattle.rpc.specs.Meaning.Current.{current};
ghost use Rattle.door.specs.Meaning.Exports.{FragmentCalled, ChooseCalled, FeedCalled};

#[unsafe(no_mangle)]
pub extern "C" fn yugerzat_fragment(
    message: &[u8],
    out: &mut [u8],
    start: usize,
    info: &mut [u64],
) -> u32
    ensures { FragmentCalled message.now start out.old info.old result out.new info.new }
{
    door::exports::yugerzat_fragment(message, out, start, info)
}

#[unsafe(no_mangle)]
pub extern "C" fn yugerzat_choose(
    message: &[u8],
    seen: u32,
    out: &mut [u8],
    info: &mut [u64],
) -> u32
    ensures { ChooseCalled crate message.now seen out.old info.old result out.new info.new }
{
    door::exports::yugerzat_choose(message, seen, out, info)
}

#[unsafe(no_mangle)]
pub extern "C" fn yugerzat_current_choose(
    message: &[u8],
    seen: u32,
    out: &mut [u8],
    info: &mut [u64],
) -> u32
    ensures { ChooseCalled current message.now seen out.old info.old result out.new info.new }
{
    door::exports::yugerzat_current_choose(message, seen, out, info)
}

#[unsafe(no_mangle)]
pub extern "C" fn yugerzat_feed(
    state: &mut [u64],
    run: &[u8],
    buf: &mut [u8],
    info: &mut [u64],
) -> u32
    ensures { FeedCalled state.old run.now buf.old info.old result state.new buf.new info.new }
{
    door::exports::yugerzat_feed(state, run, buf, info)
}
