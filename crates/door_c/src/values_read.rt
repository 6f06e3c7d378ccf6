// The readers of messages whose figures are told.
ghost use Rattle.std.specs.Prelude.{true};
ghost use Rattle.rpc.specs.Meaning.Crate.{crate};
ghost use Rattle.door.specs.Meaning.Values.{Diropargs3Called, Fattr3Called, Sattr3Called, RpcMsgCalled, UnixCalled, PartCalled};

#[unsafe(no_mangle)]
pub extern "C" fn yugerzat_part(message: &[u8], at: usize, count: usize, info: &mut [u64]) -> u32
    ensures { PartCalled message.now (record { at = at; count = count; clean = true }) info.old result info.new }
{
    door::values_read::yugerzat_part(message, at, count, info)
}

#[unsafe(no_mangle)]
pub extern "C" fn yugerzat_read_diropargs3(src: &[u8], at: usize, info: &mut [u64]) -> u32
    ensures { Diropargs3Called src.now at info.old result info.new }
{
    door::values_read::yugerzat_read_diropargs3(src, at, info)
}

#[unsafe(no_mangle)]
pub extern "C" fn yugerzat_read_fattr3(src: &[u8], at: usize, info: &mut [u64]) -> u32
    ensures { Fattr3Called src.now at info.old result info.new }
{
    door::values_read::yugerzat_read_fattr3(src, at, info)
}

#[unsafe(no_mangle)]
pub extern "C" fn yugerzat_read_rpc_msg(message: &[u8], at: usize, info: &mut [u64]) -> u32
    ensures { RpcMsgCalled crate message.now at info.old result info.new }
{
    door::values_read::yugerzat_read_rpc_msg(message, at, info)
}

#[unsafe(no_mangle)]
pub extern "C" fn yugerzat_read_auth_unix(
    message: &[u8],
    at: usize,
    count: usize,
    info: &mut [u64],
) -> u32
    ensures { UnixCalled message.now at count info.old result info.new }
{
    door::values_read::yugerzat_read_auth_unix(message, at, count, info)
}

#[unsafe(no_mangle)]
pub extern "C" fn yugerzat_read_sattr3(src: &[u8], at: usize, info: &mut [u64]) -> u32
    ensures { Sattr3Called src.now at info.old result info.new }
{
    door::values_read::yugerzat_read_sattr3(src, at, info)
}
