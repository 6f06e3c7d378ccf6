// The writers of messages from their figures.
ghost use Rattle.door.specs.Meaning.Given.{WriteFattr3Called, WriteDiropargs3Called, WriteSattr3Called, WriteCallCalled, WriteUnixCalled};

#[unsafe(no_mangle)]
pub extern "C" fn yugerzat_write_fattr3(
    fields: &[u64],
    out: &mut [u8],
    start: usize,
    info: &mut [u64],
) -> u32
    ensures { WriteFattr3Called fields.now out.old start info.old result out.new info.new }
{
    door::values_write::yugerzat_write_fattr3(fields, out, start, info)
}

#[unsafe(no_mangle)]
pub extern "C" fn yugerzat_write_diropargs3(
    dirs: &[u8],
    names: &[u8],
    fields: &[u64],
    out: &mut [u8],
    start: usize,
    info: &mut [u64],
) -> u32
    ensures { WriteDiropargs3Called dirs.now names.now fields.now out.old start info.old result out.new info.new }
{
    door::values_write::yugerzat_write_diropargs3(dirs, names, fields, out, start, info)
}

#[unsafe(no_mangle)]
pub extern "C" fn yugerzat_write_sattr3(
    fields: &[u64],
    out: &mut [u8],
    start: usize,
    info: &mut [u64],
) -> u32
    ensures { WriteSattr3Called fields.now out.old start info.old result out.new info.new }
{
    door::values_write::yugerzat_write_sattr3(fields, out, start, info)
}

#[unsafe(no_mangle)]
pub extern "C" fn yugerzat_write_call(
    creds: &[u8],
    verfs: &[u8],
    fields: &[u64],
    out: &mut [u8],
    start: usize,
    info: &mut [u64],
) -> u32
    ensures { WriteCallCalled creds.now verfs.now fields.now out.old start info.old result out.new info.new }
{
    door::values_write::yugerzat_write_call(creds, verfs, fields, out, start, info)
}

#[unsafe(no_mangle)]
pub extern "C" fn yugerzat_write_auth_unix(
    names: &[u8],
    groups: &[u8],
    fields: &[u64],
    out: &mut [u8],
    start: usize,
    info: &mut [u64],
) -> u32
    ensures { WriteUnixCalled names.now groups.now fields.now out.old start info.old result out.new info.new }
{
    door::values_write::yugerzat_write_auth_unix(names, groups, fields, out, start, info)
}
