// Mounts and ports.
ghost use Rattle.std.specs.Prelude.{true};
ghost use Rattle.xdr.specs.Meaning.Formats.{bytes};
ghost use Rattle.mount.specs.Meaning.Path.{long_path};
ghost use Rattle.mount.specs.Meaning.Export.{nodes, long_list};
ghost use Rattle.door.specs.Meaning.Mounting.{AskCalled, ExportsCalled, NextExportCalled, NextGroupCalled, WithinCalled, SameCalled};

#[unsafe(no_mangle)]
pub extern "C" fn yugerzat_ask(message: &[u8], seen: u32, out: &mut [u8], info: &mut [u64]) -> u32
    ensures { AskCalled message.now seen out.old info.old result out.new info.new }
{
    door::mounting::yugerzat_ask(message, seen, out, info)
}

#[unsafe(no_mangle)]
pub extern "C" fn yugerzat_read_exports(src: &[u8], at: usize, info: &mut [u64]) -> u32
    ensures { ExportsCalled src.now at info.old result info.new }
{
    door::mounting::yugerzat_read_exports(src, at, info)
}

#[unsafe(no_mangle)]
pub extern "C" fn yugerzat_next_export(src: &[u8], at: usize, info: &mut [u64]) -> u32
    ensures { NextExportCalled src.now at info.old result info.new }
{
    door::mounting::yugerzat_next_export(src, at, info)
}

#[unsafe(no_mangle)]
pub extern "C" fn yugerzat_next_group(src: &[u8], at: usize, info: &mut [u64]) -> u32
    ensures { NextGroupCalled src.now at info.old result info.new }
{
    door::mounting::yugerzat_next_group(src, at, info)
}

#[unsafe(no_mangle)]
pub extern "C" fn yugerzat_write_dirpath(
    src: &[u8],
    place: usize,
    count: usize,
    out: &mut [u8],
    start: usize,
    info: &mut [u64],
) -> u32
    ensures { WithinCalled bytes long_path src.now (record { at = place; count = count; clean = true }) start out.old info.old result out.new info.new }
{
    door::mounting::yugerzat_write_dirpath(src, place, count, out, start, info)
}

#[unsafe(no_mangle)]
pub extern "C" fn yugerzat_write_exports(
    src: &[u8],
    place: usize,
    count: usize,
    out: &mut [u8],
    start: usize,
    info: &mut [u64],
) -> u32
    ensures { WithinCalled nodes long_list src.now (record { at = place; count = count; clean = true }) start out.old info.old result out.new info.new }
{
    door::mounting::yugerzat_write_exports(src, place, count, out, start, info)
}

#[unsafe(no_mangle)]
pub extern "C" fn yugerzat_same_exports(
    a: &[u8],
    a_place: usize,
    a_count: usize,
    b: &[u8],
    b_place: usize,
    b_count: usize,
    info: &mut [u64],
) -> u32
    ensures { SameCalled a.now (record { at = a_place; count = a_count; clean = true }) b.now (record { at = b_place; count = b_count; clean = true }) info.old result info.new }
{
    door::mounting::yugerzat_same_exports(a, a_place, a_count, b, b_place, b_count, info)
}
