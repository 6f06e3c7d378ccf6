// made by tools/generate from crates/nfs/rfc/change.x
// What a call may change of a file, number by number (RFC 1813, section 2.6).
ghost use Rattle.std.specs.Prelude.{◌≡◌, [], length};
ghost use Rattle.xdr.specs.Meaning.Format.{exactly};
ghost use Rattle.xdr.specs.Meaning.Public.{laid, Answers, Writes};
ghost use Rattle.xdr.specs.Meaning.Views.{view, view_wrote};
ghost use Rattle.nfs.specs.Meaning.Change.{set_mode, set_uid, set_gid, set_size};

use nfsattr::attr::{gid3, mode3, size3, uid3};
use xdr::inner::{bool_at, put_bool, put_u32_pair, put_u32_u64, u32_at, u64_at};
use xdr::order::{open_at, room};
use xdr::{Refusal, Took};

#[derive(Clone, Copy)]
pub enum set_mode3 {
    Void,
    mode(mode3),
}

pub fn set_mode3_at(src: &[u8], at: usize) -> Result<Took<set_mode3>, Refusal>
    ensures { view result ≡ set_mode.kind.read src.now at }
{
    let follows = bool_at(src, at)?;
    if !follows.value {
        return Ok(Took {
            value: set_mode3::Void,
            next: follows.next,
            plain: follows.plain,
        });
    }
    let v = u32_at(src, follows.next)?;
    Ok(Took {
        value: set_mode3::mode(v.value),
        next: v.next,
        plain: follows.plain & v.plain,
    })
}

pub fn set_mode3_size(v: set_mode3) -> usize
    ensures { result ≡ length (set_mode.kind.write v) }
{
    match v {
        set_mode3::Void => 4,
        set_mode3::mode(_) => 8,
    }
}

pub fn put_set_mode3(v: set_mode3, out: &mut [u8])
    ensures { out.new ≡ laid (set_mode.kind.write v) out.old }
{
    match v {
        set_mode3::Void => put_bool(false, out),
        set_mode3::mode(f) => put_u32_pair(1, f, out),
    }
}

pub fn read_set_mode3(src: &[u8], at: usize) -> Result<Took<set_mode3>, Refusal>
    ensures { Answers (exactly set_mode) src.now at (view result) }
{
    open_at(src, at)?;
    set_mode3_at(src, at)
}

pub fn write_set_mode3(v: set_mode3, out: &mut [u8], at: usize) -> Result<usize, Refusal>
    ensures { Writes (exactly set_mode) [] v at out.old (view_wrote result) out.new }
{
    let end = room(out.len(), at, set_mode3_size(v))?;
    put_set_mode3(v, &mut out[at..]);
    Ok(end)
}

#[derive(Clone, Copy)]
pub enum set_uid3 {
    Void,
    uid(uid3),
}

pub fn set_uid3_at(src: &[u8], at: usize) -> Result<Took<set_uid3>, Refusal>
    ensures { view result ≡ set_uid.kind.read src.now at }
{
    let follows = bool_at(src, at)?;
    if !follows.value {
        return Ok(Took {
            value: set_uid3::Void,
            next: follows.next,
            plain: follows.plain,
        });
    }
    let v = u32_at(src, follows.next)?;
    Ok(Took {
        value: set_uid3::uid(v.value),
        next: v.next,
        plain: follows.plain & v.plain,
    })
}

pub fn set_uid3_size(v: set_uid3) -> usize
    ensures { result ≡ length (set_uid.kind.write v) }
{
    match v {
        set_uid3::Void => 4,
        set_uid3::uid(_) => 8,
    }
}

pub fn put_set_uid3(v: set_uid3, out: &mut [u8])
    ensures { out.new ≡ laid (set_uid.kind.write v) out.old }
{
    match v {
        set_uid3::Void => put_bool(false, out),
        set_uid3::uid(f) => put_u32_pair(1, f, out),
    }
}

pub fn read_set_uid3(src: &[u8], at: usize) -> Result<Took<set_uid3>, Refusal>
    ensures { Answers (exactly set_uid) src.now at (view result) }
{
    open_at(src, at)?;
    set_uid3_at(src, at)
}

pub fn write_set_uid3(v: set_uid3, out: &mut [u8], at: usize) -> Result<usize, Refusal>
    ensures { Writes (exactly set_uid) [] v at out.old (view_wrote result) out.new }
{
    let end = room(out.len(), at, set_uid3_size(v))?;
    put_set_uid3(v, &mut out[at..]);
    Ok(end)
}

#[derive(Clone, Copy)]
pub enum set_gid3 {
    Void,
    gid(gid3),
}

pub fn set_gid3_at(src: &[u8], at: usize) -> Result<Took<set_gid3>, Refusal>
    ensures { view result ≡ set_gid.kind.read src.now at }
{
    let follows = bool_at(src, at)?;
    if !follows.value {
        return Ok(Took {
            value: set_gid3::Void,
            next: follows.next,
            plain: follows.plain,
        });
    }
    let v = u32_at(src, follows.next)?;
    Ok(Took {
        value: set_gid3::gid(v.value),
        next: v.next,
        plain: follows.plain & v.plain,
    })
}

pub fn set_gid3_size(v: set_gid3) -> usize
    ensures { result ≡ length (set_gid.kind.write v) }
{
    match v {
        set_gid3::Void => 4,
        set_gid3::gid(_) => 8,
    }
}

pub fn put_set_gid3(v: set_gid3, out: &mut [u8])
    ensures { out.new ≡ laid (set_gid.kind.write v) out.old }
{
    match v {
        set_gid3::Void => put_bool(false, out),
        set_gid3::gid(f) => put_u32_pair(1, f, out),
    }
}

pub fn read_set_gid3(src: &[u8], at: usize) -> Result<Took<set_gid3>, Refusal>
    ensures { Answers (exactly set_gid) src.now at (view result) }
{
    open_at(src, at)?;
    set_gid3_at(src, at)
}

pub fn write_set_gid3(v: set_gid3, out: &mut [u8], at: usize) -> Result<usize, Refusal>
    ensures { Writes (exactly set_gid) [] v at out.old (view_wrote result) out.new }
{
    let end = room(out.len(), at, set_gid3_size(v))?;
    put_set_gid3(v, &mut out[at..]);
    Ok(end)
}

#[derive(Clone, Copy)]
pub enum set_size3 {
    Void,
    size(size3),
}

pub fn set_size3_at(src: &[u8], at: usize) -> Result<Took<set_size3>, Refusal>
    ensures { view result ≡ set_size.kind.read src.now at }
{
    let follows = bool_at(src, at)?;
    if !follows.value {
        return Ok(Took {
            value: set_size3::Void,
            next: follows.next,
            plain: follows.plain,
        });
    }
    let v = u64_at(src, follows.next)?;
    Ok(Took {
        value: set_size3::size(v.value),
        next: v.next,
        plain: follows.plain & v.plain,
    })
}

pub fn set_size3_size(v: set_size3) -> usize
    ensures { result ≡ length (set_size.kind.write v) }
{
    match v {
        set_size3::Void => 4,
        set_size3::size(_) => 12,
    }
}

pub fn put_set_size3(v: set_size3, out: &mut [u8])
    ensures { out.new ≡ laid (set_size.kind.write v) out.old }
{
    match v {
        set_size3::Void => put_bool(false, out),
        set_size3::size(f) => put_u32_u64(1, f, out),
    }
}

pub fn read_set_size3(src: &[u8], at: usize) -> Result<Took<set_size3>, Refusal>
    ensures { Answers (exactly set_size) src.now at (view result) }
{
    open_at(src, at)?;
    set_size3_at(src, at)
}

pub fn write_set_size3(v: set_size3, out: &mut [u8], at: usize) -> Result<usize, Refusal>
    ensures { Writes (exactly set_size) [] v at out.old (view_wrote result) out.new }
{
    let end = room(out.len(), at, set_size3_size(v))?;
    put_set_size3(v, &mut out[at..]);
    Ok(end)
}
