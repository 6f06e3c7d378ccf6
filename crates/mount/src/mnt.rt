// made by tools/generate from crates/mount/rfc/mnt.x
// MNT: the handle of a directory that is to be mounted (RFC 1813, sections 5.1.5 and 5.2.1, in appendix I).
ghost use Rattle.std.specs.Prelude.{◌≡◌, []};
ghost use Rattle.xdr.specs.Meaning.Combinators.{among};
ghost use Rattle.xdr.specs.Meaning.Format.{exactly, ◌⨟◌};
ghost use Rattle.xdr.specs.Meaning.Formats.{bytes, word_list};
ghost use Rattle.xdr.specs.Meaning.Sizes.{OfSize};
ghost use Rattle.xdr.specs.Meaning.Public.{laid, Answers, Writes, laid_of};
ghost use Rattle.xdr.specs.Meaning.Marks.{MarksAre};
ghost use Rattle.xdr.specs.Meaning.Views.{view_found, view, view_wrote, view_marks};
ghost use Rattle.xdr.specs.Laws.Fields.{Lays};
ghost use Rattle.mount.specs.Laws.Mnt.{mountres_ok_size, mountres_size};
ghost use Rattle.mount.specs.Meaning.Mnt.{mountfail_number, mountstat, mountstat_number, mountstat_all, mountres_ok, mountres};

use xdr::inner::{
    opaque_at, opaque_size, put_opaque, put_u32, put_words, u32_at, words_at, words_size,
};
use xdr::order::{open_at, place};
use xdr::{MOST, Marks, Piece, Refusal, Took, inside, words_inside, write_u32};

// A file handle, of any length.
pub type fhandle3 = Piece;

// The failures of mountstat3: a type of their own, so that the failing arm of a result can hold no success.
#[derive(Clone, Copy)]
pub enum mountfail3 {
    MNT3ERR_PERM,
    MNT3ERR_NOENT,
    MNT3ERR_IO,
    MNT3ERR_ACCES,
    MNT3ERR_NOTDIR,
    MNT3ERR_INVAL,
    MNT3ERR_NAMETOOLONG,
    MNT3ERR_NOTSUPP,
    MNT3ERR_SERVERFAULT,
}

#[derive(Clone, Copy)]
pub enum mountstat3 {
    MNT3_OK,
    Failed(mountfail3),
}

impl mountfail3 {
    pub fn number(self) -> u32
        ensures { result ≡ mountfail_number self }
    {
        match self {
            mountfail3::MNT3ERR_PERM => 1,
            mountfail3::MNT3ERR_NOENT => 2,
            mountfail3::MNT3ERR_IO => 5,
            mountfail3::MNT3ERR_ACCES => 13,
            mountfail3::MNT3ERR_NOTDIR => 20,
            mountfail3::MNT3ERR_INVAL => 22,
            mountfail3::MNT3ERR_NAMETOOLONG => 63,
            mountfail3::MNT3ERR_NOTSUPP => 10004,
            mountfail3::MNT3ERR_SERVERFAULT => 10006,
        }
    }
}

impl mountstat3 {
    pub const SIZE: usize = 4;

    pub fn size() -> usize
        ensures { OfSize result mountstat }
    {
        mountstat3::SIZE
    }

    pub fn number(self) -> u32
        ensures { result ≡ mountstat_number self }
    {
        match self {
            mountstat3::MNT3_OK => 0,
            mountstat3::Failed(f) => f.number(),
        }
    }

    pub fn of(v: u32) -> Option<mountstat3>
        ensures { view_found result ≡ among mountstat_number mountstat_all v }
    {
        match v {
            0 => Some(mountstat3::MNT3_OK),
            1 => Some(mountstat3::Failed(mountfail3::MNT3ERR_PERM)),
            2 => Some(mountstat3::Failed(mountfail3::MNT3ERR_NOENT)),
            5 => Some(mountstat3::Failed(mountfail3::MNT3ERR_IO)),
            13 => Some(mountstat3::Failed(mountfail3::MNT3ERR_ACCES)),
            20 => Some(mountstat3::Failed(mountfail3::MNT3ERR_NOTDIR)),
            22 => Some(mountstat3::Failed(mountfail3::MNT3ERR_INVAL)),
            63 => Some(mountstat3::Failed(mountfail3::MNT3ERR_NAMETOOLONG)),
            10004 => Some(mountstat3::Failed(mountfail3::MNT3ERR_NOTSUPP)),
            10006 => Some(mountstat3::Failed(mountfail3::MNT3ERR_SERVERFAULT)),
            _ => None,
        }
    }
}

pub fn mountstat3_at(src: &[u8], at: usize) -> Result<Took<mountstat3>, Refusal>
    ensures { view result ≡ mountstat.kind.read src.now at }
{
    let v = u32_at(src, at)?;
    let Some(x) = mountstat3::of(v.value) else {
        return Err(Refusal::Undeclared(at));
    };
    Ok(Took {
        value: x,
        next: v.next,
        plain: true,
    })
}

pub fn put_mountstat3(v: mountstat3, out: &mut [u8])
    ensures { out.new ≡ laid (mountstat.kind.write v) out.old }
{
    put_u32(v.number(), out);
}

pub fn read_mountstat3(src: &[u8], at: usize) -> Result<Took<mountstat3>, Refusal>
    ensures { Answers (exactly mountstat) src.now at (view result) }
{
    open_at(src, at)?;
    mountstat3_at(src, at)
}

pub fn write_mountstat3(v: mountstat3, out: &mut [u8], at: usize) -> Result<usize, Refusal>
    ensures { Writes (exactly mountstat) [] v at out.old (view_wrote result) out.new }
{
    write_u32(v.number(), out, at)
}

// The flavors that a client may use with the handle.
#[derive(Clone, Copy)]
pub struct mountres3_ok {
    pub fhandle: fhandle3,
    pub auth_flavors: Piece,
}

pub fn mountres3_ok_at(src: &[u8], at: usize) -> Result<Took<mountres3_ok>, Refusal>
    ensures { view result ≡ mountres_ok.held.read src.now at }
{
    let fhandle = opaque_at(src, at)?;
    let auth_flavors = words_at(src, fhandle.next)?;
    Ok(Took {
        value: mountres3_ok {
            fhandle: fhandle.value,
            auth_flavors: auth_flavors.value,
        },
        next: auth_flavors.next,
        plain: fhandle.plain & auth_flavors.plain,
    })
}

impl mountres3_ok {
    pub fn marks(self) -> Marks
        ensures { MarksAre mountres_ok self (view_marks result) }
    {
        let f1 = self.fhandle;
        let f2 = self.auth_flavors;
        Marks::Two(f1.clean, f2.clean)
    }
}

pub fn mountres3_ok_inside(src: &[u8], x: mountres3_ok) -> bool
    ensures { result ≡ mountres_ok.held.inside src.now x }
{
    let f1 = x.fhandle;
    let f2 = x.auth_flavors;
    inside(src, f1) & words_inside(src, f2)
}

pub fn mountres3_ok_size(x: mountres3_ok) -> usize
    ensures { result ≡ mountres_ok_size x }
{
    let f1 = x.fhandle;
    let f2 = x.auth_flavors;
    opaque_size(f1.count) + words_size(f2.count)
}

fn put_mountres3_ok_1(src: &[u8], f1: fhandle3, f2: Piece, out: &mut [u8])
    ensures { Lays (bytes ⨟ word_list) src.now (f1, f2) out.old out.new }
{
    let n = opaque_size(f1.count);
    if out.len() < n {
        return;
    }
    put_opaque(src, f1, &mut out[0..]);
    put_words(src, f2, &mut out[n..]);
}

pub fn put_mountres3_ok(src: &[u8], x: mountres3_ok, out: &mut [u8])
    ensures { out.new ≡ laid_of mountres_ok src.now x out.old }
{
    if MOST < src.len() {
        return;
    }
    if !mountres3_ok_inside(src, x) {
        return;
    }
    if out.len() < mountres3_ok_size(x) {
        return;
    }
    let f1 = x.fhandle;
    let f2 = x.auth_flavors;
    put_mountres3_ok_1(src, f1, f2, out);
}

// The RFC's union has MNT_OK for MNT3_OK, a name that nothing declares.
#[derive(Clone, Copy)]
pub enum mountres3 {
    MNT3_OK(mountres3_ok),
    Failed(mountfail3),
}

pub fn mountres3_at(src: &[u8], at: usize) -> Result<Took<mountres3>, Refusal>
    ensures { view result ≡ mountres.held.read src.now at }
{
    let status = mountstat3_at(src, at)?;
    match status.value {
        mountstat3::MNT3_OK => {
            let v = mountres3_ok_at(src, status.next)?;
            Ok(Took {
                value: mountres3::MNT3_OK(v.value),
                next: v.next,
                plain: status.plain & v.plain,
            })
        }
        mountstat3::Failed(e) => {
            Ok(Took {
                value: mountres3::Failed(e),
                next: status.next,
                plain: status.plain,
            })
        }
    }
}

impl mountres3 {
    pub fn marks(self) -> Marks
        ensures { MarksAre mountres self (view_marks result) }
    {
        match self {
            mountres3::MNT3_OK(f) => f.marks(),
            mountres3::Failed(_) => Marks::None,
        }
    }
}

pub fn mountres3_inside(src: &[u8], x: mountres3) -> bool
    ensures { result ≡ mountres.held.inside src.now x }
{
    match x {
        mountres3::MNT3_OK(f) => mountres3_ok_inside(src, f),
        mountres3::Failed(_) => true,
    }
}

pub fn mountres3_size(x: mountres3) -> usize
    ensures { result ≡ mountres_size x }
{
    match x {
        mountres3::MNT3_OK(f) => 4 + mountres3_ok_size(f),
        mountres3::Failed(_) => 4,
    }
}

fn put_mountres3_1(src: &[u8], status: mountstat3, f: mountres3_ok, out: &mut [u8])
    ensures { Lays (exactly mountstat ⨟ mountres_ok) src.now (status, f) out.old out.new }
{
    if out.len() < 4 {
        return;
    }
    put_mountstat3(status, &mut out[0..]);
    put_mountres3_ok(src, f, &mut out[4..]);
}

pub fn put_mountres3(src: &[u8], x: mountres3, out: &mut [u8])
    ensures { out.new ≡ laid_of mountres src.now x out.old }
{
    if MOST < src.len() {
        return;
    }
    if !mountres3_inside(src, x) {
        return;
    }
    if out.len() < mountres3_size(x) {
        return;
    }
    match x {
        mountres3::MNT3_OK(f) => put_mountres3_1(src, mountstat3::MNT3_OK, f, out),
        mountres3::Failed(e) => put_mountstat3(mountstat3::Failed(e), out),
    }
}

pub fn read_mountres3(src: &[u8], at: usize) -> Result<Took<mountres3>, Refusal>
    ensures { Answers mountres src.now at (view result) }
{
    open_at(src, at)?;
    mountres3_at(src, at)
}

pub fn write_mountres3(
    src: &[u8],
    x: mountres3,
    out: &mut [u8],
    at: usize,
) -> Result<usize, Refusal>
    ensures { Writes mountres src.now x at out.old (view_wrote result) out.new }
{
    let end = place(
        src.len(),
        mountres3_inside(src, x),
        mountres3_size(x),
        out.len(),
        at,
    )?;
    put_mountres3(src, x, &mut out[at..]);
    Ok(end)
}
