// made by tools/generate from crates/nfsfile/rfc/getattr.x
// GETATTR: the attributes of a file (RFC 1813, section 3.3.1).
ghost use Rattle.std.specs.Prelude.{◌≡◌};
ghost use Rattle.xdr.specs.Meaning.Format.{exactly, ◌⨟◌};
ghost use Rattle.xdr.specs.Meaning.Sizes.{OfSize};
ghost use Rattle.xdr.specs.Meaning.Public.{laid_of, Answers, Writes, laid};
ghost use Rattle.xdr.specs.Meaning.Marks.{MarksAre};
ghost use Rattle.xdr.specs.Meaning.Views.{view, view_marks, view_wrote};
ghost use Rattle.xdr.specs.Laws.Fields.{Lays};
ghost use Rattle.nfsattr.specs.Meaning.Stat.{nfsstat};
ghost use Rattle.nfsfile.specs.Laws.Getattr.{getattr_args_size, getattr_res_size};
ghost use Rattle.nfsfile.specs.Meaning.Getattr.{getattr_args, getattr_resok, getattr_res};

use nfs::dir::{nfs_fh3, nfs_fh3_at, nfs_fh3_inside, nfs_fh3_size, put_nfs_fh3};
use nfsattr::attr::fattr3;
use nfsattr::inner::attr::fattr3_at;
use nfsattr::inner::stat::nfsstat3_at;
use nfsattr::put::attr::put_fattr3;
use nfsattr::put::stat::put_nfsstat3;
use nfsattr::stat::{nfsfail3, nfsstat3};
use xdr::order::{open_at, place};
use xdr::{MOST, Marks, Refusal, Took};

#[derive(Clone, Copy)]
pub struct GETATTR3args {
    pub object: nfs_fh3,
}

pub fn getattr3args_at(src: &[u8], at: usize) -> Result<Took<GETATTR3args>, Refusal>
    ensures { view result ≡ getattr_args.held.read src.now at }
{
    let object = nfs_fh3_at(src, at)?;
    Ok(Took {
        value: GETATTR3args {
            object: object.value,
        },
        next: object.next,
        plain: object.plain,
    })
}

impl GETATTR3args {
    pub fn marks(self) -> Marks
        ensures { MarksAre getattr_args self (view_marks result) }
    {
        let f1 = self.object;
        let f2 = f1.data;
        Marks::One(f2.clean)
    }
}

pub fn getattr3args_inside(src: &[u8], x: GETATTR3args) -> bool
    ensures { result ≡ getattr_args.held.inside src.now x }
{
    let f1 = x.object;
    nfs_fh3_inside(src, f1)
}

pub fn getattr3args_size(x: GETATTR3args) -> usize
    ensures { result ≡ getattr_args_size x }
{
    let f1 = x.object;
    nfs_fh3_size(f1)
}

pub fn put_getattr3args(src: &[u8], x: GETATTR3args, out: &mut [u8])
    ensures { out.new ≡ laid_of getattr_args src.now x out.old }
{
    let f1 = x.object;
    put_nfs_fh3(src, f1, out);
}

pub fn read_getattr3args(src: &[u8], at: usize) -> Result<Took<GETATTR3args>, Refusal>
    ensures { Answers getattr_args src.now at (view result) }
{
    open_at(src, at)?;
    getattr3args_at(src, at)
}

pub fn write_getattr3args(
    src: &[u8],
    x: GETATTR3args,
    out: &mut [u8],
    at: usize,
) -> Result<usize, Refusal>
    ensures { Writes getattr_args src.now x at out.old (view_wrote result) out.new }
{
    let end = place(
        src.len(),
        getattr3args_inside(src, x),
        getattr3args_size(x),
        out.len(),
        at,
    )?;
    put_getattr3args(src, x, &mut out[at..]);
    Ok(end)
}

#[derive(Clone, Copy)]
pub struct GETATTR3resok {
    pub obj_attributes: fattr3,
}

impl GETATTR3resok {
    pub const SIZE: usize = 84;

    pub fn size() -> usize
        ensures { OfSize result getattr_resok }
    {
        GETATTR3resok::SIZE
    }
}

pub fn getattr3resok_at(src: &[u8], at: usize) -> Result<Took<GETATTR3resok>, Refusal>
    ensures { view result ≡ getattr_resok.kind.read src.now at }
{
    let obj_attributes = fattr3_at(src, at)?;
    Ok(Took {
        value: GETATTR3resok {
            obj_attributes: obj_attributes.value,
        },
        next: obj_attributes.next,
        plain: obj_attributes.plain,
    })
}

pub fn put_getattr3resok(v: GETATTR3resok, out: &mut [u8])
    ensures { out.new ≡ laid (getattr_resok.kind.write v) out.old }
{
    let f1 = v.obj_attributes;
    put_fattr3(f1, out);
}

#[derive(Clone, Copy)]
pub enum GETATTR3res {
    NFS3_OK(GETATTR3resok),
    Failed(nfsfail3),
}

pub fn getattr3res_at(src: &[u8], at: usize) -> Result<Took<GETATTR3res>, Refusal>
    ensures { view result ≡ getattr_res.held.read src.now at }
{
    let status = nfsstat3_at(src, at)?;
    match status.value {
        nfsstat3::NFS3_OK => {
            let v = getattr3resok_at(src, status.next)?;
            Ok(Took {
                value: GETATTR3res::NFS3_OK(v.value),
                next: v.next,
                plain: status.plain & v.plain,
            })
        }
        nfsstat3::Failed(e) => {
            Ok(Took {
                value: GETATTR3res::Failed(e),
                next: status.next,
                plain: status.plain,
            })
        }
    }
}

impl GETATTR3res {
    pub fn marks(self) -> Marks
        ensures { MarksAre getattr_res self (view_marks result) }
    {
        match self {
            GETATTR3res::NFS3_OK(_) => Marks::None,
            GETATTR3res::Failed(_) => Marks::None,
        }
    }
}

pub fn getattr3res_inside(src: &[u8], x: GETATTR3res) -> bool
    ensures { result ≡ getattr_res.held.inside src.now x }
{
    match x {
        GETATTR3res::NFS3_OK(_) => true,
        GETATTR3res::Failed(_) => true,
    }
}

pub fn getattr3res_size(x: GETATTR3res) -> usize
    ensures { result ≡ getattr_res_size x }
{
    match x {
        GETATTR3res::NFS3_OK(_) => 88,
        GETATTR3res::Failed(_) => 4,
    }
}

fn put_getattr3res_1(src: &[u8], status: nfsstat3, f: GETATTR3resok, out: &mut [u8])
    ensures { Lays (exactly nfsstat ⨟ exactly getattr_resok) src.now (status, f) out.old out.new }
{
    if out.len() < 4 {
        return;
    }
    put_nfsstat3(status, &mut out[0..]);
    put_getattr3resok(f, &mut out[4..]);
}

pub fn put_getattr3res(src: &[u8], x: GETATTR3res, out: &mut [u8])
    ensures { out.new ≡ laid_of getattr_res src.now x out.old }
{
    if MOST < src.len() {
        return;
    }
    if !getattr3res_inside(src, x) {
        return;
    }
    if out.len() < getattr3res_size(x) {
        return;
    }
    match x {
        GETATTR3res::NFS3_OK(f) => put_getattr3res_1(src, nfsstat3::NFS3_OK, f, out),
        GETATTR3res::Failed(e) => put_nfsstat3(nfsstat3::Failed(e), out),
    }
}

pub fn read_getattr3res(src: &[u8], at: usize) -> Result<Took<GETATTR3res>, Refusal>
    ensures { Answers getattr_res src.now at (view result) }
{
    open_at(src, at)?;
    getattr3res_at(src, at)
}

pub fn write_getattr3res(
    src: &[u8],
    x: GETATTR3res,
    out: &mut [u8],
    at: usize,
) -> Result<usize, Refusal>
    ensures { Writes getattr_res src.now x at out.old (view_wrote result) out.new }
{
    let end = place(
        src.len(),
        getattr3res_inside(src, x),
        getattr3res_size(x),
        out.len(),
        at,
    )?;
    put_getattr3res(src, x, &mut out[at..]);
    Ok(end)
}
