// made by tools/generate from crates/nfsfile/rfc/setattr.x
// SETATTR: attributes are set, if the guard holds (RFC 1813, section 3.3.2).
ghost use Rattle.std.specs.Prelude.{◌≡◌, true, [], length};
ghost use Rattle.xdr.specs.Meaning.Items.{flag};
ghost use Rattle.xdr.specs.Meaning.Format.{exactly, ◌⨟◌};
ghost use Rattle.xdr.specs.Meaning.Public.{laid, Answers, Writes, laid_of};
ghost use Rattle.xdr.specs.Meaning.Marks.{MarksAre};
ghost use Rattle.xdr.specs.Meaning.Views.{view, view_wrote, view_marks};
ghost use Rattle.xdr.specs.Laws.Fields.{Lays};
ghost use Rattle.nfs.specs.Meaning.Dir.{nfs_fh};
ghost use Rattle.nfs.specs.Meaning.Set.{sattr};
ghost use Rattle.nfsattr.specs.Meaning.Attr.{nfstime};
ghost use Rattle.nfsattr.specs.Meaning.Stat.{nfsstat};
ghost use Rattle.nfsfile.specs.Laws.Setattr.{setattr_args_size, setattr_res_size};
ghost use Rattle.nfsfile.specs.Meaning.Setattr.{sattrguard, setattr_args, setattr_resok, setattr_resfail, setattr_res};

use nfs::dir::{nfs_fh3, nfs_fh3_at, nfs_fh3_inside, nfs_fh3_size, put_nfs_fh3};
use nfs::inner::set::sattr3_at;
use nfs::put::set::{put_sattr3, sattr3_size};
use nfs::set::sattr3;
use nfsattr::attr::{nfstime3, wcc_data};
use nfsattr::inner::attr::{nfstime3_at, wcc_data_at};
use nfsattr::inner::stat::nfsstat3_at;
use nfsattr::put::attr::{put_nfstime3, put_wcc_data, wcc_data_size};
use nfsattr::put::stat::put_nfsstat3;
use nfsattr::stat::{nfsfail3, nfsstat3};
use xdr::inner::{bool_at, put_bool};
use xdr::order::{open_at, place, room};
use xdr::{MOST, Marks, Refusal, Took};

#[derive(Clone, Copy)]
pub enum sattrguard3 {
    Void,
    obj_ctime(nfstime3),
}

pub fn sattrguard3_at(src: &[u8], at: usize) -> Result<Took<sattrguard3>, Refusal>
    ensures { view result ≡ sattrguard.kind.read src.now at }
{
    let follows = bool_at(src, at)?;
    if !follows.value {
        return Ok(Took {
            value: sattrguard3::Void,
            next: follows.next,
            plain: follows.plain,
        });
    }
    let v = nfstime3_at(src, follows.next)?;
    Ok(Took {
        value: sattrguard3::obj_ctime(v.value),
        next: v.next,
        plain: follows.plain & v.plain,
    })
}

pub fn sattrguard3_size(v: sattrguard3) -> usize
    ensures { result ≡ length (sattrguard.kind.write v) }
{
    match v {
        sattrguard3::Void => 4,
        sattrguard3::obj_ctime(_) => 4 + nfstime3::SIZE,
    }
}

fn put_sattrguard3_1(f: nfstime3, out: &mut [u8])
    ensures { Lays (exactly flag ⨟ exactly nfstime) [] (true, f) out.old out.new }
{
    if out.len() < 4 {
        return;
    }
    put_bool(true, &mut out[0..]);
    put_nfstime3(f, &mut out[4..]);
}

pub fn put_sattrguard3(v: sattrguard3, out: &mut [u8])
    ensures { out.new ≡ laid (sattrguard.kind.write v) out.old }
{
    if out.len() < sattrguard3_size(v) {
        return;
    }
    match v {
        sattrguard3::Void => put_bool(false, out),
        sattrguard3::obj_ctime(f) => put_sattrguard3_1(f, out),
    }
}

pub fn read_sattrguard3(src: &[u8], at: usize) -> Result<Took<sattrguard3>, Refusal>
    ensures { Answers (exactly sattrguard) src.now at (view result) }
{
    open_at(src, at)?;
    sattrguard3_at(src, at)
}

pub fn write_sattrguard3(v: sattrguard3, out: &mut [u8], at: usize) -> Result<usize, Refusal>
    ensures { Writes (exactly sattrguard) [] v at out.old (view_wrote result) out.new }
{
    let end = room(out.len(), at, sattrguard3_size(v))?;
    put_sattrguard3(v, &mut out[at..]);
    Ok(end)
}

#[derive(Clone, Copy)]
pub struct SETATTR3args {
    pub object: nfs_fh3,
    pub new_attributes: sattr3,
    pub guard: sattrguard3,
}

pub fn setattr3args_at(src: &[u8], at: usize) -> Result<Took<SETATTR3args>, Refusal>
    ensures { view result ≡ setattr_args.held.read src.now at }
{
    let object = nfs_fh3_at(src, at)?;
    let new_attributes = sattr3_at(src, object.next)?;
    let guard = sattrguard3_at(src, new_attributes.next)?;
    Ok(Took {
        value: SETATTR3args {
            object: object.value,
            new_attributes: new_attributes.value,
            guard: guard.value,
        },
        next: guard.next,
        plain: object.plain & new_attributes.plain & guard.plain,
    })
}

impl SETATTR3args {
    pub fn marks(self) -> Marks
        ensures { MarksAre setattr_args self (view_marks result) }
    {
        let f1 = self.object;
        let f2 = f1.data;
        Marks::One(f2.clean)
    }
}

pub fn setattr3args_inside(src: &[u8], x: SETATTR3args) -> bool
    ensures { result ≡ setattr_args.held.inside src.now x }
{
    let f1 = x.object;
    nfs_fh3_inside(src, f1)
}

pub fn setattr3args_size(x: SETATTR3args) -> usize
    ensures { result ≡ setattr_args_size x }
{
    let f1 = x.object;
    let f2 = x.new_attributes;
    let f3 = x.guard;
    nfs_fh3_size(f1) + sattr3_size(f2) + sattrguard3_size(f3)
}

fn put_setattr3args_2(src: &[u8], f2: sattr3, f3: sattrguard3, out: &mut [u8])
    ensures { Lays (exactly sattr ⨟ exactly sattrguard) src.now (f2, f3) out.old out.new }
{
    let n = sattr3_size(f2);
    if out.len() < n {
        return;
    }
    put_sattr3(f2, &mut out[0..]);
    put_sattrguard3(f3, &mut out[n..]);
}

fn put_setattr3args_1(src: &[u8], f1: nfs_fh3, f2: sattr3, f3: sattrguard3, out: &mut [u8])
    ensures { Lays (nfs_fh ⨟ exactly sattr ⨟ exactly sattrguard) src.now (f1, (f2, f3)) out.old out.new }
{
    let n = nfs_fh3_size(f1);
    if out.len() < n {
        return;
    }
    put_nfs_fh3(src, f1, &mut out[0..]);
    put_setattr3args_2(src, f2, f3, &mut out[n..]);
}

pub fn put_setattr3args(src: &[u8], x: SETATTR3args, out: &mut [u8])
    ensures { out.new ≡ laid_of setattr_args src.now x out.old }
{
    if MOST < src.len() {
        return;
    }
    if !setattr3args_inside(src, x) {
        return;
    }
    if out.len() < setattr3args_size(x) {
        return;
    }
    let f1 = x.object;
    let f2 = x.new_attributes;
    let f3 = x.guard;
    put_setattr3args_1(src, f1, f2, f3, out);
}

pub fn read_setattr3args(src: &[u8], at: usize) -> Result<Took<SETATTR3args>, Refusal>
    ensures { Answers setattr_args src.now at (view result) }
{
    open_at(src, at)?;
    setattr3args_at(src, at)
}

pub fn write_setattr3args(
    src: &[u8],
    x: SETATTR3args,
    out: &mut [u8],
    at: usize,
) -> Result<usize, Refusal>
    ensures { Writes setattr_args src.now x at out.old (view_wrote result) out.new }
{
    let end = place(
        src.len(),
        setattr3args_inside(src, x),
        setattr3args_size(x),
        out.len(),
        at,
    )?;
    put_setattr3args(src, x, &mut out[at..]);
    Ok(end)
}

#[derive(Clone, Copy)]
pub struct SETATTR3resok {
    pub obj_wcc: wcc_data,
}

pub fn setattr3resok_at(src: &[u8], at: usize) -> Result<Took<SETATTR3resok>, Refusal>
    ensures { view result ≡ setattr_resok.kind.read src.now at }
{
    let obj_wcc = wcc_data_at(src, at)?;
    Ok(Took {
        value: SETATTR3resok {
            obj_wcc: obj_wcc.value,
        },
        next: obj_wcc.next,
        plain: obj_wcc.plain,
    })
}

pub fn setattr3resok_size(v: SETATTR3resok) -> usize
    ensures { result ≡ length (setattr_resok.kind.write v) }
{
    let f1 = v.obj_wcc;
    wcc_data_size(f1)
}

pub fn put_setattr3resok(v: SETATTR3resok, out: &mut [u8])
    ensures { out.new ≡ laid (setattr_resok.kind.write v) out.old }
{
    let f1 = v.obj_wcc;
    put_wcc_data(f1, out);
}

#[derive(Clone, Copy)]
pub struct SETATTR3resfail {
    pub obj_wcc: wcc_data,
}

pub fn setattr3resfail_at(src: &[u8], at: usize) -> Result<Took<SETATTR3resfail>, Refusal>
    ensures { view result ≡ setattr_resfail.kind.read src.now at }
{
    let obj_wcc = wcc_data_at(src, at)?;
    Ok(Took {
        value: SETATTR3resfail {
            obj_wcc: obj_wcc.value,
        },
        next: obj_wcc.next,
        plain: obj_wcc.plain,
    })
}

pub fn setattr3resfail_size(v: SETATTR3resfail) -> usize
    ensures { result ≡ length (setattr_resfail.kind.write v) }
{
    let f1 = v.obj_wcc;
    wcc_data_size(f1)
}

pub fn put_setattr3resfail(v: SETATTR3resfail, out: &mut [u8])
    ensures { out.new ≡ laid (setattr_resfail.kind.write v) out.old }
{
    let f1 = v.obj_wcc;
    put_wcc_data(f1, out);
}

#[derive(Clone, Copy)]
pub enum SETATTR3res {
    NFS3_OK(SETATTR3resok),
    Failed(nfsfail3, SETATTR3resfail),
}

pub fn setattr3res_at(src: &[u8], at: usize) -> Result<Took<SETATTR3res>, Refusal>
    ensures { view result ≡ setattr_res.held.read src.now at }
{
    let status = nfsstat3_at(src, at)?;
    match status.value {
        nfsstat3::NFS3_OK => {
            let v = setattr3resok_at(src, status.next)?;
            Ok(Took {
                value: SETATTR3res::NFS3_OK(v.value),
                next: v.next,
                plain: status.plain & v.plain,
            })
        }
        nfsstat3::Failed(e) => {
            let v = setattr3resfail_at(src, status.next)?;
            Ok(Took {
                value: SETATTR3res::Failed(e, v.value),
                next: v.next,
                plain: status.plain & v.plain,
            })
        }
    }
}

impl SETATTR3res {
    pub fn marks(self) -> Marks
        ensures { MarksAre setattr_res self (view_marks result) }
    {
        match self {
            SETATTR3res::NFS3_OK(_) => Marks::None,
            SETATTR3res::Failed(_, _) => Marks::None,
        }
    }
}

pub fn setattr3res_inside(src: &[u8], x: SETATTR3res) -> bool
    ensures { result ≡ setattr_res.held.inside src.now x }
{
    match x {
        SETATTR3res::NFS3_OK(_) => true,
        SETATTR3res::Failed(_, _) => true,
    }
}

pub fn setattr3res_size(x: SETATTR3res) -> usize
    ensures { result ≡ setattr_res_size x }
{
    match x {
        SETATTR3res::NFS3_OK(f) => 4 + setattr3resok_size(f),
        SETATTR3res::Failed(_, f) => 4 + setattr3resfail_size(f),
    }
}

fn put_setattr3res_1(src: &[u8], status: nfsstat3, f: SETATTR3resok, out: &mut [u8])
    ensures { Lays (exactly nfsstat ⨟ exactly setattr_resok) src.now (status, f) out.old out.new }
{
    if out.len() < 4 {
        return;
    }
    put_nfsstat3(status, &mut out[0..]);
    put_setattr3resok(f, &mut out[4..]);
}

fn put_setattr3res_2(src: &[u8], status: nfsstat3, f: SETATTR3resfail, out: &mut [u8])
    ensures { Lays (exactly nfsstat ⨟ exactly setattr_resfail) src.now (status, f) out.old out.new }
{
    if out.len() < 4 {
        return;
    }
    put_nfsstat3(status, &mut out[0..]);
    put_setattr3resfail(f, &mut out[4..]);
}

pub fn put_setattr3res(src: &[u8], x: SETATTR3res, out: &mut [u8])
    ensures { out.new ≡ laid_of setattr_res src.now x out.old }
{
    if MOST < src.len() {
        return;
    }
    if !setattr3res_inside(src, x) {
        return;
    }
    if out.len() < setattr3res_size(x) {
        return;
    }
    match x {
        SETATTR3res::NFS3_OK(f) => put_setattr3res_1(src, nfsstat3::NFS3_OK, f, out),
        SETATTR3res::Failed(e, f) => put_setattr3res_2(src, nfsstat3::Failed(e), f, out),
    }
}

pub fn read_setattr3res(src: &[u8], at: usize) -> Result<Took<SETATTR3res>, Refusal>
    ensures { Answers setattr_res src.now at (view result) }
{
    open_at(src, at)?;
    setattr3res_at(src, at)
}

pub fn write_setattr3res(
    src: &[u8],
    x: SETATTR3res,
    out: &mut [u8],
    at: usize,
) -> Result<usize, Refusal>
    ensures { Writes setattr_res src.now x at out.old (view_wrote result) out.new }
{
    let end = place(
        src.len(),
        setattr3res_inside(src, x),
        setattr3res_size(x),
        out.len(),
        at,
    )?;
    put_setattr3res(src, x, &mut out[at..]);
    Ok(end)
}
