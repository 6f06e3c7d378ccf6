// made by tools/generate from crates/nfsfile/rfc/lookup.x
// LOOKUP: the handle of a name in a directory (RFC 1813, section 3.3.3).
ghost use Rattle.std.specs.Prelude.{◌≡◌, length};
ghost use Rattle.xdr.specs.Meaning.Format.{exactly, ◌⨟◌};
ghost use Rattle.xdr.specs.Meaning.Public.{laid_of, Answers, Writes, laid};
ghost use Rattle.xdr.specs.Meaning.Marks.{MarksAre};
ghost use Rattle.xdr.specs.Meaning.Views.{view, view_marks, view_wrote};
ghost use Rattle.xdr.specs.Laws.Fields.{Lays};
ghost use Rattle.nfs.specs.Meaning.Dir.{nfs_fh};
ghost use Rattle.nfsattr.specs.Meaning.Attr.{post-op-attr};
ghost use Rattle.nfsattr.specs.Meaning.Stat.{nfsstat};
ghost use Rattle.nfsfile.specs.Laws.Lookup.{lookup_args_size, lookup_resok_size, lookup_res_size};
ghost use Rattle.nfsfile.specs.Meaning.Lookup.{lookup_args, lookup_resok, lookup_resfail, lookup_res};

use nfs::dir::{
    diropargs3, diropargs3_at, diropargs3_inside, diropargs3_size, nfs_fh3, nfs_fh3_at,
    nfs_fh3_inside, nfs_fh3_size, put_diropargs3, put_nfs_fh3,
};
use nfsattr::attr::post_op_attr;
use nfsattr::inner::attr::post_op_attr_at;
use nfsattr::inner::stat::nfsstat3_at;
use nfsattr::put::attr::{post_op_attr_size, put_post_op_attr};
use nfsattr::put::stat::put_nfsstat3;
use nfsattr::stat::{nfsfail3, nfsstat3};
use xdr::order::{open_at, place};
use xdr::{MOST, Marks, Refusal, Took};

#[derive(Clone, Copy)]
pub struct LOOKUP3args {
    pub what: diropargs3,
}

pub fn lookup3args_at(src: &[u8], at: usize) -> Result<Took<LOOKUP3args>, Refusal>
    ensures { view result ≡ lookup_args.held.read src.now at }
{
    let what = diropargs3_at(src, at)?;
    Ok(Took {
        value: LOOKUP3args { what: what.value },
        next: what.next,
        plain: what.plain,
    })
}

impl LOOKUP3args {
    pub fn marks(self) -> Marks
        ensures { MarksAre lookup_args self (view_marks result) }
    {
        let f1 = self.what;
        let f2 = f1.dir;
        let f3 = f2.data;
        let f4 = f1.name;
        Marks::Two(f3.clean, f4.clean)
    }
}

pub fn lookup3args_inside(src: &[u8], x: LOOKUP3args) -> bool
    ensures { result ≡ lookup_args.held.inside src.now x }
{
    let f1 = x.what;
    diropargs3_inside(src, f1)
}

pub fn lookup3args_size(x: LOOKUP3args) -> usize
    ensures { result ≡ lookup_args_size x }
{
    let f1 = x.what;
    diropargs3_size(f1)
}

pub fn put_lookup3args(src: &[u8], x: LOOKUP3args, out: &mut [u8])
    ensures { out.new ≡ laid_of lookup_args src.now x out.old }
{
    let f1 = x.what;
    put_diropargs3(src, f1, out);
}

pub fn read_lookup3args(src: &[u8], at: usize) -> Result<Took<LOOKUP3args>, Refusal>
    ensures { Answers lookup_args src.now at (view result) }
{
    open_at(src, at)?;
    lookup3args_at(src, at)
}

pub fn write_lookup3args(
    src: &[u8],
    x: LOOKUP3args,
    out: &mut [u8],
    at: usize,
) -> Result<usize, Refusal>
    ensures { Writes lookup_args src.now x at out.old (view_wrote result) out.new }
{
    let end = place(
        src.len(),
        lookup3args_inside(src, x),
        lookup3args_size(x),
        out.len(),
        at,
    )?;
    put_lookup3args(src, x, &mut out[at..]);
    Ok(end)
}

#[derive(Clone, Copy)]
pub struct LOOKUP3resok {
    pub object: nfs_fh3,
    pub obj_attributes: post_op_attr,
    pub dir_attributes: post_op_attr,
}

pub fn lookup3resok_at(src: &[u8], at: usize) -> Result<Took<LOOKUP3resok>, Refusal>
    ensures { view result ≡ lookup_resok.held.read src.now at }
{
    let object = nfs_fh3_at(src, at)?;
    let obj_attributes = post_op_attr_at(src, object.next)?;
    let dir_attributes = post_op_attr_at(src, obj_attributes.next)?;
    Ok(Took {
        value: LOOKUP3resok {
            object: object.value,
            obj_attributes: obj_attributes.value,
            dir_attributes: dir_attributes.value,
        },
        next: dir_attributes.next,
        plain: object.plain & obj_attributes.plain & dir_attributes.plain,
    })
}

impl LOOKUP3resok {
    pub fn marks(self) -> Marks
        ensures { MarksAre lookup_resok self (view_marks result) }
    {
        let f1 = self.object;
        let f2 = f1.data;
        Marks::One(f2.clean)
    }
}

pub fn lookup3resok_inside(src: &[u8], x: LOOKUP3resok) -> bool
    ensures { result ≡ lookup_resok.held.inside src.now x }
{
    let f1 = x.object;
    nfs_fh3_inside(src, f1)
}

pub fn lookup3resok_size(x: LOOKUP3resok) -> usize
    ensures { result ≡ lookup_resok_size x }
{
    let f1 = x.object;
    let f2 = x.obj_attributes;
    let f3 = x.dir_attributes;
    nfs_fh3_size(f1) + post_op_attr_size(f2) + post_op_attr_size(f3)
}

fn put_lookup3resok_2(src: &[u8], f2: post_op_attr, f3: post_op_attr, out: &mut [u8])
    ensures { Lays (exactly post-op-attr ⨟ exactly post-op-attr) src.now (f2, f3) out.old out.new }
{
    let n = post_op_attr_size(f2);
    if out.len() < n {
        return;
    }
    put_post_op_attr(f2, &mut out[0..]);
    put_post_op_attr(f3, &mut out[n..]);
}

fn put_lookup3resok_1(src: &[u8], f1: nfs_fh3, f2: post_op_attr, f3: post_op_attr, out: &mut [u8])
    ensures { Lays (nfs_fh ⨟ exactly post-op-attr ⨟ exactly post-op-attr) src.now (f1, (f2, f3)) out.old out.new }
{
    let n = nfs_fh3_size(f1);
    if out.len() < n {
        return;
    }
    put_nfs_fh3(src, f1, &mut out[0..]);
    put_lookup3resok_2(src, f2, f3, &mut out[n..]);
}

pub fn put_lookup3resok(src: &[u8], x: LOOKUP3resok, out: &mut [u8])
    ensures { out.new ≡ laid_of lookup_resok src.now x out.old }
{
    if MOST < src.len() {
        return;
    }
    if !lookup3resok_inside(src, x) {
        return;
    }
    if out.len() < lookup3resok_size(x) {
        return;
    }
    let f1 = x.object;
    let f2 = x.obj_attributes;
    let f3 = x.dir_attributes;
    put_lookup3resok_1(src, f1, f2, f3, out);
}

#[derive(Clone, Copy)]
pub struct LOOKUP3resfail {
    pub dir_attributes: post_op_attr,
}

pub fn lookup3resfail_at(src: &[u8], at: usize) -> Result<Took<LOOKUP3resfail>, Refusal>
    ensures { view result ≡ lookup_resfail.kind.read src.now at }
{
    let dir_attributes = post_op_attr_at(src, at)?;
    Ok(Took {
        value: LOOKUP3resfail {
            dir_attributes: dir_attributes.value,
        },
        next: dir_attributes.next,
        plain: dir_attributes.plain,
    })
}

pub fn lookup3resfail_size(v: LOOKUP3resfail) -> usize
    ensures { result ≡ length (lookup_resfail.kind.write v) }
{
    let f1 = v.dir_attributes;
    post_op_attr_size(f1)
}

pub fn put_lookup3resfail(v: LOOKUP3resfail, out: &mut [u8])
    ensures { out.new ≡ laid (lookup_resfail.kind.write v) out.old }
{
    let f1 = v.dir_attributes;
    put_post_op_attr(f1, out);
}

#[derive(Clone, Copy)]
pub enum LOOKUP3res {
    NFS3_OK(LOOKUP3resok),
    Failed(nfsfail3, LOOKUP3resfail),
}

pub fn lookup3res_at(src: &[u8], at: usize) -> Result<Took<LOOKUP3res>, Refusal>
    ensures { view result ≡ lookup_res.held.read src.now at }
{
    let status = nfsstat3_at(src, at)?;
    match status.value {
        nfsstat3::NFS3_OK => {
            let v = lookup3resok_at(src, status.next)?;
            Ok(Took {
                value: LOOKUP3res::NFS3_OK(v.value),
                next: v.next,
                plain: status.plain & v.plain,
            })
        }
        nfsstat3::Failed(e) => {
            let v = lookup3resfail_at(src, status.next)?;
            Ok(Took {
                value: LOOKUP3res::Failed(e, v.value),
                next: v.next,
                plain: status.plain & v.plain,
            })
        }
    }
}

impl LOOKUP3res {
    pub fn marks(self) -> Marks
        ensures { MarksAre lookup_res self (view_marks result) }
    {
        match self {
            LOOKUP3res::NFS3_OK(f) => f.marks(),
            LOOKUP3res::Failed(_, _) => Marks::None,
        }
    }
}

pub fn lookup3res_inside(src: &[u8], x: LOOKUP3res) -> bool
    ensures { result ≡ lookup_res.held.inside src.now x }
{
    match x {
        LOOKUP3res::NFS3_OK(f) => lookup3resok_inside(src, f),
        LOOKUP3res::Failed(_, _) => true,
    }
}

pub fn lookup3res_size(x: LOOKUP3res) -> usize
    ensures { result ≡ lookup_res_size x }
{
    match x {
        LOOKUP3res::NFS3_OK(f) => 4 + lookup3resok_size(f),
        LOOKUP3res::Failed(_, f) => 4 + lookup3resfail_size(f),
    }
}

fn put_lookup3res_1(src: &[u8], status: nfsstat3, f: LOOKUP3resok, out: &mut [u8])
    ensures { Lays (exactly nfsstat ⨟ lookup_resok) src.now (status, f) out.old out.new }
{
    if out.len() < 4 {
        return;
    }
    put_nfsstat3(status, &mut out[0..]);
    put_lookup3resok(src, f, &mut out[4..]);
}

fn put_lookup3res_2(src: &[u8], status: nfsstat3, f: LOOKUP3resfail, out: &mut [u8])
    ensures { Lays (exactly nfsstat ⨟ exactly lookup_resfail) src.now (status, f) out.old out.new }
{
    if out.len() < 4 {
        return;
    }
    put_nfsstat3(status, &mut out[0..]);
    put_lookup3resfail(f, &mut out[4..]);
}

pub fn put_lookup3res(src: &[u8], x: LOOKUP3res, out: &mut [u8])
    ensures { out.new ≡ laid_of lookup_res src.now x out.old }
{
    if MOST < src.len() {
        return;
    }
    if !lookup3res_inside(src, x) {
        return;
    }
    if out.len() < lookup3res_size(x) {
        return;
    }
    match x {
        LOOKUP3res::NFS3_OK(f) => put_lookup3res_1(src, nfsstat3::NFS3_OK, f, out),
        LOOKUP3res::Failed(e, f) => put_lookup3res_2(src, nfsstat3::Failed(e), f, out),
    }
}

pub fn read_lookup3res(src: &[u8], at: usize) -> Result<Took<LOOKUP3res>, Refusal>
    ensures { Answers lookup_res src.now at (view result) }
{
    open_at(src, at)?;
    lookup3res_at(src, at)
}

pub fn write_lookup3res(
    src: &[u8],
    x: LOOKUP3res,
    out: &mut [u8],
    at: usize,
) -> Result<usize, Refusal>
    ensures { Writes lookup_res src.now x at out.old (view_wrote result) out.new }
{
    let end = place(
        src.len(),
        lookup3res_inside(src, x),
        lookup3res_size(x),
        out.len(),
        at,
    )?;
    put_lookup3res(src, x, &mut out[at..]);
    Ok(end)
}
