// made by tools/generate from crates/nfsdata/rfc/read.x
// READ: bytes of a file (RFC 1813, section 3.3.6). They stay in the message, as a piece.
ghost use Rattle.std.specs.Prelude.{◌≡◌, length};
ghost use Rattle.xdr.specs.Meaning.Items.{hyper, word, flag};
ghost use Rattle.xdr.specs.Meaning.Format.{exactly, ◌⨟◌};
ghost use Rattle.xdr.specs.Meaning.Formats.{bytes};
ghost use Rattle.xdr.specs.Meaning.Public.{laid_of, Answers, Writes, laid};
ghost use Rattle.xdr.specs.Meaning.Marks.{MarksAre};
ghost use Rattle.xdr.specs.Meaning.Views.{view, view_marks, view_wrote};
ghost use Rattle.xdr.specs.Laws.Fields.{Lays};
ghost use Rattle.nfs.specs.Meaning.Dir.{nfs_fh};
ghost use Rattle.nfsattr.specs.Meaning.Attr.{post-op-attr};
ghost use Rattle.nfsattr.specs.Meaning.Stat.{nfsstat};
ghost use Rattle.nfsdata.specs.Laws.Read.{read_args_size, read_resok_size, read_res_size};
ghost use Rattle.nfsdata.specs.Meaning.Read.{read_args, read_resok, read_resfail, read_res};

use nfs::dir::{nfs_fh3, nfs_fh3_at, nfs_fh3_inside, nfs_fh3_size, put_nfs_fh3};
use nfsattr::attr::{count3, offset3, post_op_attr};
use nfsattr::inner::attr::post_op_attr_at;
use nfsattr::inner::stat::nfsstat3_at;
use nfsattr::put::attr::{post_op_attr_size, put_post_op_attr};
use nfsattr::put::stat::put_nfsstat3;
use nfsattr::stat::{nfsfail3, nfsstat3};
use xdr::inner::{
    bool_at, opaque_at, opaque_size, put_bool, put_opaque, put_u32, put_u64, u32_at, u64_at,
};
use xdr::order::{open_at, place};
use xdr::{MOST, Marks, Piece, Refusal, Took, inside};

#[derive(Clone, Copy)]
pub struct READ3args {
    pub file: nfs_fh3,
    pub offset: offset3,
    pub count: count3,
}

pub fn read3args_at(src: &[u8], at: usize) -> Result<Took<READ3args>, Refusal>
    ensures { view result ≡ read_args.held.read src.now at }
{
    let file = nfs_fh3_at(src, at)?;
    let offset = u64_at(src, file.next)?;
    let count = u32_at(src, offset.next)?;
    Ok(Took {
        value: READ3args {
            file: file.value,
            offset: offset.value,
            count: count.value,
        },
        next: count.next,
        plain: file.plain & offset.plain & count.plain,
    })
}

impl READ3args {
    pub fn marks(self) -> Marks
        ensures { MarksAre read_args self (view_marks result) }
    {
        let f1 = self.file;
        let f2 = f1.data;
        Marks::One(f2.clean)
    }
}

pub fn read3args_inside(src: &[u8], x: READ3args) -> bool
    ensures { result ≡ read_args.held.inside src.now x }
{
    let f1 = x.file;
    nfs_fh3_inside(src, f1)
}

pub fn read3args_size(x: READ3args) -> usize
    ensures { result ≡ read_args_size x }
{
    let f1 = x.file;
    nfs_fh3_size(f1) + 12
}

fn put_read3args_2(src: &[u8], f2: offset3, f3: count3, out: &mut [u8])
    ensures { Lays (exactly hyper ⨟ exactly word) src.now (f2, f3) out.old out.new }
{
    if out.len() < 8 {
        return;
    }
    put_u64(f2, &mut out[0..]);
    put_u32(f3, &mut out[8..]);
}

fn put_read3args_1(src: &[u8], f1: nfs_fh3, f2: offset3, f3: count3, out: &mut [u8])
    ensures { Lays (nfs_fh ⨟ exactly hyper ⨟ exactly word) src.now (f1, (f2, f3)) out.old out.new }
{
    let n = nfs_fh3_size(f1);
    if out.len() < n {
        return;
    }
    put_nfs_fh3(src, f1, &mut out[0..]);
    put_read3args_2(src, f2, f3, &mut out[n..]);
}

pub fn put_read3args(src: &[u8], x: READ3args, out: &mut [u8])
    ensures { out.new ≡ laid_of read_args src.now x out.old }
{
    if MOST < src.len() {
        return;
    }
    if !read3args_inside(src, x) {
        return;
    }
    if out.len() < read3args_size(x) {
        return;
    }
    let f1 = x.file;
    let f2 = x.offset;
    let f3 = x.count;
    put_read3args_1(src, f1, f2, f3, out);
}

pub fn read_read3args(src: &[u8], at: usize) -> Result<Took<READ3args>, Refusal>
    ensures { Answers read_args src.now at (view result) }
{
    open_at(src, at)?;
    read3args_at(src, at)
}

pub fn write_read3args(
    src: &[u8],
    x: READ3args,
    out: &mut [u8],
    at: usize,
) -> Result<usize, Refusal>
    ensures { Writes read_args src.now x at out.old (view_wrote result) out.new }
{
    let end = place(
        src.len(),
        read3args_inside(src, x),
        read3args_size(x),
        out.len(),
        at,
    )?;
    put_read3args(src, x, &mut out[at..]);
    Ok(end)
}

#[derive(Clone, Copy)]
pub struct READ3resok {
    pub file_attributes: post_op_attr,
    pub count: count3,
    pub eof: bool,
    pub data: Piece,
}

pub fn read3resok_at(src: &[u8], at: usize) -> Result<Took<READ3resok>, Refusal>
    ensures { view result ≡ read_resok.held.read src.now at }
{
    let file_attributes = post_op_attr_at(src, at)?;
    let count = u32_at(src, file_attributes.next)?;
    let eof = bool_at(src, count.next)?;
    let data = opaque_at(src, eof.next)?;
    Ok(Took {
        value: READ3resok {
            file_attributes: file_attributes.value,
            count: count.value,
            eof: eof.value,
            data: data.value,
        },
        next: data.next,
        plain: file_attributes.plain & count.plain & eof.plain & data.plain,
    })
}

impl READ3resok {
    pub fn marks(self) -> Marks
        ensures { MarksAre read_resok self (view_marks result) }
    {
        let f1 = self.data;
        Marks::One(f1.clean)
    }
}

pub fn read3resok_inside(src: &[u8], x: READ3resok) -> bool
    ensures { result ≡ read_resok.held.inside src.now x }
{
    let f4 = x.data;
    inside(src, f4)
}

pub fn read3resok_size(x: READ3resok) -> usize
    ensures { result ≡ read_resok_size x }
{
    let f1 = x.file_attributes;
    let f4 = x.data;
    post_op_attr_size(f1) + opaque_size(f4.count) + 8
}

fn put_read3resok_3(src: &[u8], f3: bool, f4: Piece, out: &mut [u8])
    ensures { Lays (exactly flag ⨟ bytes) src.now (f3, f4) out.old out.new }
{
    if out.len() < 4 {
        return;
    }
    put_bool(f3, &mut out[0..]);
    put_opaque(src, f4, &mut out[4..]);
}

fn put_read3resok_2(src: &[u8], f2: count3, f3: bool, f4: Piece, out: &mut [u8])
    ensures { Lays (exactly word ⨟ exactly flag ⨟ bytes) src.now (f2, (f3, f4)) out.old out.new }
{
    if out.len() < 4 {
        return;
    }
    put_u32(f2, &mut out[0..]);
    put_read3resok_3(src, f3, f4, &mut out[4..]);
}

fn put_read3resok_1(src: &[u8], f1: post_op_attr, f2: count3, f3: bool, f4: Piece, out: &mut [u8])
    ensures { Lays (exactly post-op-attr ⨟ exactly word ⨟ exactly flag ⨟ bytes) src.now (f1, (f2, (f3, f4))) out.old out.new }
{
    let n = post_op_attr_size(f1);
    if out.len() < n {
        return;
    }
    put_post_op_attr(f1, &mut out[0..]);
    put_read3resok_2(src, f2, f3, f4, &mut out[n..]);
}

pub fn put_read3resok(src: &[u8], x: READ3resok, out: &mut [u8])
    ensures { out.new ≡ laid_of read_resok src.now x out.old }
{
    if MOST < src.len() {
        return;
    }
    if !read3resok_inside(src, x) {
        return;
    }
    if out.len() < read3resok_size(x) {
        return;
    }
    let f1 = x.file_attributes;
    let f2 = x.count;
    let f3 = x.eof;
    let f4 = x.data;
    put_read3resok_1(src, f1, f2, f3, f4, out);
}

#[derive(Clone, Copy)]
pub struct READ3resfail {
    pub file_attributes: post_op_attr,
}

pub fn read3resfail_at(src: &[u8], at: usize) -> Result<Took<READ3resfail>, Refusal>
    ensures { view result ≡ read_resfail.kind.read src.now at }
{
    let file_attributes = post_op_attr_at(src, at)?;
    Ok(Took {
        value: READ3resfail {
            file_attributes: file_attributes.value,
        },
        next: file_attributes.next,
        plain: file_attributes.plain,
    })
}

pub fn read3resfail_size(v: READ3resfail) -> usize
    ensures { result ≡ length (read_resfail.kind.write v) }
{
    let f1 = v.file_attributes;
    post_op_attr_size(f1)
}

pub fn put_read3resfail(v: READ3resfail, out: &mut [u8])
    ensures { out.new ≡ laid (read_resfail.kind.write v) out.old }
{
    let f1 = v.file_attributes;
    put_post_op_attr(f1, out);
}

#[derive(Clone, Copy)]
pub enum READ3res {
    NFS3_OK(READ3resok),
    Failed(nfsfail3, READ3resfail),
}

pub fn read3res_at(src: &[u8], at: usize) -> Result<Took<READ3res>, Refusal>
    ensures { view result ≡ read_res.held.read src.now at }
{
    let status = nfsstat3_at(src, at)?;
    match status.value {
        nfsstat3::NFS3_OK => {
            let v = read3resok_at(src, status.next)?;
            Ok(Took {
                value: READ3res::NFS3_OK(v.value),
                next: v.next,
                plain: status.plain & v.plain,
            })
        }
        nfsstat3::Failed(e) => {
            let v = read3resfail_at(src, status.next)?;
            Ok(Took {
                value: READ3res::Failed(e, v.value),
                next: v.next,
                plain: status.plain & v.plain,
            })
        }
    }
}

impl READ3res {
    pub fn marks(self) -> Marks
        ensures { MarksAre read_res self (view_marks result) }
    {
        match self {
            READ3res::NFS3_OK(f) => f.marks(),
            READ3res::Failed(_, _) => Marks::None,
        }
    }
}

pub fn read3res_inside(src: &[u8], x: READ3res) -> bool
    ensures { result ≡ read_res.held.inside src.now x }
{
    match x {
        READ3res::NFS3_OK(f) => read3resok_inside(src, f),
        READ3res::Failed(_, _) => true,
    }
}

pub fn read3res_size(x: READ3res) -> usize
    ensures { result ≡ read_res_size x }
{
    match x {
        READ3res::NFS3_OK(f) => 4 + read3resok_size(f),
        READ3res::Failed(_, f) => 4 + read3resfail_size(f),
    }
}

fn put_read3res_1(src: &[u8], status: nfsstat3, f: READ3resok, out: &mut [u8])
    ensures { Lays (exactly nfsstat ⨟ read_resok) src.now (status, f) out.old out.new }
{
    if out.len() < 4 {
        return;
    }
    put_nfsstat3(status, &mut out[0..]);
    put_read3resok(src, f, &mut out[4..]);
}

fn put_read3res_2(src: &[u8], status: nfsstat3, f: READ3resfail, out: &mut [u8])
    ensures { Lays (exactly nfsstat ⨟ exactly read_resfail) src.now (status, f) out.old out.new }
{
    if out.len() < 4 {
        return;
    }
    put_nfsstat3(status, &mut out[0..]);
    put_read3resfail(f, &mut out[4..]);
}

pub fn put_read3res(src: &[u8], x: READ3res, out: &mut [u8])
    ensures { out.new ≡ laid_of read_res src.now x out.old }
{
    if MOST < src.len() {
        return;
    }
    if !read3res_inside(src, x) {
        return;
    }
    if out.len() < read3res_size(x) {
        return;
    }
    match x {
        READ3res::NFS3_OK(f) => put_read3res_1(src, nfsstat3::NFS3_OK, f, out),
        READ3res::Failed(e, f) => put_read3res_2(src, nfsstat3::Failed(e), f, out),
    }
}

pub fn read_read3res(src: &[u8], at: usize) -> Result<Took<READ3res>, Refusal>
    ensures { Answers read_res src.now at (view result) }
{
    open_at(src, at)?;
    read3res_at(src, at)
}

pub fn write_read3res(src: &[u8], x: READ3res, out: &mut [u8], at: usize) -> Result<usize, Refusal>
    ensures { Writes read_res src.now x at out.old (view_wrote result) out.new }
{
    let end = place(
        src.len(),
        read3res_inside(src, x),
        read3res_size(x),
        out.len(),
        at,
    )?;
    put_read3res(src, x, &mut out[at..]);
    Ok(end)
}
