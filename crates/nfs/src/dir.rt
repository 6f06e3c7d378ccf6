// made by tools/generate from crates/nfs/rfc/dir.x
// Handles, names and what is made of them (RFC 1813, sections 2.5 and 2.6). Their bytes stay in the message, as pieces.
ghost use Rattle.std.specs.Prelude.{◌≡◌, true};
ghost use Rattle.xdr.specs.Meaning.Items.{flag};
ghost use Rattle.xdr.specs.Meaning.Format.{exactly, ◌⨟◌};
ghost use Rattle.xdr.specs.Meaning.Formats.{bytes};
ghost use Rattle.xdr.specs.Meaning.Public.{laid_of, Answers, Writes};
ghost use Rattle.xdr.specs.Meaning.Marks.{MarksAre};
ghost use Rattle.xdr.specs.Meaning.Views.{view, view_marks, view_wrote};
ghost use Rattle.xdr.specs.Laws.Fields.{Lays};
ghost use Rattle.nfs.specs.Laws.Dir.{nfs_fh_size, post_op_fh_size, diropargs_size, symlinkdata_size};
ghost use Rattle.nfs.specs.Meaning.Dir.{nfs_fh, post_op_fh, diropargs, symlinkdata};
ghost use Rattle.nfs.specs.Meaning.Set.{sattr};

use crate::inner::set::sattr3_at;
use crate::put::set::{put_sattr3, sattr3_size};
use crate::set::sattr3;
use xdr::inner::{bool_at, opaque_at, opaque_size, put_bool, put_opaque};
use xdr::order::{open_at, place};
use xdr::{MOST, Marks, Piece, Refusal, Took, inside};

// A name or a path: any bytes.
pub type nfsstring = Piece;

pub type filename3 = nfsstring;

pub type nfspath3 = nfsstring;

// A file handle, of any length.
#[derive(Clone, Copy)]
pub struct nfs_fh3 {
    pub data: Piece,
}

pub fn nfs_fh3_at(src: &[u8], at: usize) -> Result<Took<nfs_fh3>, Refusal>
    ensures { view result ≡ nfs_fh.held.read src.now at }
{
    let data = opaque_at(src, at)?;
    Ok(Took {
        value: nfs_fh3 { data: data.value },
        next: data.next,
        plain: data.plain,
    })
}

impl nfs_fh3 {
    pub fn marks(self) -> Marks
        ensures { MarksAre nfs_fh self (view_marks result) }
    {
        let f1 = self.data;
        Marks::One(f1.clean)
    }
}

pub fn nfs_fh3_inside(src: &[u8], x: nfs_fh3) -> bool
    ensures { result ≡ nfs_fh.held.inside src.now x }
{
    let f1 = x.data;
    inside(src, f1)
}

pub fn nfs_fh3_size(x: nfs_fh3) -> usize
    ensures { result ≡ nfs_fh_size x }
{
    let f1 = x.data;
    opaque_size(f1.count)
}

pub fn put_nfs_fh3(src: &[u8], x: nfs_fh3, out: &mut [u8])
    ensures { out.new ≡ laid_of nfs_fh src.now x out.old }
{
    let f1 = x.data;
    put_opaque(src, f1, out);
}

pub fn read_nfs_fh3(src: &[u8], at: usize) -> Result<Took<nfs_fh3>, Refusal>
    ensures { Answers nfs_fh src.now at (view result) }
{
    open_at(src, at)?;
    nfs_fh3_at(src, at)
}

pub fn write_nfs_fh3(src: &[u8], x: nfs_fh3, out: &mut [u8], at: usize) -> Result<usize, Refusal>
    ensures { Writes nfs_fh src.now x at out.old (view_wrote result) out.new }
{
    let end = place(
        src.len(),
        nfs_fh3_inside(src, x),
        nfs_fh3_size(x),
        out.len(),
        at,
    )?;
    put_nfs_fh3(src, x, &mut out[at..]);
    Ok(end)
}

#[derive(Clone, Copy)]
pub enum post_op_fh3 {
    Void,
    handle(nfs_fh3),
}

pub fn post_op_fh3_at(src: &[u8], at: usize) -> Result<Took<post_op_fh3>, Refusal>
    ensures { view result ≡ post_op_fh.held.read src.now at }
{
    let follows = bool_at(src, at)?;
    if !follows.value {
        return Ok(Took {
            value: post_op_fh3::Void,
            next: follows.next,
            plain: follows.plain,
        });
    }
    let v = nfs_fh3_at(src, follows.next)?;
    Ok(Took {
        value: post_op_fh3::handle(v.value),
        next: v.next,
        plain: follows.plain & v.plain,
    })
}

impl post_op_fh3 {
    pub fn marks(self) -> Marks
        ensures { MarksAre post_op_fh self (view_marks result) }
    {
        match self {
            post_op_fh3::Void => Marks::None,
            post_op_fh3::handle(f) => f.marks(),
        }
    }
}

pub fn post_op_fh3_inside(src: &[u8], x: post_op_fh3) -> bool
    ensures { result ≡ post_op_fh.held.inside src.now x }
{
    match x {
        post_op_fh3::Void => true,
        post_op_fh3::handle(f) => nfs_fh3_inside(src, f),
    }
}

pub fn post_op_fh3_size(x: post_op_fh3) -> usize
    ensures { result ≡ post_op_fh_size x }
{
    match x {
        post_op_fh3::Void => 4,
        post_op_fh3::handle(f) => 4 + nfs_fh3_size(f),
    }
}

fn put_post_op_fh3_1(src: &[u8], f: nfs_fh3, out: &mut [u8])
    ensures { Lays (exactly flag ⨟ nfs_fh) src.now (true, f) out.old out.new }
{
    if out.len() < 4 {
        return;
    }
    put_bool(true, &mut out[0..]);
    put_nfs_fh3(src, f, &mut out[4..]);
}

pub fn put_post_op_fh3(src: &[u8], x: post_op_fh3, out: &mut [u8])
    ensures { out.new ≡ laid_of post_op_fh src.now x out.old }
{
    if MOST < src.len() {
        return;
    }
    if !post_op_fh3_inside(src, x) {
        return;
    }
    if out.len() < post_op_fh3_size(x) {
        return;
    }
    match x {
        post_op_fh3::Void => put_bool(false, out),
        post_op_fh3::handle(f) => put_post_op_fh3_1(src, f, out),
    }
}

pub fn read_post_op_fh3(src: &[u8], at: usize) -> Result<Took<post_op_fh3>, Refusal>
    ensures { Answers post_op_fh src.now at (view result) }
{
    open_at(src, at)?;
    post_op_fh3_at(src, at)
}

pub fn write_post_op_fh3(
    src: &[u8],
    x: post_op_fh3,
    out: &mut [u8],
    at: usize,
) -> Result<usize, Refusal>
    ensures { Writes post_op_fh src.now x at out.old (view_wrote result) out.new }
{
    let end = place(
        src.len(),
        post_op_fh3_inside(src, x),
        post_op_fh3_size(x),
        out.len(),
        at,
    )?;
    put_post_op_fh3(src, x, &mut out[at..]);
    Ok(end)
}

#[derive(Clone, Copy)]
pub struct diropargs3 {
    pub dir: nfs_fh3,
    pub name: filename3,
}

pub fn diropargs3_at(src: &[u8], at: usize) -> Result<Took<diropargs3>, Refusal>
    ensures { view result ≡ diropargs.held.read src.now at }
{
    let dir = nfs_fh3_at(src, at)?;
    let name = opaque_at(src, dir.next)?;
    Ok(Took {
        value: diropargs3 {
            dir: dir.value,
            name: name.value,
        },
        next: name.next,
        plain: dir.plain & name.plain,
    })
}

impl diropargs3 {
    pub fn marks(self) -> Marks
        ensures { MarksAre diropargs self (view_marks result) }
    {
        let f1 = self.dir;
        let f2 = f1.data;
        let f3 = self.name;
        Marks::Two(f2.clean, f3.clean)
    }
}

pub fn diropargs3_inside(src: &[u8], x: diropargs3) -> bool
    ensures { result ≡ diropargs.held.inside src.now x }
{
    let f1 = x.dir;
    let f2 = x.name;
    nfs_fh3_inside(src, f1) & inside(src, f2)
}

pub fn diropargs3_size(x: diropargs3) -> usize
    ensures { result ≡ diropargs_size x }
{
    let f1 = x.dir;
    let f2 = x.name;
    nfs_fh3_size(f1) + opaque_size(f2.count)
}

fn put_diropargs3_1(src: &[u8], f1: nfs_fh3, f2: filename3, out: &mut [u8])
    ensures { Lays (nfs_fh ⨟ bytes) src.now (f1, f2) out.old out.new }
{
    let n = nfs_fh3_size(f1);
    if out.len() < n {
        return;
    }
    put_nfs_fh3(src, f1, &mut out[0..]);
    put_opaque(src, f2, &mut out[n..]);
}

pub fn put_diropargs3(src: &[u8], x: diropargs3, out: &mut [u8])
    ensures { out.new ≡ laid_of diropargs src.now x out.old }
{
    if MOST < src.len() {
        return;
    }
    if !diropargs3_inside(src, x) {
        return;
    }
    if out.len() < diropargs3_size(x) {
        return;
    }
    let f1 = x.dir;
    let f2 = x.name;
    put_diropargs3_1(src, f1, f2, out);
}

pub fn read_diropargs3(src: &[u8], at: usize) -> Result<Took<diropargs3>, Refusal>
    ensures { Answers diropargs src.now at (view result) }
{
    open_at(src, at)?;
    diropargs3_at(src, at)
}

pub fn write_diropargs3(
    src: &[u8],
    x: diropargs3,
    out: &mut [u8],
    at: usize,
) -> Result<usize, Refusal>
    ensures { Writes diropargs src.now x at out.old (view_wrote result) out.new }
{
    let end = place(
        src.len(),
        diropargs3_inside(src, x),
        diropargs3_size(x),
        out.len(),
        at,
    )?;
    put_diropargs3(src, x, &mut out[at..]);
    Ok(end)
}

#[derive(Clone, Copy)]
pub struct symlinkdata3 {
    pub symlink_attributes: sattr3,
    pub symlink_data: nfspath3,
}

pub fn symlinkdata3_at(src: &[u8], at: usize) -> Result<Took<symlinkdata3>, Refusal>
    ensures { view result ≡ symlinkdata.held.read src.now at }
{
    let symlink_attributes = sattr3_at(src, at)?;
    let symlink_data = opaque_at(src, symlink_attributes.next)?;
    Ok(Took {
        value: symlinkdata3 {
            symlink_attributes: symlink_attributes.value,
            symlink_data: symlink_data.value,
        },
        next: symlink_data.next,
        plain: symlink_attributes.plain & symlink_data.plain,
    })
}

impl symlinkdata3 {
    pub fn marks(self) -> Marks
        ensures { MarksAre symlinkdata self (view_marks result) }
    {
        let f1 = self.symlink_data;
        Marks::One(f1.clean)
    }
}

pub fn symlinkdata3_inside(src: &[u8], x: symlinkdata3) -> bool
    ensures { result ≡ symlinkdata.held.inside src.now x }
{
    let f2 = x.symlink_data;
    inside(src, f2)
}

pub fn symlinkdata3_size(x: symlinkdata3) -> usize
    ensures { result ≡ symlinkdata_size x }
{
    let f1 = x.symlink_attributes;
    let f2 = x.symlink_data;
    sattr3_size(f1) + opaque_size(f2.count)
}

fn put_symlinkdata3_1(src: &[u8], f1: sattr3, f2: nfspath3, out: &mut [u8])
    ensures { Lays (exactly sattr ⨟ bytes) src.now (f1, f2) out.old out.new }
{
    let n = sattr3_size(f1);
    if out.len() < n {
        return;
    }
    put_sattr3(f1, &mut out[0..]);
    put_opaque(src, f2, &mut out[n..]);
}

pub fn put_symlinkdata3(src: &[u8], x: symlinkdata3, out: &mut [u8])
    ensures { out.new ≡ laid_of symlinkdata src.now x out.old }
{
    if MOST < src.len() {
        return;
    }
    if !symlinkdata3_inside(src, x) {
        return;
    }
    if out.len() < symlinkdata3_size(x) {
        return;
    }
    let f1 = x.symlink_attributes;
    let f2 = x.symlink_data;
    put_symlinkdata3_1(src, f1, f2, out);
}

pub fn read_symlinkdata3(src: &[u8], at: usize) -> Result<Took<symlinkdata3>, Refusal>
    ensures { Answers symlinkdata src.now at (view result) }
{
    open_at(src, at)?;
    symlinkdata3_at(src, at)
}

pub fn write_symlinkdata3(
    src: &[u8],
    x: symlinkdata3,
    out: &mut [u8],
    at: usize,
) -> Result<usize, Refusal>
    ensures { Writes symlinkdata src.now x at out.old (view_wrote result) out.new }
{
    let end = place(
        src.len(),
        symlinkdata3_inside(src, x),
        symlinkdata3_size(x),
        out.len(),
        at,
    )?;
    put_symlinkdata3(src, x, &mut out[at..]);
    Ok(end)
}
