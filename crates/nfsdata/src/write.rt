// made by tools/generate from crates/nfsdata/rfc/write.x
// WRITE: bytes for a file (RFC 1813, section 3.3.7). They stay in the message, as a piece.
ghost use Rattle.std.specs.Prelude.{◌≡◌, [], length};
ghost use Rattle.xdr.specs.Meaning.Combinators.{among};
ghost use Rattle.xdr.specs.Meaning.Items.{word, hyper};
ghost use Rattle.xdr.specs.Meaning.Format.{exactly, ◌⨟◌};
ghost use Rattle.xdr.specs.Meaning.Formats.{bytes};
ghost use Rattle.xdr.specs.Meaning.Sizes.{OfSize};
ghost use Rattle.xdr.specs.Meaning.Public.{laid, Answers, Writes, laid_of};
ghost use Rattle.xdr.specs.Meaning.Marks.{MarksAre};
ghost use Rattle.xdr.specs.Meaning.Views.{view_found, view, view_wrote, view_marks};
ghost use Rattle.xdr.specs.Laws.Fields.{Lays};
ghost use Rattle.nfs.specs.Meaning.Dir.{nfs_fh};
ghost use Rattle.nfsattr.specs.Meaning.Attr.{wcc-data};
ghost use Rattle.nfsattr.specs.Meaning.Stat.{nfsstat};
ghost use Rattle.nfsdata.specs.Laws.Write.{write_args_size, write_res_size};
ghost use Rattle.nfsdata.specs.Meaning.Write.{stable-how, stable_how_number, stable_how_all, write_args, write_resok, write_resfail, write_res};

use nfs::dir::{nfs_fh3, nfs_fh3_at, nfs_fh3_inside, nfs_fh3_size, put_nfs_fh3};
use nfsattr::attr::{count3, offset3, wcc_data, writeverf3};
use nfsattr::inner::attr::wcc_data_at;
use nfsattr::inner::stat::nfsstat3_at;
use nfsattr::put::attr::{put_wcc_data, wcc_data_size};
use nfsattr::put::stat::put_nfsstat3;
use nfsattr::stat::{nfsfail3, nfsstat3};
use xdr::inner::{opaque_at, opaque_size, put_opaque, put_u32, put_u64, u32_at, u64_at};
use xdr::order::{open_at, place};
use xdr::{MOST, Marks, Piece, Refusal, Took, inside, write_u32};

#[derive(Clone, Copy)]
pub enum stable_how {
    UNSTABLE,
    DATA_SYNC,
    FILE_SYNC,
}

impl stable_how {
    pub const SIZE: usize = 4;

    pub fn size() -> usize
        ensures { OfSize result stable-how }
    {
        stable_how::SIZE
    }

    pub fn number(self) -> u32
        ensures { result ≡ stable_how_number self }
    {
        match self {
            stable_how::UNSTABLE => 0,
            stable_how::DATA_SYNC => 1,
            stable_how::FILE_SYNC => 2,
        }
    }

    pub fn of(v: u32) -> Option<stable_how>
        ensures { view_found result ≡ among stable_how_number stable_how_all v }
    {
        match v {
            0 => Some(stable_how::UNSTABLE),
            1 => Some(stable_how::DATA_SYNC),
            2 => Some(stable_how::FILE_SYNC),
            _ => None,
        }
    }
}

pub fn stable_how_at(src: &[u8], at: usize) -> Result<Took<stable_how>, Refusal>
    ensures { view result ≡ stable-how.kind.read src.now at }
{
    let v = u32_at(src, at)?;
    let Some(x) = stable_how::of(v.value) else {
        return Err(Refusal::Undeclared(at));
    };
    Ok(Took {
        value: x,
        next: v.next,
        plain: true,
    })
}

pub fn put_stable_how(v: stable_how, out: &mut [u8])
    ensures { out.new ≡ laid (stable-how.kind.write v) out.old }
{
    put_u32(v.number(), out);
}

pub fn read_stable_how(src: &[u8], at: usize) -> Result<Took<stable_how>, Refusal>
    ensures { Answers (exactly stable-how) src.now at (view result) }
{
    open_at(src, at)?;
    stable_how_at(src, at)
}

pub fn write_stable_how(v: stable_how, out: &mut [u8], at: usize) -> Result<usize, Refusal>
    ensures { Writes (exactly stable-how) [] v at out.old (view_wrote result) out.new }
{
    write_u32(v.number(), out, at)
}

#[derive(Clone, Copy)]
pub struct WRITE3args {
    pub file: nfs_fh3,
    pub offset: offset3,
    pub count: count3,
    pub stable: stable_how,
    pub data: Piece,
}

// Where not all of its fields are there.
fn write3args_cut(src: &[u8], at: usize) -> Result<Took<WRITE3args>, Refusal>
    ensures { view result ≡ write_args.held.read src.now at }
{
    let file = nfs_fh3_at(src, at)?;
    let offset = u64_at(src, file.next)?;
    let count = u32_at(src, offset.next)?;
    let stable = stable_how_at(src, count.next)?;
    let data = opaque_at(src, stable.next)?;
    Ok(Took {
        value: WRITE3args {
            file: file.value,
            offset: offset.value,
            count: count.value,
            stable: stable.value,
            data: data.value,
        },
        next: data.next,
        plain: file.plain & offset.plain & count.plain & stable.plain & data.plain,
    })
}

pub fn write3args_at(src: &[u8], at: usize) -> Result<Took<WRITE3args>, Refusal>
    ensures { view result ≡ write_args.held.read src.now at }
{
    let file = nfs_fh3_at(src, at)?;
    if src.len() < 20 {
        return write3args_cut(src, at);
    }
    if src.len() - 20 < file.next {
        return write3args_cut(src, at);
    }
    let offset = u64_at(src, file.next)?;
    let count = u32_at(src, offset.next)?;
    let stable = stable_how_at(src, count.next)?;
    let data = opaque_at(src, stable.next)?;
    Ok(Took {
        value: WRITE3args {
            file: file.value,
            offset: offset.value,
            count: count.value,
            stable: stable.value,
            data: data.value,
        },
        next: data.next,
        plain: file.plain & offset.plain & count.plain & stable.plain & data.plain,
    })
}

impl WRITE3args {
    pub fn marks(self) -> Marks
        ensures { MarksAre write_args self (view_marks result) }
    {
        let f1 = self.file;
        let f2 = f1.data;
        let f3 = self.data;
        Marks::Two(f2.clean, f3.clean)
    }
}

pub fn write3args_inside(src: &[u8], x: WRITE3args) -> bool
    ensures { result ≡ write_args.held.inside src.now x }
{
    let f1 = x.file;
    let f5 = x.data;
    nfs_fh3_inside(src, f1) & inside(src, f5)
}

pub fn write3args_size(x: WRITE3args) -> usize
    ensures { result ≡ write_args_size x }
{
    let f1 = x.file;
    let f5 = x.data;
    nfs_fh3_size(f1) + opaque_size(f5.count) + 16
}

fn put_write3args_4(src: &[u8], f4: stable_how, f5: Piece, out: &mut [u8])
    ensures { Lays (exactly stable-how ⨟ bytes) src.now (f4, f5) out.old out.new }
{
    if out.len() < stable_how::SIZE {
        return;
    }
    put_stable_how(f4, &mut out[0..]);
    put_opaque(src, f5, &mut out[stable_how::SIZE..]);
}

fn put_write3args_3(src: &[u8], f3: count3, f4: stable_how, f5: Piece, out: &mut [u8])
    ensures { Lays (exactly word ⨟ exactly stable-how ⨟ bytes) src.now (f3, (f4, f5)) out.old out.new }
{
    if out.len() < 4 {
        return;
    }
    put_u32(f3, &mut out[0..]);
    put_write3args_4(src, f4, f5, &mut out[4..]);
}

fn put_write3args_2(src: &[u8], f2: offset3, f3: count3, f4: stable_how, f5: Piece, out: &mut [u8])
    ensures { Lays (exactly hyper ⨟ exactly word ⨟ exactly stable-how ⨟ bytes) src.now (f2, (f3, (f4, f5))) out.old out.new }
{
    if out.len() < 8 {
        return;
    }
    put_u64(f2, &mut out[0..]);
    put_write3args_3(src, f3, f4, f5, &mut out[8..]);
}

fn put_write3args_1(
    src: &[u8],
    f1: nfs_fh3,
    f2: offset3,
    f3: count3,
    f4: stable_how,
    f5: Piece,
    out: &mut [u8],
)
    ensures { Lays (nfs_fh ⨟ exactly hyper ⨟ exactly word ⨟ exactly stable-how ⨟ bytes) src.now (f1, (f2, (f3, (f4, f5)))) out.old out.new }
{
    let n = nfs_fh3_size(f1);
    if out.len() < n {
        return;
    }
    put_nfs_fh3(src, f1, &mut out[0..]);
    put_write3args_2(src, f2, f3, f4, f5, &mut out[n..]);
}

pub fn put_write3args(src: &[u8], x: WRITE3args, out: &mut [u8])
    ensures { out.new ≡ laid_of write_args src.now x out.old }
{
    if MOST < src.len() {
        return;
    }
    if !write3args_inside(src, x) {
        return;
    }
    if out.len() < write3args_size(x) {
        return;
    }
    let f1 = x.file;
    let f2 = x.offset;
    let f3 = x.count;
    let f4 = x.stable;
    let f5 = x.data;
    put_write3args_1(src, f1, f2, f3, f4, f5, out);
}

pub fn read_write3args(src: &[u8], at: usize) -> Result<Took<WRITE3args>, Refusal>
    ensures { Answers write_args src.now at (view result) }
{
    open_at(src, at)?;
    write3args_at(src, at)
}

pub fn write_write3args(
    src: &[u8],
    x: WRITE3args,
    out: &mut [u8],
    at: usize,
) -> Result<usize, Refusal>
    ensures { Writes write_args src.now x at out.old (view_wrote result) out.new }
{
    let end = place(
        src.len(),
        write3args_inside(src, x),
        write3args_size(x),
        out.len(),
        at,
    )?;
    put_write3args(src, x, &mut out[at..]);
    Ok(end)
}

#[derive(Clone, Copy)]
pub struct WRITE3resok {
    pub file_wcc: wcc_data,
    pub count: count3,
    pub committed: stable_how,
    pub verf: writeverf3,
}

pub fn write3resok_at(src: &[u8], at: usize) -> Result<Took<WRITE3resok>, Refusal>
    ensures { view result ≡ write_resok.kind.read src.now at }
{
    let file_wcc = wcc_data_at(src, at)?;
    let count = u32_at(src, file_wcc.next)?;
    let committed = stable_how_at(src, count.next)?;
    let verf = u64_at(src, committed.next)?;
    Ok(Took {
        value: WRITE3resok {
            file_wcc: file_wcc.value,
            count: count.value,
            committed: committed.value,
            verf: verf.value,
        },
        next: verf.next,
        plain: file_wcc.plain & count.plain & committed.plain & verf.plain,
    })
}

pub fn write3resok_size(v: WRITE3resok) -> usize
    ensures { result ≡ length (write_resok.kind.write v) }
{
    let f1 = v.file_wcc;
    wcc_data_size(f1) + 16
}

fn put_write3resok_3(f3: stable_how, f4: writeverf3, out: &mut [u8])
    ensures { Lays (exactly stable-how ⨟ exactly hyper) [] (f3, f4) out.old out.new }
{
    if out.len() < stable_how::SIZE {
        return;
    }
    put_stable_how(f3, &mut out[0..]);
    put_u64(f4, &mut out[stable_how::SIZE..]);
}

fn put_write3resok_2(f2: count3, f3: stable_how, f4: writeverf3, out: &mut [u8])
    ensures { Lays (exactly word ⨟ exactly stable-how ⨟ exactly hyper) [] (f2, (f3, f4)) out.old out.new }
{
    if out.len() < 4 {
        return;
    }
    put_u32(f2, &mut out[0..]);
    put_write3resok_3(f3, f4, &mut out[4..]);
}

fn put_write3resok_1(f1: wcc_data, f2: count3, f3: stable_how, f4: writeverf3, out: &mut [u8])
    ensures { Lays (exactly wcc-data ⨟ exactly word ⨟ exactly stable-how ⨟ exactly hyper) [] (f1, (f2, (f3, f4))) out.old out.new }
{
    let n = wcc_data_size(f1);
    if out.len() < n {
        return;
    }
    put_wcc_data(f1, &mut out[0..]);
    put_write3resok_2(f2, f3, f4, &mut out[n..]);
}

pub fn put_write3resok(v: WRITE3resok, out: &mut [u8])
    ensures { out.new ≡ laid (write_resok.kind.write v) out.old }
{
    if out.len() < write3resok_size(v) {
        return;
    }
    let f1 = v.file_wcc;
    let f2 = v.count;
    let f3 = v.committed;
    let f4 = v.verf;
    put_write3resok_1(f1, f2, f3, f4, out);
}

#[derive(Clone, Copy)]
pub struct WRITE3resfail {
    pub file_wcc: wcc_data,
}

pub fn write3resfail_at(src: &[u8], at: usize) -> Result<Took<WRITE3resfail>, Refusal>
    ensures { view result ≡ write_resfail.kind.read src.now at }
{
    let file_wcc = wcc_data_at(src, at)?;
    Ok(Took {
        value: WRITE3resfail {
            file_wcc: file_wcc.value,
        },
        next: file_wcc.next,
        plain: file_wcc.plain,
    })
}

pub fn write3resfail_size(v: WRITE3resfail) -> usize
    ensures { result ≡ length (write_resfail.kind.write v) }
{
    let f1 = v.file_wcc;
    wcc_data_size(f1)
}

pub fn put_write3resfail(v: WRITE3resfail, out: &mut [u8])
    ensures { out.new ≡ laid (write_resfail.kind.write v) out.old }
{
    let f1 = v.file_wcc;
    put_wcc_data(f1, out);
}

#[derive(Clone, Copy)]
pub enum WRITE3res {
    NFS3_OK(WRITE3resok),
    Failed(nfsfail3, WRITE3resfail),
}

pub fn write3res_at(src: &[u8], at: usize) -> Result<Took<WRITE3res>, Refusal>
    ensures { view result ≡ write_res.held.read src.now at }
{
    let status = nfsstat3_at(src, at)?;
    match status.value {
        nfsstat3::NFS3_OK => {
            let v = write3resok_at(src, status.next)?;
            Ok(Took {
                value: WRITE3res::NFS3_OK(v.value),
                next: v.next,
                plain: status.plain & v.plain,
            })
        }
        nfsstat3::Failed(e) => {
            let v = write3resfail_at(src, status.next)?;
            Ok(Took {
                value: WRITE3res::Failed(e, v.value),
                next: v.next,
                plain: status.plain & v.plain,
            })
        }
    }
}

impl WRITE3res {
    pub fn marks(self) -> Marks
        ensures { MarksAre write_res self (view_marks result) }
    {
        match self {
            WRITE3res::NFS3_OK(_) => Marks::None,
            WRITE3res::Failed(_, _) => Marks::None,
        }
    }
}

pub fn write3res_inside(src: &[u8], x: WRITE3res) -> bool
    ensures { result ≡ write_res.held.inside src.now x }
{
    match x {
        WRITE3res::NFS3_OK(_) => true,
        WRITE3res::Failed(_, _) => true,
    }
}

pub fn write3res_size(x: WRITE3res) -> usize
    ensures { result ≡ write_res_size x }
{
    match x {
        WRITE3res::NFS3_OK(f) => 4 + write3resok_size(f),
        WRITE3res::Failed(_, f) => 4 + write3resfail_size(f),
    }
}

fn put_write3res_1(src: &[u8], status: nfsstat3, f: WRITE3resok, out: &mut [u8])
    ensures { Lays (exactly nfsstat ⨟ exactly write_resok) src.now (status, f) out.old out.new }
{
    if out.len() < 4 {
        return;
    }
    put_nfsstat3(status, &mut out[0..]);
    put_write3resok(f, &mut out[4..]);
}

fn put_write3res_2(src: &[u8], status: nfsstat3, f: WRITE3resfail, out: &mut [u8])
    ensures { Lays (exactly nfsstat ⨟ exactly write_resfail) src.now (status, f) out.old out.new }
{
    if out.len() < 4 {
        return;
    }
    put_nfsstat3(status, &mut out[0..]);
    put_write3resfail(f, &mut out[4..]);
}

pub fn put_write3res(src: &[u8], x: WRITE3res, out: &mut [u8])
    ensures { out.new ≡ laid_of write_res src.now x out.old }
{
    if MOST < src.len() {
        return;
    }
    if !write3res_inside(src, x) {
        return;
    }
    if out.len() < write3res_size(x) {
        return;
    }
    match x {
        WRITE3res::NFS3_OK(f) => put_write3res_1(src, nfsstat3::NFS3_OK, f, out),
        WRITE3res::Failed(e, f) => put_write3res_2(src, nfsstat3::Failed(e), f, out),
    }
}

pub fn read_write3res(src: &[u8], at: usize) -> Result<Took<WRITE3res>, Refusal>
    ensures { Answers write_res src.now at (view result) }
{
    open_at(src, at)?;
    write3res_at(src, at)
}

pub fn write_write3res(
    src: &[u8],
    x: WRITE3res,
    out: &mut [u8],
    at: usize,
) -> Result<usize, Refusal>
    ensures { Writes write_res src.now x at out.old (view_wrote result) out.new }
{
    let end = place(
        src.len(),
        write3res_inside(src, x),
        write3res_size(x),
        out.len(),
        at,
    )?;
    put_write3res(src, x, &mut out[at..]);
    Ok(end)
}
