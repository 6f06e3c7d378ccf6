// made by tools/generate from kinds.txt
// Each kind of RFC 1813, as a kind.
ghost use Rattle.xdr.specs.Meaning.Format.{exactly};
ghost use Rattle.xdr.specs.Meaning.Formats.{bytes};
ghost use Rattle.nfsattr.specs.Meaning.Stat.{nfsstat};
ghost use Rattle.nfsattr.specs.Meaning.Attr.{ftype, specdata, nfstime, fattr, fsinfo, wcc-attr, pre-op-attr, post-op-attr, wcc-data};
ghost use Rattle.nfs.specs.Meaning.Set.{time_how, set-atime, set-mtime, sattr};
ghost use Rattle.nfs.specs.Meaning.Dir.{nfs_fh, post_op_fh, diropargs, symlinkdata};
ghost use Rattle.nfs.specs.Meaning.Change.{set_mode, set_uid, set_gid, set_size};
ghost use Rattle.door.specs.Meaning.Copy.{held_as};
ghost use Rattle.door.specs.Laws.Still.{still-plain, still-time-how, still-nfsstat, still-ftype, still-specdata, still-nfstime, still-fattr, still-wcc-attr, still-atime, still-mtime};

use crate::kind::{Kind, Loose, Plain};
use xdr::{Marks, Refusal, Took};

pub(crate) struct Nfsstring;

impl Kind for Nfsstring {
    type Value = nfs::nfsstring;

    ghost number = { 7 };

    ghost held = { held_as bytes };

    ghost listed = { λ s at start o c o' d. d };

    fn read(src: &[u8], at: usize) -> Result<Took<nfs::nfsstring>, Refusal> {
        nfs::read_nfsstring(src, at)
    }

    fn marks(x: nfs::nfsstring) -> Marks {
        x.marks()
    }
}

impl Loose for Nfsstring {
    fn write(src: &[u8], x: nfs::nfsstring, out: &mut [u8], at: usize) -> Result<usize, Refusal> {
        nfs::write_nfsstring(src, x, out, at)
    }
}

pub(crate) struct TimeHow;

impl Kind for TimeHow {
    type Value = nfs::_time_how;

    ghost number = { 15 };

    ghost held = { held_as (exactly time_how) };

    ghost listed = { λ s at start o c o' d. d };

    fn read(src: &[u8], at: usize) -> Result<Took<nfs::_time_how>, Refusal> {
        nfs::read_time_how(src, at)
    }

    fn marks(_x: nfs::_time_how) -> Marks {
        Marks::None
    }
}

impl Plain for TimeHow {
    ghost plain = { still-plain (exactly time_how) still-time-how };
}

pub(crate) struct Nfsstat3;

impl Kind for Nfsstat3 {
    type Value = nfs::nfsstat3;

    ghost number = { 16 };

    ghost held = { held_as (exactly nfsstat) };

    ghost listed = { λ s at start o c o' d. d };

    fn read(src: &[u8], at: usize) -> Result<Took<nfs::nfsstat3>, Refusal> {
        nfs::read_nfsstat3(src, at)
    }

    fn marks(_x: nfs::nfsstat3) -> Marks {
        Marks::None
    }
}

impl Plain for Nfsstat3 {
    ghost plain = { still-plain (exactly nfsstat) still-nfsstat };
}

pub(crate) struct Ftype3;

impl Kind for Ftype3 {
    type Value = nfs::ftype3;

    ghost number = { 17 };

    ghost held = { held_as (exactly ftype) };

    ghost listed = { λ s at start o c o' d. d };

    fn read(src: &[u8], at: usize) -> Result<Took<nfs::ftype3>, Refusal> {
        nfs::read_ftype3(src, at)
    }

    fn marks(_x: nfs::ftype3) -> Marks {
        Marks::None
    }
}

impl Plain for Ftype3 {
    ghost plain = { still-plain (exactly ftype) still-ftype };
}

pub(crate) struct Specdata3;

impl Kind for Specdata3 {
    type Value = nfs::specdata3;

    ghost number = { 28 };

    ghost held = { held_as (exactly specdata) };

    ghost listed = { λ s at start o c o' d. d };

    fn read(src: &[u8], at: usize) -> Result<Took<nfs::specdata3>, Refusal> {
        nfs::read_specdata3(src, at)
    }

    fn marks(_x: nfs::specdata3) -> Marks {
        Marks::None
    }
}

impl Plain for Specdata3 {
    ghost plain = { still-plain (exactly specdata) still-specdata };
}

pub(crate) struct NfsFh3;

impl Kind for NfsFh3 {
    type Value = nfs::nfs_fh3;

    ghost number = { 29 };

    ghost held = { held_as nfs_fh };

    ghost listed = { λ s at start o c o' d. d };

    fn read(src: &[u8], at: usize) -> Result<Took<nfs::nfs_fh3>, Refusal> {
        nfs::read_nfs_fh3(src, at)
    }

    fn marks(x: nfs::nfs_fh3) -> Marks {
        x.marks()
    }
}

impl Loose for NfsFh3 {
    fn write(src: &[u8], x: nfs::nfs_fh3, out: &mut [u8], at: usize) -> Result<usize, Refusal> {
        nfs::write_nfs_fh3(src, x, out, at)
    }
}

pub(crate) struct Nfstime3;

impl Kind for Nfstime3 {
    type Value = nfs::nfstime3;

    ghost number = { 30 };

    ghost held = { held_as (exactly nfstime) };

    ghost listed = { λ s at start o c o' d. d };

    fn read(src: &[u8], at: usize) -> Result<Took<nfs::nfstime3>, Refusal> {
        nfs::read_nfstime3(src, at)
    }

    fn marks(_x: nfs::nfstime3) -> Marks {
        Marks::None
    }
}

impl Plain for Nfstime3 {
    ghost plain = { still-plain (exactly nfstime) still-nfstime };
}

pub(crate) struct Fattr3;

impl Kind for Fattr3 {
    type Value = nfs::fattr3;

    ghost number = { 31 };

    ghost held = { held_as (exactly fattr) };

    ghost listed = { λ s at start o c o' d. d };

    fn read(src: &[u8], at: usize) -> Result<Took<nfs::fattr3>, Refusal> {
        nfs::read_fattr3(src, at)
    }

    fn marks(_x: nfs::fattr3) -> Marks {
        Marks::None
    }
}

impl Plain for Fattr3 {
    ghost plain = { still-plain (exactly fattr) still-fattr };
}

pub(crate) struct Fsinfo3;

impl Kind for Fsinfo3 {
    type Value = nfs::fsinfo3;

    ghost number = { 32 };

    ghost held = { held_as (exactly fsinfo) };

    ghost listed = { λ s at start o c o' d. d };

    fn read(src: &[u8], at: usize) -> Result<Took<nfs::fsinfo3>, Refusal> {
        nfs::read_fsinfo3(src, at)
    }

    fn marks(_x: nfs::fsinfo3) -> Marks {
        Marks::None
    }
}

impl Loose for Fsinfo3 {
    fn write(_src: &[u8], x: nfs::fsinfo3, out: &mut [u8], at: usize) -> Result<usize, Refusal> {
        nfs::write_fsinfo3(x, out, at)
    }
}

pub(crate) struct WccAttr;

impl Kind for WccAttr {
    type Value = nfs::wcc_attr;

    ghost number = { 33 };

    ghost held = { held_as (exactly wcc-attr) };

    ghost listed = { λ s at start o c o' d. d };

    fn read(src: &[u8], at: usize) -> Result<Took<nfs::wcc_attr>, Refusal> {
        nfs::read_wcc_attr(src, at)
    }

    fn marks(_x: nfs::wcc_attr) -> Marks {
        Marks::None
    }
}

impl Plain for WccAttr {
    ghost plain = { still-plain (exactly wcc-attr) still-wcc-attr };
}

pub(crate) struct PreOpAttr;

impl Kind for PreOpAttr {
    type Value = nfs::pre_op_attr;

    ghost number = { 34 };

    ghost held = { held_as (exactly pre-op-attr) };

    ghost listed = { λ s at start o c o' d. d };

    fn read(src: &[u8], at: usize) -> Result<Took<nfs::pre_op_attr>, Refusal> {
        nfs::read_pre_op_attr(src, at)
    }

    fn marks(_x: nfs::pre_op_attr) -> Marks {
        Marks::None
    }
}

impl Loose for PreOpAttr {
    fn write(
        _src: &[u8],
        x: nfs::pre_op_attr,
        out: &mut [u8],
        at: usize,
    ) -> Result<usize, Refusal> {
        nfs::write_pre_op_attr(x, out, at)
    }
}

pub(crate) struct PostOpAttr;

impl Kind for PostOpAttr {
    type Value = nfs::post_op_attr;

    ghost number = { 35 };

    ghost held = { held_as (exactly post-op-attr) };

    ghost listed = { λ s at start o c o' d. d };

    fn read(src: &[u8], at: usize) -> Result<Took<nfs::post_op_attr>, Refusal> {
        nfs::read_post_op_attr(src, at)
    }

    fn marks(_x: nfs::post_op_attr) -> Marks {
        Marks::None
    }
}

impl Loose for PostOpAttr {
    fn write(
        _src: &[u8],
        x: nfs::post_op_attr,
        out: &mut [u8],
        at: usize,
    ) -> Result<usize, Refusal> {
        nfs::write_post_op_attr(x, out, at)
    }
}

pub(crate) struct WccData;

impl Kind for WccData {
    type Value = nfs::wcc_data;

    ghost number = { 36 };

    ghost held = { held_as (exactly wcc-data) };

    ghost listed = { λ s at start o c o' d. d };

    fn read(src: &[u8], at: usize) -> Result<Took<nfs::wcc_data>, Refusal> {
        nfs::read_wcc_data(src, at)
    }

    fn marks(_x: nfs::wcc_data) -> Marks {
        Marks::None
    }
}

impl Loose for WccData {
    fn write(_src: &[u8], x: nfs::wcc_data, out: &mut [u8], at: usize) -> Result<usize, Refusal> {
        nfs::write_wcc_data(x, out, at)
    }
}

pub(crate) struct PostOpFh3;

impl Kind for PostOpFh3 {
    type Value = nfs::post_op_fh3;

    ghost number = { 37 };

    ghost held = { held_as post_op_fh };

    ghost listed = { λ s at start o c o' d. d };

    fn read(src: &[u8], at: usize) -> Result<Took<nfs::post_op_fh3>, Refusal> {
        nfs::read_post_op_fh3(src, at)
    }

    fn marks(x: nfs::post_op_fh3) -> Marks {
        x.marks()
    }
}

impl Loose for PostOpFh3 {
    fn write(src: &[u8], x: nfs::post_op_fh3, out: &mut [u8], at: usize) -> Result<usize, Refusal> {
        nfs::write_post_op_fh3(src, x, out, at)
    }
}

pub(crate) struct SetMode3;

impl Kind for SetMode3 {
    type Value = nfs::set_mode3;

    ghost number = { 38 };

    ghost held = { held_as (exactly set_mode) };

    ghost listed = { λ s at start o c o' d. d };

    fn read(src: &[u8], at: usize) -> Result<Took<nfs::set_mode3>, Refusal> {
        nfs::read_set_mode3(src, at)
    }

    fn marks(_x: nfs::set_mode3) -> Marks {
        Marks::None
    }
}

impl Loose for SetMode3 {
    fn write(_src: &[u8], x: nfs::set_mode3, out: &mut [u8], at: usize) -> Result<usize, Refusal> {
        nfs::write_set_mode3(x, out, at)
    }
}

pub(crate) struct SetUid3;

impl Kind for SetUid3 {
    type Value = nfs::set_uid3;

    ghost number = { 39 };

    ghost held = { held_as (exactly set_uid) };

    ghost listed = { λ s at start o c o' d. d };

    fn read(src: &[u8], at: usize) -> Result<Took<nfs::set_uid3>, Refusal> {
        nfs::read_set_uid3(src, at)
    }

    fn marks(_x: nfs::set_uid3) -> Marks {
        Marks::None
    }
}

impl Loose for SetUid3 {
    fn write(_src: &[u8], x: nfs::set_uid3, out: &mut [u8], at: usize) -> Result<usize, Refusal> {
        nfs::write_set_uid3(x, out, at)
    }
}

pub(crate) struct SetGid3;

impl Kind for SetGid3 {
    type Value = nfs::set_gid3;

    ghost number = { 40 };

    ghost held = { held_as (exactly set_gid) };

    ghost listed = { λ s at start o c o' d. d };

    fn read(src: &[u8], at: usize) -> Result<Took<nfs::set_gid3>, Refusal> {
        nfs::read_set_gid3(src, at)
    }

    fn marks(_x: nfs::set_gid3) -> Marks {
        Marks::None
    }
}

impl Loose for SetGid3 {
    fn write(_src: &[u8], x: nfs::set_gid3, out: &mut [u8], at: usize) -> Result<usize, Refusal> {
        nfs::write_set_gid3(x, out, at)
    }
}

pub(crate) struct SetSize3;

impl Kind for SetSize3 {
    type Value = nfs::set_size3;

    ghost number = { 41 };

    ghost held = { held_as (exactly set_size) };

    ghost listed = { λ s at start o c o' d. d };

    fn read(src: &[u8], at: usize) -> Result<Took<nfs::set_size3>, Refusal> {
        nfs::read_set_size3(src, at)
    }

    fn marks(_x: nfs::set_size3) -> Marks {
        Marks::None
    }
}

impl Loose for SetSize3 {
    fn write(_src: &[u8], x: nfs::set_size3, out: &mut [u8], at: usize) -> Result<usize, Refusal> {
        nfs::write_set_size3(x, out, at)
    }
}

pub(crate) struct SetAtime;

impl Kind for SetAtime {
    type Value = nfs::set_atime;

    ghost number = { 42 };

    ghost held = { held_as (exactly set-atime) };

    ghost listed = { λ s at start o c o' d. d };

    fn read(src: &[u8], at: usize) -> Result<Took<nfs::set_atime>, Refusal> {
        nfs::read_set_atime(src, at)
    }

    fn marks(_x: nfs::set_atime) -> Marks {
        Marks::None
    }
}

impl Plain for SetAtime {
    ghost plain = { still-plain (exactly set-atime) still-atime };
}

pub(crate) struct SetMtime;

impl Kind for SetMtime {
    type Value = nfs::set_mtime;

    ghost number = { 43 };

    ghost held = { held_as (exactly set-mtime) };

    ghost listed = { λ s at start o c o' d. d };

    fn read(src: &[u8], at: usize) -> Result<Took<nfs::set_mtime>, Refusal> {
        nfs::read_set_mtime(src, at)
    }

    fn marks(_x: nfs::set_mtime) -> Marks {
        Marks::None
    }
}

impl Plain for SetMtime {
    ghost plain = { still-plain (exactly set-mtime) still-mtime };
}

pub(crate) struct Sattr3;

impl Kind for Sattr3 {
    type Value = nfs::sattr3;

    ghost number = { 44 };

    ghost held = { held_as (exactly sattr) };

    ghost listed = { λ s at start o c o' d. d };

    fn read(src: &[u8], at: usize) -> Result<Took<nfs::sattr3>, Refusal> {
        nfs::read_sattr3(src, at)
    }

    fn marks(_x: nfs::sattr3) -> Marks {
        Marks::None
    }
}

impl Loose for Sattr3 {
    fn write(_src: &[u8], x: nfs::sattr3, out: &mut [u8], at: usize) -> Result<usize, Refusal> {
        nfs::write_sattr3(x, out, at)
    }
}

pub(crate) struct Diropargs3;

impl Kind for Diropargs3 {
    type Value = nfs::diropargs3;

    ghost number = { 45 };

    ghost held = { held_as diropargs };

    ghost listed = { λ s at start o c o' d. d };

    fn read(src: &[u8], at: usize) -> Result<Took<nfs::diropargs3>, Refusal> {
        nfs::read_diropargs3(src, at)
    }

    fn marks(x: nfs::diropargs3) -> Marks {
        x.marks()
    }
}

impl Loose for Diropargs3 {
    fn write(src: &[u8], x: nfs::diropargs3, out: &mut [u8], at: usize) -> Result<usize, Refusal> {
        nfs::write_diropargs3(src, x, out, at)
    }
}

pub(crate) struct Symlinkdata3;

impl Kind for Symlinkdata3 {
    type Value = nfs::symlinkdata3;

    ghost number = { 46 };

    ghost held = { held_as symlinkdata };

    ghost listed = { λ s at start o c o' d. d };

    fn read(src: &[u8], at: usize) -> Result<Took<nfs::symlinkdata3>, Refusal> {
        nfs::read_symlinkdata3(src, at)
    }

    fn marks(x: nfs::symlinkdata3) -> Marks {
        x.marks()
    }
}

impl Loose for Symlinkdata3 {
    fn write(
        src: &[u8],
        x: nfs::symlinkdata3,
        out: &mut [u8],
        at: usize,
    ) -> Result<usize, Refusal> {
        nfs::write_symlinkdata3(src, x, out, at)
    }
}
