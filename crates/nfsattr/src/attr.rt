// Attributes of files and of file systems (RFC 1813, sections 2.5, 2.6 and 3.3.19). A fixed record carries its size.
ghost use Rattle.std.specs.Prelude.{◌≡◌};
ghost use Rattle.nfsattr.specs.Meaning.Attr.{ftype_number, ftypes};
ghost use Rattle.xdr.specs.Meaning.Views.{view_found};
ghost use Rattle.xdr.specs.Meaning.Combinators.{among};

pub type fileid3 = u64;

pub type cookie3 = u64;

pub type uid3 = u32;

pub type gid3 = u32;

pub type size3 = u64;

pub type offset3 = u64;

pub type mode3 = u32;

pub type count3 = u32;

// Eight fixed bytes, held as the number that they write.
pub type cookieverf3 = u64;

pub type createverf3 = u64;

pub type writeverf3 = u64;

#[derive(Clone, Copy)]
pub enum ftype3 {
    NF3REG,
    NF3DIR,
    NF3BLK,
    NF3CHR,
    NF3LNK,
    NF3SOCK,
    NF3FIFO,
}

impl ftype3 {
    pub const SIZE: usize = 4;

    pub fn number(self) -> u32
        ensures { result ≡ ftype_number self }
    {
        match self {
            ftype3::NF3REG => 1,
            ftype3::NF3DIR => 2,
            ftype3::NF3BLK => 3,
            ftype3::NF3CHR => 4,
            ftype3::NF3LNK => 5,
            ftype3::NF3SOCK => 6,
            ftype3::NF3FIFO => 7,
        }
    }

    pub fn of(v: u32) -> Option<ftype3>
        ensures { view_found result ≡ among ftype_number ftypes v }
    {
        match v {
            1 => Some(ftype3::NF3REG),
            2 => Some(ftype3::NF3DIR),
            3 => Some(ftype3::NF3BLK),
            4 => Some(ftype3::NF3CHR),
            5 => Some(ftype3::NF3LNK),
            6 => Some(ftype3::NF3SOCK),
            7 => Some(ftype3::NF3FIFO),
            _ => None,
        }
    }
}

// Major and minor device number.
#[derive(Clone, Copy)]
pub struct specdata3 {
    pub specdata1: u32,
    pub specdata2: u32,
}

impl specdata3 {
    pub const SIZE: usize = 8;
}

#[derive(Clone, Copy)]
pub struct nfstime3 {
    pub seconds: u32,
    pub nseconds: u32,
}

impl nfstime3 {
    pub const SIZE: usize = 8;
}

#[derive(Clone, Copy)]
pub struct fattr3 {
    pub ftype: ftype3,
    pub mode: mode3,
    pub nlink: u32,
    pub uid: uid3,
    pub gid: gid3,
    pub size: size3,
    pub used: size3,
    pub rdev: specdata3,
    pub fsid: u64,
    pub fileid: fileid3,
    pub atime: nfstime3,
    pub mtime: nfstime3,
    pub ctime: nfstime3,
}

impl fattr3 {
    pub const SIZE: usize = 84;
}

#[derive(Clone, Copy)]
pub struct wcc_attr {
    pub size: size3,
    pub mtime: nfstime3,
    pub ctime: nfstime3,
}

impl wcc_attr {
    pub const SIZE: usize = 24;
}

#[derive(Clone, Copy)]
pub enum pre_op_attr {
    Void,
    attributes(wcc_attr),
}

#[derive(Clone, Copy)]
pub enum post_op_attr {
    Void,
    attributes(fattr3),
}

#[derive(Clone, Copy)]
pub struct wcc_data {
    pub before: pre_op_attr,
    pub after: post_op_attr,
}

#[derive(Clone, Copy)]
pub struct fsinfo3 {
    pub obj_attributes: post_op_attr,
    pub rtmax: u32,
    pub rtpref: u32,
    pub rtmult: u32,
    pub wtmax: u32,
    pub wtpref: u32,
    pub wtmult: u32,
    pub dtpref: u32,
    pub maxfilesize: size3,
    pub time_delta: nfstime3,
    pub properties: u32,
}
