// The constants of RFC 1813, sections 2.1, 2.4 and 3.3.19.
ghost use Rattle.std.specs.Prelude.{◌≡◌};
ghost use Rattle.nfs.specs.Meaning.Constants.{rfc1813};

// The RPC program of NFS version 3.
pub const PROGRAM: u32 = 100003;

pub const VERSION: u32 = 3;

// The most bytes of a file handle in the RFC. Handles of any length are read.
pub const NFS3_FHSIZE: u32 = 64;

// How many bytes the verifiers of READDIR and READDIRPLUS, of exclusive CREATE and of asynchronous WRITE have.
pub const NFS3_COOKIEVERFSIZE: u32 = 8;

pub const NFS3_CREATEVERFSIZE: u32 = 8;

pub const NFS3_WRITEVERFSIZE: u32 = 8;

// Bits of `fsinfo3::properties`: hard links, symbolic links, PATHCONF the same for every file, times that SETATTR can set.
pub const FSF_LINK: u32 = 1;

pub const FSF_SYMLINK: u32 = 2;

pub const FSF_HOMOGENEOUS: u32 = 8;

pub const FSF_CANSETTIME: u32 = 16;

// All of them as one value.
#[derive(Clone, Copy)]
pub struct Constants {
    pub program: u32,
    pub version: u32,
    pub fhsize: u32,
    pub cookieverfsize: u32,
    pub createverfsize: u32,
    pub writeverfsize: u32,
    pub link: u32,
    pub symlink: u32,
    pub homogeneous: u32,
    pub cansettime: u32,
}

// The contract holds each constant to the RFC's number.
pub fn rfc1813_constants() -> Constants
    ensures { result ≡ rfc1813 }
{
    Constants {
        program: PROGRAM,
        version: VERSION,
        fhsize: NFS3_FHSIZE,
        cookieverfsize: NFS3_COOKIEVERFSIZE,
        createverfsize: NFS3_CREATEVERFSIZE,
        writeverfsize: NFS3_WRITEVERFSIZE,
        link: FSF_LINK,
        symlink: FSF_SYMLINK,
        homogeneous: FSF_HOMOGENEOUS,
        cansettime: FSF_CANSETTIME,
    }
}
