// The kinds of NFS version 3 (RFC 1813), as the crate nfsserve reads and writes them.
//
// `read_X(src, at)` reads an X of a message from a place on; `write_X(.., out, at)` writes one into a buffer from a place on.
// Every input gets an answer. What the answers mean stands in specs/Meaning, here and in the crate nfsattr, whose kinds are passed on.
#![tactic(auto)]

pub mod constants;
pub mod inner;
pub mod put;
mod read;
pub mod root;
pub mod set;
mod sources;
mod write;
// made by tools/generate: modules
pub mod change;
pub mod dir;
// end of modules

pub use constants::{
    Constants, FSF_CANSETTIME, FSF_HOMOGENEOUS, FSF_LINK, FSF_SYMLINK, NFS3_COOKIEVERFSIZE,
    NFS3_CREATEVERFSIZE, NFS3_FHSIZE, NFS3_WRITEVERFSIZE, PROGRAM, VERSION, rfc1813_constants,
};
pub use nfsattr::{
    cookie3, cookieverf3, count3, createverf3, fattr3, fileid3, fsinfo3, ftype3, gid3, mode3,
    nfsfail3, nfsstat3, nfstime3, offset3, post_op_attr, pre_op_attr, read_fattr3, read_fsinfo3,
    read_ftype3, read_nfsstat3, read_nfstime3, read_post_op_attr, read_pre_op_attr, read_specdata3,
    read_wcc_attr, read_wcc_data, size3, specdata3, uid3, wcc_attr, wcc_data, write_fattr3,
    write_fsinfo3, write_ftype3, write_nfsstat3, write_nfstime3, write_post_op_attr,
    write_pre_op_attr, write_specdata3, write_wcc_attr, write_wcc_data, writeverf3,
};
pub use read::{read_nfsstring, read_sattr3, read_set_atime, read_set_mtime, read_time_how};
pub use root::get_root_mount_handle;
pub use set::{_time_how, sattr3, set_atime, set_mtime};
pub use sources::{fit_diropargs3_from, write_diropargs3_from};
pub use write::{write_nfsstring, write_sattr3, write_set_atime, write_set_mtime, write_time_how};

// made by tools/generate: names
pub use change::{
    read_set_gid3, read_set_mode3, read_set_size3, read_set_uid3, set_gid3, set_mode3, set_size3,
    set_uid3, write_set_gid3, write_set_mode3, write_set_size3, write_set_uid3,
};
pub use dir::{
    diropargs3, filename3, nfs_fh3, nfspath3, nfsstring, post_op_fh3, read_diropargs3,
    read_nfs_fh3, read_post_op_fh3, read_symlinkdata3, symlinkdata3, write_diropargs3,
    write_nfs_fh3, write_post_op_fh3, write_symlinkdata3,
};
// end of names
