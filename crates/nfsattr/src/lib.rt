// The statuses and attributes of NFS version 3 (RFC 1813), as the crate nfsserve reads and writes them. Users find them in `nfs`, with the
// other kinds; they are a crate of their own so that each is checked in short time.
//
// `read_X(src, at)` reads an X of a message from a place on; `write_X(.., out, at)` writes one into a buffer from a place on.
// Every input gets an answer. What the answers mean stands in specs/Meaning.
#![tactic(auto)]

pub mod attr;
pub mod inner;
pub mod put;
mod read;
pub mod sizes;
pub mod stat;
mod write;

pub use attr::{
    cookie3, cookieverf3, count3, createverf3, fattr3, fileid3, fsinfo3, ftype3, gid3, mode3,
    nfstime3, offset3, post_op_attr, pre_op_attr, size3, specdata3, uid3, wcc_attr, wcc_data,
    writeverf3,
};
pub use read::{
    read_fattr3, read_fsinfo3, read_ftype3, read_nfsstat3, read_nfstime3, read_post_op_attr,
    read_pre_op_attr, read_specdata3, read_wcc_attr, read_wcc_data,
};
pub use sizes::{FixedSizes, fixed_sizes};
pub use stat::{nfsfail3, nfsstat3};
pub use write::{
    write_fattr3, write_fsinfo3, write_ftype3, write_nfsstat3, write_nfstime3, write_post_op_attr,
    write_pre_op_attr, write_specdata3, write_wcc_attr, write_wcc_data,
};
