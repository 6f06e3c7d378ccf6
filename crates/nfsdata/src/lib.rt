// The arguments and results of READ and WRITE of NFS version 3 (RFC 1813, section 3.3).
//
// `read_X(src, at)` reads an X of a message from a place on; `write_X(src, .., out, at)` writes one into a buffer from a place on, from the
// source that its pieces are of. A type has the RFC's name (`READ3res`), and its functions have that in small letters. The crate
// `nfsproc` reads them by the number of a procedure.
// Every input gets an answer. What the answers mean stands in specs/Meaning.
#![tactic(auto)]

// made by tools/generate: modules
pub mod read;
pub mod write;
// end of modules

// made by tools/generate: names
pub use read::{
    READ3args, READ3res, READ3resfail, READ3resok, read_read3args, read_read3res, write_read3args,
    write_read3res,
};
pub use write::{
    WRITE3args, WRITE3res, WRITE3resfail, WRITE3resok, read_stable_how, read_write3args,
    read_write3res, stable_how, write_stable_how, write_write3args, write_write3res,
};
// end of names
