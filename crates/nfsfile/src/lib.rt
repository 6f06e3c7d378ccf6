// The arguments and results of GETATTR, SETATTR and LOOKUP of NFS version 3 (RFC 1813, section 3.3).
//
// `read_X(src, at)` reads an X of a message from a place on; `write_X(src, .., out, at)` writes one into a buffer from a place on, from the
// source that its pieces are of. A type has the RFC's name (`LOOKUP3res`), and its functions have that in small letters. The crate
// `nfsproc` reads them by the number of a procedure.
// Every input gets an answer. What the answers mean stands in specs/Meaning.
#![tactic(auto)]

// made by tools/generate: modules
pub mod getattr;
pub mod lookup;
pub mod setattr;
// end of modules

// made by tools/generate: names
pub use getattr::{
    GETATTR3args, GETATTR3res, GETATTR3resok, read_getattr3args, read_getattr3res,
    write_getattr3args, write_getattr3res,
};
pub use lookup::{
    LOOKUP3args, LOOKUP3res, LOOKUP3resfail, LOOKUP3resok, read_lookup3args, read_lookup3res,
    write_lookup3args, write_lookup3res,
};
pub use setattr::{
    SETATTR3args, SETATTR3res, SETATTR3resfail, SETATTR3resok, read_sattrguard3, read_setattr3args,
    read_setattr3res, sattrguard3, write_sattrguard3, write_setattr3args, write_setattr3res,
};
// end of names
