// What the mount protocol adds to NFS version 3 (RFC 1813, appendix I), and the mapping of the port mapper (RFC 1057, appendix A).
//
// `read_X(src, at)` reads an X of a message from a place on; `write_X(.., out, at)` writes one into a buffer from a place on. One that has
// pieces is written from the source that they are of. A type has the RFC's name. An export list is read whole (`read_exports`), walked
// (`next_export`, `next_group`), written (`write_exports`) and compared (`same_exports`). `ask(message, seen, out)` answers a call to either
// program, or reads it and hands it on.
// Every input gets an answer. What the answers mean stands in specs/Meaning.
#![tactic(auto)]

pub mod asking;
pub mod export;
pub mod group;
pub mod path;
pub mod same;
// made by tools/generate: modules
pub mod mnt;
pub mod portmap;
// end of modules

pub use asking::{Asked, answer, ask};
pub use export::{exportnode, exports, next_export, read_exports, write_exports};
pub use group::next_group;
pub use path::{MNTPATHLEN, dirpath, read_dirpath, write_dirpath};
pub use same::same_exports;
// made by tools/generate: names
pub use mnt::{
    fhandle3, mountfail3, mountres3, mountres3_ok, mountstat3, read_mountres3, read_mountstat3,
    write_mountres3, write_mountstat3,
};
pub use portmap::{mapping, read_mapping, write_mapping};
// end of names
