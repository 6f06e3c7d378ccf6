// What the crate nfsserve has in rpcwire.rs, without its sockets: records assembled from whatever runs of bytes a stream comes in, and
// written (RFC 5531, section 11); and the choice of the program that a message is for.
//
// Every input gets an answer. What the answers mean stands in specs/Meaning.
#![tactic(auto)]

pub mod assembler;
pub mod choice;
mod fragment;

pub use assembler::{Assembler, Fed, feed, fits, fresh_assembler};
pub use choice::{Choice, choose, current_choose};
pub use fragment::write_fragment;
