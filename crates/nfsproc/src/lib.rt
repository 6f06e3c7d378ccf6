// The procedures of NFS version 3 by their numbers (RFC 1813, section 3): `read_arguments` and `read_results` read what a procedure takes and
// gives, at the place that a hand_over of `rpcwire` gives. The kinds stand in the crates `nfsfile` (GETATTR, SETATTR, LOOKUP) and `nfsdata`
// (READ, WRITE), so that each is checked in short time.
//
// Every input gets an answer. What the answers mean stands in specs/Meaning.
#![tactic(auto)]

// made by tools/generate: modules
pub mod procedures;
// end of modules

// made by tools/generate: names
pub use procedures::{Arguments, Results, read_arguments, read_results};
// end of names
