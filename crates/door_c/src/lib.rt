// What C and Rust programs call: each function of the crate door that is for them, under its own name. A slice passes as a pointer
// and a length. In door the file of the same name says what each does.
#![tactic(auto)]

mod current;
mod exports;
mod judge;
mod marks;
mod mounting;
mod replies;
mod rewrite;
mod values_read;
mod values_write;
