// Standard input and output for programs, by which nothing is lost in silence: all is written, and what cannot be read or written is said on
// standard error.
//
// A call that is not ready (EAGAIN, on a descriptor that does not block) or that a signal interrupts is made again. Programs over it end with
// status 0 whatever happened: what they say on standard error is how others learn of a loss.
#![tactic(auto)]

mod fail;
mod input;
mod output;
mod printer;
mod stream;
#[cfg(test)]
mod tests;
mod wait;

pub use input::{Got, read};
pub use output::{Out, complain, flush, number, say};
pub use printer::Printer;
pub use stream::{Input, Output, Stream};
