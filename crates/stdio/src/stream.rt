// A standard stream with what it needs beside it.
ghost use Rattle.std.specs.Prelude.{◌≡◌};

use std::io::{Stderr, Stdin, Stdout};

// A stream, and where it is said that it failed.
#[derive(Drop)]
pub struct Stream<T, E> {
    pub stream: T,
    pub errors: E,
}

impl<T, E> Stream<T, E> {
    pub fn new(stream: T, errors: E) -> Stream<T, E>
        ensures stream { result.stream ≡ stream }
        ensures errors { result.errors ≡ errors }
    {
        Stream { stream, errors }
    }
}

// A program's own streams.
pub type Input = Stream<Stdin, Stderr>;

pub type Output = Stream<Stdout, Stderr>;
