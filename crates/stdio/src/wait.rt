// Calls of a stream that are not ready, and are made again.
use std::hint::spin_loop;
use std::io::{Error, ErrorKind};

// Whether an error passes by itself: the descriptor was not ready, or a signal came.
pub(crate) fn passes(why: &Error) -> bool {
    matches!(why.kind(), ErrorKind::WouldBlock | ErrorKind::Interrupted)
}

// A pause without a handle to wait by, so it is a short one.
pub(crate) fn pause() {
    spin_loop();
}
