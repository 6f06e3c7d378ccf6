// The questions, in order.

// The kinds that are asked about, by the numbers that `door` gives them. (It takes them as numbers.)
pub(crate) const BOOL: u32 = 0;

pub(crate) const OPAQUE: u32 = 6;

pub(crate) const WORDS: u32 = 8;

pub(crate) const RPC_MSG: u32 = 20;

pub(crate) const READ3RES: u32 = 56;

pub(crate) const WRITE3ARGS: u32 = 57;

// A message whose first word is given, or one of some kinds that are made, read at a place and rewritten.
#[derive(Clone, Copy)]
pub(crate) struct Reading {
    pub kind: u32,
    pub first: u32,
    pub at: usize,
    pub length: usize,
}

impl Reading {
    fn new(kind: u32, first: u32, at: usize, length: usize) -> Reading {
        Reading {
            kind,
            first,
            at,
            length,
        }
    }
}

// Opaques and word lists that fill the message or would pass its end, flags at its end, calls, and the data of READ and WRITE.
pub(crate) fn readings() -> [Reading; 25] {
    [
        Reading::new(OPAQUE, 1048572, 0, 1048575),
        Reading::new(OPAQUE, 1048572, 0, 1048576),
        Reading::new(OPAQUE, 1048572, 0, 1048577),
        Reading::new(OPAQUE, 1048571, 0, 1048576),
        Reading::new(OPAQUE, 1048573, 0, 1048576),
        Reading::new(WORDS, 262143, 0, 1048575),
        Reading::new(WORDS, 262143, 0, 1048576),
        Reading::new(WORDS, 262143, 0, 1048577),
        Reading::new(WORDS, 262144, 0, 1048576),
        Reading::new(BOOL, 66051, 1048572, 1048576),
        Reading::new(BOOL, 66051, 1048573, 1048576),
        Reading::new(BOOL, 66051, 1048576, 1048576),
        Reading::new(BOOL, 66051, 1048577, 1048576),
        Reading::new(BOOL, 66051, 0, 1048577),
        Reading::new(BOOL, 66051, 1048577, 1048577),
        Reading::new(BOOL, 66051, 1048578, 1048577),
        Reading::new(RPC_MSG, 42, 0, 1048575),
        Reading::new(RPC_MSG, 42, 0, 1048576),
        Reading::new(RPC_MSG, 42, 0, 1048577),
        Reading::new(READ3RES, 0, 0, 1048575),
        Reading::new(READ3RES, 0, 0, 1048576),
        Reading::new(READ3RES, 0, 0, 1048577),
        Reading::new(WRITE3ARGS, 4, 0, 1048575),
        Reading::new(WRITE3ARGS, 4, 0, 1048576),
        Reading::new(WRITE3ARGS, 4, 0, 1048577),
    ]
}

// A piece of a source of some length, written into a room of some length from a place on.
#[derive(Clone, Copy)]
pub(crate) struct Writing {
    pub kind: u32,
    pub length: usize,
    pub piece: usize,
    pub count: usize,
    pub room: usize,
    pub start: usize,
}

impl Writing {
    fn new(
        kind: u32,
        length: usize,
        piece: usize,
        count: usize,
        room: usize,
        start: usize,
    ) -> Writing {
        Writing {
            kind,
            length,
            piece,
            count,
            room,
            start,
        }
    }
}

// Pieces whose encoding has 1,048,576 bytes, and others whose encoding, place or source is past a bound.
pub(crate) fn writings() -> [Writing; 11] {
    [
        Writing::new(OPAQUE, 1048576, 0, 1048572, 1048576, 0),
        Writing::new(OPAQUE, 1048576, 0, 1048572, 1048575, 0),
        Writing::new(OPAQUE, 1048576, 4, 1048572, 1048584, 8),
        Writing::new(OPAQUE, 1048576, 4, 1048572, 1048584, 9),
        Writing::new(OPAQUE, 1048576, 4, 1048572, 1048584, 1048585),
        Writing::new(OPAQUE, 1048576, 5, 1048572, 1048584, 0),
        Writing::new(OPAQUE, 1048576, 0, 1048571, 1048584, 0),
        Writing::new(OPAQUE, 1048576, 0, 1048573, 1048584, 0),
        Writing::new(OPAQUE, 1048577, 0, 0, 1048584, 0),
        Writing::new(WORDS, 1048576, 0, 262143, 1048584, 0),
        Writing::new(WORDS, 1048576, 0, 262144, 1048584, 0),
    ]
}

// A call with a credential of a flavor, for its program.
#[derive(Clone, Copy)]
pub(crate) struct Choosing {
    pub flavor: u32,
    pub length: usize,
}

impl Choosing {
    fn new(flavor: u32, length: usize) -> Choosing {
        Choosing { flavor, length }
    }
}

// Calls without a name, and with AUTH_UNIX.
pub(crate) fn choosings() -> [Choosing; 6] {
    [
        Choosing::new(0, 1048575),
        Choosing::new(0, 1048576),
        Choosing::new(0, 1048577),
        Choosing::new(1, 1048575),
        Choosing::new(1, 1048576),
        Choosing::new(1, 1048577),
    ]
}

// A stream of a fragment and a last one of these lengths, or, where the second is 0, of a last one only; in three runs, of which the last
// two may be empty, fed into a buffer of that capacity.
#[derive(Clone, Copy)]
pub(crate) struct Feeding {
    pub capacity: usize,
    pub first: u32,
    pub second: u32,
    pub runs: [usize; 3],
}

impl Feeding {
    fn new(capacity: usize, first: u32, second: u32, runs: [usize; 3]) -> Feeding {
        Feeding {
            capacity,
            first,
            second,
            runs,
        }
    }
}

// A record in one fragment and in two, which fits or is one byte too long, in one run and in three.
pub(crate) fn feedings() -> [Feeding; 8] {
    [
        Feeding::new(1048576, 1048576, 0, [1048580, 0, 0]),
        Feeding::new(1048576, 1048576, 0, [3, 1048576, 1]),
        Feeding::new(1048575, 1048576, 0, [1048580, 0, 0]),
        Feeding::new(1048576, 1048577, 0, [1048584, 0, 0]),
        Feeding::new(1048576, 524288, 524288, [1048584, 0, 0]),
        Feeding::new(1048576, 524288, 524288, [524294, 2, 524288]),
        Feeding::new(1048576, 524288, 524289, [1048584, 0, 0]),
        Feeding::new(1048576, 524288, 524289, [524294, 2, 524288]),
    ]
}

// A message written as one fragment into a room of some length from a place on.
#[derive(Clone, Copy)]
pub(crate) struct Fragmenting {
    pub length: usize,
    pub room: usize,
    pub start: usize,
}

impl Fragmenting {
    fn new(length: usize, room: usize, start: usize) -> Fragmenting {
        Fragmenting {
            length,
            room,
            start,
        }
    }
}

// Messages written as fragments.
pub(crate) fn fragmentings() -> [Fragmenting; 8] {
    [
        Fragmenting::new(1048576, 1048580, 0),
        Fragmenting::new(1048576, 1048579, 0),
        Fragmenting::new(1048576, 1048584, 4),
        Fragmenting::new(1048576, 1048584, 5),
        Fragmenting::new(1048576, 1048584, 1048584),
        Fragmenting::new(1048576, 1048584, 1048585),
        Fragmenting::new(1048577, 1048584, 0),
        Fragmenting::new(1048577, 1048584, 1048585),
    ]
}
