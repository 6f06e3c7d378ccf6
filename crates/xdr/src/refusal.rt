// Why a message is not read, written, assembled or answered: refusals 1 to 10 of docs/SCOPE.md, in one enum for every layer.
ghost use Rattle.std.specs.Prelude.{◌≡◌};
ghost use Rattle.xdr.specs.Meaning.Refusal.{number_of, place_of, wanting_of, needed_of};

#[derive(Clone, Copy)]
pub enum Refusal {
    // 1: the message ends inside an item; the place of the item's first byte, and how many bytes are wanting to finish it: the rest of a
    // word, a hyper or eight fixed bytes, or of a length word, or, once that word is there, of all that it counts, with the pad.
    Ended { place: usize, wanting: usize },
    // 2: a closed enumeration, or a closed tag, has an undeclared number; the place of that word.
    Undeclared(usize),
    // 3: a message, a source, a capacity or an encoding is over 1,048,576 bytes.
    TooLong,
    // 4: a message to be written names a piece outside its source.
    Outside,
    // 5: too little room from the asked place on; how many bytes the writing needs there.
    NoRoom { needed: usize },
    // 6: the record assembler's state does not fit.
    Unfit,
    // 7: a fragment would pass the end of the record buffer.
    Overrun,
    // 8: a REPLY reached the choice of program.
    NotCall,
    // 9: a start place is past the end.
    PastEnd,
    // 10: a path is above its bound; the place of its length word, and 0 in writing.
    LongPath(usize),
}

impl Refusal {
    pub fn number(self) -> u32
        ensures { result ≡ number_of self }
    {
        match self {
            Refusal::Ended { .. } => 1,
            Refusal::Undeclared(_) => 2,
            Refusal::TooLong => 3,
            Refusal::Outside => 4,
            Refusal::NoRoom { .. } => 5,
            Refusal::Unfit => 6,
            Refusal::Overrun => 7,
            Refusal::NotCall => 8,
            Refusal::PastEnd => 9,
            Refusal::LongPath(_) => 10,
        }
    }

    // The place of refusals 1, 2 and 10; 0 of the others, which have none.
    pub fn place(self) -> usize
        ensures { result ≡ place_of self }
    {
        match self {
            Refusal::Ended { place, .. } => place,
            Refusal::Undeclared(place) => place,
            Refusal::LongPath(place) => place,
            _ => 0,
        }
    }

    // How many bytes refusal 1 wants; 0 of the others, which want none.
    pub fn wanting(self) -> usize
        ensures { result ≡ wanting_of self }
    {
        match self {
            Refusal::Ended { wanting, .. } => wanting,
            _ => 0,
        }
    }

    // How many bytes the writing needs, after refusal 5; 0 for the others.
    pub fn needed(self) -> usize
        ensures { result ≡ needed_of self }
    {
        match self {
            Refusal::NoRoom { needed } => needed,
            _ => 0,
        }
    }
}
