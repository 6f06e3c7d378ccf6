// Records assembled from a stream. The state is a value: it goes in with a run of bytes and the buffer that the record grows in, and
// comes back with the answer.
ghost use Rattle.std.specs.Prelude.{◌≡◌, ◌≤◌, ◌^◌};
ghost use Rattle.rpcwire.specs.Meaning.Stream.{in_header, in_fragment, halted, fits_of, flags_fit, settled, header_byte, fresh_of, Feeds};
ghost use Rattle.rpcwire.specs.Meaning.Views.{view_made, view_fed};

use xdr::{MOST, Refusal};

// Where the assembler stands between two runs.
#[derive(Clone, Copy)]
pub struct Assembler {
    // The record buffer's length.
    pub capacity: usize,
    // Bytes of the record that the buffer holds.
    pub placed: usize,
    // Header bytes so far, 0 to 3, and their value.
    pub header_count: usize,
    pub header_value: usize,
    // Bytes left in the fragment, and whether it is the record's last.
    pub left: usize,
    pub last: bool,
    // A fragment would have passed the buffer's end.
    pub stopped: bool,
}

// What a run of bytes led to: the state to go on with, and how many bytes of the run were used. It is no `Result`, for a refusal hands both
// back too.
#[derive(Clone, Copy)]
pub enum Fed {
    // Unfit, with the state as given; or Overrun, with the stopped state.
    Refused {
        refusal: Refusal,
        state: Assembler,
        used: usize,
    },
    // All of the run is used, and the record goes on.
    More {
        state: Assembler,
        used: usize,
    },
    // The record is the buffer's first `length` bytes. The state is fresh, and what was not used belongs to the next record.
    Complete {
        length: usize,
        state: Assembler,
        used: usize,
    },
}

impl Assembler {
    // Some header bytes have come, or none, between two fragments.
    fn in_header(capacity: usize, placed: usize, count: usize, value: usize) -> Assembler
        ensures { result ≡ in_header capacity placed count value }
    {
        Assembler {
            capacity,
            placed,
            header_count: count,
            header_value: value,
            left: 0,
            last: false,
            stopped: false,
        }
    }

    fn in_fragment(capacity: usize, placed: usize, left: usize, last: bool) -> Assembler
        ensures { result ≡ in_fragment capacity placed left last }
    {
        Assembler {
            capacity,
            placed,
            header_count: 0,
            header_value: 0,
            left,
            last,
            stopped: false,
        }
    }

    fn halted(capacity: usize, placed: usize) -> Assembler
        ensures { result ≡ halted capacity placed }
    {
        Assembler {
            capacity,
            placed,
            header_count: 0,
            header_value: 0,
            left: 0,
            last: false,
            stopped: true,
        }
    }
}

// A state for records of up to `capacity` bytes, before the first byte.
pub fn fresh_assembler(capacity: usize) -> Result<Assembler, Refusal>
    ensures { view_made result ≡ fresh_of capacity }
{
    if MOST < capacity {
        return Err(Refusal::TooLong);
    }
    Ok(Assembler::in_header(capacity, 0, 0, 0))
}

// 256 to the count.
fn limit(count: usize) -> usize
    requires { count ≤ 3 }
    ensures { result ≡ 256 ^ count }
{
    if count == 0 {
        return 1;
    }
    if count == 1 {
        return 256;
    }
    if count == 2 {
        return 65536;
    }
    16777216
}

// Header bytes and a fragment's bytes are not both due, the last fragment has bytes left, and a stopped state has neither.
fn flags_fit(left: usize, count: usize, last: bool, stopped: bool) -> bool
    ensures { result ≡ flags_fit left count last stopped }
{
    if left == 0 {
        if last {
            return false;
        }
        if stopped {
            return count == 0;
        }
        return true;
    }
    if stopped {
        return false;
    }
    count == 0
}

// Whether a state can be fed with a record buffer of n bytes: refusal 6 is for the others.
pub fn fits(s: Assembler, n: usize) -> bool
    ensures { result ≡ fits_of s n }
{
    if s.capacity != n {
        return false;
    }
    if MOST < s.capacity {
        return false;
    }
    if s.capacity < s.placed {
        return false;
    }
    if s.capacity - s.placed < s.left {
        return false;
    }
    if 3 < s.header_count {
        return false;
    }
    if limit(s.header_count) <= s.header_value {
        return false;
    }
    flags_fit(s.left, s.header_count, s.last, s.stopped)
}

// Where a fragment with so many bytes left leads.
fn settle(capacity: usize, placed: usize, left: usize, last: bool, used: usize) -> Fed
    ensures { view_fed result ≡ settled capacity placed left last used }
{
    if left == 0 {
        if last {
            return Fed::Complete {
                length: placed,
                state: Assembler::in_header(capacity, 0, 0, 0),
                used,
            };
        }
        return Fed::More {
            state: Assembler::in_header(capacity, placed, 0, 0),
            used,
        };
    }
    Fed::More {
        state: Assembler::in_fragment(capacity, placed, left, last),
        used,
    }
}

// One header byte: `word` is its value with the `count` bytes before it. The fourth says how long the fragment is.
#[tactic(auto, unfolding(crate::specs::Meaning::Stream::header_byte, crate::specs::Meaning::Stream::headed))]
fn header_byte(capacity: usize, placed: usize, count: usize, word: usize, used: usize) -> Fed
    requires { placed ≤ capacity }
    ensures { view_fed result ≡ header_byte capacity placed count word used }
{
    if count < 3 {
        return Fed::More {
            state: Assembler::in_header(capacity, placed, count + 1, word),
            used,
        };
    }
    let n = word % 2147483648;
    if capacity - placed < n {
        return Fed::Refused {
            refusal: Refusal::Overrun,
            state: Assembler::halted(capacity, placed),
            used,
        };
    }
    settle(capacity, placed, n, 2147483648 <= word, used)
}

// Feeds a run of bytes to the assembler, with the buffer that the record grows in. What it answers, and what the buffer then holds, is
// what the stream rules say of the run taken byte by byte; but a fragment's bytes are copied all at once.
pub fn feed(state: Assembler, run: &[u8], buf: &mut [u8]) -> Fed
    ensures { Feeds state run.now buf.old (view_fed result) buf.new }
{
    if !fits(state, buf.len()) {
        return Fed::Refused {
            refusal: Refusal::Unfit,
            state,
            used: 0,
        };
    }
    if state.stopped {
        return Fed::Refused {
            refusal: Refusal::Overrun,
            state,
            used: 0,
        };
    }
    let mut s = state;
    let mut i: usize = 0;
    // A turn uses one header byte, or all that the run has of a fragment, so no `for` over the run would do.
    while i < run.len() {
        let capacity = s.capacity;
        let placed = s.placed;
        let left = s.left;
        if left == 0 {
            let word = s.header_value * 256 + run[i] as usize;
            let step = header_byte(capacity, placed, s.header_count, word, i + 1);
            let Fed::More { state: next, used } = step else {
                return step;
            };
            s = next;
            i = used;
        } else {
            let n = left.min(run.len() - i);
            let end = i + n;
            buf[placed..placed + n].copy_from_slice(&run[i..end]);
            let step = settle(capacity, placed + n, left - n, s.last, end);
            let Fed::More { state: next, used } = step else {
                return step;
            };
            s = next;
            i = used;
        }
    }
    Fed::More { state: s, used: i }
}
