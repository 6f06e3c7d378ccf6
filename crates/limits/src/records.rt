// The questions about records of a stream: `fresh`, `feed`, `state` and `fragment`.
use crate::cases::{Feeding, Fragmenting};
use crate::items::front;
use crate::make::Buffers;
use crate::print::Page;
use crate::{make, print};
use rpcwire::{Assembler, Fed};
use xdr::Piece;

// A state of some capacity.
pub(crate) fn fresh(capacity: usize, page: &mut Page) {
    page.say(b"fresh");
    print::number(page, capacity);
    page.say(b":");
    match rpcwire::fresh_assembler(capacity) {
        Ok(_) => page.say(b" ready"),
        Err(refusal) => print::refusal(page, refusal),
    }
    page.say(b"\n");
}

fn of_capacity(capacity: usize) -> Assembler {
    Assembler {
        capacity,
        placed: 0,
        header_count: 0,
        header_value: 0,
        left: 0,
        last: false,
        stopped: false,
    }
}

// Feeds a run, says what that gives, and answers the state that it leaves.
fn feed(given: Assembler, run: &[u8], buf: &mut [u8], page: &mut Page) -> Assembler {
    match rpcwire::feed(given, run, buf) {
        Fed::Refused {
            refusal,
            state,
            used,
        } => {
            page.say(b" refused");
            print::numbers(page, &[refusal.number() as usize, used]);
            state
        }
        Fed::More { state, used } => {
            page.say(b" more");
            print::number(page, used);
            state
        }
        Fed::Complete {
            length,
            state,
            used,
        } => {
            page.say(b" complete");
            print::numbers(page, &[length, used]);
            state
        }
    }
}

// The header of a last fragment.
fn last(length: u32) -> u32 {
    length % 2147483648 + 2147483648
}

impl Feeding {
    // The headers of the fragments.
    fn prepare(&self, stream: &mut [u8]) {
        make::rule(stream);
        if self.second == 0 {
            make::word(stream, 0, last(self.first));
        } else {
            make::word(stream, 0, self.first);
            make::word(stream, 4 + self.first as usize, last(self.second));
        }
    }

    pub(crate) fn ask(&self, buffers: &mut Buffers, page: &mut Page) {
        page.say(b"feed");
        print::numbers(
            page,
            &[self.capacity, self.first as usize, self.second as usize],
        );
        for &length in &self.runs {
            if length > 0 {
                print::number(page, length);
            }
        }
        page.say(b":");
        let Some(buf) = buffers.room.get_mut(..self.capacity) else {
            return;
        };
        self.prepare(&mut buffers.message);
        make::empty(buf);
        let mut state = of_capacity(self.capacity);
        let mut at: usize = 0;
        for &count in &self.runs {
            if count > 0 {
                let run = Piece {
                    at,
                    count,
                    clean: true,
                };
                state = feed(state, xdr::part(&buffers.message, run), buf, page);
            }
            at = at.saturating_add(count);
        }
        print::end(page, buf);
    }
}

// A state of some capacity, with a buffer of as many bytes.
pub(crate) fn state(capacity: usize, buffers: &mut Buffers, page: &mut Page) {
    page.say(b"state");
    print::number(page, capacity);
    page.say(b":");
    let Some(buf) = buffers.room.get_mut(..capacity) else {
        return;
    };
    make::rule(&mut buffers.message);
    feed(of_capacity(capacity), front(&buffers.message, 4), buf, page);
    page.say(b"\n");
}

impl Fragmenting {
    pub(crate) fn ask(&self, buffers: &mut Buffers, page: &mut Page) {
        page.say(b"fragment");
        print::numbers(page, &[self.length, self.room, self.start]);
        page.say(b":");
        let Some(buf) = buffers.room.get_mut(..self.room) else {
            return;
        };
        make::rule(&mut buffers.message);
        make::empty(buf);
        let message = front(&buffers.message, self.length);
        let written = rpcwire::write_fragment(message, buf, self.start);
        print::written(page, written);
        print::end(page, buf);
    }
}
