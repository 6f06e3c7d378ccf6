// The lines about records of a stream: `fragment`, `feed` and `state`.
use crate::buffers::{Buffers, cleared};
use crate::items::front;
use crate::print;
use crate::print::Page;
use crate::why::Why;
use crate::words::{Words, bytes};
use rpcwire::{Assembler, Fed};

// fragment HEX ROOM START
pub(crate) fn fragment<'a>(
    words: &mut Words<'a>,
    buffers: &mut Buffers,
    page: &mut Page,
) -> Result<(), Why<'a>> {
    let count = words.bytes(&mut buffers.message)?;
    let length = words.number()?;
    let start = words.number()?;
    words.end()?;
    let buf = cleared(&mut buffers.room, length)?;
    let written = rpcwire::write_fragment(&buffers.message[..count], buf, start);
    print::written(page, written, buf);
    Ok(())
}

// What each answer of the assembler has: the state that it leaves, and how many bytes were used.
pub(crate) fn state_and_used(fed: Fed) -> (Assembler, usize) {
    match fed {
        Fed::Refused { state, used, .. }
        | Fed::More { state, used }
        | Fed::Complete { state, used, .. } => (state, used),
    }
}

// One answer of the assembler, all but a record.
fn print_fed(page: &mut Page, fed: Fed) {
    match fed {
        Fed::Refused { refusal, used, .. } => {
            page.say(b"refused");
            print::numbers(page, &[refusal.number() as usize, used]);
        }
        Fed::More { used, .. } => {
            page.say(b"more");
            print::number(page, used);
        }
        Fed::Complete { length, used, .. } => {
            page.say(b"complete");
            print::numbers(page, &[length, used]);
        }
    }
}

// The state and the buffer, with which a line about the assembler ends.
pub(crate) fn state_and_buffer(page: &mut Page, state: Assembler, buf: &[u8]) {
    page.say(b"; state");
    print::numbers(
        page,
        &[
            state.capacity,
            state.placed,
            state.header_count,
            state.header_value,
            state.left,
        ],
    );
    print::mark(page, state.last);
    print::mark(page, state.stopped);
    page.say(b"; buffer");
    print::hex(page, buf);
}

// state CAPACITY PLACED COUNT VALUE LEFT LAST STOPPED LENGTH RUN
pub(crate) fn state<'a>(
    words: &mut Words<'a>,
    buffers: &mut Buffers,
    page: &mut Page,
) -> Result<(), Why<'a>> {
    let given = Assembler {
        capacity: words.number()?,
        placed: words.number()?,
        header_count: words.number()?,
        header_value: words.number()?,
        left: words.number()?,
        last: words.mark()?,
        stopped: words.mark()?,
    };
    let length = words.number()?;
    let count = words.bytes(&mut buffers.message)?;
    words.end()?;
    let buf = cleared(&mut buffers.room, length)?;
    let fed = rpcwire::feed(given, &buffers.message[..count], buf);
    print_fed(page, fed);
    state_and_buffer(page, state_and_used(fed).0, buf);
    Ok(())
}

// Where a feeding stands.
#[derive(Clone, Copy)]
struct Feeding {
    state: Assembler,
    // No feed was refused.
    goes_on: bool,
}

impl Feeding {
    // Feeds what is left of a run, and answers how many bytes of it were used.
    fn feed_part(&mut self, run: &[u8], buf: &mut [u8], page: &mut Page) -> usize {
        let fed = rpcwire::feed(self.state, run, buf);
        print_fed(page, fed);
        match fed {
            Fed::Refused { .. } => self.goes_on = false,
            Fed::More { .. } => {}
            Fed::Complete { length, .. } => print::hex(page, front(buf, length)),
        }
        let (state, used) = state_and_used(fed);
        self.state = state;
        used
    }

    // Feeds a run: once, and then, as long as records are complete and something is left of it, what is left. (No feed uses more than its
    // run has, and one that completes a record uses a byte at least.)
    fn feed(&mut self, run: &[u8], buf: &mut [u8], page: &mut Page) {
        let mut rest = run;
        loop {
            let used = self.feed_part(rest, buf, page);
            if !self.goes_on || used == 0 || rest.len() <= used {
                return;
            }
            rest = &rest[used..];
            print::parting(page);
        }
    }
}

// feed CAPACITY RUN RUN ..
pub(crate) fn feed<'a>(
    words: &mut Words<'a>,
    buffers: &mut Buffers,
    page: &mut Page,
) -> Result<(), Why<'a>> {
    let capacity = words.number()?;
    let runs = *words;
    words.bytes(&mut buffers.message)?;
    for run in *words {
        bytes(run, &mut buffers.message)?;
    }
    match rpcwire::fresh_assembler(capacity) {
        Err(refusal) => print::refusal(page, refusal),
        Ok(state) => {
            let buf = cleared(&mut buffers.room, capacity)?;
            let mut feeding = Feeding {
                state,
                goes_on: true,
            };
            for (i, run) in runs.enumerate() {
                if !feeding.goes_on {
                    break;
                }
                if i > 0 {
                    print::parting(page);
                }
                let count = bytes(run, &mut buffers.message)?;
                feeding.feed(&buffers.message[..count], buf, page);
            }
            state_and_buffer(page, feeding.state, buf);
        }
    }
    Ok(())
}
