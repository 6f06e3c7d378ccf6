// The line `stream`: a whole stream, fed in runs of any lengths. What it prints does not depend on them (`rpcwire`, Meaning/Session).
use crate::buffers::{Buffers, cleared};
use crate::items::front;
use crate::print;
use crate::print::Page;
use crate::records::{state_and_buffer, state_and_used};
use crate::why::Why;
use crate::words::{Words, number};
use rpcwire::{Assembler, Fed};

// A stream, and what it has given so far.
#[derive(Clone, Copy)]
struct Heard<'a> {
    stream: &'a [u8],
    state: Assembler,
    // The bytes used in all.
    used: usize,
    // No feed was refused.
    goes_on: bool,
}

impl<'a> Heard<'a> {
    // The bytes that were not used yet.
    fn rest(&self) -> &'a [u8] {
        self.stream.get(self.used..).unwrap_or(&[])
    }

    // Feeds up to `n` of them. (No feed uses more than there is.)
    fn feed(&mut self, n: usize, buf: &mut [u8]) -> Fed {
        let rest = self.rest();
        let fed = rpcwire::feed(self.state, front(rest, n.min(rest.len())), buf);
        let (state, used) = state_and_used(fed);
        self.state = state;
        self.used = self.used.saturating_add(used).min(self.stream.len());
        fed
    }

    // Feeds up to `n` of them, and says what that gives.
    fn hear(&mut self, n: usize, buf: &mut [u8], page: &mut Page) {
        match self.feed(n, buf) {
            Fed::Refused { refusal, .. } => {
                self.goes_on = false;
                page.say(b"refused");
                print::numbers(page, &[refusal.number() as usize, self.used]);
                print::parting(page);
            }
            Fed::More { .. } => {}
            Fed::Complete { length, .. } => {
                page.say(b"record");
                print::number(page, length);
                print::hex(page, front(buf, length));
                print::parting(page);
            }
        }
    }

    // Feeds runs of the lengths that stand in a line, all of which are numbers.
    fn hear_runs(&mut self, lengths: Words, buf: &mut [u8], page: &mut Page) {
        for length in lengths {
            if !self.goes_on {
                return;
            }
            self.hear(text::decimal(length).unwrap_or(0), buf, page);
        }
    }

    // Feeds all that is left, again and again. (Each time a byte is used, so there are no more turns than bytes.)
    fn hear_rest(&mut self, buf: &mut [u8], page: &mut Page) {
        let all = self.stream.len();
        for _ in 0..all {
            if !self.goes_on || self.used == all {
                return;
            }
            self.hear(all, buf, page);
        }
    }
}

// stream CAPACITY HEX LENGTH LENGTH ..
pub(crate) fn stream<'a>(
    words: &mut Words<'a>,
    buffers: &mut Buffers,
    page: &mut Page,
) -> Result<(), Why<'a>> {
    let capacity = words.number()?;
    let count = words.bytes(&mut buffers.message)?;
    for length in *words {
        number(length)?;
    }
    match rpcwire::fresh_assembler(capacity) {
        Err(refusal) => print::refusal(page, refusal),
        Ok(state) => {
            let buf = cleared(&mut buffers.room, capacity)?;
            let mut heard = Heard {
                stream: &buffers.message[..count],
                state,
                used: 0,
                goes_on: true,
            };
            heard.hear_runs(*words, buf, page);
            heard.hear_rest(buf, page);
            if !heard.goes_on {
                // all that is left once more, to show that nothing of it is used
                heard.feed(count, buf);
            }
            page.say(b"used");
            print::number(page, heard.used);
            state_and_buffer(page, heard.state, buf);
        }
    }
    Ok(())
}
