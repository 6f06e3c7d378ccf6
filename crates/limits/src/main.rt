// Messages at the bound: of 1,048,576 bytes, of one less and of one more, which are too long for a line of `answers`.
//
// Each line it prints has a question, which names bytes by their length, and the answer, which ends in a digest of what the buffer then
// holds. `oracle/limits` makes the same lines from the Rust.
#![tactic(auto)]

mod cases;
mod items;
mod make;
mod print;
mod records;

use make::Buffers;
use print::Page;
use stdio::Stream;

fn ask_all(buffers: &mut Buffers, page: &mut Page) {
    for reading in &cases::readings() {
        reading.ask(buffers, page);
    }
    for writing in &cases::writings() {
        writing.ask(buffers, page);
    }
    for choosing in &cases::choosings() {
        choosing.ask(buffers, page);
    }
    records::fresh(1048576, page);
    records::fresh(1048577, page);
    for feeding in &cases::feedings() {
        feeding.ask(buffers, page);
    }
    records::state(1048577, buffers, page);
    for fragmenting in &cases::fragmentings() {
        fragmenting.ask(buffers, page);
    }
    page.flush();
}

fn main(rt: HostRuntime) {
    let mut page = Page::new(Stream::new(rt.stdout(), rt.stderr()));
    let mut buffers = Buffers {
        message: make::largest(),
        room: make::largest(),
    };
    ask_all(&mut buffers, &mut page);
}
