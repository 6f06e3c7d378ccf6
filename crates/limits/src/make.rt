// The bytes that are asked about, and the buffers.
ghost use Rattle.std.specs.Prelude.{◌≡◌, ◌<◌, length};

// The longest stream, and room for the longest message at place 8. The `ensures` gives the length alone, which lending the array as a slice
// needs.
pub(crate) fn largest() -> [u8; 1048584]
    ensures { 1048584 ≡ length result }
{
    [0xEE; 1048584]
}

#[derive(Drop)]
pub(crate) struct Buffers {
    pub message: [u8; 1048584],
    pub room: [u8; 1048584],
}

// A buffer before anything is written into it.
pub(crate) fn empty(buf: &mut [u8]) {
    buf.fill(0xEE);
}

// Bytes by their place.
pub(crate) fn rule(buf: &mut [u8]) {
    for (i, byte) in buf.iter_mut().enumerate() {
        *byte = (i % 251) as u8;
    }
}

// A word, if the buffer has room for it.
pub(crate) fn word(buf: &mut [u8], at: usize, v: u32) {
    let _ = xdr::write_u32(v, buf, at);
}

// Words from a place on.
fn words(buf: &mut [u8], start: usize, all: &[u32]) {
    let mut at = start;
    for &v in all {
        word(buf, at, v);
        at = at.saturating_add(4);
    }
}

// A call of NFS's null procedure of 1,048,576 bytes, all but forty of which are its credential's body: an auth_unix without a name, in which
// all is groups.
pub(crate) fn call(buf: &mut [u8], flavor: u32) {
    rule(buf);
    words(buf, 0, &[42, 0, 2, 100003, 3, 0, flavor, 1048536]);
    words(buf, 1048568, &[0, 0]);
    if flavor == 1 {
        words(buf, 32, &[7, 0, 1, 2, 262129]);
    }
}

// READ's results of 1,048,576 bytes: success, no attributes, a count, the end of the file, and data.
pub(crate) fn read_results(buf: &mut [u8]) {
    rule(buf);
    words(buf, 0, &[0, 0]);
    words(buf, 12, &[1, 1048556]);
}

// WRITE's arguments of 1,048,576 bytes: a handle of four, an offset, a count, FILE_SYNC, and data.
pub(crate) fn write_arguments(buf: &mut [u8]) {
    rule(buf);
    word(buf, 0, 4);
    words(buf, 20, &[2, 1048548]);
}

pub(crate) fn digest(bytes: &[u8]) -> u64 {
    let mut sum = 0;
    for &b in bytes {
        sum = (sum * 31 + u64::from(b)) % 4294967291;
    }
    sum
}
