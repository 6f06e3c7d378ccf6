// Which piece of a message was dirty.
ghost use Rattle.door.specs.Meaning.Marks.{MarksCalled};

#[unsafe(no_mangle)]
pub extern "C" fn yugerzat_marks(kind: u32, src: &[u8], at: usize, info: &mut [u64]) -> u32
    ensures { MarksCalled kind src.now at info.old result info.new }
{
    door::marks::yugerzat_marks(kind, src, at, info)
}
