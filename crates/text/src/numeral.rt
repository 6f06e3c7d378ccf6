// Numbers in decimal.
ghost use Rattle.text.specs.Decimal.{Reads};

// What a word of decimal digits stands for; none where that has more than 64 bits. Zeros may stand in front.
pub fn decimal(word: &[u8]) -> Option<usize>
    ensures { Reads word.now result }
{
    if word.is_empty() {
        return None;
    }
    let mut n: usize = 0;
    for &c in word {
        if !c.is_ascii_digit() {
            return None;
        }
        n = n.checked_mul(10)?.checked_add((c - b'0') as usize)?;
    }
    Some(n)
}
