// Numbers in decimal, off their text.
ghost use Rattle.std.specs.Prelude.{◌≡◌};
ghost use Rattle.drawcard.specs.Numeral.{numeral_of};

// The number in decimal that a text is: one digit or more and nothing else, and not above 2^32 − 1.
pub fn read_numeral(text: &[u8]) -> Option<u32>
    ensures { result ≡ numeral_of text.now }
{
    if text.is_empty() {
        return None;
    }
    let mut n: u32 = 0;
    for b in text {
        if !b.is_ascii_digit() {
            return None;
        }
        n = n.checked_mul(10)?.checked_add(u32::from(b - b'0'))?;
    }
    Some(n)
}
