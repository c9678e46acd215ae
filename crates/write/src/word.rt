// What a word says by itself.
ghost use Rattle.std.specs.Prelude.{◌≤◌, IfSome};

// A decimal number, or nothing where it is none or too large. A number has no sign.
pub(crate) fn decimal(word: &str) -> Option<u16> {
    if word.starts_with('+') {
        return None;
    }
    word.parse().ok()
}

// A number of just so many hexadecimal digits.
fn hexadecimal(word: &str, digits: usize) -> Option<u32> {
    if word.len() != digits {
        return None;
    }
    // Kept: digit by digit; `from_str_radix` takes more than twice as long, and of a text with textures these are most.
    let mut number = 0u32;
    for byte in word.bytes() {
        let digit = char::from(byte).to_digit(16)?;
        number = number.checked_mul(16)?.checked_add(digit)?;
    }
    Some(number)
}

// A colour of three bytes in six digits.
pub(crate) fn three_bytes(word: &str) -> Option<[u8; 3]> {
    let [_, r, g, b] = hexadecimal(word, 6)?.to_be_bytes();
    Some([r, g, b])
}

// A colour of four bytes in eight digits.
pub(crate) fn four_bytes(word: &str) -> Option<[u8; 4]> {
    Some(hexadecimal(word, 8)?.to_be_bytes())
}

// The power of two, from 1 to 256, that a texture's side is.
pub(crate) fn power(word: &str) -> Option<u8>
    ensures { IfSome result (λ p. p ≤ 8) }
{
    let side = decimal(word)?;
    (0..=8).find(|power| side == 1 << *power)
}
