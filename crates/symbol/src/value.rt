// What the parts of a text say that are numbers and characters.
ghost use Rattle.std.specs.Prelude.{◌≡◌};
ghost use Rattle.symbol.specs.Values.{digit_value_of, digits_value_of, number_value_of, ordinal_value_of, printable, quoted_value_of, character_value_of};

const LARGEST_NUMBER: u32 = 2147483647;

const LARGEST_CHARACTER: u32 = 0o177;

// The value of a digit of this base.
fn digit_value(byte: u8, base: u32) -> Option<u32>
    ensures { result ≡ digit_value_of base byte }
{
    let digit = u32::from(byte).checked_sub(u32::from(b'0'))?;
    (digit < base).then_some(digit)
}

// The number that the digits say, if there is one, no other byte, and it is not above the limit.
fn digits_value(digits: &[u8], base: u32, limit: u32) -> Option<u32>
    ensures { result ≡ digits_value_of base limit digits.now }
{
    if digits.is_empty() {
        return None;
    }
    // 64 bits hold a digit more behind any number up to the limit, so that one test a digit is enough.
    let mut value: u64 = 0;
    for byte in digits {
        let digit = digit_value(*byte, base)?;
        value = value * u64::from(base) + u64::from(digit);
        if value > u64::from(limit) {
            return None;
        }
    }
    u32::try_from(value).ok()
}

// The value of a number: decimal digits, or octal digits and B.
pub fn number_value(part: &[u8]) -> Option<u32>
    ensures { result ≡ number_value_of part.now }
{
    match part {
        [octal @ .., b'b' | b'B'] => digits_value(octal, 8, LARGEST_NUMBER),
        _ => digits_value(part, 10, LARGEST_NUMBER),
    }
}

// The value of a character that is written by its number: octal digits and C.
fn ordinal_value(part: &[u8]) -> Option<u32>
    ensures { result ≡ ordinal_value_of part.now }
{
    match part {
        [octal @ .., b'c' | b'C'] => digits_value(octal, 8, LARGEST_CHARACTER),
        _ => None,
    }
}

fn is_printable(byte: u8) -> bool
    ensures { result ≡ printable byte }
{
    matches!(byte, b' '..=b'~')
}

// The value of a character in quotes; the quote itself is written twice.
fn quoted_value(part: &[u8]) -> Option<u32>
    ensures { result ≡ quoted_value_of part.now }
{
    match part {
        [b'"', b'"', b'"', b'"'] => Some(u32::from(b'"')),
        [b'"', inner, b'"'] if *inner != b'"' && is_printable(*inner) => Some(u32::from(*inner)),
        _ => None,
    }
}

// The value of a character.
pub fn character_value(part: &[u8]) -> Option<u32>
    ensures { result ≡ character_value_of part.now }
{
    match part {
        [b'"', ..] => quoted_value(part),
        _ => ordinal_value(part),
    }
}
