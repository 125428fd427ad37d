// Digits 0 to 9 and A to F, as bytes of text. Two of them stand for a byte, the high one first.
ghost use Rattle.std.specs.Prelude.{◌≡◌, ◌<◌, [], ◌∷◌};
ghost use Rattle.frames.specs.Digits.{digit_value, digit_for, byte_of, high_digit, low_digit};

// The value of a digit; nothing for any other character.
fn value(character: u8) -> Option<u8>
    ensures reply { result ≡ digit_value character }
{
    match character {
        b'0'..=b'9' => Some(character - b'0'),
        b'A'..=b'F' => Some(character - b'A' + 10),
        _ => None,
    }
}

// The byte that two digits stand for.
pub(crate) fn byte(first: u8, second: u8) -> Option<u8>
    ensures reply { result ≡ byte_of first second }
{
    let high = value(first)?;
    let low = value(second)?;
    Some(high * 16 + low)
}

// The digit that stands for a value below 16.
fn digit(value: u8) -> u8
    requires { value < 16 }
    ensures reply { result ≡ digit_for value }
{
    if value < 10 {
        b'0' + value
    } else {
        b'A' + (value - 10)
    }
}

// The digits that stand for a byte, the high one first.
pub(crate) fn digits(byte: u8) -> [u8; 2]
    ensures reply { result ≡ high_digit byte ∷ low_digit byte ∷ [] }
{
    [digit(byte / 16), digit(byte % 16)]
}
