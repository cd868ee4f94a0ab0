// Decimal numbers.
ghost use Rattle.std.specs.Prelude.{◌≡◌};
ghost use Rattle.script.specs.Numbers.{add_digit, number_of};

// The number with one digit more; one too large for 64 bits counts as the largest.
fn add_digit(number: u64, byte: u8) -> Option<u64>
    ensures { result ≡ add_digit number byte }
{
    match byte {
        b'0'..=b'9' => Some(
            number
                .saturating_mul(10)
                .saturating_add(u64::from(byte - b'0')),
        ),
        _ => None,
    }
}

// The number that the digits write; none where there is no digit or something else.
pub fn number(text: &[u8]) -> Option<u64>
    ensures { result ≡ number_of text.now }
{
    if text.is_empty() {
        return None;
    }
    let mut value = 0;
    for byte in text {
        value = add_digit(value, *byte)?;
    }
    Some(value)
}
