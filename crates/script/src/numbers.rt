// Decimal numbers, refused beyond their type.
ghost use Rattle.std.specs.Prelude.{◌≡◌, ◌^◌};
ghost use Rattle.script.specs.Numbers.{number_below, signed_number, with_digit};

// One digit more, where `digit` is one and the number stays below 2^32.
fn with_digit(number: u32, digit: u8) -> Option<u32>
    ensures { result ≡ with_digit (2 ^ 32) number digit }
{
    let digit = char::from(digit).to_digit(10)?;
    number.checked_mul(10)?.checked_add(digit)
}

pub fn unsigned(word: &[u8]) -> Option<u32>
    ensures { result ≡ number_below (2 ^ 32) word.now }
{
    if word.is_empty() {
        return None;
    }
    word.iter()
        .try_fold(0, |number, digit| with_digit(number, *digit))
}

pub fn signed(word: &[u8]) -> Option<i16>
    ensures { result ≡ signed_number word.now }
{
    match word {
        [b'-', digits @ ..] => i16::try_from(-i64::from(unsigned(digits)?)).ok(),
        _ => i16::try_from(unsigned(word)?).ok(),
    }
}
