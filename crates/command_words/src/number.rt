//! The numbers among the words.
ghost use Rattle.std.specs.Prelude.{◌≡◌, option_map};
ghost use Rattle.command_words.specs.Numbers.{number_from, number_or};

use line_protocol::words::number_in;

/// The number that the value of an option writes, if it lies between these two, or is one of them.
pub(crate) fn number_from(least: u64, most: u64, value: Option<&str>) -> Option<u64>
    ensures { result ≡ number_from least most (option_map (λ s. s.now) value.entry) }
{
    let number = number_in(value?.as_bytes())?;
    if least <= number && number <= most {
        Some(number)
    } else {
        None
    }
}

/// The same of a number that fits 32 bits.
pub(crate) fn small_number_from(least: u64, most: u32, value: Option<&str>) -> Option<u32>
    ensures { result ≡ number_from least most (option_map (λ s. s.now) value.entry) }
{
    let number = number_from(least, most as u64, value)?;
    Some(number as u32)
}

/// The same of an option that may be left out, for which the first number then stands.
pub(crate) fn number_or(usual: u64, least: u64, most: u64, value: Option<&str>) -> Option<u64>
    ensures { result ≡ number_or usual least most (option_map (λ s. s.now) value.entry) }
{
    match value {
        Some(_) => number_from(least, most, value),
        None => Some(usual),
    }
}

/// The same of a number that fits 32 bits.
pub(crate) fn small_number_or(usual: u32, least: u64, most: u32, value: Option<&str>) -> Option<u32>
    ensures { result ≡ number_or usual least most (option_map (λ s. s.now) value.entry) }
{
    match value {
        Some(_) => small_number_from(least, most, value),
        None => Some(usual),
    }
}
