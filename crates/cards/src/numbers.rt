//! Numbers in a script: decimal, optionally signed, of any length.
use crate::errors::CommandError;

/// What decimal digits spell, cut to what 64 bits hold.
// Bytes: with characters, lines of many numbers took 9 to 18 in a hundred more instructions.
fn magnitude(digits: &[u8]) -> Option<i64> {
    if digits.is_empty() {
        return None;
    }
    digits.iter().try_fold(0i64, |number, digit| match *digit {
        b'0'..=b'9' => {
            let digit = i64::from(*digit - b'0');
            Some(number.saturating_mul(10).saturating_add(digit))
        }
        _ => None,
    })
}

fn spelled(word: &str) -> Option<i64> {
    match word.as_bytes() {
        [b'-', digits @ ..] => Some(magnitude(digits)?.saturating_neg()),
        [b'+', digits @ ..] => magnitude(digits),
        digits => magnitude(digits),
    }
}

/// The number that a word spells, as an argument. A number that does not fit becomes `unfit`, which the call refuses or takes for none.
pub fn read_number<T: TryFrom<i64, Error: Drop> + Drop>(
    word: &str,
    unfit: T,
) -> Result<T, CommandError> {
    let number = spelled(word).ok_or(CommandError::Unreadable)?;
    Ok(T::try_from(number).unwrap_or(unfit))
}
