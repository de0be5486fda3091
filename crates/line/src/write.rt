//! Writes the line of an event into the caller's buffer.
ghost use Rattle.std.specs.Prelude.{◌≡◌, ◌≤◌, length};
ghost use Rattle.line.specs.Line.{digit, letter_of, head, shown, line, Written};

use crate::event::Event;
use rules::refusal::Refusal;

/// The bytes of the longest line.
pub const LINE_BYTES: usize = 27;

/// The bytes before the name.
const HEAD_BYTES: usize = 10;

/// The bytes of a name that count.
const NAME_BYTES: usize = 16;

impl Event {
    /// The letter that stands for the event in its line.
    // A byte, as a line is bytes.
    pub fn letter(self) -> u8
        ensures { result ≡ letter_of self }
    {
        match self {
            Event::Order => b'O',
            Event::Finish => b'F',
        }
    }
}

/// The last digit of a number.
fn last_digit(number: u16) -> u8
    ensures { result ≡ digit number }
{
    b'0' + (number % 10) as u8
}

/// What comes before the name.
fn head_of(minute: u16, event: Event, point: u8) -> [u8; HEAD_BYTES]
    ensures { result ≡ head minute event point }
{
    let point = u16::from(point);
    [
        last_digit(minute / 1000),
        last_digit(minute / 100),
        last_digit(minute / 10),
        last_digit(minute),
        b' ',
        event.letter(),
        b' ',
        last_digit(point / 10),
        last_digit(point),
        b' ',
    ]
}

/// A name as far as it is shown, or a dash for an empty one.
fn shown_of(name: &[u8]) -> &[u8]
    ensures bytes { result.now ≡ shown name.now }
    ensures short { length result.now ≤ 16 }
{
    if name.is_empty() {
        return b"-";
    }
    &name[..name.len().min(NAME_BYTES)]
}

/// Writes the line of an event to the front of the buffer, and answers its length.
// Copied and not formatted: a name may be any bytes, and `write!` takes text.
pub fn write_line(
    buffer: &mut [u8],
    minute: u16,
    event: Event,
    point: u8,
    name: &[u8],
) -> Result<usize, Refusal>
    ensures { Written buffer.old (line minute event point name.now) result buffer.new }
{
    if buffer.len() < LINE_BYTES {
        return Err(Refusal::ShortBuffer);
    }
    let name = shown_of(name);
    let end = HEAD_BYTES + name.len();
    buffer[..HEAD_BYTES].copy_from_slice(&head_of(minute, event, point));
    buffer[HEAD_BYTES..end].copy_from_slice(name);
    buffer[end] = b'\n';
    Ok(end + 1)
}
