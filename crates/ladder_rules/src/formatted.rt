//! The field of a formatted string's text.

ghost use Rattle.std.specs.Prelude.{◌≡◌, ◌≤◌, slice_index_or};
ghost use Rattle.ladder_rules.specs.Formatted.{field_by, field_of, mark_in, sent_length};

/// What begins a field: a backslash.
const MARK: u8 = 92;

/// A field, by the bytes that it takes in the text and those that are sent for it.
#[derive(Clone, Copy)]
pub struct Field {
    pub taken: usize,
    pub given: usize,
}

const NO_FIELD: Field = Field { taken: 0, given: 0 };

/// The field of a text; of no bytes where it has none.
fn field_of(text: &[u8]) -> Field
    ensures value { result ≡ field_of text.now }
    ensures few { result.given ≤ 6 }
{
    match mark_in(text) {
        Some(place) => field_by(byte_at(text, place + 1), byte_at(text, place + 2)),
        None => NO_FIELD,
    }
}

fn mark_in(text: &[u8]) -> Option<usize>
    ensures { result ≡ mark_in text.now }
{
    text.iter().position(|c| *c == MARK)
}

fn byte_at(text: &[u8], place: usize) -> u8
    ensures { result ≡ slice_index_or text.now place 0 }
{
    match text.get(place) {
        Some(byte) => *byte,
        None => 0,
    }
}

fn field_by(first: u8, second: u8) -> Field
    ensures value { result ≡ field_by first second }
    ensures few { result.given ≤ 6 }
{
    match (first, second) {
        (b'1'..=b'5', _) => Field {
            taken: 2,
            given: usize::from(first - b'0'),
        },
        (b'-', b'1'..=b'5') => Field {
            taken: 3,
            given: usize::from(second - b'0') + 1,
        },
        _ => NO_FIELD,
    }
}

/// How many bytes are sent for the field of a text.
pub fn field_bytes(text: &[u8]) -> usize
    ensures value { result ≡ (field_of text.now).given }
    ensures few { result ≤ 6 }
{
    field_of(text).given
}

/// How many bytes are sent for a text.
pub fn sent_length(text: &[u8]) -> usize
    ensures { result ≡ sent_length text.now }
{
    let field = field_of(text);
    (text.len() + field.given).saturating_sub(field.taken)
}
