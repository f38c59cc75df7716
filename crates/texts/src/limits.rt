//! How long texts may be, and how much of a longer one is looked at.

ghost use Rattle.std.specs.Prelude.{◌≡◌, ◌≤◌, ◌+◌, length};
ghost use Rattle.texts.specs.Limits.{judged};

/// How many bytes a line of a project text or of a trace may have, without its line feed.
pub const LINE_BYTES: usize = 512;

/// How many bytes a project text, a trace or an Intel HEX file may have.
pub const FILE_BYTES: usize = 8_388_608;

/// How many bytes an interpretable text or a C text may have.
pub const CODE_BYTES: usize = 67_108_864;

/// The bytes by which a text is judged: those up to its limit and one more, which tells that it is longer.
pub fn judged(most: usize, text: &[u8]) -> &[u8]
    ensures front { result.now ≡ judged most text.now }
    ensures short { length result.now ≤ most + 1 }
{
    if text.len() > most {
        &text[..most + 1]
    } else {
        text
    }
}
