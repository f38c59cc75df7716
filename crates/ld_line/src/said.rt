//! What bytes say.

ghost use Rattle.std.specs.Prelude.{◌≡◌, map};
ghost use Rattle.ld_line.specs.Said.{both, bare};

/// What bytes say: nothing that is allowed at their place, a number outside its range, or this.
#[derive(Drop)]
pub enum Said<T> {
    /// The bytes have none of the shapes that are allowed at their place.
    Bad,
    /// The bytes have a shape, but a number in them is outside its range.
    Range,
    /// The bytes say this.
    Is(T),
}

/// What two parts say together. A shape that is wrong comes first, then a number that is out of its range.
pub fn both<T: Drop, U: Drop>(first: Said<T>, second: Said<U>) -> Said<(T, U)>
    ensures { result ≡ both first second }
{
    match (first, second) {
        (Said::Is(first), Said::Is(second)) => Said::Is((first, second)),
        (Said::Bad, _) => Said::Bad,
        (_, Said::Bad) => Said::Bad,
        (Said::Range, _) => Said::Range,
        (_, Said::Range) => Said::Range,
    }
}

/// The item, where its word has nothing behind it.
pub fn bare<T: Drop>(item: T, operands: &[&[u8]]) -> Said<T>
    ensures { result ≡ bare item (map (λ t. t.now) operands.now) }
{
    match operands {
        [] => Said::Is(item),
        _ => Said::Bad,
    }
}

/// What is made of what is said, where something is said.
macro_rules! made {
    ($said:expr, $pattern:pat => $made:expr) => {
        match $said {
            Said::Bad => Said::Bad,
            Said::Range => Said::Range,
            Said::Is($pattern) => Said::Is($made),
        }
    };
}

pub(crate) use made;
