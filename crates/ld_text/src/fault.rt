//! Why a project text is not read.

ghost use Rattle.std.specs.Prelude.{◌≡◌};

use ladder_tree::fault::ProjectFault;
use std::alloc::AllocError;
use thiserror::Error;

/// Why a project text is not read.
#[derive(Clone, Copy, Debug, Error)]
pub enum TextError {
    #[error("the project text is refused")]
    Refused(ProjectFault),
    #[error("out of memory")]
    Memory(AllocError),
}

impl From<AllocError> for TextError {
    ghost use Rattle.ld_text.specs.declared.fault.TextError.TheVariants as text;

    ghost from_gives = { λ a e. e ≡ text.Memory a };

    fn from(e: AllocError) -> TextError {
        TextError::Memory(e)
    }
}
