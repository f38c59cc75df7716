//! Why a file gives no project.

ghost use Rattle.std.specs.Prelude.{◌≡◌};

use ladder_tree::fault::ProjectFault;
use ld_base::files::{FileFault, OpenFault};
use ld_text::fault::TextError;
use std::alloc::AllocError;

/// Why a file gives no project.
#[derive(Debug, Drop)]
pub enum SourceFault {
    /// No file has the name.
    Absent,
    /// Opening or reading failed.
    Failed,
    Memory(AllocError),
    /// What the file holds is refused.
    Refused(ProjectFault),
}

impl From<OpenFault> for SourceFault {
    ghost use Rattle.project_file.specs.Source.{unopened};

    ghost from_gives = { λ a e. e ≡ unopened a };

    fn from(fault: OpenFault) -> SourceFault {
        match fault {
            OpenFault::Absent => SourceFault::Absent,
            OpenFault::Failed => SourceFault::Failed,
            OpenFault::Memory(e) => SourceFault::Memory(e),
        }
    }
}

impl From<FileFault> for SourceFault {
    ghost use Rattle.project_file.specs.Source.{unread};

    ghost from_gives = { λ a e. e ≡ unread a };

    fn from(fault: FileFault) -> SourceFault {
        match fault {
            FileFault::Failed => SourceFault::Failed,
            FileFault::Memory(e) => SourceFault::Memory(e),
        }
    }
}

impl From<TextError> for SourceFault {
    ghost use Rattle.project_file.specs.Source.{judged_so};

    ghost from_gives = { λ a e. e ≡ judged_so a };

    fn from(error: TextError) -> SourceFault {
        match error {
            TextError::Refused(fault) => SourceFault::Refused(fault),
            TextError::Memory(e) => SourceFault::Memory(e),
        }
    }
}
