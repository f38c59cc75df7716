//! Project texts that are read from files.
#![tactic(auto)]

pub mod fault;
pub mod source;

pub use fault::SourceFault;
pub use source::read_source;
