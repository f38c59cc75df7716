//! The theorem that a chip's words carry a ladder, once for every chip: what a chip's crate gives for it stands in `specs`, and its proof in `proofs`.
#![tactic(auto)]

pub mod laws;
