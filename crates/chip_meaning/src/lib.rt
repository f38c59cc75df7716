//! What it means that a chip's words carry a ladder: the definitions stand in `specs`.
#![tactic(auto)]
