//! The ATmega16 as a chip that carries ladders: what is seen of its written machine and how it is reset stands in `specs`, and that it serves the theorem on
//! chips in `proofs`.
#![tactic(auto)]
