//! The places of names in a list.

ghost use Rattle.std.specs.Prelude.{◌≡◌, ◌^◌, ◌<◌, ◌≤◌, [], length, map, OnOk};
ghost use Rattle.ladder_meaning.specs.State.{place_of};
ghost use Rattle.ladder_lower.specs.Apart.{Apart};

use indexmap::IndexSet;
use ladder_tree::element::Name;
use std::alloc::{AllocError, Global};
use std::marker::Model;

/// A list of names, each once, in which a name is found by its hash.
#[derive(Drop)]
pub struct Places<'n> {
    names: IndexSet<&'n [u8]>,
}

impl<'n> Model for Places<'n> {
    ghost use Rattle.std.specs.Prelude.{ℕ, List, map};

    ghost Value = { List (List ℕ) };

    ghost view = { λ p. map (λ k. k.now) p.names.keys };
}

impl<'n> Places<'n> {
    /// No places.
    pub fn new(alloc: Global) -> Places<'n>
        ensures { result ≡ [] }
    {
        Places {
            names: IndexSet::new(alloc),
        }
    }

    /// Has these names, and no others.
    pub fn hold(&mut self, names: &'n [Name]) -> Result<(), AllocError>
        requires { Apart names.now }
        ensures { OnOk result (self.new ≡ names.now) }
    {
        hold_all(&mut self.names, names)
    }

    /// How many names there are.
    pub fn len(&self) -> usize
        ensures { result ≡ length self.now }
    {
        self.names.len()
    }

    /// Where a name stands, or the list's length.
    pub fn place(&self, name: &Name) -> u32
        requires { length self.now < 2 ^ 32 }
        ensures exact { result ≡ place_of self.now name.now }
        ensures within { result ≤ length self.now }
    {
        let place = self.names.get_index_of(name.as_slice());
        place.unwrap_or(self.names.len()) as u32
    }
}

/// The set has these names, and no others.
fn hold_all<'n>(set: &mut IndexSet<&'n [u8]>, names: &'n [Name]) -> Result<(), AllocError>
    requires { Apart names.now }
    ensures { OnOk result (map (λ k. k.now) set.new.keys ≡ names.now) }
{
    set.clear();
    for name in names {
        set.insert(name.as_slice())?;
    }
    Ok(())
}
