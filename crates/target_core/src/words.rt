//! A list of words that grows by many at once.

ghost use Rattle.std.specs.Prelude.{◌≡◌, ◌<◌, ◌↔◌, IsTrue, [], ◌∷◌, ◌++◌, length, OnOk, OnErr, slice_get, slice_set, Some};

use std::alloc::{AllocError, Global};
use std::marker::Model;

/// Words of 16 bits in order. It keeps its allocator, and is a plain list to contracts.
#[derive(Debug, Drop)]
pub struct Words {
    items: Vec<u16>,
}

impl Model for Words {
    ghost use Rattle.std.specs.Prelude.{List, ℕ};

    ghost Value = { List ℕ };

    ghost view = { λ l. l.items.items };
}

impl Words {
    /// The empty list, which takes no memory.
    pub fn new(alloc: Global) -> Words
        ensures { result ≡ [] }
    {
        Words {
            items: Vec::new(alloc),
        }
    }

    /// Appends a word. Where memory is refused the list stays as it was.
    pub fn push(&mut self, word: u16) -> Result<(), AllocError>
        ensures ok { OnOk result (self.new ≡ self.old ++ word ∷ []) }
        ensures err { OnErr result (self.new ≡ self.old) }
    {
        self.items.push(word)?;
        Ok(())
    }

    /// Appends words, all of them; where memory is refused none, and the list stays as it was.
    pub fn extend(&mut self, words: &[u16]) -> Result<(), AllocError>
        ensures ok { OnOk result (self.new ≡ self.old ++ words.now) }
        ensures err { OnErr result (self.new ≡ self.old) }
    {
        self.items.extend_from_slice(words)?;
        Ok(())
    }

    /// How many words there are.
    pub fn len(&self) -> usize
        ensures { result ≡ length self.now }
    {
        self.items.len()
    }

    /// Whether there is no word.
    pub fn is_empty(&self) -> bool
        ensures { IsTrue result ↔ (self.now ≡ []) }
    {
        self.items.is_empty()
    }

    /// The word at a place, counted from 0.
    pub fn get(&self, place: usize) -> u16
        requires { place < length self.now }
        ensures { slice_get self.now place ≡ Some result }
    {
        self.items[place]
    }

    /// Puts a word in the stead of the one at a place, counted from 0.
    pub fn set(&mut self, place: usize, word: u16)
        requires { place < length self.old }
        ensures { self.new ≡ slice_set self.old place word }
    {
        self.items[place] = word;
    }

    /// The words as a slice.
    pub fn as_slice(&self) -> &[u16]
        ensures { result.now ≡ self.now }
    {
        self.items.as_slice()
    }
}
