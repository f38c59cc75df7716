//! Parts of a text that are kept in order, each once.

ghost use Rattle.std.specs.Prelude.{◌≡◌, IfOk};
ghost use Rattle.std.specs.List.{list_any};
ghost use Rattle.std.specs.Str.{bytes_eq};
ghost use Rattle.texts.specs.Keys.{with_key, keys_of, Takes};

use indexmap::IndexSet;
use std::alloc::AllocError;

/// Parts of a text in the order in which they came, each once.
pub type KeySet<'a> = IndexSet<&'a [u8]>;

/// Adds a key, and says whether it is new.
pub fn add_key<'a>(keys: &mut KeySet<'a>, key: &'a [u8]) -> Result<bool, AllocError>
    ensures { IfOk result (λ ok. Takes (with_key key.now (keys_of keys.old)) ok (keys_of keys.new)) }
{
    Ok(keys.insert(key)?)
}

/// Whether the key is one of these.
pub fn has_key(keys: &KeySet<'_>, key: &[u8]) -> bool
    ensures { result ≡ list_any (bytes_eq key.now) (keys_of keys.now) }
{
    keys.contains(key)
}
