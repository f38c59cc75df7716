//! The tokens of a step.

ghost use Rattle.std.specs.Prelude.{◌≡◌, ◌<◌, [], length, map, IfOk, IfSome};
ghost use Rattle.ladder_trace.specs.Token.{give_at, give, is_one, place_in, token_gives, tokens_give, IsReadingOf};
ghost use Rattle.texts.specs.Keys.{Takes};
ghost use Rattle.ladder_trace.specs.Held.{Gives, reading, given};

use crate::levels::Levels;
use indexmap::IndexSet;
use ladder_tree::element::Name;
use ladder_tree::names::Names;
use std::alloc::{AllocError, Global};
use texts::keys::{KeySet, add_key};
use texts::lines::split_piece;

/// The place of the first name that is the key.
fn place_of(names: &[Name], key: &[u8]) -> Option<usize>
    ensures value { result ≡ place_in names.now key.now }
    ensures within { IfSome result (λ place. place < length names.now) }
{
    let mut place = 0;
    for name in names {
        if name.as_slice() == key {
            return Some(place);
        }
        place += 1;
    }
    None
}

/// Gives an input or an analog input what the value says, by its name.
fn give_named(names: &Names, levels: &mut Levels, key: &[u8], value: &[u8]) -> bool
    requires { IsReadingOf names.now (reading levels.old) }
    ensures given { Takes (give_at (place_in names.now.inputs key.now) (place_in names.now.analog key.now) value.now (reading levels.old)) result (reading levels.new) }
    ensures fits { IsReadingOf names.now (reading levels.new) }
{
    if let Some(place) = place_of(names.inputs.as_slice(), key) {
        return levels.give_input(place, value);
    }
    match place_of(names.analog.as_slice(), key) {
        None => false,
        Some(place) => levels.give_analog(place, value),
    }
}

fn is_one(value: &[u8]) -> bool
    ensures { result ≡ is_one value.now }
{
    value == b"1".as_slice()
}

/// Gives what a key and its value say, and says whether they say something.
fn give(names: &Names, levels: &mut Levels, key: &[u8], value: &[u8]) -> bool
    requires { IsReadingOf names.now (reading levels.old) }
    ensures given { Takes (give names.now key.now value.now (reading levels.old)) result (reading levels.new) }
    ensures fits { IsReadingOf names.now (reading levels.new) }
{
    if key == b"rx".as_slice() {
        levels.give_byte(value)
    } else if key == b"tx".as_slice() {
        levels.tx_busy = is_one(value);
        levels.tx_busy
    } else if key == b"ee".as_slice() {
        levels.ee_busy = is_one(value);
        levels.ee_busy
    } else {
        give_named(names, levels, key, value)
    }
}

/// Gives what a token says, and says whether it may stand behind those with the keys.
fn take_token<'a>(
    names: &Names,
    keys: &mut KeySet<'a>,
    levels: &mut Levels,
    token: &'a [u8],
) -> Result<bool, AllocError>
    requires { IsReadingOf names.now (reading levels.old) }
    ensures given { IfOk result (λ ok. Takes (token_gives names.now (given keys.old levels.old) token.now) ok (given keys.new levels.new)) }
    ensures fits { IsReadingOf names.now (reading levels.new) }
{
    let Some((key, value)) = split_piece(b'=', token) else {
        return Ok(false);
    };
    if !add_key(keys, key)? {
        return Ok(false);
    }
    Ok(give(names, levels, key, value))
}

/// Gives what the tokens of a step say, and says whether they all may stand in it.
pub fn take_tokens(
    alloc: Global,
    names: &Names,
    levels: &mut Levels,
    tokens: &[&[u8]],
) -> Result<bool, AllocError>
    requires { IsReadingOf names.now (reading levels.old) }
    ensures given { IfOk result (λ ok. Gives (tokens_give names.now (record { keys = []; reading = reading levels.old }) (map (λ t. t.now) tokens.now)) ok (reading levels.new)) }
    ensures fits { IsReadingOf names.now (reading levels.new) }
{
    let mut keys = IndexSet::new(alloc);
    for token in tokens {
        if !take_token(names, &mut keys, levels, token)? {
            return Ok(false);
        }
    }
    Ok(true)
}
