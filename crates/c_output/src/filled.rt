//! Templates: C text with a mark where a name or a number stands.

ghost use Rattle.std.specs.Prelude.{◌≡◌, ◌++◌, OnOk, []};
ghost use Rattle.std.specs.Fmt.{decimal, signed_decimal};
ghost use Rattle.c_output.specs.Filled.{standing, filled, named, numbered, each, each_at, each_number};

use ladder_tree::element::Name;
use std::alloc::{AllocError, Global};

/// Appends what stands for a byte of a template: the name for `@`, the other two texts for `#` and `$`, and else the byte.
fn push_standing(
    text: &mut Vec<u8>,
    byte: u8,
    name: &[u8],
    first: &[u8],
    second: &[u8],
) -> Result<(), AllocError>
    ensures { OnOk result (text.new.items ≡ text.old.items ++ standing name.now first.now second.now byte) }
{
    match byte {
        b'@' => text.extend_from_slice(name),
        b'#' => text.extend_from_slice(first),
        b'$' => text.extend_from_slice(second),
        other => text.extend_from_slice(&[other]),
    }
}

/// Appends a template with a name for its `@`, and two other texts for its `#` and `$`.
pub fn push_filled(
    text: &mut Vec<u8>,
    template: &str,
    name: &[u8],
    first: &[u8],
    second: &[u8],
) -> Result<(), AllocError>
    ensures { OnOk result (text.new.items ≡ text.old.items ++ filled template.now name.now first.now second.now) }
{
    let bytes = template.as_bytes();
    for byte in bytes {
        push_standing(text, *byte, name, first, second)?;
    }
    Ok(())
}

/// Appends a template with a name alone.
pub fn push_named(text: &mut Vec<u8>, template: &str, name: &Name) -> Result<(), AllocError>
    ensures { OnOk result (text.new.items ≡ text.old.items ++ named template.now name.now) }
{
    push_filled(text, template, name.as_slice(), b"", b"")
}

/// Appends a template with a number for its `#`.
pub fn push_numbered(
    alloc: Global,
    text: &mut Vec<u8>,
    template: &str,
    number: usize,
) -> Result<(), AllocError>
    ensures { OnOk result (text.new.items ≡ text.old.items ++ numbered template.now number) }
{
    let digits = format!(in alloc; "{number}")?;
    push_filled(text, template, b"", digits.as_bytes(), b"")
}

/// Appends a template with a name and a number.
pub fn push_sized(
    alloc: Global,
    text: &mut Vec<u8>,
    template: &str,
    name: &Name,
    number: usize,
) -> Result<(), AllocError>
    ensures { OnOk result (text.new.items ≡ text.old.items ++ filled template.now name.now (decimal number) []) }
{
    let digits = format!(in alloc; "{number}")?;
    push_filled(text, template, name.as_slice(), digits.as_bytes(), b"")
}

/// Appends a template with a name and two numbers.
pub fn push_pair(
    alloc: Global,
    text: &mut Vec<u8>,
    template: &str,
    name: &Name,
    first: usize,
    second: usize,
) -> Result<(), AllocError>
    ensures { OnOk result (text.new.items ≡ text.old.items ++ filled template.now name.now (decimal first) (decimal second)) }
{
    let first = format!(in alloc; "{first}")?;
    let second = format!(in alloc; "{second}")?;
    push_filled(
        text,
        template,
        name.as_slice(),
        first.as_bytes(),
        second.as_bytes(),
    )
}

/// Appends a template with a name, a number, and one that may be below 0.
pub fn push_limited(
    alloc: Global,
    text: &mut Vec<u8>,
    template: &str,
    name: &Name,
    number: usize,
    limit: i16,
) -> Result<(), AllocError>
    ensures { OnOk result (text.new.items ≡ text.old.items ++ filled template.now name.now (decimal number) (signed_decimal limit)) }
{
    let digits = format!(in alloc; "{number}")?;
    let limit = format!(in alloc; "{limit}")?;
    push_filled(
        text,
        template,
        name.as_slice(),
        digits.as_bytes(),
        limit.as_bytes(),
    )
}

/// Appends a template for each name.
pub fn push_each(text: &mut Vec<u8>, template: &str, names: &[Name]) -> Result<(), AllocError>
    ensures { OnOk result (text.new.items ≡ text.old.items ++ each template.now names.now) }
{
    for name in names {
        push_named(text, template, name)?;
    }
    Ok(())
}

/// Appends a template for each name, with its place.
pub fn push_each_at(
    alloc: Global,
    text: &mut Vec<u8>,
    template: &str,
    names: &[Name],
) -> Result<(), AllocError>
    ensures { OnOk result (text.new.items ≡ text.old.items ++ each_at template.now 0 names.now) }
{
    for place in 0..names.len() {
        push_sized(alloc, text, template, &names[place], place)?;
    }
    Ok(())
}

/// Appends a template for each number from 0 on, so many.
pub fn push_each_number(
    alloc: Global,
    text: &mut Vec<u8>,
    template: &str,
    count: usize,
) -> Result<(), AllocError>
    ensures { OnOk result (text.new.items ≡ text.old.items ++ each_number template.now count) }
{
    for number in 0..count {
        push_numbered(alloc, text, template, number)?;
    }
    Ok(())
}
