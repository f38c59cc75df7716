//! The names of a project, each list in order of first appearance.

ghost use Rattle.std.specs.Prelude.{◌≡◌, ◌+◌, ◌^◌, ◌<◌, ◌≤◌, ◌∷◌, ◌++◌, length, map, IfOk, OnOk, filter, slice_index_or, nat_eq, option_to_list};
ghost use Rattle.std.specs.Option.{option_map};
ghost use Rattle.ladder_tree.specs.Leaves.{all_leaves};
ghost use Rattle.std.specs.Fmt.{decimal};
ghost use Rattle.ladder_tree.specs.Names.{names_of, firsts, appearances, all_named, bit_names, variable_names, operand_names, numbered_names, analog_names, persistent_names, begins_with, memories, memories_in};

use crate::element::{Leaf, LeafKind, Name, Operand};
use crate::leaves::leaves_in_order;
use crate::project::Project;
use indexmap::IndexSet;
use ld_base::list::List;
use std::alloc::{AllocError, Global};

/// Names in order.
pub type NameList = List<Name>;

/// The names of a project by what they are, each once, and how many memories its elements have.
#[derive(Debug, Drop)]
pub struct Names {
    /// Names that begin with X.
    pub inputs: NameList,
    /// Names that begin with Y.
    pub outputs: NameList,
    /// Names that begin with R.
    pub relays: NameList,
    pub variables: NameList,
    pub analog: NameList,
    pub persistent: NameList,
    pub memories: u32,
}

/// The names of a project. It is linear in the project and the places of its shift registers, but for hashing.
pub fn names_in_order(alloc: Global, project: &Project) -> Result<Names, AllocError>
    requires { length (all_leaves project.now.rungs) < 2 ^ 32 }
    ensures { IfOk result (λ names. names ≡ names_of project.now.rungs) }
{
    let leaves = leaves_in_order(alloc, project)?;
    Ok(Names {
        inputs: first_bits(alloc, &leaves, b'X')?,
        outputs: first_bits(alloc, &leaves, b'Y')?,
        relays: first_bits(alloc, &leaves, b'R')?,
        variables: first_variables(alloc, &leaves)?,
        analog: first_analog(alloc, &leaves)?,
        persistent: first_persistent(alloc, &leaves)?,
        memories: count_memories(&leaves),
    })
}

/// The bits that begin with a letter, each once.
fn first_bits(alloc: Global, leaves: &[&Leaf], letter: u8) -> Result<NameList, AllocError>
    requires { 0 < letter }
    ensures { IfOk result (λ names. names ≡ firsts (appearances (begins_with letter) (map (λ l. l.now) leaves.now))) }
{
    let mut names = Vec::new(alloc);
    for leaf in leaves {
        if let Some(name) = bit_name(&leaf.kind) {
            if begins_with(name, letter) {
                names.push(name.as_slice())?;
            }
        }
    }
    first_names(alloc, &names)
}

/// The variables, each once.
fn first_variables(alloc: Global, leaves: &[&Leaf]) -> Result<NameList, AllocError>
    ensures { IfOk result (λ names. names ≡ firsts (all_named variable_names (map (λ l. l.now) leaves.now))) }
{
    let mut all = NameList::new(alloc);
    for leaf in leaves {
        push_variables(alloc, &mut all, &leaf.kind)?;
    }
    first_names(alloc, &slices(alloc, all.as_slice())?)
}

/// The analog names, each once.
fn first_analog(alloc: Global, leaves: &[&Leaf]) -> Result<NameList, AllocError>
    ensures { IfOk result (λ names. names ≡ firsts (all_named analog_names (map (λ l. l.now) leaves.now))) }
{
    let mut names = Vec::new(alloc);
    for leaf in leaves {
        if let LeafKind::ReadAdc { name } = &leaf.kind {
            names.push(name.as_slice())?;
        }
    }
    first_names(alloc, &names)
}

/// The persistent names, each once.
fn first_persistent(alloc: Global, leaves: &[&Leaf]) -> Result<NameList, AllocError>
    ensures { IfOk result (λ names. names ≡ firsts (all_named persistent_names (map (λ l. l.now) leaves.now))) }
{
    let mut names = Vec::new(alloc);
    for leaf in leaves {
        if let LeafKind::Persist { name } = &leaf.kind {
            names.push(name.as_slice())?;
        }
    }
    first_names(alloc, &names)
}

/// Each name once, where it first stands.
fn first_names(alloc: Global, names: &[&[u8]]) -> Result<NameList, AllocError>
    ensures { IfOk result (λ kept. kept ≡ firsts (map (λ n. n.now) names.now)) }
{
    let mut firsts = IndexSet::new(alloc);
    for name in names {
        firsts.insert(*name)?;
    }
    copy_names(alloc, firsts.as_slice())
}

fn slices<'a>(alloc: Global, names: &'a [Name]) -> Result<Vec<&'a [u8]>, AllocError>
    ensures { IfOk result (λ v. map (λ n. n.now) v.items ≡ names.now) }
{
    let mut slices = Vec::new(alloc);
    for name in names {
        slices.push(name.as_slice())?;
    }
    Ok(slices)
}

fn copy_names(alloc: Global, names: &[&[u8]]) -> Result<NameList, AllocError>
    ensures { IfOk result (λ copies. copies ≡ map (λ n. n.now) names.now) }
{
    let mut copies = NameList::new(alloc);
    for name in names {
        let copy = Vec::from_slice(alloc, name)?;
        copies.push(Name::from_vec(copy))?;
    }
    Ok(copies)
}

fn copy_name(alloc: Global, name: &Name) -> Result<Name, AllocError>
    ensures { IfOk result (λ copy. copy ≡ name.now) }
{
    Ok(Name::from_vec(Vec::from_slice(alloc, name.as_slice())?))
}

/// Appends the variables that an element names, from left to right.
fn push_variables(alloc: Global, names: &mut NameList, kind: &LeafKind) -> Result<(), AllocError>
    ensures { OnOk result (names.new ≡ names.old ++ variable_names kind.now) }
{
    match kind {
        LeafKind::Timer { name, .. }
        | LeafKind::Counter { name, .. }
        | LeafKind::Reset { name }
        | LeafKind::ReadAdc { name }
        | LeafKind::SetPwm { name, .. }
        | LeafKind::Recv { name }
        | LeafKind::Send { name }
        | LeafKind::Persist { name }
        | LeafKind::Formatted { name, .. } => names.push(copy_name(alloc, name)?),
        LeafKind::Move { dest, src: operand }
        | LeafKind::Table {
            dest,
            index: operand,
            ..
        }
        | LeafKind::Linear {
            dest,
            index: operand,
            ..
        } => push_assigned(alloc, names, dest, operand),
        LeafKind::Math { dest, a, b, .. } => {
            push_assigned(alloc, names, dest, a)?;
            push_operand(alloc, names, b)
        }
        LeafKind::Compare { a, b, .. } => {
            push_operand(alloc, names, a)?;
            push_operand(alloc, names, b)
        }
        LeafKind::Shift { name, places } => push_numbered(alloc, names, name, *places),
        _ => Ok(()),
    }
}

/// Appends a destination, and behind it what it is set from.
fn push_assigned(
    alloc: Global,
    names: &mut NameList,
    dest: &Name,
    operand: &Operand,
) -> Result<(), AllocError>
    ensures { OnOk result (names.new ≡ names.old ++ dest.now ∷ operand_names operand.now) }
{
    names.push(copy_name(alloc, dest)?)?;
    push_operand(alloc, names, operand)
}

fn push_operand(alloc: Global, names: &mut NameList, operand: &Operand) -> Result<(), AllocError>
    ensures { OnOk result (names.new ≡ names.old ++ operand_names operand.now) }
{
    match operand {
        Operand::Var(name) => names.push(copy_name(alloc, name)?),
        Operand::Num(_) => Ok(()),
    }
}

/// Appends the names of a shift register's places.
fn push_numbered(
    alloc: Global,
    names: &mut NameList,
    name: &Name,
    places: u16,
) -> Result<(), AllocError>
    ensures { OnOk result (names.new ≡ names.old ++ numbered_names name.now places) }
{
    for place in 0..places {
        names.push(numbered_name(alloc, name, place)?)?;
    }
    Ok(())
}

/// The name of a shift register's place, with the place's number in decimal behind the register's name.
pub fn numbered_name(alloc: Global, name: &Name, place: u16) -> Result<Name, AllocError>
    ensures { IfOk result (λ made. made ≡ name.now ++ decimal place) }
{
    let digits = format!(in alloc; "{place}")?;
    let mut bytes = Vec::from_slice(alloc, name.as_slice())?;
    bytes.extend_from_slice(digits.as_bytes())?;
    Ok(Name::from_vec(bytes))
}

/// The bit that an element names.
fn bit_name(kind: &LeafKind) -> Option<&Name>
    ensures { option_to_list (option_map (λ name. name.now) result) ≡ bit_names kind.now }
{
    match kind {
        LeafKind::Contacts { name, .. } => Some(name),
        LeafKind::Coil { name, .. } => Some(name),
        _ => None,
    }
}

/// Whether a name begins with a letter.
pub fn begins_with(name: &Name, letter: u8) -> bool
    requires { 0 < letter }
    ensures { result ≡ begins_with letter name.now }
{
    name.len() > 0 && *name.get(0) == letter
}

fn count_memories(leaves: &[&Leaf]) -> u32
    requires { length leaves.now < 2 ^ 32 }
    ensures { result ≡ memories_in (map (λ l. l.now) leaves.now) }
{
    let mut count = 0;
    for leaf in leaves {
        count += memories(&leaf.kind);
    }
    count
}

/// How many memories an element has: the state of its input in the cycle before, or none.
pub fn memories(kind: &LeafKind) -> u32
    ensures exact { result ≡ memories kind.now }
    ensures few { result ≤ 1 }
{
    match kind {
        LeafKind::Osr | LeafKind::Osf | LeafKind::Counter { .. } | LeafKind::Shift { .. } => 1,
        _ => 0,
    }
}
