//! The look for a pin that two names have, which takes no memory.

ghost use Rattle.std.specs.Prelude.{◌≡◌, ◌<◌, Some};
ghost use Rattle.ladder_tree.specs.declared.fault.ProjectFault.TheVariants as fault;
ghost use Rattle.ladder_rules.specs.Owners.{line_of, is_another, is_anothers, claimed, tried, claims};
ghost use Rattle.ladder_tree.specs.Visit.{seeks};
ghost use Rattle.ladder_rules.specs.declared.limits.TheConstants.{TABLE_PINS};
ghost use Rattle.ladder_rules.specs.Verdict.{pin_twice};

use crate::limits::TABLE_PINS;
use crate::pins::{is_chip, name_at, pinned};
use ladder_tree::element::{Leaf, Name};
use ladder_tree::fault::ProjectFault;
use ladder_tree::project::{PinLine, Project};
use ladder_tree::visit::{Visitor, visit_all};

/// The line of an element whose pin another name has.
#[derive(Clone, Copy)]
pub struct Clash {
    pub line: u32,
    pub pin: u16,
}

/// Stops at the first element with a pin, with whether its name is another.
#[derive(Clone, Copy)]
struct PinSought<'a> {
    pins: &'a [PinLine],
    pin: u16,
    name: &'a Name,
}

impl Visitor for PinSought<'_> {
    type Stop = bool;

    ghost at = { seeks is_another };

    fn visit(&mut self, leaf: &Leaf) -> Option<bool> {
        let other = name_at(self.pins, self.pin, &leaf.kind)?;
        Some(self.name.as_slice() != other.as_slice())
    }
}

/// Whether the first name with a pin is another.
fn is_anothers(project: &Project, pin: u16, name: &Name) -> bool
    ensures { result ≡ is_anothers project.now pin name.now }
{
    let mut sought = PinSought {
        pins: project.pins.as_slice(),
        pin,
        name,
    };
    match visit_all(&mut sought, project.rungs.as_slice()) {
        Some(is_another) => is_another,
        None => false,
    }
}

/// Whose each pin of the table is: 0 for nobody's, or the number of the pin line of the name, counted from 1.
#[derive(Drop)]
struct Owners<'a> {
    project: &'a Project,
    owners: [usize; TABLE_PINS],
}

impl Visitor for Owners<'_> {
    type Stop = Clash;

    ghost at = { claims };

    fn visit(&mut self, leaf: &Leaf) -> Option<Clash> {
        let name = pinned(&leaf.kind)?;
        let pin = tried(self.project, &mut self.owners, name)?;
        let line = leaf.line;
        Some(Clash { line, pin })
    }
}

/// The pin of a name, where it is another's. A pin of the table that was nobody's is the name's from then on.
fn tried(project: &Project, owners: &mut [usize; TABLE_PINS], name: &Name) -> Option<u16>
    ensures { (result, owners.new) ≡ tried project.now owners.old (Some name.now) }
{
    let (number, pin) = line_of(project.pins.as_slice(), name)?;
    if pin == 0 {
        return None;
    }
    let is_taken = if usize::from(pin) < TABLE_PINS {
        claimed(owners, usize::from(pin), number)
    } else {
        is_anothers(project, pin, name)
    };
    is_taken.then_some(pin)
}

/// Whether a pin of the table is another's.
fn claimed(owners: &mut [usize; TABLE_PINS], pin: usize, number: usize) -> bool
    requires { pin < TABLE_PINS }
    ensures { (result, owners.new) ≡ claimed owners.old pin number }
{
    let owner = owners[pin];
    if owner == 0 {
        owners[pin] = number;
        return false;
    }
    owner != number
}

/// The number and the pin of the first line with a name.
fn line_of(pins: &[PinLine], name: &Name) -> Option<(usize, u16)>
    ensures { result ≡ line_of pins.now name.now }
{
    for place in 0..pins.len() {
        let line = &pins[place];
        if line.name.as_slice() == name.as_slice() {
            return Some((place + 1, line.pin));
        }
    }
    None
}

/// The fault of the first element whose pin an earlier name has, on a chip.
pub fn pin_twice(project: &Project) -> Option<ProjectFault>
    ensures { result ≡ pin_twice project.now }
{
    if !is_chip(project.target) {
        return None;
    }
    let mut owners = Owners {
        project,
        owners: [0; TABLE_PINS],
    };
    match visit_all(&mut owners, project.rungs.as_slice()) {
        Some(clash) => Some(fault_of(clash)),
        None => None,
    }
}

fn fault_of(clash: Clash) -> ProjectFault
    ensures { result ≡ fault.PinTwice clash.line clash.pin }
{
    ProjectFault::PinTwice {
        line: clash.line,
        pin: clash.pin,
    }
}
