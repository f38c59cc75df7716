//! The forms of a rung that are open.

ghost use Rattle.std.specs.Prelude.{◌≡◌, true, not, [], ◌∷◌, length, IfOk, OnOk};
ghost use Rattle.ld_text.specs.Tree.{is_open, is_rung, depth_of, kind_of, with_node, behind_end, rung_ended};

use ladder_tree::project::{Node, Nodes};
use ld_line::rungs::Circuit;
use sqlite_items::Items;
use std::alloc::{AllocError, Global};
use std::marker::Model;

/// What a form is.
#[derive(Drop)]
pub enum FormKind {
    Rung,
    /// Nodes one after another.
    Series,
    /// Nodes side by side.
    Parallel,
}

/// A form that is open.
#[derive(Drop)]
pub struct Form {
    pub kind: FormKind,
    /// Those that it has so far.
    pub nodes: Nodes,
}

/// The open forms, the outermost first. That one is a rung, and no other is. Contracts see the innermost first.
#[derive(Drop)]
pub struct Forms {
    items: Vec<Form>,
}

impl Model for Forms {
    ghost use Rattle.std.specs.Prelude.{List, reverse};
    ghost use Rattle.ld_text.specs.declared.forms.Form.{Form};
    ghost use Rattle.std.specs.Coded.{codes};
    ghost use Rattle.ladder_tree.specs.contracts.project.Node as node;

    ghost Value = { List Form };

    ghost coded = { Prim.hlevel (codes, node.the_row.coded) };

    ghost use Rattle.ld_text.specs.Tree.{AreNested};

    ghost view = { λ a. reverse a.items.items };

    ghost invariant = { λ a. AreNested (reverse a.items.items) };
}

/// The kind of a form that a line of rungs opens.
pub fn kind_of(circuit: Circuit) -> FormKind
    ensures { result ≡ kind_of circuit }
{
    match circuit {
        Circuit::Series => FormKind::Series,
        Circuit::Parallel => FormKind::Parallel,
    }
}

impl Forms {
    /// No form is open. It takes no memory.
    pub fn new(alloc: Global) -> Forms
        ensures { result ≡ [] }
    {
        Forms {
            items: Vec::new(alloc),
        }
    }

    /// Whether a form is open.
    pub fn is_open(&self) -> bool
        ensures { result ≡ is_open self.now }
    {
        !self.items.is_empty()
    }

    /// How many SERIES and PARALLELs are open.
    pub fn depth(&self) -> usize
        ensures { result ≡ depth_of self.now }
    {
        self.items.len().saturating_sub(1)
    }

    /// The open forms, the outermost first.
    pub fn as_slice(&self) -> &[Form] {
        self.items.as_slice()
    }

    /// Opens a form: a rung where none is open, and else another.
    pub fn open(&mut self, alloc: Global, kind: FormKind) -> Result<(), AllocError>
        requires { is_rung kind ≡ not (is_open self.old) }
        ensures { OnOk result (self.new ≡ record { kind = kind; nodes = [] } ∷ self.old) }
    {
        self.items.push(Form {
            kind,
            nodes: Items::new(alloc),
        })?;
        Ok(())
    }

    /// Appends a node to the innermost form.
    pub fn append(&mut self, node: Node) -> Result<(), AllocError>
        requires { is_open self.old ≡ true }
        ensures { OnOk result (self.new ≡ with_node self.old node) }
    {
        let last = self.items.len() - 1;
        self.items[last].nodes.push(node)
    }

    /// Ends the innermost form. The nodes are those of a rung that ended so; any other form is a node of the one around it.
    pub fn end(&mut self) -> Result<Option<Nodes>, AllocError>
        requires { is_open self.old ≡ true }
        ensures rung { IfOk result (λ nodes. nodes ≡ rung_ended self.old) }
        ensures rest { OnOk result (self.new ≡ behind_end self.old) }
    {
        let last = self.items.len() - 1;
        let Form { kind, nodes } = self.items.remove(last);
        match kind {
            FormKind::Rung => Ok(Some(nodes)),
            FormKind::Series => {
                self.append(Node::Series(nodes))?;
                Ok(None)
            }
            FormKind::Parallel => {
                self.append(Node::Parallel(nodes))?;
                Ok(None)
            }
        }
    }
}
