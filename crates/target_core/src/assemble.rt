//! From primitives to words, in two passes: the places of the labels, and then the words.

ghost use Rattle.std.specs.Prelude.{◌≡◌, ◌+◌, ◌*◌, ◌≤◌, ◌<◌, ◌^◌, ◌↔◌, ◌++◌, List, ℕ, IfOk, IfErr, OnOk, length, sum_by, [], suc};
ghost use Rattle.target_core.specs.Law.{Target, label_named};
ghost use Rattle.target_core.specs.Whole.{words_sum, cycles_sum, boot_sum, IsTooLong, IsWhole, RunsAs};
ghost use Rattle.target_core.specs.Image.{image_from, table_from, padded, marked};

use crate::machine::Machine16;
use crate::words::Words;
use byte_code::prim::{BytePrim, Prims};
use std::alloc::{AllocError, Global};

/// A program in a chip's words, and what its segments may cost.
#[derive(Drop)]
pub struct Assembled {
    /// The words of the flash, from place 0 on.
    pub words: Words,
    /// The cycles that each segment behind the first takes at most, without the answers that are not ready.
    pub cycles: u32,
    /// The same of the first segment.
    pub boot: u32,
}

/// Why nothing was assembled.
#[derive(Clone, Copy, Debug, PartialEq, Eq)]
pub enum AsmFault {
    /// The program has `need` words, and the flash has `have`, which are fewer.
    CodeFull { need: u32, have: u32 },
    /// Memory was refused.
    Memory(AllocError),
}

/// The words of a program of primitives, which run as the byte machine does, and what their segments may cost. `CodeFull` comes exactly where the flash
/// has fewer words than the program.
pub fn assemble<T: Machine16>(alloc: Global, t: &T, code: &Prims) -> Result<Assembled, AsmFault>
    requires whole { IsWhole (T.target t.now) code.now }
    requires words { words_sum (T.target t.now) code.now < 2 ^ 32 }
    requires cycles { cycles_sum (T.target t.now) code.now < 2 ^ 32 }
    requires boot { boot_sum (T.target t.now) code.now < 2 ^ 32 }
    ensures full { IsTooLong (T.target t.now) code.now ↔ (result ≡ Err (AsmFault.CodeFull (words_sum (T.target t.now) code.now) (T.target t.now).size)) }
    ensures only_full { (need have : ℕ) → result ≡ Err (AsmFault.CodeFull need have) → IsTooLong (T.target t.now) code.now }
    ensures runs { IfOk result (λ a. RunsAs (T.target t.now) code.now a.words a.cycles a.boot) }
    ensures length { IfOk result (λ a. length a.words ≡ words_sum (T.target t.now) code.now) }
    ensures cycles { IfOk result (λ a. a.cycles ≡ cycles_sum (T.target t.now) code.now) }
    ensures boot { IfOk result (λ a. a.boot ≡ boot_sum (T.target t.now) code.now) }
{
    let need = word_count(t, code);
    let have = t.flash_words();
    if have < need {
        return Err(AsmFault::CodeFull { need, have });
    }
    let cycles = cycle_count(t, code);
    let boot = boot_count(t, code);
    let labels = match label_table(alloc, t, code) {
        Ok(labels) => labels,
        Err(e) => return Err(AsmFault::Memory(e)),
    };
    match emit_all(alloc, t, code, &labels) {
        Ok(words) => Ok(Assembled {
            words,
            cycles,
            boot,
        }),
        Err(e) => Err(AsmFault::Memory(e)),
    }
}

/// How many words the primitives have.
fn word_count<T: Machine16>(t: &T, code: &Prims) -> u32
    requires { words_sum (T.target t.now) code.now < 2 ^ 32 }
    ensures { result ≡ words_sum (T.target t.now) code.now }
{
    let mut sum = 0;
    for i in 0..code.len() {
        sum += t.words_of(&code.get(i).prim);
    }
    sum
}

/// What a segment behind the first may cost.
fn cycle_count<T: Machine16>(t: &T, code: &Prims) -> u32
    requires { cycles_sum (T.target t.now) code.now < 2 ^ 32 }
    ensures { result ≡ cycles_sum (T.target t.now) code.now }
{
    let mut sum = 0;
    for i in 0..code.len() {
        let p = code.get(i);
        sum += t.cycles_of(&p.prim) * p.turns;
    }
    sum
}

/// What the first segment may cost.
fn boot_count<T: Machine16>(t: &T, code: &Prims) -> u32
    requires { boot_sum (T.target t.now) code.now < 2 ^ 32 }
    ensures { result ≡ boot_sum (T.target t.now) code.now }
{
    let mut sum = 0;
    for i in 0..code.len() {
        let p = code.get(i);
        sum += t.cycles_of(&p.prim) * p.boot;
    }
    sum
}

/// The place of each label, by its number.
fn label_table<T: Machine16>(alloc: Global, t: &T, code: &Prims) -> Result<Words, AllocError>
    requires fits { words_sum (T.target t.now) code.now ≤ (T.target t.now).size }
    requires small { (T.target t.now).size < 2 ^ 16 }
    ensures { IfOk result (λ labels. labels ≡ table_from (T.target t.now).words_in 0 [] code.now) }
{
    let mut labels = Words::new(alloc);
    let mut at: u32 = 0;
    for i in 0..code.len() {
        let p = &code.get(i).prim;
        mark(&mut labels, p, at)?;
        at += t.words_of(p);
    }
    Ok(labels)
}

/// Puts down the place of a label, where the primitive is one.
fn mark(labels: &mut Words, p: &BytePrim, at: u32) -> Result<(), AllocError>
    requires { at < 2 ^ 16 }
    ensures { OnOk result (labels.new ≡ marked p.now at labels.old) }
{
    if let BytePrim::Label { label } = p {
        pad(labels, *label as usize)?;
        labels.set(*label as usize, at as u16);
    }
    Ok(())
}

/// Appends zeros until the list has a place.
fn pad(labels: &mut Words, place: usize) -> Result<(), AllocError>
    ensures { OnOk result (labels.new ≡ padded labels.old (suc place)) }
{
    while labels.len() <= place {
        labels.push(0)?;
    }
    Ok(())
}

/// The words of each primitive in turn.
fn emit_all<T: Machine16>(
    alloc: Global,
    t: &T,
    code: &Prims,
    labels: &Words,
) -> Result<Words, AllocError>
    requires fits { words_sum (T.target t.now) code.now ≤ (T.target t.now).size }
    requires small { (T.target t.now).size < 2 ^ 16 }
    requires whole { IsWhole (T.target t.now) code.now }
    requires labels { labels.now ≡ table_from (T.target t.now).words_in 0 [] code.now }
    ensures { IfOk result (λ words. words ≡ image_from (T.target t.now) labels.now 0 code.now) }
{
    let mut words = Words::new(alloc);
    let mut at: u32 = 0;
    for i in 0..code.len() {
        let p = &code.get(i).prim;
        t.emit(p, at, labels, &mut words)?;
        at += t.words_of(p);
    }
    Ok(words)
}
