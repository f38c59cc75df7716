//! The elements of a ladder, each on its line.

ghost use Rattle.std.specs.Prelude.{◌≡◌, IfOk, map};
ghost use Rattle.ld_line.specs.Elements.{integers, table_by, only_name, contacts, mode_of, mode_from, coil, comment, operand_pair, table_head, timer_of, counter_of, move, math, compare, shift, counted, table, pwm, element_of};

use crate::number::{MOST_DELAY, MOST_SETTING, integer, natural_in};
use crate::operand::{copy_of, flag, name, operand};
use crate::said::{Said, bare, both, made};
use crate::tokens::comment_text;
use crate::word::Word;
use ladder_tree::element::{
    CoilMode, CompareHow, CounterHow, LeafKind, MathHow, Name, Nums, Operand, TimerHow,
};
use ladder_tree::limits::{SHIFT_PLACES, TABLE_VALUES};
use std::alloc::{AllocError, Global};

/// `CONTACTS name flag`.
fn contacts(alloc: Global, operands: &[&[u8]]) -> Result<Said<LeafKind>, AllocError>
    ensures { IfOk result (λ said. said ≡ contacts (map (λ t. t.now) operands.now)) }
{
    let [token, negated] = operands else {
        return Ok(Said::Bad);
    };
    let said = both(name(alloc, token)?, flag(negated));
    Ok(made!(said, (name, neg) => LeafKind::Contacts { name, neg }))
}

/// What a coil does whose flags are these. At most one of them is set.
fn mode_of(negated: bool, set: bool, reset: bool) -> Said<CoilMode>
    ensures { result ≡ mode_of negated set reset }
{
    match (negated, set, reset) {
        (false, false, false) => Said::Is(CoilMode::Plain),
        (true, false, false) => Said::Is(CoilMode::Negated),
        (false, true, false) => Said::Is(CoilMode::Set),
        (false, false, true) => Said::Is(CoilMode::Reset),
        _ => Said::Bad,
    }
}

/// What a coil does whose flags are these tokens.
fn mode_from(negated: &[u8], set: &[u8], reset: &[u8]) -> Said<CoilMode>
    ensures { result ≡ mode_from negated.now set.now reset.now }
{
    match both(flag(negated), both(flag(set), flag(reset))) {
        Said::Bad => Said::Bad,
        Said::Range => Said::Range,
        Said::Is((negated, (set, reset))) => mode_of(negated, set, reset),
    }
}

/// `COIL name negated set reset`.
fn coil(alloc: Global, operands: &[&[u8]]) -> Result<Said<LeafKind>, AllocError>
    ensures { IfOk result (λ said. said ≡ coil (map (λ t. t.now) operands.now)) }
{
    let [token, negated, set, reset] = operands else {
        return Ok(Said::Bad);
    };
    let said = both(name(alloc, token)?, mode_from(negated, set, reset));
    Ok(made!(said, (name, mode) => LeafKind::Coil { name, mode }))
}

/// `TON name delay`, and the other timers.
fn timer(alloc: Global, how: TimerHow, operands: &[&[u8]]) -> Result<Said<LeafKind>, AllocError>
    ensures { IfOk result (λ said. said ≡ timer_of how (map (λ t. t.now) operands.now)) }
{
    let [token, delay] = operands else {
        return Ok(Said::Bad);
    };
    let said = both(name(alloc, token)?, natural_in(0, MOST_DELAY, delay));
    Ok(made!(said, (name, delay) => LeafKind::Timer { how, name, delay }))
}

/// `CTU name max`, and the other counters.
fn counter(alloc: Global, how: CounterHow, operands: &[&[u8]]) -> Result<Said<LeafKind>, AllocError>
    ensures { IfOk result (λ said. said ≡ counter_of how (map (λ t. t.now) operands.now)) }
{
    let [token, max] = operands else {
        return Ok(Said::Bad);
    };
    let said = both(name(alloc, token)?, integer(max));
    Ok(made!(said, (name, max) => LeafKind::Counter { how, name, max }))
}

/// `MOVE dest src`.
fn move_to(alloc: Global, operands: &[&[u8]]) -> Result<Said<LeafKind>, AllocError>
    ensures { IfOk result (λ said. said ≡ move (map (λ t. t.now) operands.now)) }
{
    let [dest, src] = operands else {
        return Ok(Said::Bad);
    };
    let said = both(name(alloc, dest)?, operand(alloc, src)?);
    Ok(made!(said, (dest, src) => LeafKind::Move { dest, src }))
}

/// Two operands.
fn operand_pair(
    alloc: Global,
    first: &[u8],
    second: &[u8],
) -> Result<Said<(Operand, Operand)>, AllocError>
    ensures { IfOk result (λ said. said ≡ operand_pair first.now second.now) }
{
    let first = operand(alloc, first)?;
    let second = operand(alloc, second)?;
    Ok(both(first, second))
}

/// `ADD dest a b`, and the other arithmetic.
fn math(alloc: Global, how: MathHow, operands: &[&[u8]]) -> Result<Said<LeafKind>, AllocError>
    ensures { IfOk result (λ said. said ≡ math how (map (λ t. t.now) operands.now)) }
{
    let [dest, a, b] = operands else {
        return Ok(Said::Bad);
    };
    let said = both(name(alloc, dest)?, operand_pair(alloc, a, b)?);
    Ok(made!(said, (dest, (a, b)) => LeafKind::Math { how, dest, a, b }))
}

/// `EQU a b`, and the other comparisons.
fn compare(alloc: Global, how: CompareHow, operands: &[&[u8]]) -> Result<Said<LeafKind>, AllocError>
    ensures { IfOk result (λ said. said ≡ compare how (map (λ t. t.now) operands.now)) }
{
    let [a, b] = operands else {
        return Ok(Said::Bad);
    };
    let said = operand_pair(alloc, a, b)?;
    Ok(made!(said, (a, b) => LeafKind::Compare { how, a, b }))
}

/// `SHIFT_REGISTER name places`.
fn shift(alloc: Global, operands: &[&[u8]]) -> Result<Said<LeafKind>, AllocError>
    ensures { IfOk result (λ said. said ≡ shift (map (λ t. t.now) operands.now)) }
{
    let [token, places] = operands else {
        return Ok(Said::Bad);
    };
    match both(name(alloc, token)?, natural_in(1, SHIFT_PLACES, places)) {
        Said::Bad => Ok(Said::Bad),
        Said::Range => Ok(Said::Range),
        Said::Is((name, places)) => {
            let places = places as u16;
            Ok(Said::Is(LeafKind::Shift { name, places }))
        }
    }
}

/// Numbers of 16 bits, each a token.
fn integers(alloc: Global, tokens: &[&[u8]]) -> Result<Said<Nums>, AllocError>
    ensures { IfOk result (λ said. said ≡ integers (map (λ t. t.now) tokens.now)) }
{
    let mut values = Nums::new(alloc);
    let mut is_outside = false;
    for token in tokens {
        match integer(token) {
            Said::Bad => return Ok(Said::Bad),
            Said::Range => is_outside = true,
            Said::Is(value) => values.push(value)?,
        }
    }
    if is_outside {
        return Ok(Said::Range);
    }
    Ok(Said::Is(values))
}

/// `SET_PWM name hertz`.
fn pwm(alloc: Global, operands: &[&[u8]]) -> Result<Said<LeafKind>, AllocError>
    ensures { IfOk result (λ said. said ≡ pwm (map (λ t. t.now) operands.now)) }
{
    let [token, hz] = operands else {
        return Ok(Said::Bad);
    };
    let said = both(name(alloc, token)?, natural_in(0, MOST_SETTING, hz));
    Ok(made!(said, (name, hz) => LeafKind::SetPwm { name, hz }))
}

/// Where the values of a table go to, and the operand that chooses one.
fn table_head(alloc: Global, dest: &[u8], index: &[u8]) -> Result<Said<(Name, Operand)>, AllocError>
    ensures { IfOk result (λ said. said ≡ table_head dest.now index.now) }
{
    let dest = name(alloc, dest)?;
    let index = operand(alloc, index)?;
    Ok(both(dest, index))
}

/// The table, where it has as many values as its count says.
fn counted(dest: Name, index: Operand, count: u32, as_text: bool, values: Nums) -> Said<LeafKind>
    ensures { result ≡ counted dest index count as_text values }
{
    if values.len() as u64 != u64::from(count) {
        return Said::Bad;
    }
    Said::Is(LeafKind::Table {
        dest,
        index,
        as_text,
        values,
    })
}

/// What the parts of a table say together.
fn table_by(
    head: Said<(Name, Operand)>,
    how: Said<(u32, bool)>,
    values: Said<Nums>,
) -> Said<LeafKind>
    ensures { result ≡ table_by head how values }
{
    match both(head, both(how, values)) {
        Said::Bad => Said::Bad,
        Said::Range => Said::Range,
        Said::Is(((dest, index), ((count, as_text), values))) => {
            counted(dest, index, count, as_text, values)
        }
    }
}

/// `LOOK_UP_TABLE dest index count flag values`.
fn table(alloc: Global, operands: &[&[u8]]) -> Result<Said<LeafKind>, AllocError>
    ensures { IfOk result (λ said. said ≡ table (map (λ t. t.now) operands.now)) }
{
    let [dest, index, count, as_text, values @ ..] = operands else {
        return Ok(Said::Bad);
    };
    let head = table_head(alloc, dest, index)?;
    let how = both(natural_in(0, TABLE_VALUES, count), flag(as_text));
    let values = integers(alloc, values)?;
    Ok(table_by(head, how, values))
}

/// The only operand, where it is a name.
fn only_name(alloc: Global, operands: &[&[u8]]) -> Result<Said<Name>, AllocError>
    ensures { IfOk result (λ said. said ≡ only_name (map (λ t. t.now) operands.now)) }
{
    match operands {
        [token] => name(alloc, token),
        _ => Ok(Said::Bad),
    }
}

/// `COMMENT text`.
fn comment(alloc: Global, line: &[u8]) -> Result<Said<LeafKind>, AllocError>
    ensures { IfOk result (λ said. said ≡ comment line.now) }
{
    let text = copy_of(alloc, comment_text(line))?;
    Ok(Said::Is(LeafKind::Comment { text }))
}

/// The element that a line says: its word, the tokens behind the word, and the line itself, which holds a comment's text.
pub fn element(
    alloc: Global,
    word: Word,
    operands: &[&[u8]],
    line: &[u8],
) -> Result<Said<LeafKind>, AllocError>
    ensures { IfOk result (λ said. said ≡ element_of word (map (λ t. t.now) operands.now) line.now) }
{
    match word {
        Word::Contacts => contacts(alloc, operands),
        Word::Coil => coil(alloc, operands),
        Word::Osr => Ok(bare(LeafKind::Osr, operands)),
        Word::Osf => Ok(bare(LeafKind::Osf, operands)),
        Word::Short => Ok(bare(LeafKind::Short, operands)),
        Word::Open => Ok(bare(LeafKind::Open, operands)),
        Word::Comment => comment(alloc, line),
        Word::MasterRelay => Ok(bare(LeafKind::MasterRelay, operands)),
        Word::Placeholder => Ok(bare(LeafKind::Placeholder, operands)),
        Word::Ton => timer(alloc, TimerHow::Ton, operands),
        Word::Tof => timer(alloc, TimerHow::Tof, operands),
        Word::Rto => timer(alloc, TimerHow::Rto, operands),
        Word::Ctu => counter(alloc, CounterHow::Ctu, operands),
        Word::Ctd => counter(alloc, CounterHow::Ctd, operands),
        Word::Ctc => counter(alloc, CounterHow::Ctc, operands),
        Word::Move => move_to(alloc, operands),
        Word::Add => math(alloc, MathHow::Add, operands),
        Word::Sub => math(alloc, MathHow::Sub, operands),
        Word::Mul => math(alloc, MathHow::Mul, operands),
        Word::Div => math(alloc, MathHow::Div, operands),
        Word::Equ => compare(alloc, CompareHow::Equ, operands),
        Word::Neq => compare(alloc, CompareHow::Neq, operands),
        Word::Grt => compare(alloc, CompareHow::Grt, operands),
        Word::Geq => compare(alloc, CompareHow::Geq, operands),
        Word::Les => compare(alloc, CompareHow::Les, operands),
        Word::Leq => compare(alloc, CompareHow::Leq, operands),
        Word::ShiftRegister => shift(alloc, operands),
        Word::LookUpTable => table(alloc, operands),
        Word::SetPwm => pwm(alloc, operands),
        Word::Res => Ok(made!(only_name(alloc, operands)?, name => LeafKind::Reset { name })),
        Word::ReadAdc => Ok(made!(only_name(alloc, operands)?, name => LeafKind::ReadAdc { name })),
        Word::UartRecv => Ok(made!(only_name(alloc, operands)?, name => LeafKind::Recv { name })),
        Word::UartSend => Ok(made!(only_name(alloc, operands)?, name => LeafKind::Send { name })),
        Word::Persist => Ok(made!(only_name(alloc, operands)?, name => LeafKind::Persist { name })),
        Word::FormattedString | Word::PiecewiseLinear => Ok(Said::Bad),
    }
}
