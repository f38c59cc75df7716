//! The lines that elements are printed as.

ghost use Rattle.std.specs.Prelude.{◌≡◌, ◌/◌, [], ◌∷◌, ◌++◌, OnOk, map, length};
ghost use Rattle.std.specs.Fmt.{decimal, signed_decimal};
ghost use Rattle.ld_line.specs.Kinds.{timer_word, counter_word, math_word, compare_word, word_for};
ghost use Rattle.ld_print.specs.Words.{flag, mode_flags, operand_text, comment_tokens, integers, tokens_behind, behind_spaces, element_words};

use ladder_tree::element::{
    CoilMode, CompareHow, CounterHow, LeafKind, MathHow, Name, Operand, TimerHow,
};
use ld_line::word::Word;
use std::alloc::{AllocError, Global};

fn timer_word(how: TimerHow) -> Word
    ensures { result ≡ timer_word how }
{
    match how {
        TimerHow::Ton => Word::Ton,
        TimerHow::Tof => Word::Tof,
        TimerHow::Rto => Word::Rto,
    }
}

fn counter_word(how: CounterHow) -> Word
    ensures { result ≡ counter_word how }
{
    match how {
        CounterHow::Ctu => Word::Ctu,
        CounterHow::Ctd => Word::Ctd,
        CounterHow::Ctc => Word::Ctc,
    }
}

fn math_word(how: MathHow) -> Word
    ensures { result ≡ math_word how }
{
    match how {
        MathHow::Add => Word::Add,
        MathHow::Sub => Word::Sub,
        MathHow::Mul => Word::Mul,
        MathHow::Div => Word::Div,
    }
}

fn compare_word(how: CompareHow) -> Word
    ensures { result ≡ compare_word how }
{
    match how {
        CompareHow::Equ => Word::Equ,
        CompareHow::Neq => Word::Neq,
        CompareHow::Grt => Word::Grt,
        CompareHow::Geq => Word::Geq,
        CompareHow::Les => Word::Les,
        CompareHow::Leq => Word::Leq,
    }
}

/// The word that an element's line begins with.
fn word_for(kind: &LeafKind) -> Word
    ensures { result ≡ word_for kind.now }
{
    match kind {
        LeafKind::Contacts { .. } => Word::Contacts,
        LeafKind::Coil { .. } => Word::Coil,
        LeafKind::Osr => Word::Osr,
        LeafKind::Osf => Word::Osf,
        LeafKind::Short => Word::Short,
        LeafKind::Open => Word::Open,
        LeafKind::MasterRelay => Word::MasterRelay,
        LeafKind::Placeholder => Word::Placeholder,
        LeafKind::Comment { .. } => Word::Comment,
        LeafKind::Timer { how, .. } => timer_word(*how),
        LeafKind::Counter { how, .. } => counter_word(*how),
        LeafKind::Reset { .. } => Word::Res,
        LeafKind::Move { .. } => Word::Move,
        LeafKind::Math { how, .. } => math_word(*how),
        LeafKind::Compare { how, .. } => compare_word(*how),
        LeafKind::Shift { .. } => Word::ShiftRegister,
        LeafKind::Table { .. } => Word::LookUpTable,
        LeafKind::ReadAdc { .. } => Word::ReadAdc,
        LeafKind::SetPwm { .. } => Word::SetPwm,
        LeafKind::Recv { .. } => Word::UartRecv,
        LeafKind::Send { .. } => Word::UartSend,
        LeafKind::Persist { .. } => Word::Persist,
        LeafKind::Linear { .. } => Word::PiecewiseLinear,
        LeafKind::Formatted { .. } => Word::FormattedString,
    }
}

/// Appends a space and a token.
fn push_token(line: &mut Vec<u8>, token: &[u8]) -> Result<(), AllocError>
    ensures { OnOk result (line.new.items ≡ line.old.items ++ 32 ∷ token.now) }
{
    line.push(b' ')?;
    line.extend_from_slice(token)
}

/// Appends a space and the digits of a number.
fn push_natural(alloc: Global, line: &mut Vec<u8>, number: usize) -> Result<(), AllocError>
    ensures { OnOk result (line.new.items ≡ line.old.items ++ 32 ∷ decimal number) }
{
    let digits = format!(in alloc; "{number}")?;
    push_token(line, digits.as_bytes())
}

/// Appends a space and a number, with `-` in front where it is below 0.
fn push_integer(alloc: Global, line: &mut Vec<u8>, number: i16) -> Result<(), AllocError>
    ensures { OnOk result (line.new.items ≡ line.old.items ++ 32 ∷ signed_decimal number) }
{
    let digits = format!(in alloc; "{number}")?;
    push_token(line, digits.as_bytes())
}

/// Appends numbers, each behind a space.
fn push_integers(alloc: Global, line: &mut Vec<u8>, numbers: &[i16]) -> Result<(), AllocError>
    ensures { OnOk result (line.new.items ≡ line.old.items ++ behind_spaces (integers numbers.now)) }
{
    for number in numbers {
        push_integer(alloc, line, *number)?;
    }
    Ok(())
}

/// Appends the numbers of bytes, each behind a space.
fn push_bytes(alloc: Global, line: &mut Vec<u8>, bytes: &[u8]) -> Result<(), AllocError>
    ensures { OnOk result (line.new.items ≡ line.old.items ++ behind_spaces (map decimal bytes.now)) }
{
    for byte in bytes {
        push_natural(alloc, line, usize::from(*byte))?;
    }
    Ok(())
}

/// Appends a space and a flag.
fn push_flag(line: &mut Vec<u8>, is_set: bool) -> Result<(), AllocError>
    ensures { OnOk result (line.new.items ≡ line.old.items ++ 32 ∷ flag is_set) }
{
    push_token(line, if is_set { b"1" } else { b"0" })
}

/// Appends the flags of a coil: negated, set and reset.
fn push_mode(line: &mut Vec<u8>, mode: CoilMode) -> Result<(), AllocError>
    ensures { OnOk result (line.new.items ≡ line.old.items ++ behind_spaces (mode_flags mode)) }
{
    let flags = match mode {
        CoilMode::Plain => " 0 0 0",
        CoilMode::Negated => " 1 0 0",
        CoilMode::Set => " 0 1 0",
        CoilMode::Reset => " 0 0 1",
    };
    line.extend_from_slice(flags.as_bytes())
}

/// Appends a space and an operand.
fn push_operand(alloc: Global, line: &mut Vec<u8>, operand: &Operand) -> Result<(), AllocError>
    ensures { OnOk result (line.new.items ≡ line.old.items ++ 32 ∷ operand_text operand.now) }
{
    match operand {
        Operand::Var(name) => push_token(line, name.as_slice()),
        Operand::Num(number) => push_integer(alloc, line, *number),
    }
}

/// Appends a comment's text behind a space, and nothing where it is empty.
fn push_comment(line: &mut Vec<u8>, text: &[u8]) -> Result<(), AllocError>
    ensures { OnOk result (line.new.items ≡ line.old.items ++ behind_spaces (comment_tokens text.now)) }
{
    if text.is_empty() {
        return Ok(());
    }
    push_token(line, text)
}

/// Appends the name of contacts and whether they are negated.
fn push_contacts(line: &mut Vec<u8>, name: &Name, neg: bool) -> Result<(), AllocError>
    ensures { OnOk result (line.new.items ≡ line.old.items ++ behind_spaces (name.now ∷ flag neg ∷ [])) }
{
    push_token(line, name.as_slice())?;
    push_flag(line, neg)
}

/// Appends the name of a coil and its flags.
fn push_coil(line: &mut Vec<u8>, name: &Name, mode: CoilMode) -> Result<(), AllocError>
    ensures { OnOk result (line.new.items ≡ line.old.items ++ behind_spaces (name.now ∷ mode_flags mode)) }
{
    push_token(line, name.as_slice())?;
    push_mode(line, mode)
}

/// Appends a name and a delay, a rate or a count.
fn push_sized(alloc: Global, line: &mut Vec<u8>, name: &Name, size: usize) -> Result<(), AllocError>
    ensures { OnOk result (line.new.items ≡ line.old.items ++ behind_spaces (name.now ∷ decimal size ∷ [])) }
{
    push_token(line, name.as_slice())?;
    push_natural(alloc, line, size)
}

/// Appends the name of a counter and its limit.
fn push_counter(alloc: Global, line: &mut Vec<u8>, name: &Name, max: i16) -> Result<(), AllocError>
    ensures { OnOk result (line.new.items ≡ line.old.items ++ behind_spaces (name.now ∷ signed_decimal max ∷ [])) }
{
    push_token(line, name.as_slice())?;
    push_integer(alloc, line, max)
}

/// Appends where a value goes and one operand.
fn push_dest_and_operand(
    alloc: Global,
    line: &mut Vec<u8>,
    dest: &Name,
    src: &Operand,
) -> Result<(), AllocError>
    ensures { OnOk result (line.new.items ≡ line.old.items ++ behind_spaces (dest.now ∷ operand_text src.now ∷ [])) }
{
    push_token(line, dest.as_slice())?;
    push_operand(alloc, line, src)
}

/// Appends two operands.
fn push_operands(
    alloc: Global,
    line: &mut Vec<u8>,
    a: &Operand,
    b: &Operand,
) -> Result<(), AllocError>
    ensures { OnOk result (line.new.items ≡ line.old.items ++ behind_spaces (operand_text a.now ∷ operand_text b.now ∷ [])) }
{
    push_operand(alloc, line, a)?;
    push_operand(alloc, line, b)
}

/// Appends where a value goes and two operands.
fn push_math(
    alloc: Global,
    line: &mut Vec<u8>,
    dest: &Name,
    a: &Operand,
    b: &Operand,
) -> Result<(), AllocError>
    ensures { OnOk result (line.new.items ≡ line.old.items ++ behind_spaces (dest.now ∷ operand_text a.now ∷ operand_text b.now ∷ [])) }
{
    push_dest_and_operand(alloc, line, dest, a)?;
    push_operand(alloc, line, b)
}

/// Appends what stands behind the word of a look-up table.
fn push_table(
    alloc: Global,
    line: &mut Vec<u8>,
    dest: &Name,
    index: &Operand,
    as_text: bool,
    values: &[i16],
) -> Result<(), AllocError>
    ensures { OnOk result (line.new.items ≡ line.old.items ++ behind_spaces (dest.now ∷ operand_text index.now ∷ decimal (length values.now) ∷ flag as_text ∷ integers values.now)) }
{
    push_dest_and_operand(alloc, line, dest, index)?;
    push_natural(alloc, line, values.len())?;
    push_flag(line, as_text)?;
    push_integers(alloc, line, values)
}

/// Appends what stands behind the word of a piecewise linear table, whose points are pairs.
fn push_linear(
    alloc: Global,
    line: &mut Vec<u8>,
    dest: &Name,
    index: &Operand,
    points: &[i16],
) -> Result<(), AllocError>
    ensures { OnOk result (line.new.items ≡ line.old.items ++ behind_spaces (dest.now ∷ operand_text index.now ∷ decimal (length points.now / 2) ∷ integers points.now)) }
{
    push_dest_and_operand(alloc, line, dest, index)?;
    push_natural(alloc, line, points.len() / 2)?;
    push_integers(alloc, line, points)
}

/// Appends a name, how many bytes a text has, and its bytes.
fn push_formatted(
    alloc: Global,
    line: &mut Vec<u8>,
    name: &Name,
    text: &[u8],
) -> Result<(), AllocError>
    ensures { OnOk result (line.new.items ≡ line.old.items ++ behind_spaces (name.now ∷ decimal (length text.now) ∷ map decimal text.now)) }
{
    push_sized(alloc, line, name, text.len())?;
    push_bytes(alloc, line, text)
}

/// Appends what stands behind an element's word.
fn push_behind(alloc: Global, line: &mut Vec<u8>, kind: &LeafKind) -> Result<(), AllocError>
    ensures { OnOk result (line.new.items ≡ line.old.items ++ behind_spaces (tokens_behind kind.now)) }
{
    match kind {
        LeafKind::Contacts { name, neg } => push_contacts(line, name, *neg),
        LeafKind::Coil { name, mode } => push_coil(line, name, *mode),
        LeafKind::Osr
        | LeafKind::Osf
        | LeafKind::Short
        | LeafKind::Open
        | LeafKind::MasterRelay
        | LeafKind::Placeholder => Ok(()),
        LeafKind::Comment { text } => push_comment(line, text.as_slice()),
        LeafKind::Timer { name, delay, .. } => push_sized(alloc, line, name, *delay as usize),
        LeafKind::Counter { name, max, .. } => push_counter(alloc, line, name, *max),
        LeafKind::Move { dest, src } => push_dest_and_operand(alloc, line, dest, src),
        LeafKind::Math { dest, a, b, .. } => push_math(alloc, line, dest, a, b),
        LeafKind::Compare { a, b, .. } => push_operands(alloc, line, a, b),
        LeafKind::Shift { name, places } => push_sized(alloc, line, name, usize::from(*places)),
        LeafKind::Table {
            dest,
            index,
            as_text,
            values,
        } => push_table(alloc, line, dest, index, *as_text, values.as_slice()),
        LeafKind::SetPwm { name, hz } => push_sized(alloc, line, name, *hz as usize),
        LeafKind::Reset { name }
        | LeafKind::ReadAdc { name }
        | LeafKind::Recv { name }
        | LeafKind::Send { name }
        | LeafKind::Persist { name } => push_token(line, name.as_slice()),
        LeafKind::Linear {
            dest,
            index,
            points,
        } => push_linear(alloc, line, dest, index, points.as_slice()),
        LeafKind::Formatted { name, text } => push_formatted(alloc, line, name, text.as_slice()),
    }
}

/// Appends an element's line, without an indent and without its end.
pub fn push_element(alloc: Global, line: &mut Vec<u8>, kind: &LeafKind) -> Result<(), AllocError>
    ensures { OnOk result (line.new.items ≡ line.old.items ++ element_words kind.now) }
{
    line.extend_from_slice(word_for(kind).spelling().as_bytes())?;
    push_behind(alloc, line, kind)
}
