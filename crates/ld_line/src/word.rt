//! The words that elements begin with.

ghost use Rattle.std.specs.Prelude.{◌≡◌};
ghost use Rattle.ld_line.specs.Words.{spelling, word_of, is_ladder_word, is_device_word, is_built, is_target_built};

use chip_tables::Target;

/// The words that elements begin with.
#[derive(Clone, Copy, Debug, PartialEq, Eq)]
pub enum Word {
    Contacts,
    Coil,
    Osr,
    Osf,
    Short,
    Open,
    Comment,
    MasterRelay,
    Placeholder,
    Ton,
    Tof,
    Rto,
    Ctu,
    Ctd,
    Ctc,
    Res,
    Move,
    Add,
    Sub,
    Mul,
    Div,
    Equ,
    Neq,
    Grt,
    Geq,
    Les,
    Leq,
    ShiftRegister,
    LookUpTable,
    ReadAdc,
    SetPwm,
    UartRecv,
    UartSend,
    Persist,
    FormattedString,
    PiecewiseLinear,
}

/// All words.
pub const WORDS: [Word; 36] = [
    Word::Contacts,
    Word::Coil,
    Word::Osr,
    Word::Osf,
    Word::Short,
    Word::Open,
    Word::Comment,
    Word::MasterRelay,
    Word::Placeholder,
    Word::Ton,
    Word::Tof,
    Word::Rto,
    Word::Ctu,
    Word::Ctd,
    Word::Ctc,
    Word::Res,
    Word::Move,
    Word::Add,
    Word::Sub,
    Word::Mul,
    Word::Div,
    Word::Equ,
    Word::Neq,
    Word::Grt,
    Word::Geq,
    Word::Les,
    Word::Leq,
    Word::ShiftRegister,
    Word::LookUpTable,
    Word::ReadAdc,
    Word::SetPwm,
    Word::UartRecv,
    Word::UartSend,
    Word::Persist,
    Word::FormattedString,
    Word::PiecewiseLinear,
];

impl Word {
    /// How the word is spelled.
    pub fn spelling(self) -> &'static str
        ensures { result.now ≡ spelling self }
    {
        match self {
            Word::Contacts => "CONTACTS",
            Word::Coil => "COIL",
            Word::Osr => "OSR",
            Word::Osf => "OSF",
            Word::Short => "SHORT",
            Word::Open => "OPEN",
            Word::Comment => "COMMENT",
            Word::MasterRelay => "MASTER_RELAY",
            Word::Placeholder => "PLACEHOLDER",
            Word::Ton => "TON",
            Word::Tof => "TOF",
            Word::Rto => "RTO",
            Word::Ctu => "CTU",
            Word::Ctd => "CTD",
            Word::Ctc => "CTC",
            Word::Res => "RES",
            Word::Move => "MOVE",
            Word::Add => "ADD",
            Word::Sub => "SUB",
            Word::Mul => "MUL",
            Word::Div => "DIV",
            Word::Equ => "EQU",
            Word::Neq => "NEQ",
            Word::Grt => "GRT",
            Word::Geq => "GEQ",
            Word::Les => "LES",
            Word::Leq => "LEQ",
            Word::ShiftRegister => "SHIFT_REGISTER",
            Word::LookUpTable => "LOOK_UP_TABLE",
            Word::ReadAdc => "READ_ADC",
            Word::SetPwm => "SET_PWM",
            Word::UartRecv => "UART_RECV",
            Word::UartSend => "UART_SEND",
            Word::Persist => "PERSIST",
            Word::FormattedString => "FORMATTED_STRING",
            Word::PiecewiseLinear => "PIECEWISE_LINEAR",
        }
    }
}

/// The word that the token is.
pub fn word_of(token: &[u8]) -> Option<Word>
    ensures { result ≡ word_of token.now }
{
    let mut words = WORDS.iter().copied();
    words.find(|word| word.spelling().as_bytes() == token)
}

/// Whether ladders are built of the word: of all but those that are not built for any target yet.
fn is_ladder_word(word: Word) -> bool
    ensures { result ≡ is_ladder_word word }
{
    !matches!(word, Word::FormattedString | Word::PiecewiseLinear)
}

/// Whether the word is that of what a device of the chip does.
fn is_device_word(word: Word) -> bool
    ensures { result ≡ is_device_word word }
{
    matches!(
        word,
        Word::ReadAdc | Word::SetPwm | Word::UartRecv | Word::UartSend | Word::Persist
    )
}

/// Whether the elements of the word are built for the target.
pub fn is_built(target: Target, word: Word) -> bool
    ensures { result ≡ is_built target word }
{
    match target {
        Target::Interp | Target::AnsiC => is_ladder_word(word),
        Target::Mega16 => is_ladder_word(word) && !is_device_word(word),
        Target::F628 | Target::F877 => false,
    }
}

/// Whether projects are compiled for the target.
pub fn is_target_built(target: Target) -> bool
    ensures { result ≡ is_target_built target }
{
    match target {
        Target::Interp | Target::AnsiC | Target::Mega16 => true,
        Target::F628 | Target::F877 => false,
    }
}
