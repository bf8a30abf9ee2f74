//! What the words of a text are (2.2).

use std::fmt;

/// What a word is: a name, a literal, a reserved word (2.9) or a delimiter (2.2).
#[derive(Clone, Copy, Debug, PartialEq, Eq)]
pub enum Kind {
    /// An identifier (2.3).
    Identifier,
    /// An integer literal (2.4).
    Integer,
    /// A real literal (2.4).
    Real,
    /// A character literal (2.5).
    Character,
    /// A string literal (2.6).
    Text,
    /// The end of the text.
    EndOfText,
    Abort,
    Abs,
    Accept,
    Access,
    All,
    And,
    Array,
    At,
    Begin,
    Body,
    Case,
    Constant,
    Declare,
    Delay,
    Delta,
    Digits,
    Do,
    Else,
    Elsif,
    End,
    Entry,
    Exception,
    Exit,
    For,
    Function,
    Generic,
    Goto,
    If,
    In,
    Is,
    Limited,
    Loop,
    Mod,
    New,
    Not,
    Null,
    Of,
    Or,
    Others,
    Out,
    Package,
    Pragma,
    Private,
    Procedure,
    Raise,
    Range,
    Record,
    Rem,
    Renames,
    Return,
    Reverse,
    Select,
    Separate,
    Subtype,
    Task,
    Terminate,
    Then,
    Type,
    Use,
    When,
    While,
    With,
    Xor,
    Ampersand,
    Tick,
    LeftParenthesis,
    RightParenthesis,
    Star,
    Plus,
    Comma,
    Minus,
    Dot,
    Slash,
    Colon,
    Semicolon,
    Less,
    Equal,
    Greater,
    Bar,
    Arrow,
    DoubleDot,
    DoubleStar,
    Assignment,
    NotEqual,
    GreaterEqual,
    LessEqual,
    LeftLabel,
    RightLabel,
    Box,
}

/// The reserved words (2.9).
pub const RESERVED: [Kind; 63] = [
    Kind::Abort,
    Kind::Abs,
    Kind::Accept,
    Kind::Access,
    Kind::All,
    Kind::And,
    Kind::Array,
    Kind::At,
    Kind::Begin,
    Kind::Body,
    Kind::Case,
    Kind::Constant,
    Kind::Declare,
    Kind::Delay,
    Kind::Delta,
    Kind::Digits,
    Kind::Do,
    Kind::Else,
    Kind::Elsif,
    Kind::End,
    Kind::Entry,
    Kind::Exception,
    Kind::Exit,
    Kind::For,
    Kind::Function,
    Kind::Generic,
    Kind::Goto,
    Kind::If,
    Kind::In,
    Kind::Is,
    Kind::Limited,
    Kind::Loop,
    Kind::Mod,
    Kind::New,
    Kind::Not,
    Kind::Null,
    Kind::Of,
    Kind::Or,
    Kind::Others,
    Kind::Out,
    Kind::Package,
    Kind::Pragma,
    Kind::Private,
    Kind::Procedure,
    Kind::Raise,
    Kind::Range,
    Kind::Record,
    Kind::Rem,
    Kind::Renames,
    Kind::Return,
    Kind::Reverse,
    Kind::Select,
    Kind::Separate,
    Kind::Subtype,
    Kind::Task,
    Kind::Terminate,
    Kind::Then,
    Kind::Type,
    Kind::Use,
    Kind::When,
    Kind::While,
    Kind::With,
    Kind::Xor,
];

impl Kind {
    /// How the word is written, in lower case, or what it is called.
    pub fn spelling(self) -> &'static str {
        match self {
            Kind::Identifier => "a name",
            Kind::Integer => "an integer",
            Kind::Real => "a real number",
            Kind::Character => "a character",
            Kind::Text => "a string",
            Kind::EndOfText => "the end of the text",
            Kind::Ampersand
            | Kind::Tick
            | Kind::LeftParenthesis
            | Kind::RightParenthesis
            | Kind::Star
            | Kind::Plus
            | Kind::Comma
            | Kind::Minus
            | Kind::Dot
            | Kind::Slash
            | Kind::Colon
            | Kind::Semicolon
            | Kind::Less
            | Kind::Equal
            | Kind::Greater
            | Kind::Bar
            | Kind::Arrow
            | Kind::DoubleDot
            | Kind::DoubleStar
            | Kind::Assignment
            | Kind::NotEqual
            | Kind::GreaterEqual
            | Kind::LessEqual
            | Kind::LeftLabel
            | Kind::RightLabel
            | Kind::Box => delimiter(self),
            _ => reserved(self),
        }
    }
}

impl fmt::Display for Kind {
    fn fmt<W: fmt::Write>(&self, f: &mut fmt::Formatter<W>) -> fmt::Result {
        match self {
            Kind::Identifier
            | Kind::Integer
            | Kind::Real
            | Kind::Character
            | Kind::Text
            | Kind::EndOfText => f.write_str(self.spelling()),
            _ => write!(f, "`{}`", self.spelling()),
        }
    }
}

/// How a delimiter is written.
fn delimiter(kind: Kind) -> &'static str {
    match kind {
        Kind::Ampersand => "&",
        Kind::Tick => "'",
        Kind::LeftParenthesis => "(",
        Kind::RightParenthesis => ")",
        Kind::Star => "*",
        Kind::Plus => "+",
        Kind::Comma => ",",
        Kind::Minus => "-",
        Kind::Dot => ".",
        Kind::Slash => "/",
        Kind::Colon => ":",
        Kind::Semicolon => ";",
        Kind::Less => "<",
        Kind::Equal => "=",
        Kind::Greater => ">",
        Kind::Bar => "|",
        Kind::Arrow => "=>",
        Kind::DoubleDot => "..",
        Kind::DoubleStar => "**",
        Kind::Assignment => ":=",
        Kind::NotEqual => "/=",
        Kind::GreaterEqual => ">=",
        Kind::LessEqual => "<=",
        Kind::LeftLabel => "<<",
        Kind::RightLabel => ">>",
        Kind::Box => "<>",
        _ => "",
    }
}

/// How a reserved word is written.
fn reserved(kind: Kind) -> &'static str {
    match kind {
        Kind::Abort => "abort",
        Kind::Abs => "abs",
        Kind::Accept => "accept",
        Kind::Access => "access",
        Kind::All => "all",
        Kind::And => "and",
        Kind::Array => "array",
        Kind::At => "at",
        Kind::Begin => "begin",
        Kind::Body => "body",
        Kind::Case => "case",
        Kind::Constant => "constant",
        Kind::Declare => "declare",
        Kind::Delay => "delay",
        Kind::Delta => "delta",
        Kind::Digits => "digits",
        Kind::Do => "do",
        Kind::Else => "else",
        Kind::Elsif => "elsif",
        Kind::End => "end",
        Kind::Entry => "entry",
        Kind::Exception => "exception",
        Kind::Exit => "exit",
        Kind::For => "for",
        Kind::Function => "function",
        Kind::Generic => "generic",
        Kind::Goto => "goto",
        Kind::If => "if",
        Kind::In => "in",
        Kind::Is => "is",
        Kind::Limited => "limited",
        Kind::Loop => "loop",
        Kind::Mod => "mod",
        Kind::New => "new",
        Kind::Not => "not",
        Kind::Null => "null",
        Kind::Of => "of",
        Kind::Or => "or",
        Kind::Others => "others",
        Kind::Out => "out",
        Kind::Package => "package",
        Kind::Pragma => "pragma",
        Kind::Private => "private",
        Kind::Procedure => "procedure",
        Kind::Raise => "raise",
        Kind::Range => "range",
        Kind::Record => "record",
        Kind::Rem => "rem",
        Kind::Renames => "renames",
        Kind::Return => "return",
        Kind::Reverse => "reverse",
        Kind::Select => "select",
        Kind::Separate => "separate",
        Kind::Subtype => "subtype",
        Kind::Task => "task",
        Kind::Terminate => "terminate",
        Kind::Then => "then",
        Kind::Type => "type",
        Kind::Use => "use",
        Kind::When => "when",
        Kind::While => "while",
        Kind::With => "with",
        Kind::Xor => "xor",
        _ => "",
    }
}
