//! Tokens, and what they are spelled by.
ghost use Rattle.std.specs.Prelude.{◌≡◌};
ghost use Rattle.span_lexer.specs.Spellings as spelled;
ghost use Rattle.span_lexer.specs.declared.token.TheConstants.{WORDS};

/// A reserved word. None of them is ever a name.
#[derive(Clone, Copy, Debug, PartialEq, Eq)]
pub enum Word {
    All,
    And,
    As,
    Asc,
    Between,
    By,
    Case,
    Create,
    Desc,
    Distinct,
    Else,
    End,
    False,
    From,
    Group,
    Having,
    If,
    In,
    Inner,
    Is,
    Join,
    Left,
    Like,
    Limit,
    Not,
    Null,
    On,
    Or,
    Order,
    Outer,
    Select,
    Then,
    True,
    Union,
    When,
    Where,
}

/// The reserved words, in alphabetical order.
pub const WORDS: [Word; 36] = [
    Word::All,
    Word::And,
    Word::As,
    Word::Asc,
    Word::Between,
    Word::By,
    Word::Case,
    Word::Create,
    Word::Desc,
    Word::Distinct,
    Word::Else,
    Word::End,
    Word::False,
    Word::From,
    Word::Group,
    Word::Having,
    Word::If,
    Word::In,
    Word::Inner,
    Word::Is,
    Word::Join,
    Word::Left,
    Word::Like,
    Word::Limit,
    Word::Not,
    Word::Null,
    Word::On,
    Word::Or,
    Word::Order,
    Word::Outer,
    Word::Select,
    Word::Then,
    Word::True,
    Word::Union,
    Word::When,
    Word::Where,
];

/// The reserved words are those that the definitions list.
pub fn words_are_stated()
    ensures { WORDS ≡ spelled.reserved_words }
{}

/// A sign.
#[derive(Clone, Copy, Debug, PartialEq, Eq)]
pub enum Sign {
    /// `(`
    Open,
    /// `)`
    Close,
    /// `,`
    Comma,
    /// `.`
    Dot,
    /// `;`
    Semicolon,
    /// `*`
    Star,
    /// `+`
    Plus,
    /// `-`
    Minus,
    /// `=`
    Equal,
    /// `<>`
    LessGreater,
    /// `!=`
    BangEqual,
    /// `<`
    Less,
    /// `<=`
    LessEqual,
    /// `>`
    Greater,
    /// `>=`
    GreaterEqual,
    /// `||`
    Concat,
}

/// What a token is. Of a name, a parameter, a string or a bytes literal, the span gives the spelling.
#[derive(Clone, Copy, Debug, PartialEq, Eq)]
pub enum TokenKind {
    Word(Word),
    Name,
    /// `@` and a name.
    Parameter,
    /// An integer, at most 9,223,372,036,854,775,807.
    Int(u64),
    /// A string with its quotes.
    Str,
    /// A bytes literal, from its `b` to its quote.
    Bytes,
    Sign(Sign),
}

/// A token and its place: from the byte `start` up to the byte before `end`.
#[derive(Clone, Copy, Debug, PartialEq, Eq)]
pub struct Token {
    pub kind: TokenKind,
    pub start: usize,
    pub end: usize,
}

impl Word {
    /// The word in lower case.
    pub fn spelling(self) -> &'static str
        ensures { result.now ≡ spelled.word self }
    {
        match self {
            Word::All => "all",
            Word::And => "and",
            Word::As => "as",
            Word::Asc => "asc",
            Word::Between => "between",
            Word::By => "by",
            Word::Case => "case",
            Word::Create => "create",
            Word::Desc => "desc",
            Word::Distinct => "distinct",
            Word::Else => "else",
            Word::End => "end",
            Word::False => "false",
            Word::From => "from",
            Word::Group => "group",
            Word::Having => "having",
            Word::If => "if",
            Word::In => "in",
            Word::Inner => "inner",
            Word::Is => "is",
            Word::Join => "join",
            Word::Left => "left",
            Word::Like => "like",
            Word::Limit => "limit",
            Word::Not => "not",
            Word::Null => "null",
            Word::On => "on",
            Word::Or => "or",
            Word::Order => "order",
            Word::Outer => "outer",
            Word::Select => "select",
            Word::Then => "then",
            Word::True => "true",
            Word::Union => "union",
            Word::When => "when",
            Word::Where => "where",
        }
    }
}
