/// The kind of a token. Left-out words and symbols have the kinds `Word` and `Symbol`.
#[derive(Clone, Copy, Debug, PartialEq, Eq)]
pub enum TokenKind {
    Identifier,
    Word,
    Integer,
    Real,
    Character,
    StringText,
    Verbatim,
    Symbol,
}

/// What a token is for the grammar, whatever its text. The words of the language have one variant
/// each, and so have its symbols. What this project's profile leaves out shares two variants.
#[derive(Clone, Copy, Debug, PartialEq, Eq)]
pub enum Terminal {
    Identifier,
    Integer,
    Real,
    Character,
    StringText,
    Verbatim,
    All,
    And,
    As,
    Attached,
    Check,
    Class,
    Create,
    Current,
    Deferred,
    Detachable,
    Do,
    Else,
    Elseif,
    End,
    Ensure,
    Export,
    False,
    Feature,
    From,
    If,
    Implies,
    Inherit,
    Invariant,
    Local,
    Loop,
    Not,
    Note,
    Obsolete,
    Or,
    Precursor,
    Redefine,
    Rename,
    Require,
    Result,
    Select,
    Then,
    True,
    Undefine,
    Until,
    Variant,
    Void,
    Xor,
    /// `(`
    OpenParenthesis,
    /// `)`
    CloseParenthesis,
    /// `[`
    OpenBracket,
    /// `]`
    CloseBracket,
    /// `{`
    OpenBrace,
    /// `}`
    CloseBrace,
    /// `,`
    Comma,
    /// `;`
    Semicolon,
    /// `:`
    Colon,
    /// `.`
    Dot,
    /// `:=`
    Assign,
    /// `=`
    Equal,
    /// `/=`
    NotEqual,
    /// `<`
    Less,
    /// `>`
    Greater,
    /// `<=`
    LessEqual,
    /// `>=`
    GreaterEqual,
    /// `+`
    Plus,
    /// `-`
    Minus,
    /// `*`
    Times,
    /// `//`
    Divide,
    /// `\\`
    Modulo,
    /// `^`
    Power,
    /// `?`
    Question,
    /// `!`
    Exclamation,
    /// `->`
    Arrow,
    LeftOutWord,
    LeftOutSymbol,
    /// Behind the last token.
    EndOfText,
}
