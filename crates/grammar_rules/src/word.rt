//! What a token is to the grammar.

/// The word of a token: one for each keyword, each sign and each name with a meaning of its own in some form.
///
/// Source: BrightScript Language Reference, "Reserved Words" and "Operators".
#[derive(Clone, Copy, Debug, PartialEq, Eq)]
pub enum Word {
    /// The end of the file, which is no token.
    End,
    /// The end of a line.
    Newline,
    /// A name without a meaning of its own.
    Name,
    /// A number, whose digits are in its token.
    Number,
    /// A text in quotes.
    Text,
    /// The name `as`.
    As,
    /// The name `each`.
    Each,
    /// The name `in`.
    In,
    /// The name `integer`.
    Integer,
    /// The name `longinteger`.
    LongInteger,
    /// The name `string`.
    String,
    /// The name `boolean`.
    Boolean,
    /// The name `object`.
    Object,
    /// The name `dynamic`.
    Dynamic,
    /// The name `interface`.
    Interface,
    /// The name `void`.
    Void,
    /// The keyword `and`.
    And,
    /// The keyword `else`.
    Else,
    /// The keyword `elseif`.
    ElseIf,
    /// The keyword `end`.
    EndWord,
    /// The keyword `endfor`.
    EndFor,
    /// The keyword `endfunction`.
    EndFunction,
    /// The keyword `endif`.
    EndIf,
    /// The keyword `endsub`.
    EndSub,
    /// The keyword `endwhile`.
    EndWhile,
    /// The keyword `exit`.
    Exit,
    /// The keyword `exitfor`.
    ExitFor,
    /// The keyword `exitwhile`.
    ExitWhile,
    /// The keyword `false`.
    False,
    /// The keyword `for`.
    For,
    /// The keyword `function`.
    Function,
    /// The keyword `goto`.
    Goto,
    /// The keyword `if`.
    If,
    /// The keyword `invalid`.
    Invalid,
    /// The keyword `let`.
    Let,
    /// The keyword `mod`.
    Mod,
    /// The keyword `next`.
    Next,
    /// The keyword `not`.
    Not,
    /// The keyword `or`.
    Or,
    /// The keyword `print`.
    Print,
    /// The keyword `return`.
    Return,
    /// The keyword `step`.
    Step,
    /// The keyword `stop`.
    Stop,
    /// The keyword `sub`.
    Sub,
    /// The keyword `then`.
    Then,
    /// The keyword `to`.
    To,
    /// The keyword `true`.
    True,
    /// The keyword `while`.
    While,
    /// The sign `+`.
    Plus,
    /// The sign `-`.
    Minus,
    /// The sign `*`.
    Star,
    /// The sign `\`.
    Backslash,
    /// The sign `=`.
    Equal,
    /// The sign `<>`.
    NotEqual,
    /// The sign `<`.
    Less,
    /// The sign `>`.
    Greater,
    /// The sign `<=`.
    LessEqual,
    /// The sign `>=`.
    GreaterEqual,
    /// The sign `<<`.
    ShiftLeft,
    /// The sign `>>`.
    ShiftRight,
    /// The sign `(`.
    Open,
    /// The sign `)`.
    Close,
    /// The sign `[`.
    OpenBracket,
    /// The sign `]`.
    CloseBracket,
    /// The sign `{`.
    OpenBrace,
    /// The sign `}`.
    CloseBrace,
    /// The sign `,`.
    Comma,
    /// The sign `:`.
    Colon,
    /// The sign `;`.
    Semicolon,
    /// The sign `.`.
    Dot,
    /// The sign `?`.
    Question,
    /// The sign `+=`.
    PlusEqual,
    /// The sign `-=`.
    MinusEqual,
    /// The sign `*=`.
    StarEqual,
    /// The sign `\=`.
    BackslashEqual,
    /// The sign `++`.
    PlusPlus,
    /// The sign `--`.
    MinusMinus,
}
