ghost use Rattle.std.specs.Prelude.{◌≡◌};
ghost use Rattle.ato_base.specs.Keywords.{keyword_text, mark_text};

/// A word of the language that is no name.
#[derive(Clone, Copy, Debug, PartialEq, Eq)]
pub enum Keyword {
    Module,
    Component,
    Interface,
    From,
    Import,
    New,
    Signal,
    Pin,
    Assert,
    Within,
    Is,
    To,
    Pass,
    For,
    In,
    True,
    False,
}

impl Keyword {
    /// The keyword as it is written.
    pub fn spelling(&self) -> &'static str
        ensures { result.now ≡ keyword_text self.now }
    {
        match self {
            Keyword::Module => "module",
            Keyword::Component => "component",
            Keyword::Interface => "interface",
            Keyword::From => "from",
            Keyword::Import => "import",
            Keyword::New => "new",
            Keyword::Signal => "signal",
            Keyword::Pin => "pin",
            Keyword::Assert => "assert",
            Keyword::Within => "within",
            Keyword::Is => "is",
            Keyword::To => "to",
            Keyword::Pass => "pass",
            Keyword::For => "for",
            Keyword::In => "in",
            Keyword::True => "True",
            Keyword::False => "False",
        }
    }
}

/// A sign of the language.
#[derive(Clone, Copy, Debug, PartialEq, Eq)]
pub enum Mark {
    /// `+/-`, also written `±`.
    PlusMinus,
    Arrow,
    Power,
    LessEqual,
    GreaterEqual,
    Less,
    Greater,
    Equal,
    Tilde,
    Colon,
    Semicolon,
    Comma,
    Dot,
    LeftParenthesis,
    RightParenthesis,
    LeftBracket,
    RightBracket,
    Plus,
    Minus,
    Star,
    Slash,
    Bar,
    Percent,
}

impl Mark {
    /// The mark as it is written, `+/-` for the first.
    pub fn spelling(&self) -> &'static str
        ensures { result.now ≡ mark_text self.now }
    {
        match self {
            Mark::PlusMinus => "+/-",
            Mark::Arrow => "->",
            Mark::Power => "**",
            Mark::LessEqual => "<=",
            Mark::GreaterEqual => ">=",
            Mark::Less => "<",
            Mark::Greater => ">",
            Mark::Equal => "=",
            Mark::Tilde => "~",
            Mark::Colon => ":",
            Mark::Semicolon => ";",
            Mark::Comma => ",",
            Mark::Dot => ".",
            Mark::LeftParenthesis => "(",
            Mark::RightParenthesis => ")",
            Mark::LeftBracket => "[",
            Mark::RightBracket => "]",
            Mark::Plus => "+",
            Mark::Minus => "-",
            Mark::Star => "*",
            Mark::Slash => "/",
            Mark::Bar => "|",
            Mark::Percent => "%",
        }
    }
}
