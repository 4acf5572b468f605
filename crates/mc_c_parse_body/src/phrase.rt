// Marks and words that come one after another.
ghost use Rattle.std.specs.Bool.{IsFalse};
ghost use Rattle.std.specs.Prelude.{◌≡◌, ◌≢◌, ◌∷◌, IsTrue};
ghost use Rattle.mc_c_parse_body.specs.Phrases.{classes_of, expected_of, first_of};

use mc_c_syntax::ast::Class;

/// Tokens that must come in turn.
#[derive(Clone, Copy, Drop)]
pub enum Phrase {
    Semicolon,
    Open,
    Close,
    CloseSemicolon,
    OpenCloseSemicolon,
    WhileOpen,
}

impl Phrase {
    /// Whether a token of this class comes first.
    pub fn begins_with(self, class: Class) -> bool
        ensures first { IsTrue result → class ≡ first_of self }
        ensures other { IsFalse result → class ≢ first_of self }
    {
        match self {
            Phrase::Semicolon => matches!(class, Class::Semicolon),
            Phrase::Open => matches!(class, Class::OpenParen),
            Phrase::Close => matches!(class, Class::CloseParen),
            Phrase::CloseSemicolon => matches!(class, Class::CloseParen),
            Phrase::OpenCloseSemicolon => matches!(class, Class::OpenParen),
            Phrase::WhileOpen => matches!(class, Class::While),
        }
    }

    /// What must come after the first token.
    pub fn behind(self) -> Option<Phrase>
        ensures { classes_of self ≡ first_of self ∷ expected_of result }
    {
        match self {
            Phrase::Semicolon => None,
            Phrase::Open => None,
            Phrase::Close => None,
            Phrase::CloseSemicolon => Some(Phrase::Semicolon),
            Phrase::OpenCloseSemicolon => Some(Phrase::CloseSemicolon),
            Phrase::WhileOpen => Some(Phrase::Open),
        }
    }
}
