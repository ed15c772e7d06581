//! What may stand without parentheses.

ghost use Rattle.std.specs.Prelude.{◌≡◌};
ghost use Rattle.xd_syntax.specs.TypeText.{alternative_wants, sequence_wants, postfix_wants};
ghost use Rattle.xd_type_text.specs.Waiting.{level_of, inner_level, last_level, mark_of};

/// What may stand without parentheses: any type; no alternative; no sequence besides; no postfix
/// operator besides.
#[derive(Clone, Copy)]
pub enum Level {
    Any,
    Sequence,
    Postfix,
    Primary,
}

/// What a list of parts is.
#[derive(Clone, Copy)]
pub enum Joined {
    Sequence,
    Alternative,
}

impl Level {
    /// Whether an alternative stands in parentheses.
    pub fn alternative_wants(self) -> bool
        ensures { result ≡ alternative_wants (level_of self) }
    {
        match self {
            Level::Any => false,
            Level::Sequence => true,
            Level::Postfix => true,
            Level::Primary => true,
        }
    }

    /// Whether a sequence stands in parentheses.
    pub fn sequence_wants(self) -> bool
        ensures { result ≡ sequence_wants (level_of self) }
    {
        match self {
            Level::Any => false,
            Level::Sequence => false,
            Level::Postfix => true,
            Level::Primary => true,
        }
    }

    /// Whether a type with a postfix operator stands in parentheses.
    pub fn postfix_wants(self) -> bool
        ensures { result ≡ postfix_wants (level_of self) }
    {
        match self {
            Level::Any => false,
            Level::Sequence => false,
            Level::Postfix => false,
            Level::Primary => true,
        }
    }
}

impl Joined {
    /// The level of each part but the last.
    pub fn inner(self) -> Level
        ensures { level_of result ≡ inner_level self }
    {
        match self {
            Joined::Sequence => Level::Postfix,
            Joined::Alternative => Level::Sequence,
        }
    }

    /// The level of the last part.
    pub fn last(self) -> Level
        ensures { level_of result ≡ last_level self }
    {
        match self {
            Joined::Sequence => Level::Sequence,
            Joined::Alternative => Level::Any,
        }
    }

    /// What stands between two parts.
    pub fn mark(self) -> u8
        ensures { result ≡ mark_of self }
    {
        match self {
            Joined::Sequence => b',',
            Joined::Alternative => b'|',
        }
    }
}
