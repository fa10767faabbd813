//! Brackets that are open, and the limit on them.
ghost use Rattle.std.specs.Prelude.{◌≡◌};
ghost use Rattle.gr_grammar.specs.Depths.{next_depth};

/// What a token does to the brackets that are open.
#[derive(Clone, Copy, Debug, PartialEq, Eq)]
pub enum Turn {
    /// It opens one.
    Opens,
    /// It closes one.
    Closes,
    /// It does neither.
    Neither,
}

/// How many brackets are open behind a token where `level` are open before it, or `None` where it
/// opens one inside `limit` open ones. A closing bracket that closes nothing leaves none open.
pub fn depth_behind(level: usize, turn: Turn, limit: usize) -> Option<usize>
    ensures { result ≡ next_depth limit level turn }
{
    match turn {
        Turn::Opens => { if level < limit { Some(level + 1) } else { None } }
        Turn::Closes => Some(level.saturating_sub(1)),
        Turn::Neither => Some(level),
    }
}
