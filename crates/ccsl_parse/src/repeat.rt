//! What is read again and again, with nothing between.

ghost use Rattle.std.specs.Prelude.{◌≡◌, ◌∷◌, [], map};
ghost use Rattle.ccsl_grammar.specs.Terminals.{terminals};
ghost use Rattle.ccsl_grammar.specs.Reader.{took, many};
ghost use Rattle.ccsl_grammar.specs.Loop.{behind};
ghost use Rattle.ccsl_parse.specs.Reads.{ReadsAs, ReadsWhere};

use crate::room::Room;
use crate::stop::Stop;
use ccsl_base::Seq;
use ccsl_lex::Token;
use std::alloc::Global;

/// What may stand any number of times.
pub trait Repeated: Drop {
    ghost use Rattle.std.specs.Prelude.{ℕ, Bool, List, length, ◌<◌};
    ghost use Rattle.ccsl_grammar.specs.Terminals.{Terminal};
    ghost use Rattle.ccsl_grammar.specs.Reader.{Reader};

    ghost Plain: { Type 0 };

    ghost plain: { Self → Plain };

    ghost starts: { Terminal → Bool };

    ghost reader: { Bool → ℕ → Reader Plain };

    /// One more, where it begins here.
    fn next<'a>(
        alloc: Global,
        room: Room,
        tokens: &'a [Token],
    ) -> Result<Option<(Self, &'a [Token])>, Stop<'a>>
        ensures { ReadsWhere plain result starts (reader room.two room.levels) tokens.now };

    ghost falls: { (two : Bool) (levels : ℕ) (ts : List Terminal) (v : Plain) (rest : List Terminal)
        → reader two levels ts ≡ took v rest → length rest < length ts };
}

/// As many as stand here, behind the first ones.
pub fn many_at<'a, T: Repeated>(
    alloc: Global,
    room: Room,
    first: Vec<T>,
    tokens: &'a [Token],
) -> Result<(Seq<T>, &'a [Token]), Stop<'a>>
    ensures { ReadsAs (map T.plain) result
        (behind (map T.plain first.items) (many T.starts (T.reader room.two room.levels)))
        tokens.now }
{
    let mut members = first;
    let mut rest = tokens;
    'turns: while let Some((item, after)) = T::next(alloc, room, rest)? {
        members.push(item)?;
        rest = after;
    }
    Ok((Seq::new(members), rest))
}

/// One, and as many as stand behind it.
pub fn many_behind<'a, T: Repeated>(
    alloc: Global,
    room: Room,
    first: T,
    tokens: &'a [Token],
) -> Result<(Seq<T>, &'a [Token]), Stop<'a>>
    ensures { ReadsAs (map T.plain) result
        (behind (T.plain first ∷ []) (many T.starts (T.reader room.two room.levels)))
        tokens.now }
{
    let mut members = Vec::new(alloc);
    members.push(first)?;
    many_at(alloc, room, members, tokens)
}
