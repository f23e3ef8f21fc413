//! What is true of the tokens and the faults of every text. Each function does nothing: its contract is the law.

ghost use Rattle.std.specs.Prelude.{IsTrue};
ghost use Rattle.ccsl_lex.specs.Kept.{kind_kept};
ghost use Rattle.ccsl_lex.specs.Laws.{TokensOrFault, NoneLonger, TextAgain};

use crate::token::Token;

/// Every token's name is a name of the grammar, its number is below 2^32, and its quoted text has only bytes that may
/// stand between quotes.
pub fn every_token_is_kept(token: &Token)
    ensures { IsTrue (kind_kept token.now.kind) }
{}

/// Each text has tokens or a first fault.
pub fn tokens_or_fault()
    ensures { TokensOrFault }
{}

/// No token could be longer, and no comment.
pub fn none_longer()
    ensures { NoneLonger }
{}

/// The tokens of a text with what stands between them are the text again.
pub fn text_again()
    ensures { TextAgain }
{}
