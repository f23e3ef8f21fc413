//! The parts of a text in which no expression stands.

ghost use Rattle.std.specs.Prelude.{◌≡◌, ◌∷◌, [], OnOk};
ghost use Rattle.std.specs.List.{flat_map};
ghost use Rattle.ccsl_grammar.specs.Terminals as t;
ghost use Rattle.ccsl_grammar.specs.Grammar.{prim_spelled, signed_spelled, sign_spelled, term_spelled, wterm_spelled, test_spelled, arg_spelled};
ghost use Rattle.ccsl_print.specs.Pages.{after};

use crate::list::Spelled;
use crate::page::Page;
use ccsl_ast::{Argument, Prim, Primary, Sign, Spot, Term, Test, WordTerm};
use ccsl_base::Memory;
use ccsl_lex::Reserved;

#[tactic(auto, using(crate::proofs::Steps::number_step))]
fn put_prim(page: &mut Page, prim: &Prim) -> Result<(), Memory>
    ensures { OnOk result (page.new ≡ after page.old (prim_spelled prim.now)) }
{
    match prim {
        Primary::Num(_, number) => page.number(*number),
        Primary::Name(name) => page.name(name),
    }
}

fn put_sign(page: &mut Page, sign: Sign) -> Result<(), Memory>
    ensures { OnOk result (page.new ≡ after page.old (sign_spelled sign ∷ [])) }
{
    match sign {
        Sign::Plus => page.symbol(b'+'),
        Sign::Minus => page.symbol(b'-'),
    }
}

fn put_signed(page: &mut Page, signed: &(Sign, Prim)) -> Result<(), Memory>
    ensures { OnOk result (page.new ≡ after page.old (signed_spelled signed.now)) }
{
    put_sign(page, signed.0)?;
    put_prim(page, &signed.1)
}

fn put_rest(page: &mut Page, rest: &[(Sign, Prim)]) -> Result<(), Memory>
    ensures { OnOk result (page.new ≡ after page.old (flat_map signed_spelled rest.now)) }
{
    for signed in rest {
        put_signed(page, signed)?;
    }
    Ok(())
}

/// Puts a number's term: a sum, with its signs.
#[tactic(auto, using(crate::proofs::Steps::after_append))]
pub fn put_term(page: &mut Page, term: &Term) -> Result<(), Memory>
    ensures { OnOk result (page.new ≡ after page.old (term_spelled term.now)) }
{
    put_prim(page, &term.first)?;
    put_rest(page, term.rest.members())
}

fn put_named(page: &mut Page, word: Reserved, name: &Spot) -> Result<(), Memory>
    ensures { OnOk result (page.new ≡ after page.old (t.word word ∷ t.name name.now ∷ [])) }
{
    page.word(word)?;
    page.name(name)
}

/// Puts a word's term: a name, or what `tail` leaves of it.
#[tactic(auto, using(crate::proofs::Steps::quoted_step))]
pub fn put_wterm(page: &mut Page, word: &WordTerm) -> Result<(), Memory>
    ensures { OnOk result (page.new ≡ after page.old (wterm_spelled word.now)) }
{
    match word {
        WordTerm::Text(_, bytes) => page.quoted(bytes),
        WordTerm::Name(name) => page.name(name),
        WordTerm::Tail(name) => put_named(page, Reserved::Tail, name),
    }
}

/// Puts what `if` asks.
#[tactic(auto, using(crate::proofs::Steps::after_append))]
pub fn put_test(page: &mut Page, test: &Test) -> Result<(), Memory>
    ensures { OnOk result (page.new ≡ after page.old (test_spelled test.now)) }
{
    match test {
        Test::Equal(left, right) => {
            put_term(page, left)?;
            page.symbol(b'=')?;
            put_term(page, right)
        }
        Test::Less(left, right) => {
            put_term(page, left)?;
            page.symbol(b'<')?;
            put_term(page, right)
        }
        Test::Head(name) => put_named(page, Reserved::Head, name),
        Test::Ended(name) => put_named(page, Reserved::Ended, name),
    }
}

impl Spelled for Argument {
    ghost tokens = { arg_spelled };

    #[tactic(auto, using(crate::proofs::Steps::quoted_step))]
    fn put(&self, page: &mut Page) -> Result<(), Memory> {
        match self {
            Argument::Term(term) => put_term(page, term),
            Argument::Text(_, bytes) => page.quoted(bytes),
            Argument::Tail(name) => put_named(page, Reserved::Tail, name),
        }
    }
}
