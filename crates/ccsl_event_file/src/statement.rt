//! Reading statements, and a whole file of them.

ghost use Rattle.std.specs.Prelude.{◌≡◌, ◌≤◌, ◌<◌, ◌++◌, [], ◌∷◌, IfOk, IfErr, OnOk, false, map, length, option_map};
ghost use Rattle.ccsl_event_file.specs.File.{is_word, joint, use_of_word, use_of_token, events, reading};
ghost use Rattle.ccsl_event_file.specs.Parsing.{ahead, next_is, path_in, trigger_in, conditions_in, event_in, use_of_kind, made_of, IsFault, ReadsValue};
ghost use Rattle.ccsl_event_file.specs.Parsing.{ReadsTrigger, ReadsConditions, ReadsName, ReadsStatement, ReadsHead};

use crate::event::{Condition, Event, Located, Trigger};
use crate::fault::EventFault;
use crate::parser::Parser;
use crate::token::Token;
use ccsl_base::{HashKeys, MAX_CLOCKS, Names, is_name};
use std::alloc::Global;

/// What happens to the variable that a path means.
#[derive(Clone, Copy)]
pub(crate) enum Moment {
    Rise,
    Fall,
    Change,
    Record,
}

/// What a trigger is: something that happens to a variable, or a condition that begins to hold.
#[derive(Clone, Copy)]
pub(crate) enum Kind {
    Of(Moment),
    Becomes,
}

impl Moment {
    // The trigger of a path.
    fn trigger(self, path: Located) -> Trigger
        ensures { trigger_in result ≡ made_of self (path_in path) }
    {
        match self {
            Moment::Rise => Trigger::Rise(path),
            Moment::Fall => Trigger::Fall(path),
            Moment::Change => Trigger::Change(path),
            Moment::Record => Trigger::Record(path),
        }
    }
}

fn kind_of(word: &[u8]) -> Option<Kind>
    ensures { option_map use_of_kind result ≡ use_of_word word.now }
{
    if word == b"rise".as_slice() {
        Some(Kind::Of(Moment::Rise))
    } else if word == b"fall".as_slice() {
        Some(Kind::Of(Moment::Fall))
    } else if word == b"change".as_slice() {
        Some(Kind::Of(Moment::Change))
    } else if word == b"becomes".as_slice() {
        Some(Kind::Becomes)
    } else if word == b"event".as_slice() {
        Some(Kind::Of(Moment::Record))
    } else {
        None
    }
}

fn next_kind(parser: &mut Parser<'_>) -> Result<Kind, EventFault>
    ensures len { parser.new.len ≡ parser.old.len }
    ensures reads { ReadsValue result use_of_token use_of_kind parser.old.len
        (ahead parser.old.len parser.old.rest.now) (ahead parser.new.len parser.new.rest.now) }
    ensures within { length parser.new.rest.now ≤ length parser.old.rest.now }
{
    let Token::Word(word) = parser.peek() else {
        return Err(parser.syntax());
    };
    match kind_of(word) {
        Some(kind) => {
            parser.advance();
            Ok(kind)
        }
        None => Err(parser.syntax()),
    }
}

fn trigger(parser: &mut Parser<'_>) -> Result<Trigger, EventFault>
    ensures len { parser.new.len ≡ parser.old.len }
    ensures reads { ReadsTrigger result parser.old.len
        (ahead parser.old.len parser.old.rest.now) (ahead parser.new.len parser.new.rest.now) }
    ensures within { length parser.new.rest.now ≤ length parser.old.rest.now }
{
    match next_kind(parser)? {
        Kind::Of(moment) => {
            let path = parser.path()?;
            Ok(moment.trigger(path))
        }
        Kind::Becomes => {
            let condition = parser.condition()?;
            Ok(Trigger::Becomes(condition))
        }
    }
}

// The word in front of one more condition.
fn joint(conditions: &[Condition]) -> &'static [u8]
    ensures { result.now ≡ joint (conditions_in conditions.now) }
{
    if conditions.is_empty() {
        b"when"
    } else {
        b"and"
    }
}

fn conditions(parser: &mut Parser<'_>) -> Result<Vec<Condition>, EventFault>
    ensures len { parser.new.len ≡ parser.old.len }
    ensures reads { ReadsConditions result (λ cs. conditions_in cs.items) parser.old.len
        (ahead parser.old.len parser.old.rest.now) (ahead parser.new.len parser.new.rest.now) }
    ensures ended { IfOk result (λ cs. next_is (is_word (joint (conditions_in cs.items)))
        (ahead parser.new.len parser.new.rest.now) ≡ false) }
    ensures within { length parser.new.rest.now ≤ length parser.old.rest.now }
{
    let mut conditions = Vec::new(parser.alloc);
    'conditions: while parser.takes_word(joint(conditions.as_slice())) {
        let condition = parser.condition()?;
        conditions.push(condition)?;
    }
    Ok(conditions)
}

// A name that no statement before has.
fn name<'a>(parser: &mut Parser<'a>, names: &mut Names<HashKeys>) -> Result<&'a [u8], EventFault>
    requires some { 0 < length parser.old.rest.now }
    ensures len { parser.new.len ≡ parser.old.len }
    ensures reads { ReadsName result (λ name. name.now) names.old parser.old.len
        (ahead parser.old.len parser.old.rest.now) (ahead parser.new.len parser.new.rest.now) }
    ensures names { IfOk result (λ name. names.new ≡ names.old ++ name.now ∷ []) }
    ensures few { OnOk result (length names.old < MAX_CLOCKS) }
    ensures shorter { OnOk result (length parser.new.rest.now < length parser.old.rest.now) }
{
    let at = parser.at();
    let name = parser.word()?;
    if !is_name(name) || names.len() >= MAX_CLOCKS {
        return Err(EventFault::Syntax { at });
    }
    match names.add(name)? {
        Some(_) => Ok(name),
        None => Err(EventFault::Duplicate { at }),
    }
}

fn statement(parser: &mut Parser<'_>, names: &mut Names<HashKeys>) -> Result<Event, EventFault>
    requires some { 0 < length parser.old.rest.now }
    ensures len { parser.new.len ≡ parser.old.len }
    ensures reads { ReadsStatement result names.old parser.old.len
        (ahead parser.old.len parser.old.rest.now) (ahead parser.new.len parser.new.rest.now) }
    ensures names { IfOk result (λ e. names.new ≡ names.old ++ e.name.items ∷ []) }
    ensures few { OnOk result (length names.old < MAX_CLOCKS) }
    ensures shorter { OnOk result (length parser.new.rest.now < length parser.old.rest.now) }
{
    let name = Vec::from_slice(parser.alloc, name(parser, names)?)?;
    parser.expect_mark(b'=')?;
    let trigger = trigger(parser)?;
    let conditions = conditions(parser)?;
    parser.expect_mark(b';')?;
    Ok(Event {
        name,
        trigger,
        conditions,
    })
}

// The words in front of the first statement.
fn head(parser: &mut Parser<'_>) -> Result<(), EventFault>
    ensures len { parser.new.len ≡ parser.old.len }
    ensures reads { ReadsHead result parser.old.len
        (ahead parser.old.len parser.old.rest.now) (ahead parser.new.len parser.new.rest.now) }
{
    parser.expect_word(b"events")?;
    parser.expect_word(b"1")?;
    parser.expect_mark(b';')
}

/// What a whole file of events says, or its first fault. The keys hash the names.
pub fn read_events(alloc: Global, keys: HashKeys, text: &[u8]) -> Result<Vec<Event>, EventFault>
    ensures says { IfOk result (λ es. reading text.now ≡ events (map event_in es.items)) }
    ensures refuses { IfErr result (λ f. IsFault f (reading text.now)) }
    ensures few { IfOk result (λ es. length es.items ≤ MAX_CLOCKS) }
{
    let mut parser = Parser::new(alloc, text);
    head(&mut parser)?;
    let mut names = Names::with_hasher(alloc, keys);
    let mut events = Vec::new(alloc);
    'statements: while !parser.rest.is_empty() {
        let event = statement(&mut parser, &mut names)?;
        events.push(event)?;
    }
    Ok(events)
}
