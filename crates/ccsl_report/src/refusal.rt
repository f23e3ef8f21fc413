//! What is refused: words, specifications, traces and certificates. A want of memory has no text of its own.

ghost use Rattle.std.specs.Prelude.{◌≡◌, IfOk};
ghost use Rattle.ccsl_report.specs.Texts.{usage_text, fault_at, above_limit, spec_too_long_text, lex_text, parse_text, refusal_text, trace_text, cert_text};
ghost use Rattle.ccsl_report.specs.Texts.{cert_too_long_text};

use crate::fault::trace_parts;
use crate::line::Part::{Number, Text};
use crate::line::line;
use ccsl_base::{MAX_CELLS, MAX_CLOCKS, MAX_CONSTRAINTS, MAX_FILE_BYTES, MAX_SPEC_BYTES, Memory};
use ccsl_command::Usage;
use ccsl_kernel::System;
use ccsl_lex::LexFault;
use ccsl_parse::ParseFault;
use ccsl_refute::CertFault;
use ccsl_rules::Refusal;
use ccsl_vcd::VcdFault;
use std::alloc::Global;

/// The words are refused.
pub fn usage(alloc: Global, fault: &Usage) -> Result<Vec<u8>, Memory>
    ensures { IfOk result (λ text. text.items ≡ usage_text fault.now) }
{
    match fault {
        Usage::NoCommand => line(alloc, &[Text("words: "), Text("no command")]),
        Usage::UnknownCommand => line(alloc, &[Text("words: "), Text("unknown command")]),
        Usage::NotPair(i) => {
            line(
                alloc,
                &[
                    Text("words: "),
                    Text("word "),
                    Number(*i as u64),
                    Text(" is no pair"),
                ],
            )
        }
        Usage::UnknownKey(i) => line(
            alloc,
            &[
                Text("words: "),
                Text("unknown key in word "),
                Number(*i as u64),
            ],
        ),
        Usage::Repeated(i) => line(
            alloc,
            &[
                Text("words: "),
                Text("repeated key in word "),
                Number(*i as u64),
            ],
        ),
        Usage::BadValue(i) => line(
            alloc,
            &[
                Text("words: "),
                Text("bad value in word "),
                Number(*i as u64),
            ],
        ),
        Usage::Missing(key) => line(
            alloc,
            &[Text("words: "), Text("missing "), Text(key.text())],
        ),
        Usage::SameName => line(alloc, &[Text("words: "), Text("same name")]),
        Usage::Memory => Ok(Vec::new(alloc)),
    }
}

fn fault_at<'a>(alloc: Global, file: &'a str, kind: &'a str, at: usize) -> Result<Vec<u8>, Memory>
    ensures { IfOk result (λ text. text.items ≡ fault_at file.now kind.now at) }
{
    line(
        alloc,
        &[Text(file), Text(kind), Text(" at byte "), Number(at as u64)],
    )
}

fn above_limit(alloc: Global, number: u32, what: &str, most: u64) -> Result<Vec<u8>, Memory>
    ensures { IfOk result (λ text. text.items ≡ above_limit number what.now most) }
{
    let parts = [
        Text("spec: "),
        Number(u64::from(number)),
        Text(what),
        Text(", at most "),
        Number(most),
    ];
    line(alloc, &parts)
}

/// The specification has more bytes than it may have.
pub fn spec_too_long(alloc: Global) -> Result<Vec<u8>, Memory>
    ensures { IfOk result (λ text. text.items ≡ spec_too_long_text) }
{
    line(
        alloc,
        &[
            Text("spec: more than "),
            Number(MAX_SPEC_BYTES),
            Text(" bytes"),
        ],
    )
}

/// The specification's text has no tokens.
pub fn lex_refused(alloc: Global, fault: &LexFault) -> Result<Vec<u8>, Memory>
    ensures { IfOk result (λ text. text.items ≡ lex_text fault.now) }
{
    match fault {
        LexFault::BadByte(at) => fault_at(alloc, "spec: ", "bad byte", *at),
        LexFault::NameTooLong(at) => fault_at(alloc, "spec: ", "name too long", *at),
        LexFault::NumberTooLarge(at) => fault_at(alloc, "spec: ", "number too large", *at),
        LexFault::OpenText(at) => fault_at(alloc, "spec: ", "open text", *at),
        LexFault::Memory => Ok(Vec::new(alloc)),
    }
}

/// The specification's tokens have no tree.
pub fn parse_refused(alloc: Global, fault: &ParseFault) -> Result<Vec<u8>, Memory>
    ensures { IfOk result (λ text. text.items ≡ parse_text fault.now) }
{
    match fault {
        ParseFault::Syntax(at) => fault_at(alloc, "spec: ", "syntax", *at),
        ParseFault::TooDeep(at) => fault_at(alloc, "spec: ", "too deep", *at),
        ParseFault::Memory => Ok(Vec::new(alloc)),
    }
}

/// The specification's tree is no accepted system.
pub fn refused(alloc: Global, refusal: &Refusal) -> Result<Vec<u8>, Memory>
    ensures { IfOk result (λ text. text.items ≡ refusal_text refusal.now) }
{
    match refusal {
        Refusal::Duplicate(at) => fault_at(alloc, "spec: ", "duplicate name", *at),
        Refusal::Unknown(at) => fault_at(alloc, "spec: ", "unknown name", *at),
        Refusal::Later(at) => fault_at(alloc, "spec: ", "later name", *at),
        Refusal::WrongKind(at) => fault_at(alloc, "spec: ", "wrong kind", *at),
        Refusal::Unguarded(at) => fault_at(alloc, "spec: ", "unguarded call", *at),
        Refusal::TooTall(at) => fault_at(alloc, "spec: ", "too tall", *at),
        Refusal::Arguments(at) => fault_at(alloc, "spec: ", "wrong arguments", *at),
        Refusal::BadWord(at) => fault_at(alloc, "spec: ", "bad word", *at),
        Refusal::TooManyClocks(n) => above_limit(alloc, *n, " clocks", u64::from(MAX_CLOCKS)),
        Refusal::TooManyConstraints(n) => above_limit(
            alloc,
            *n,
            " constraints",
            u64::from(MAX_CONSTRAINTS),
        ),
        Refusal::StateTooLarge(n) => above_limit(alloc, *n, " cells", u64::from(MAX_CELLS)),
        Refusal::Memory => Ok(Vec::new(alloc)),
    }
}

/// The trace is refused.
pub fn trace_refused(alloc: Global, fault: &VcdFault, system: &System) -> Result<Vec<u8>, Memory>
    ensures { IfOk result (λ text. text.items ≡ trace_text fault.now system.now) }
{
    if matches!(fault, VcdFault::Memory) {
        return Ok(Vec::new(alloc));
    }
    line(alloc, &trace_parts(fault, system))
}

/// The certificate does not read.
pub fn cert_refused(alloc: Global, fault: &CertFault) -> Result<Vec<u8>, Memory>
    ensures { IfOk result (λ text. text.items ≡ cert_text fault.now) }
{
    match fault {
        CertFault::Syntax(at) => fault_at(alloc, "certificate: ", "syntax", *at),
        CertFault::UnknownName(at) => fault_at(alloc, "certificate: ", "unknown name", *at),
        CertFault::Memory => Ok(Vec::new(alloc)),
    }
}

/// The certificate has more bytes than it may have.
pub fn cert_too_long(alloc: Global) -> Result<Vec<u8>, Memory>
    ensures { IfOk result (λ text. text.items ≡ cert_too_long_text) }
{
    line(
        alloc,
        &[
            Text("certificate: more than "),
            Number(MAX_FILE_BYTES),
            Text(" bytes"),
        ],
    )
}
