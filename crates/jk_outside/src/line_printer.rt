//! The printer of lines.

ghost use Rattle.std.specs.Prelude.{◌≡◌, ◌++◌, ◌∷◌, [], OnOk, OnErr, codes, decimal};
ghost use Rattle.jk_model.specs.declared.output.Line.TheVariants as line;
ghost use Rattle.jk_model.specs.Outside.{Appends, AppendsPart, HasRisen, NeverFalls};
ghost use Rattle.jk_model.specs.Output.{text_of};
ghost use Rattle.jk_model.specs.Text.{shown};
ghost use Rattle.jk_outside.specs.CutTexts.{cut_text, BreaksOff};
ghost use Rattle.jk_outside.specs.LineRefs.{line_of, place_of};
ghost use Rattle.jk_outside.specs.Lines.{Prints};

use crate::line_output::print_parts;
use crate::line_refs::{LineRef, PlaceRef};
use crate::parts::Part;
use crate::rule_names::rule_name;
use crate::sinks::{Sink, SinkFailed};
use jk_model::{Rule, ThreadNo};

/// Prints a line, with its line feed. The sink is handed its text in pieces of 256 bytes and a
/// shorter rest, up to a piece that fails. This takes no memory.
pub fn print_line<S: Sink>(line: LineRef<'_>, out: &mut S) -> Result<(), SinkFailed>
    ensures ok { OnOk result (Appends (S.bytes out.old) (S.bytes out.new) (text_of (line_of line.entry ∷ []))) }
    ensures pieces { OnOk result
        (S.pieces out.new ≡ S.pieces out.old ++ cut_text (text_of (line_of line.entry ∷ []))) }
    ensures part { OnErr result
        (AppendsPart (S.bytes out.old) (S.bytes out.new) (text_of (line_of line.entry ∷ []))) }
    ensures pieces_part { OnErr result (BreaksOff (S.bytes out.old) (S.bytes out.new)
        (S.pieces out.old) (S.pieces out.new) (cut_text (text_of (line_of line.entry ∷ [])))) }
    ensures cause { OnErr result (HasRisen (S.faults out.old) (S.faults out.new)) }
    ensures calm { OnOk result (S.faults out.new ≡ S.faults out.old) }
    ensures faults { NeverFalls (S.faults out.old) (S.faults out.new) }
{
    print_kind(line, out)
}

/// Prints a line by its kind.
fn print_kind<S: Sink>(line: LineRef<'_>, out: &mut S) -> Result<(), SinkFailed>
    ensures { Prints (S.bytes out.old) (S.bytes out.new) (S.pieces out.old) (S.pieces out.new)
        (S.faults out.old) (S.faults out.new) result (text_of (line_of line.entry ∷ [])) }
{
    match line {
        LineRef::Said { domain, text } => print_said(out, domain, text),
        LineRef::Loaded { domain } => print_named(out, b"* domain ", domain, b" loaded"),
        LineRef::Refused {
            domain,
            rule,
            place,
        } => print_refused(out, domain, rule, place),
        LineRef::Started { thread, domain } => print_started(out, thread, domain),
        LineRef::StartRefused { domain, number } => print_start_refused(out, domain, number),
        LineRef::Ended { thread } => print_thread(out, thread, b" ended", &[]),
        LineRef::EndedBy { thread, class } => print_thread(out, thread, b" ended by ", class),
        LineRef::EndedByKill { thread } => print_thread(out, thread, b" ended by kill", &[]),
        LineRef::Killed { domain } => print_named(out, b"* domain ", domain, b" killed"),
        LineRef::KillRefused { domain } => print_named(out, b"* kill ", domain, b" refused K1"),
    }
}

/// Prints what a program printed in a domain.
fn print_said<'a, S: Sink>(out: &mut S, domain: &'a [u8], text: &'a [u16]) -> Result<(), SinkFailed>
    ensures { Prints (S.bytes out.old) (S.bytes out.new) (S.pieces out.old) (S.pieces out.new)
        (S.faults out.old) (S.faults out.new) result (text_of (line.Said domain.now text.now ∷ [])) }
{
    let parts = [Part::Bytes(domain), Part::Bytes(b": "), Part::Escaped(text)];
    print_parts(out, &parts)
}

/// Prints a line with a name in it, and bytes before and after the name.
fn print_named<'a, S: Sink>(
    out: &mut S,
    front: &'a [u8],
    name: &'a [u8],
    back: &'a [u8],
) -> Result<(), SinkFailed>
    ensures { Prints (S.bytes out.old) (S.bytes out.new) (S.pieces out.old) (S.pieces out.new)
        (S.faults out.old) (S.faults out.new) result (front.now ++ name.now ++ back.now ++ 10 ∷ []) }
{
    let parts = [Part::Bytes(front), Part::Bytes(name), Part::Bytes(back)];
    print_parts(out, &parts)
}

/// Prints a line on a thread, with what became of it and a class.
fn print_thread<'a, S: Sink>(
    out: &mut S,
    thread: ThreadNo,
    fate: &'a [u8],
    class: &'a [u16],
) -> Result<(), SinkFailed>
    ensures { Prints (S.bytes out.old) (S.bytes out.new) (S.pieces out.old) (S.pieces out.new)
        (S.faults out.old) (S.faults out.new) result
        (codes "* thread " ++ decimal thread.0 ++ fate.now ++ shown class.now ++ 10 ∷ []) }
{
    let parts = [
        Part::Bytes(b"* thread "),
        Part::Number(i64::from(thread.0)),
        Part::Bytes(fate),
        Part::Escaped(class),
    ];
    print_parts(out, &parts)
}

/// Prints that a thread began in a domain.
fn print_started<S: Sink>(out: &mut S, thread: ThreadNo, domain: &[u8]) -> Result<(), SinkFailed>
    ensures { Prints (S.bytes out.old) (S.bytes out.new) (S.pieces out.old) (S.pieces out.new)
        (S.faults out.old) (S.faults out.new) result (text_of (line.Started thread domain.now ∷ [])) }
{
    let parts = [
        Part::Bytes(b"* thread "),
        Part::Number(i64::from(thread.0)),
        Part::Bytes(b" started in "),
        Part::Bytes(domain),
    ];
    print_parts(out, &parts)
}

/// Prints that no thread began in a domain, and the number of the reason.
fn print_start_refused<S: Sink>(out: &mut S, domain: &[u8], number: u8) -> Result<(), SinkFailed>
    ensures { Prints (S.bytes out.old) (S.bytes out.new) (S.pieces out.old) (S.pieces out.new)
        (S.faults out.old) (S.faults out.new) result (text_of (line.StartRefused domain.now number ∷ [])) }
{
    let parts = [
        Part::Bytes(b"* start "),
        Part::Bytes(domain),
        Part::Bytes(b" refused S"),
        Part::Number(i64::from(number)),
    ];
    print_parts(out, &parts)
}

/// Prints that a domain's folder breaks a rule, and where.
fn print_refused<'a, S: Sink>(
    out: &mut S,
    domain: &'a [u8],
    rule: Rule,
    place: PlaceRef<'a>,
) -> Result<(), SinkFailed>
    ensures { Prints (S.bytes out.old) (S.bytes out.new) (S.pieces out.old) (S.pieces out.new)
        (S.faults out.old) (S.faults out.new) result
        (text_of (line.Refused domain.now rule (place_of place.entry) ∷ [])) }
{
    match place {
        PlaceRef::Whole => {
            let parts = [
                Part::Bytes(b"* domain "),
                Part::Bytes(domain),
                Part::Bytes(b" refused "),
                Part::Bytes(rule_name(rule)),
            ];
            print_parts(out, &parts)
        }
        PlaceRef::At { path, number } => {
            let parts = [
                Part::Bytes(b"* domain "),
                Part::Bytes(domain),
                Part::Bytes(b" refused "),
                Part::Bytes(rule_name(rule)),
                Part::Bytes(b" "),
                Part::Path(path),
                Part::Bytes(b" "),
                Part::Number(i64::from(number)),
            ];
            print_parts(out, &parts)
        }
    }
}
