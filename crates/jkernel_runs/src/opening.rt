//! The `domain` event: a folder becomes a domain, or a line says why it doesn't.

ghost use Rattle.std.specs.Prelude.{◌≡◌, [], ◌∷◌, true, Err, IsSome};
ghost use Rattle.jk_model.specs.declared.output.Line.TheVariants as Says;
ghost use Rattle.jk_model.specs.declared.script.Event.TheVariants.{Domain};
ghost use Rattle.jk_model.specs.Outside.{NeverFalls};
ghost use Rattle.jk_model.specs.ScriptGrammar.{is_name};
ghost use Rattle.kernel_events.specs.PrintedLines.{sink};
ghost use Rattle.jkernel_runs.specs.DomainEvents.{OpensFolder};
ghost use Rattle.jk_outside.specs.LineRefs.{line_of, place_of};
ghost use Rattle.jkernel_runs.specs.DrawnNumbers.{RiseInEvent};
ghost use Rattle.jkernel_runs.specs.Events.{AreForKernel, GoesOut, EventEnds, EventAsks, moment};
ghost use Rattle.jkernel_runs.specs.Places.{HasTextPlace, IsTextPlace};
ghost use Rattle.jkernel_runs.specs.ToldAnswers.{Tells};

use crate::events::PlainKernel;
use crate::stop::Stop;
use jk_kernel::AddAnswer;
use jk_model::{DomainId, Place, Quotas, Rule};
use jk_outside::{Files, LineRef, PlaceRef, Sink, SinkFailed, print_line};

/// Prints a line on what became of a domain.
fn say<S: Sink>(line: LineRef<'_>, out: &mut S) -> Result<(), Stop>
    ensures prints { GoesOut (line_of line.entry ∷ [])
        (sink (S.bytes out.old) (S.pieces out.old) (S.faults out.old))
        (sink (S.bytes out.new) (S.pieces out.new) (S.faults out.new)) result }
{
    match print_line(line, out) {
        Ok(()) => Ok(()),
        Err(SinkFailed) => Err(Stop::WriteFault),
    }
}

/// The same place, borrowed.
fn place_ref(place: &Place) -> PlaceRef<'_>
    requires { IsTextPlace place.now }
    ensures { place_of result ≡ place.now }
{
    match place {
        Place::Whole => PlaceRef::Whole,
        Place::At { path, number } => match str::from_utf8(path.as_slice()) {
            Ok(path) => PlaceRef::At {
                path,
                number: *number,
            },
            Err(_) => unreachable!(),
        },
    }
}

/// Says which rule refuses a folder, and where.
fn say_refused<S: Sink>(out: &mut S, domain: &[u8], rule: Rule, place: &Place) -> Result<(), Stop>
    requires { IsTextPlace place.now }
    ensures prints { GoesOut (Says.Refused domain.now rule place.now ∷ [])
        (sink (S.bytes out.old) (S.pieces out.old) (S.faults out.old))
        (sink (S.bytes out.new) (S.pieces out.new) (S.faults out.new)) result }
{
    let place = place_ref(place);
    say(
        LineRef::Refused {
            domain,
            rule,
            place,
        },
        out,
    )
}

/// Says what became of the domain of this name; or stops, where neither the folder nor the machine was judged.
fn tell<S: Sink>(name: &[u8], added: Result<DomainId, AddAnswer>, out: &mut S) -> Result<(), Stop>
    requires place { HasTextPlace added }
    ensures { Tells name.now added
        (sink (S.bytes out.old) (S.pieces out.old) (S.faults out.old))
        (sink (S.bytes out.new) (S.pieces out.new) (S.faults out.new)) result }
{
    match added {
        Ok(_number) => say(LineRef::Loaded { domain: name }, out),
        Err(AddAnswer::Refused(rule, place)) => say_refused(out, name, rule, &place),
        Err(AddAnswer::NoRoom) => say_refused(out, name, Rule::L3, &Place::Whole),
        Err(AddAnswer::CapNumbers) => say_refused(out, name, Rule::L4, &Place::Whole),
        Err(AddAnswer::TooManyDomains) => say_refused(out, name, Rule::L8, &Place::Whole),
        Err(AddAnswer::ReadFault) => Err(Stop::ReadFault),
        Err(AddAnswer::OutOfMemory) => Err(Stop::OutOfMemory),
    }
}

/// A `domain` event.
pub fn open_domain<F: Files, S: Sink>(
    kernel: &mut PlainKernel,
    root: &str,
    name: &[u8],
    quotas: Quotas,
    files: &mut F,
    out: &mut S,
) -> Result<(), Stop>
    requires named { is_name name.now ≡ true }
    requires quotas { AreForKernel quotas }
    ensures ends { EventEnds (F.tree files.old) root.now (OpensFolder (F.tree files.old) root.now) (Domain name.now quotas) kernel.old kernel.new
        (moment (sink (S.bytes out.old) (S.pieces out.old) (S.faults out.old)) (F.asked files.old) (F.faults files.old))
        (moment (sink (S.bytes out.new) (S.pieces out.new) (S.faults out.new)) (F.asked files.new) (F.faults files.new)) result }
    ensures asks { EventAsks (F.tree files.old) root.now (Domain name.now quotas) (F.asked files.old) (F.asked files.new) }
    ensures calm { (result ≡ Err Stop.ReadFault → ⊥) → IsSome (F.tree files.old) → F.faults files.new ≡ F.faults files.old }
    ensures stays { F.tree files.new ≡ F.tree files.old }
    ensures files_faults { NeverFalls (F.faults files.old) (F.faults files.new) }
    ensures calm_out { (result ≡ Err Stop.WriteFault → ⊥) → S.faults out.new ≡ S.faults out.old }
    ensures faults { NeverFalls (S.faults out.old) (S.faults out.new) }
    ensures counts { RiseInEvent kernel.old kernel.new }
{
    // A name is made of letters, digits, `_` and `-`.
    let Ok(text) = str::from_utf8(name) else {
        unreachable!();
    };
    let added = kernel.add_domain(files, root, text, quotas);
    kernel.holds();
    tell(name, added, out)
}
