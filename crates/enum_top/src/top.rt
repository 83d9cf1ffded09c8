//! The top call.
ghost use Rattle.std.specs.Prelude.{◌≡◌, ◌↔◌, ◌⊎◌, ℕ, ◌+◌, ◌≤◌, max, List, take, None, IsErrOf};
ghost use Rattle.enum_base.specs.Causes.{Blames, Rose};
ghost use Rattle.enum_base.specs.Loading.{AreTaken};
ghost use Rattle.enum_base.specs.Writing.{Gains, Takes};
ghost use Rattle.request_words.specs.Words.{IsRequest, Means, texts_of};
ghost use Rattle.request_words.specs.declared.request.Request.{Request};
ghost use Rattle.zone_text.specs.Zone.{most_bytes};
ghost use Rattle.enum_top.specs.FaultLines.{cause_line, line_of};
ghost use Rattle.enum_top.specs.Handling.{Handles};
ghost use Rattle.enum_top.specs.Inputs.{most_input};
ghost use Rattle.enum_top.specs.Requests.{ComesTo, IsOutput, Leaves, Need, work_of};
ghost use Rattle.enum_top.specs.Running.{DoesWork, EndsWith, HasNoVerdict, Runs};
ghost use Rattle.enum_top.specs.Verdicts.{AreTold, Verdict, told_by};
ghost use Rattle.enum_top.specs.Verdicts.Verdict.{prints, refuses};
ghost use Rattle.enum_top.specs.declared.cause.Cause.{Cause};
ghost use Rattle.enum_top.specs.declared.status.Ending.{Ending};
ghost use Rattle.enum_top.specs.declared.why.Why.{Why};

use crate::commands;
use crate::laws::one_verdict;
use crate::objects::{Object, Objects};
use crate::status::{Ending, Printed, Status};
use crate::why::Why;
use enum_base::{Shelf, Sink, Source, write_whole};
use request_words::{Request, few_apexes, read_words};
use std::alloc::Global;

/// Does what the words ask for, and says how it ended. `words` leaves out the program's own name. Files are read from
/// `shelf`, and a message from `input`; the text goes to `out`, and after a refusal one line to `err`. A failure of
/// `err` changes nothing else.
pub fn run<S: Shelf, I: Source, O: Sink, E: Sink>(
    alloc: Global,
    words: &[String],
    shelf: &mut S,
    input: &mut I,
    out: &mut O,
    err: &mut E,
) -> Status
    // The words alone.
    ensures usage { (result ≡ Status.Refused Why.Usage) ↔ (¬ IsRequest (texts_of words.now)) }
    ensures early { (request : Request) (cause : Cause) → Means (texts_of words.now) request
        → (work_of (texts_of words.now) request).breaks cause
        → (result ≡ Status.Refused (Why.Judged cause)) × Takes (E.state err.old) (E.state err.new) (cause_line (texts_of words.now) cause) }

    // Only where: what was printed, or why not, is what the request comes to, whether the objects tell what they hold
    // or not.
    ensures printed { (ending : Ending) → result ≡ Status.Ended ending
        → (text : List ℕ) × ComesTo (told_by (S.state shelf.old) (I.state input.old)) (texts_of words.now) (prints ending text)
        × Gains (O.state out.old) (O.state out.new) text }
    ensures judged { (cause : Cause) → result ≡ Status.Refused (Why.Judged cause)
        → (front : List ℕ) × ComesTo (told_by (S.state shelf.old) (I.state input.old)) (texts_of words.now) (refuses front cause)
        × Gains (O.state out.old) (O.state out.new) front }

    // There always: where no count of the output and of the objects that the request uses rose, the run ends by what
    // the request comes to.
    ensures answered { (request : Request) → Means (texts_of words.now) request
        → ((work_of (texts_of words.now) request).uses Object.Shelf → ¬ Rose (S.state shelf.old).faults (S.state shelf.new).faults)
        → ((work_of (texts_of words.now) request).uses Object.Input → ¬ Rose (I.state input.old).faults (I.state input.new).faults)
        → ¬ Rose (O.state out.old).faults (O.state out.new).faults
        → ((verdict : Verdict)
        × (work_of (texts_of words.now) request).answers (told_by (S.state shelf.old) (I.state input.old)) verdict
        × EndsWith (texts_of words.now) verdict result (O.state out.old) (O.state out.new) (E.state err.old) (E.state err.new))
        ⊎ (result ≡ Status.Refused Why.Memory) }
    ensures always { (request : Request) (verdict : Verdict) → Means (texts_of words.now) request
        → AreTold (work_of (texts_of words.now) request) (told_by (S.state shelf.old) (I.state input.old))
        → (work_of (texts_of words.now) request).answers (told_by (S.state shelf.old) (I.state input.old)) verdict
        → ((work_of (texts_of words.now) request).uses Object.Shelf → ¬ Rose (S.state shelf.old).faults (S.state shelf.new).faults)
        → ((work_of (texts_of words.now) request).uses Object.Input → ¬ Rose (I.state input.old).faults (I.state input.new).faults)
        → ¬ Rose (O.state out.old).faults (O.state out.new).faults
        → EndsWith (texts_of words.now) verdict result (O.state out.old) (O.state out.new) (E.state err.old) (E.state err.new)
        ⊎ (result ≡ Status.Refused Why.Memory) }

    // The objects of the outside.
    ensures files { (S.state shelf.new).files ≡ (S.state shelf.old).files }
    ensures untold { (S.state shelf.old).files ≡ None → (S.state shelf.old).left ≡ None → (S.state shelf.new).left ≡ None }
    ensures given { (S.state shelf.new).most_given ≤ max (S.state shelf.old).most_given (most_bytes + 4096) }
    ensures shelf { Blames (S.state shelf.old).faults (S.state shelf.new).faults (result ≡ Status.Refused (Why.Outside Object.Shelf)) }
    ensures input { Blames (I.state input.old).faults (I.state input.new).faults (result ≡ Status.Refused (Why.Outside Object.Input)) }
    ensures output { Blames (O.state out.old).faults (O.state out.new).faults (result ≡ Status.Refused (Why.Outside Object.Output)) }
    ensures unused_shelf { ¬ Need (texts_of words.now) Object.Shelf → shelf.new ≡ shelf.old }
    ensures unused_input { ¬ Need (texts_of words.now) Object.Input → input.new ≡ input.old }
    ensures taken { ¬ (result ≡ Status.Refused (Why.Outside Object.Input))
        → AreTaken (most_input + 4096) (I.state input.old).left (I.state input.new).left }

    // What the output holds otherwise.
    ensures kept { (why : Why) → HasNoVerdict why → result ≡ Status.Refused why
        → (front : List ℕ) × Leaves (told_by (S.state shelf.old) (I.state input.old)) (texts_of words.now) front
        × Gains (O.state out.old) (O.state out.new) front }
    ensures cut { result ≡ Status.Refused (Why.Outside Object.Output)
        → (text : List ℕ) × IsOutput (told_by (S.state shelf.old) (I.state input.old)) (texts_of words.now) text
        × ((n : ℕ) × Gains (O.state out.old) (O.state out.new) (take n text)) }

    // What the sink of the fault lines holds.
    ensures untouched { (ending : Ending) → result ≡ Status.Ended ending → err.new ≡ err.old }
    ensures line { (why : Why) → result ≡ Status.Refused why
        → Takes (E.state err.old) (E.state err.new) (line_of (texts_of words.now) why) }
{
    one_verdict();
    let mut objects = Objects { shelf, input, out };
    run_inner(alloc, words, &mut objects, err)
}

// The same, with one clause on how the answer comes and one on the objects.
fn run_inner<S: Shelf, I: Source, O: Sink, E: Sink>(
    alloc: Global,
    words: &[String],
    objects: &mut Objects<'_, '_, '_, S, I, O>,
    err: &mut E,
) -> Status
    ensures runs { Runs (told_by (S.state objects.old.shelf.now) (I.state objects.old.input.now)) (texts_of words.now)
        (O.state objects.old.out.now) (O.state objects.new.out.now) result }
    ensures objects { Handles S.state I.state O.state (Need (texts_of words.now))
        (λ object. result ≡ Status.Refused (Why.Outside object)) objects.old objects.new }
    ensures untouched { (ending : Ending) → result ≡ Status.Ended ending → err.new ≡ err.old }
    ensures line { (why : Why) → result ≡ Status.Refused why
        → Takes (E.state err.old) (E.state err.new) (line_of (texts_of words.now) why) }
{
    let status = answer(alloc, words, objects);
    tell_status(&status, words, err);
    status
}

// The line of a refusal is told.
fn tell_status<E: Sink>(status: &Status, words: &[String], err: &mut E)
    ensures untouched { (ending : Ending) → status.now ≡ Status.Ended ending → err.new ≡ err.old }
    ensures line { (why : Why) → status.now ≡ Status.Refused why
        → Takes (E.state err.old) (E.state err.new) (line_of (texts_of words.now) why) }
{
    if let Status::Refused(why) = status {
        let _ = why.tell(words, err);
    }
}

// What a run does, up to the line that tells a refusal.
fn answer<S: Shelf, I: Source, O: Sink>(
    alloc: Global,
    words: &[String],
    objects: &mut Objects<'_, '_, '_, S, I, O>,
) -> Status
    ensures runs { Runs (told_by (S.state objects.old.shelf.now) (I.state objects.old.input.now)) (texts_of words.now)
        (O.state objects.old.out.now) (O.state objects.new.out.now) result }
    ensures objects { Handles S.state I.state O.state (Need (texts_of words.now))
        (λ object. result ≡ Status.Refused (Why.Outside object)) objects.old objects.new }
{
    match read_words(words) {
        Ok(request) => print(alloc, words, &request, objects),
        Err(_) => Status::Refused(Why::Usage),
    }
}

// The text of a request is printed.
fn print<S: Shelf, I: Source, O: Sink>(
    alloc: Global,
    words: &[String],
    request: &Request,
    objects: &mut Objects<'_, '_, '_, S, I, O>,
) -> Status
    requires { Means (texts_of words.now) request.now }
    ensures runs { Runs (told_by (S.state objects.old.shelf.now) (I.state objects.old.input.now)) (texts_of words.now)
        (O.state objects.old.out.now) (O.state objects.new.out.now) result }
    ensures objects { Handles S.state I.state O.state (work_of (texts_of words.now) request.now).uses
        (λ object. result ≡ Status.Refused (Why.Outside object)) objects.old objects.new }
{
    match text_of(alloc, words, request, objects) {
        Ok(printed) => match write_whole(objects.out, printed.text.as_slice()) {
            Ok(()) => Status::Ended(printed.ending),
            Err(_) => Status::Refused(Why::Outside(Object::Output)),
        },
        Err(why) => Status::Refused(why),
    }
}

// The text of a request.
fn text_of<S: Shelf, I: Source, O: Sink>(
    alloc: Global,
    words: &[String],
    request: &Request,
    objects: &mut Objects<'_, '_, '_, S, I, O>,
) -> Result<Printed, Why>
    requires { Means (texts_of words.now) request.now }
    ensures does { DoesWork (told_by (S.state objects.old.shelf.now) (I.state objects.old.input.now)) (work_of (texts_of words.now) request.now) result }
    ensures objects { Handles S.state I.state O.state (work_of (texts_of words.now) request.now).uses
        (λ object. IsErrOf result (Why.Outside object)) objects.old objects.new }
    ensures unwritten { objects.new.out.now ≡ objects.old.out.now }
{
    few_apexes();
    match request {
        Request::Resolve(asked) => commands::resolve::resolve_text(
            alloc,
            words,
            asked,
            objects.shelf,
        ),
        Request::Show => commands::show::show_text(alloc, objects.input),
    }
}
