//! What a request comes to is one thing.
ghost use Rattle.std.specs.Prelude.{◌≡◌, ℕ, List, []};
ghost use Rattle.request_words.specs.declared.request.Request.{Request};
ghost use Rattle.enum_top.specs.Requests.{work_of};
ghost use Rattle.enum_top.specs.Verdicts.{AreTold, IsSound, Told, Verdict};
ghost use Rattle.enum_top.specs.Verdicts.Verdict.{refuses};
ghost use Rattle.enum_top.specs.declared.cause.Cause.{Cause};

use ddds_walk::{one_loop, one_report, some_report};
use dns_wire::message_is_one;
use zone_db::{one_add_fault, one_zone, one_zone_fault, rules_are_apart, zone_or_fault};
use zone_text::{breaks_once, says_once, says_or_breaks, says_when_unbroken};

/// A request comes to a verdict, whatever the objects tell.
pub fn some_verdict()
    ensures { (told : Told) (words : List (List ℕ)) (request : Request)
        → (verdict : Verdict) × (work_of words request).answers told verdict }
{
    sound_work();
}

/// Over told objects it comes to one verdict at most.
pub fn one_verdict()
    ensures { (told : Told) (words : List (List ℕ)) (request : Request) (one other : Verdict)
        → AreTold (work_of words request) told → (work_of words request).answers told one → (work_of words request).answers told other
        → one ≡ other }
{
    sound_work();
}

/// .. which is the refusal of a cause that the words alone are.
pub fn early_verdict()
    ensures { (told : Told) (words : List (List ℕ)) (request : Request) (cause : Cause)
        → (work_of words request).breaks cause → (work_of words request).answers told (refuses [] cause) }
{
    sound_work();
}

// All three, of the work of every request.
fn sound_work()
    ensures { (words : List (List ℕ)) (request : Request) → IsSound (work_of words request) }
{
    says_once();
    breaks_once();
    says_or_breaks();
    says_when_unbroken();
    one_zone();
    one_zone_fault();
    zone_or_fault();
    one_add_fault();
    rules_are_apart();
    one_report();
    one_loop();
    some_report();
    message_is_one();
}
