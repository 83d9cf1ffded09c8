//! Laws of reports, loops and needed domains, each the contract of a function that does nothing.
ghost use Rattle.std.specs.Prelude.{◌≡◌, ◌≤◌, ◌+◌, List, length, Contains};
ghost use Rattle.naptr_data.specs.Laws.{RulesAreApart, HoldRules};
ghost use Rattle.naptr_data.specs.Zones.{Labels, Zone, rules_and_aliases};
ghost use Rattle.ddds_walk.specs.Graph.{graph_of, LeadsFrom};
ghost use Rattle.ddds_walk.specs.Rules.{Client};
ghost use Rattle.ddds_walk.specs.Asking.{Holds};
ghost use Rattle.ddds_walk.specs.Report.{IsReport, IsLeastLoop, HasNoLoop, Answers};
ghost use Rattle.ddds_walk.specs.Report.{IsNeeded, AreSomeNeeded, AreNeeded};
ghost use Rattle.ddds_walk.specs.declared.derivation.Derivation.{Derivation};
ghost use Rattle.ddds_walk.specs.declared.report.End.{End};
ghost use Rattle.ddds_walk.specs.declared.report.Report.{Report};

use naptr_data::{one_offer, some_offer};
use subst_expr::laws::{one_output, output_or_none};

/// There is at most one report.
pub fn one_report()
    ensures { (c : Client) (zones : List Zone) (keys : List Labels) (xs ys : List End) → IsReport c zones keys xs →
        IsReport c zones keys ys → xs ≡ ys }
{
    one_offer();
    one_output();
}

/// There is at most one least loop: its derivation, its domains and the domain that it comes back to.
pub fn one_loop()
    ensures { (c : Client) (zones : List Zone) (keys : List Labels) (one other : Derivation) (ds es : List Labels)
        (d e : Labels) →
        IsLeastLoop (graph_of c zones) keys one ds d → IsLeastLoop (graph_of c zones) keys other es e →
        (one ≡ other) × (ds ≡ es) × (d ≡ e) }
{
    one_offer();
    one_output();
}

/// Over zones in which no two rules at one name rank equal, and so over those whose rules have their fields in range, there
/// is an answer: the report where no derivation is a loop, or the least loop.
pub fn some_report()
    ensures apart { (c : Client) (zones : List Zone) (keys : List Labels) → RulesAreApart zones →
        (report : Report) × Answers c zones keys report }
    ensures rules { (c : Client) (zones : List Zone) (keys : List Labels) → HoldRules zones →
        (report : Report) × Answers c zones keys report }
{
    one_offer();
    some_offer();
    one_output();
    output_or_none();
}

/// Where there is no loop, the needed domains are all to which some derivation leads.
pub fn all_needed()
    ensures { (c : Client) (zones : List Zone) (keys : List Labels) (way : Derivation) (d : Labels) →
        HasNoLoop (graph_of c zones) keys → LeadsFrom (graph_of c zones) keys way d →
        IsNeeded (graph_of c zones) keys d }
{}

/// The domains on the least loop are needed, though no derivation round it is.
pub fn loop_needed()
    ensures { (c : Client) (zones : List Zone) (keys : List Labels) (way : Derivation) (ds : List Labels)
        (d x : Labels) →
        IsLeastLoop (graph_of c zones) keys way ds d → Contains ds x → IsNeeded (graph_of c zones) keys x }
{
    one_offer();
    one_output();
}

/// The number of needed domains does not depend on how they are listed.
pub fn needed_count()
    ensures { (c : Client) (zones : List Zone) (keys : List Labels) (ds es : List Labels) →
        AreNeeded (graph_of c zones) keys ds → AreNeeded (graph_of c zones) keys es → length ds ≡ length es }
{}

/// At most so many domains are needed as the zones hold rules and aliases and as there are distinct keys: `names` is
/// any list in which each key stands.
pub fn needed_bound()
    ensures { (c : Client) (zones : List Zone) (keys names ds : List Labels) → Holds names keys →
        AreSomeNeeded (graph_of c zones) keys ds → length ds ≤ rules_and_aliases zones + length names }
{
    one_output();
}
