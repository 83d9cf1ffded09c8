//! Words mean one thing.
ghost use Rattle.std.specs.Prelude.{◌≡◌, ◌≤◌, ℕ, List, Contains};
ghost use Rattle.std.specs.Option.{option_to_list};
ghost use Rattle.request_words.specs.Rows.{Row};
ghost use Rattle.request_words.specs.Words.{ArePlaces, Given, IsSpelled, Means, first_of, places_from, values_of};
ghost use Rattle.request_words.specs.declared.option.Choice.{Choice};
ghost use Rattle.request_words.specs.declared.request.AppName.{AppName};
ghost use Rattle.request_words.specs.declared.request.Request.{Request};
ghost use Rattle.request_words.specs.declared.request.Request.TheVariants.{Resolve};
ghost use Rattle.request_words.specs.declared.request.Resolution.{Resolution};

/// Words mean one request at most.
pub fn one_request()
    ensures { (words : List (List ℕ)) (one other : Request) → Means words one → Means words other → one ≡ other }
{}

/// A request has all values of an option: the one where it may stand once at most, and the places of all where it may
/// stand 64 times at most.
pub fn all_values()
    ensures once { (row : Row) (words : List (List ℕ)) (app : AppName) (given : List Given) (choice : Choice)
        → IsSpelled row words app given → Contains row.choices choice → choice.most ≤ 1
        → values_of row given choice.option ≡ option_to_list (first_of (values_of row given choice.option)) }
    ensures repeated { (row : Row) (words : List (List ℕ)) (app : AppName) (given : List Given) (choice : Choice)
        → IsSpelled row words app given → Contains row.choices choice → choice.most ≤ 64
        → ArePlaces (places_from (values_of row given choice.option)) (values_of row given choice.option) }
{}

/// A string is resolved under at most 8 apexes.
pub fn few_apexes()
    ensures { (words : List (List ℕ)) (asked : Resolution) → Means words (Resolve asked) → asked.apexes.count ≤ 8 }
{}
