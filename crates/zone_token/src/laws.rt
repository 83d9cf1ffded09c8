//! Laws of entries and of their tokens.
ghost use Rattle.std.specs.Prelude.{◌≡◌, ◌<◌, ◌++◌, ◌∷◌, [], ℕ, List, Bool, true, false, length, Ok};
ghost use Rattle.std.specs.List.{flat_map};
ghost use Rattle.zone_token.specs.Bytes.{line_feed};
ghost use Rattle.zone_token.specs.Entries.{beginning, entries_from, entries_of};
ghost use Rattle.zone_token.specs.Tokens.{is_blank_entry, nothing, front_of, tokens_of};
ghost use Rattle.zone_token.specs.Laws.{plain, EntriesGoOn};

/// The entries that a text is cut into are the text. None is empty, and each but the last ends with a line feed.
pub fn entries_are_the_text()
    ensures text { (text : List ℕ) → flat_map (λ entry. entry) (entries_of text) ≡ text }
    ensures some { (text entry : List ℕ) (front back : List (List ℕ))
        → entries_of text ≡ front ++ entry ∷ back → 0 < length entry }
    ensures lines { (text entry next : List ℕ) (front back : List (List ℕ))
        → entries_of text ≡ front ++ entry ∷ next ∷ back → (bytes : List ℕ) × (entry ≡ bytes ++ line_feed ∷ []) }
{}

/// What cuts entries and what reads tokens agree on quotes, escapes, comments and parentheses: they begin alike, an entry
/// goes on over whatever the reader of tokens takes at the front of a text, and it ends where the reader meets a line feed
/// outside parentheses.
pub fn entries_keep_tokens_whole()
    ensures begins { beginning ≡ plain false }
    ensures goes_on { EntriesGoOn }
    ensures ends { (begun rest : List ℕ) → (front_of false (line_feed ∷ rest) ≡ Ok (nothing 0 false))
        × (entries_from begun (plain false) (line_feed ∷ rest) ≡ (begun ++ line_feed ∷ []) ∷ entries_of rest) }
{}

/// A blank entry has no token, and none that is ill-formed.
pub fn blank_entries_have_no_token()
    ensures { (entry : List ℕ) → is_blank_entry entry ≡ true → tokens_of entry ≡ Ok [] }
{}
