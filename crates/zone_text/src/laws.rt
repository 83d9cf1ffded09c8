//! Laws of zone texts.
ghost use Rattle.std.specs.Prelude.{◌≡◌, ◌<◌, ◌⊎◌, ◌++◌, ℕ, List, length};
ghost use Rattle.dns_name.specs.Name.{Labels};
ghost use Rattle.dns_wire.specs.declared.record.Record.{Record};
ghost use Rattle.zone_text.specs.Laws.{FieldsAreReadAgain};
ghost use Rattle.zone_text.specs.Zone.{most_bytes, ZoneSays, ZoneBreaks, BreaksSoFar};
ghost use Rattle.zone_token.specs.declared.fault.TextWhy.{TextWhy};

/// A text that says records does not break.
pub fn says_or_breaks()
    ensures { (text : List ℕ) (origin : Labels) (records : List Record) (line : ℕ) (why : TextWhy)
        → ZoneSays text origin records → ZoneBreaks text origin line why → ⊥ }
{}

/// Each text says records, or it breaks.
pub fn says_when_unbroken()
    ensures { (text : List ℕ) (origin : Labels) → ((records : List Record) × ZoneSays text origin records)
        ⊎ ((line : ℕ) × (why : TextWhy) × ZoneBreaks text origin line why) }
{}

/// A text says one list of records.
pub fn says_once()
    ensures { (text : List ℕ) (origin : Labels) (records others : List Record)
        → ZoneSays text origin records → ZoneSays text origin others → records ≡ others }
{}

/// A text breaks on one line, for one reason.
pub fn breaks_once()
    ensures { (text : List ℕ) (origin : Labels) (line other : ℕ) (why reason : TextWhy)
        → ZoneBreaks text origin line why → ZoneBreaks text origin other reason → (line ≡ other) × (why ≡ reason) }
{}

/// A text that is broken so far stays so, whatever follows.
pub fn broken_stays_broken()
    ensures { (text more : List ℕ) (origin : Labels) (line : ℕ) (why : TextWhy)
        → BreaksSoFar text origin line why → ZoneBreaks (text ++ more) origin line why }
{}

/// A text with a byte too many is broken so far, and so it stays.
pub fn too_long_breaks()
    ensures { (text : List ℕ) (origin : Labels) → most_bytes < length text
        → (line : ℕ) × (why : TextWhy) × BreaksSoFar text origin line why }
{}

/// The fields that are written of content are read again as this content, under every origin, as long as its bytes, numbers, names
/// and texts are in their ranges and its times are at most 2,147,483,647.
pub fn fields_are_read_again()
    ensures { FieldsAreReadAgain }
{}
