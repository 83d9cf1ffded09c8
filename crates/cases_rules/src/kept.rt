//! Two names at most, the last asked first.
ghost use Rattle.std.specs.Prelude.{◌≡◌, ◌∷◌, take, Contains, IsTrue, ◌↔◌};
ghost use Rattle.naptr_data.specs.Sources.{BringsToFront};
ghost use Rattle.cases_rules.specs.Names.{names_of};

use dns_name::Name;

#[derive(Clone, Copy, Debug)]
pub enum Kept {
    Nothing,
    One(Name),
    Two(Name, Name),
}

#[tactic(auto, using(crate::proofs::KeptLemmas::has_one, crate::proofs::KeptLemmas::has_two, crate::proofs::KeptLemmas::has_nothing))]
pub fn has(kept: Kept, name: Name) -> bool
    ensures { IsTrue result ↔ Contains (names_of kept) name }
{
    match kept {
        Kept::Nothing => false,
        Kept::One(first) => same(first, name),
        Kept::Two(first, second) => same(first, name) || same(second, name),
    }
}

// The others.
#[tactic(auto, using(crate::proofs::KeptLemmas::front_none, crate::proofs::KeptLemmas::front_first, crate::proofs::KeptLemmas::front_second, crate::proofs::KeptLemmas::front_new_one, crate::proofs::KeptLemmas::front_new_two))]
pub fn without(kept: Kept, name: Name) -> Kept
    ensures { BringsToFront name (names_of kept) (name ∷ names_of result) }
{
    match kept {
        Kept::Nothing => Kept::Nothing,
        Kept::One(first) => {
            if same(first, name) {
                Kept::Nothing
            } else {
                kept
            }
        }
        Kept::Two(first, second) => {
            if same(first, name) {
                Kept::One(second)
            } else if same(second, name) {
                Kept::One(first)
            } else {
                kept
            }
        }
    }
}

// The name, and before the others, as long as there are two.
pub fn before(name: Name, others: Kept) -> Kept
    ensures { names_of result ≡ take 2 (name ∷ names_of others) }
{
    match others {
        Kept::Nothing => Kept::One(name),
        Kept::One(first) | Kept::Two(first, _) => Kept::Two(name, first),
    }
}

fn same(one: Name, other: Name) -> bool
    ensures { IsTrue result ↔ (one ≡ other) }
{
    one == other
}
