//! The laws of parses and their order. Each function does nothing: its contract is a law, proved like any other contract.

ghost use Rattle.submatch.specs.Laws.{OneIsGreater, GreaterIsTransitive, HasGreatest, OneIsBest};
ghost use Rattle.submatch.specs.Laws.{BranchHasGreatestPieces, PiecesAreGreedy};
ghost use Rattle.submatch.specs.Laws.{RepetitionHasGreatestIterations, IterationsStopLast};
ghost use Rattle.submatch.specs.Laws.{IterationsAreGreedy};
ghost use Rattle.submatch.specs.Laws.{AlternativesTakeEarliest, GroupHasGreatestInside, AloneIsGreatest};

/// Of two different parses of one part from one start exactly one is greater, and the order is transitive. Where a part
/// has a parse over a stretch of the text, one of its parses over it is greater than every other.
pub fn order_of_parses()
    ensures one { OneIsGreater }
    ensures transitive { GreaterIsTransitive }
    ensures greatest { HasGreatest }
{}

/// The greatest parse of a branch gives its first piece the longest end from which the other pieces cover the rest, with
/// the greatest parse of that piece up to there and the greatest parses of the other pieces from there. A parse of this
/// kind is the greatest.
pub fn greatest_of_branch()
    ensures pieces { BranchHasGreatestPieces }
    ensures greedy { PiecesAreGreedy }
{}

/// The greatest parse of a repetition has no further iteration only where no row of one or more covers the rest. Otherwise
/// the next iteration takes the longest end from which further ones, counted on, cover the rest, with the greatest parse
/// of it and the greatest row of further ones. So it is from each iteration on, with the bounds and the rule on empty
/// iterations kept. A parse of this kind is the greatest.
pub fn greatest_of_repetition()
    ensures iterations { RepetitionHasGreatestIterations }
    ensures stop { IterationsStopLast }
    ensures greedy { IterationsAreGreedy }
{}

/// The greatest parse of alternatives takes the earliest branch that has a parse there, and that branch's greatest parse.
/// That of a group has the greatest parse of its inside. A parse of this kind is the greatest.
pub fn greatest_of_alternatives_and_group()
    ensures alternatives { AlternativesTakeEarliest }
    ensures group { GroupHasGreatestInside }
    ensures alone { AloneIsGreatest }
{}

/// At the least start from which the whole has a parse there is exactly one best match, or no start has a parse.
pub fn best_match()
    ensures { OneIsBest }
{}
