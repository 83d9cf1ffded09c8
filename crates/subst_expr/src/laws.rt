//! That rules have an answer, and one alone. Each function does nothing: its contract is a law, proved like any other contract.
ghost use Rattle.subst_expr.specs.Laws.{OneSplit, OneFault, OneReading, WellFormedHasNoFault, OneOutput, UnmatchedHasNoOutput};
ghost use Rattle.subst_expr.specs.Laws.{FormedOrFault, OutputOrUnmatched, OutputOrNone, SplitHasPieces};

use posix_ere::{has_one_fault, has_one_tree};
use submatch::laws::best_match;

/// A text has one split, or one fault of the split.
pub fn one_split()
    ensures { OneSplit }
{}

/// The replacement of a split is made of bytes and pairs.
pub fn split_has_pieces()
    ensures { SplitHasPieces }
{}

/// A text has one fault at most, want of memory apart.
pub fn one_fault()
    ensures { OneFault }
{
    has_one_tree();
    has_one_fault();
}

/// A text has one split and one tree, and a well-formed one has no fault but want of memory.
pub fn one_reading()
    ensures reading { OneReading }
    ensures no_fault { WellFormedHasNoFault }
{
    has_one_tree();
}

/// The output is a function of the text and the original string, and where there is no match there is none.
pub fn one_output()
    ensures output { OneOutput }
    ensures unmatched { UnmatchedHasNoOutput }
{
    has_one_tree();
    best_match();
}

/// Each text is well formed or has a fault. A well-formed one has an output over an original string, or no match in it.
pub fn output_or_none()
    ensures formed { FormedOrFault }
    ensures matched { OutputOrUnmatched }
    ensures output { OutputOrNone }
{
    has_one_tree();
    best_match();
}
