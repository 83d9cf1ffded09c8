//! The matcher: the best match of an expression in a text.
ghost use Rattle.std.specs.Prelude.{◌≡◌, ℕ, ◌+◌, ◌*◌, ◌<◌, ◌≤◌, ◌↔◌, length, IfOk, IfSome, IfNone, IsNone};
ghost use Rattle.posix_ere.specs.Parts.{weight};
ghost use Rattle.posix_ere.specs.Nodes.{whole};
ghost use Rattle.submatch.specs.Parses.{IsParse};
ghost use Rattle.submatch.specs.Best.{HasNoMatch, AreBestSpans, IsBestSpan, AreBestGroups, TellsGreatest, TellsBest};
ghost use Rattle.submatch.specs.Table.{AreParts, IsAlive, tree_of, square};
ghost use Rattle.submatch.specs.Ends.{Reaches, TellsLongest};

use super::search::Search;
use super::spans::{Groups, Span, Spans};
use super::table::Table;
use enum_base::{MemoryFault, Steps};
use posix_ere::Ere;
use std::alloc::Allocator;
use std::marker::Model;
use std::sync::ledger::Ledger;

/// Finds where an expression matches. Contracts see it as the tree of its expression.
#[derive(Drop)]
pub struct Matcher<'e, A: Allocator> {
    ere: &'e Ere<A>,
}

impl<'e, A: Allocator> Model for Matcher<'e, A> {
    ghost use Rattle.posix_ere.specs.Tree.{Tree};
    ghost use Rattle.posix_ere.specs.Code.{tree_code};
    ghost use Rattle.posix_ere.specs.Nodes.{whole};

    ghost Value = { Tree };

    ghost coded = { tree_code };

    ghost view = { λ m. whole m.ere.now };
}

impl<'e, A: Allocator> Matcher<'e, A> {
    /// A matcher for this expression. It takes no memory.
    pub fn new(ere: &'e Ere<A>) -> Matcher<'e, A>
        ensures { result ≡ whole ere.now }
    {
        Matcher { ere }
    }
}

impl<A: Allocator + Copy> Matcher<'_, A> {
    /// The spans of the best match in a text of at most 255 bytes: the greatest parse at the least start that has one.
    /// `None` where no start has a parse. With `fold` a byte is compared in both cases, those of A to Z alone. The one
    /// error is want of memory. The count of steps rises by one for each look-up of a row: the places that one part of the
    /// expression reaches from one start.
    pub fn find<L: Ledger>(
        &mut self,
        alloc: A,
        text: &[u8],
        fold: bool,
        steps: &mut Steps<L>,
    ) -> Result<Option<Spans>, MemoryFault>
        requires { length text.now ≤ 255 }

        // There is none exactly where no start has a parse.
        ensures none { IfOk result (λ found. IsNone found ↔ ((i : ℕ) → i ≤ length text.now →
            HasNoMatch fold text.now self.old i)) }
        // What is told are the spans of one best match.
        ensures one { IfOk result (λ found. IfSome found (λ spans. AreBestSpans fold text.now self.old spans)) }
        // So it is the span of the best match, and those of its groups.
        ensures whole { IfOk result (λ found. IfSome found
            (λ spans. IsBestSpan fold text.now self.old spans.whole)) }
        ensures groups { IfOk result (λ found. IfSome found
            (λ spans. AreBestGroups fold text.now self.old spans.groups)) }
        ensures same { self.new ≡ self.old }
        // The count of steps rises by at most eight times the weight for each pair of places, whatever is told.
        ensures bounded { steps.new ≤ steps.old + 8 * weight self.old *
            ((length text.now + 1) * (length text.now + 1)) }
    {
        let search = Search {
            ere: self.ere,
            text,
            fold,
            alloc,
        };
        let mut table = Table::new(alloc);
        let whole = search.compile(self.ere.root(), &mut table, steps)?;
        Ok(search.best(&table, whole, steps))
    }
}

impl<A: Allocator + Copy> Search<'_, '_, A> {
    // The spans of the best match.
    fn best<L: Ledger>(&self, table: &Table<A>, whole: usize, steps: &mut Steps<L>) -> Option<Spans>
        requires parts { AreParts self.now.fold self.now.text.now self.now.ere.now table.now }
        requires there { whole < length table.now.parts }
        requires heavy { IsAlive table.now whole → 1 ≤ weight (tree_of self.now.ere.now table.now whole) }
        ensures best { TellsBest self.now.fold self.now.text.now (tree_of self.now.ere.now table.now whole) result }
        ensures most { steps.new ≤ steps.old +
            4 * (weight (tree_of self.now.ere.now table.now whole) * square self.now.text.now) }
    {
        for start in 0..self.places() {
            if let Some(spans) = self.best_from(table, whole, start, steps) {
                return Some(spans);
            }
        }
        None
    }

    // The spans of the greatest parse from a place.
    fn best_from<L: Ledger>(
        &self,
        table: &Table<A>,
        whole: usize,
        start: u16,
        steps: &mut Steps<L>,
    ) -> Option<Spans>
        requires parts { AreParts self.now.fold self.now.text.now self.now.ere.now table.now }
        requires there { whole < length table.now.parts }
        requires within { start ≤ length self.now.text.now }
        ensures greatest { TellsGreatest self.now.fold self.now.text.now (tree_of self.now.ere.now table.now whole) start
            result }
        ensures none { IfNone result (steps.new ≤ steps.old + 1) }
        ensures idle { IfNone result ((IsAlive table.now whole → ⊥) → steps.new ≡ steps.old) }
        ensures some { IfSome result (λ spans. steps.new + 2 * square self.now.text.now ≤ steps.old + 1 +
            4 * (weight (tree_of self.now.ere.now table.now whole) * square self.now.text.now)) }
    {
        let Some(end) = self.longest_end(table, whole, start, steps) else {
            return None;
        };
        let over = Span {
            from: start,
            to: end,
        };
        let mut groups = Groups::new();
        self.rebuild(table, whole, over, &mut groups, steps);
        Some(Spans::new(over, groups.spans()))
    }

    // The longest place to which a part leads.
    fn longest_end<L: Ledger>(
        &self,
        table: &Table<A>,
        number: usize,
        from: u16,
        steps: &mut Steps<L>,
    ) -> Option<u16>
        requires parts { AreParts self.now.fold self.now.text.now self.now.ere.now table.now }
        requires there { number < length table.now.parts }
        requires within { from ≤ length self.now.text.now }
        ensures end { TellsLongest (Reaches (IsParse self.now.fold self.now.text.now
            (tree_of self.now.ere.now table.now number)) from) result }
        ensures most { steps.new ≤ steps.old + 1 }
        ensures idle { (IsAlive table.now number → ⊥) → steps.new ≡ steps.old }
    {
        let row = self.own(table, number).row(from, steps);
        for end in (from..self.places()).rev() {
            if row.has(end) {
                return Some(end);
            }
        }
        None
    }
}
