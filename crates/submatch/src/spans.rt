//! Where a match and its groups stand in the text.
ghost use Rattle.std.specs.Prelude.{◌≡◌, ◌-◌, ◌≤◌, length, slice_index_or, replicate, None};
ghost use Rattle.submatch.specs.Groups.{MatchSpans, with_group};

use std::marker::Model;

/// A stretch of a text: the bytes from `from` on and before `to`, counted from 0.
#[derive(Clone, Copy, Debug, PartialEq, Eq)]
pub struct Span {
    pub from: u16,
    pub to: u16,
}

/// The spans of a match and of its groups 1 to 9. An expression may have more groups; they are not told.
#[derive(Clone, Copy, Debug, PartialEq, Eq)]
pub struct Spans {
    whole: Span,
    groups: [Option<Span>; 9],
}

impl Model for Spans {
    ghost use Rattle.submatch.specs.Groups.{MatchSpans};

    ghost Value = { MatchSpans };

    ghost view = { λ s. record { whole = s.whole; groups = s.groups } };

    ghost inverse = { λ v. record { whole = v.whole; groups = v.groups } };
}

impl Spans {
    pub(crate) fn new(whole: Span, groups: [Option<Span>; 9]) -> Spans
        ensures { result ≡ record { whole = whole; groups = groups } }
    {
        Spans { whole, groups }
    }

    /// The span of the whole match.
    pub fn whole(&self) -> Span
        ensures { result ≡ self.now.whole }
    {
        self.whole
    }

    /// The span of group `k`, from 1 to 9: `None` where the match did not take it.
    pub fn group(&self, k: u8) -> Option<Span>
        requires from_one { 1 ≤ k }
        requires to_nine { k ≤ 9 }
        ensures { result ≡ slice_index_or self.now.groups (k - 1) None }
    {
        self.groups[usize::from(k) - 1]
    }
}

/// The spans of groups 1 to 9 as they are found, the later ones over the earlier ones.
#[derive(Drop)]
pub(crate) struct Groups {
    spans: [Option<Span>; 9],
}

impl Model for Groups {
    ghost use Rattle.std.specs.Prelude.{◌≡◌, List, Option, length};
    ghost use Rattle.submatch.specs.declared.spans.Span.{Span};

    ghost Value = { List (Option Span) };

    ghost view = { λ g. g.spans };

    ghost invariant = { λ g. length g.spans ≡ 9 };
}

impl Groups {
    pub(crate) fn new() -> Groups
        ensures { result ≡ replicate 9 None }
    {
        Groups { spans: [None; 9] }
    }

    pub(crate) fn take(&mut self, number: u32, span: Span)
        ensures { self.new ≡ with_group self.old (record { number = number; span = span }) }
    {
        if 1 <= number && number <= 9 {
            self.spans[number as usize - 1] = Some(span);
        }
    }

    pub(crate) fn spans(&self) -> [Option<Span>; 9]
        ensures { result ≡ self.now }
    {
        self.spans
    }
}
