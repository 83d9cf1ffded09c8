//! The replacement of a substitution, expanded.
ghost use Rattle.std.specs.Prelude.{◌≡◌, ◌≤◌, ◌++◌, ◌==◌, ◌&&◌, false, length, IfOk, OnOk};
ghost use Rattle.subst_expr.specs.Replacement.{is_group_digit, pair_given, taken};
ghost use Rattle.subst_expr.specs.Scans.{expansion_from, missing_from};

use crate::scan::begins_pair;
use enum_base::{Bytes, MemoryFault};
use std::alloc::Allocator;
use submatch::{Span, Spans};

/// The place of the first back reference past the last group, of a replacement that begins at a place.
pub(crate) fn first_missing(groups: u32, start: usize, repl: &[u8]) -> Option<usize>
    requires start { start ≤ 255 }
    requires short { length repl.now ≤ 255 }
    ensures { result ≡ missing_from groups false start repl.now }
{
    let mut escaped = false;
    for (at, b) in repl.iter().enumerate() {
        if escaped && is_group_digit(*b) && groups < u32::from(*b - b'0') {
            return Some(start + at - 1);
        }
        escaped = begins_pair(escaped, *b);
    }
    None
}

// Whether the byte after a backslash names a group.
fn is_group_digit(b: u8) -> bool
    ensures { result ≡ is_group_digit b }
{
    matches!(b, b'1'..=b'9')
}

/// The replacement with each back reference as the bytes that its group took.
pub(crate) fn expansion<A: Allocator>(
    alloc: A,
    repl: &[u8],
    aus: &[u8],
    spans: &Spans,
) -> Result<Bytes<A>, MemoryFault>
    ensures { IfOk result (λ bytes. bytes ≡ expansion_from aus.now spans.now.groups false repl.now) }
{
    let mut bytes = Bytes::new(alloc);
    let mut escaped = false;
    for b in repl {
        if escaped {
            push_escaped(&mut bytes, *b, aus, spans)?;
            escaped = false;
        } else if *b == b'\\' {
            escaped = true;
        } else {
            bytes.push_slice(&[*b])?;
        }
    }
    Ok(bytes)
}

// Appends what a backslash and the byte after it stand for.
fn push_escaped<A: Allocator>(
    bytes: &mut Bytes<A>,
    b: u8,
    aus: &[u8],
    spans: &Spans,
) -> Result<(), MemoryFault>
    ensures { OnOk result (bytes.new ≡ bytes.old ++ pair_given aus.now spans.now.groups b) }
{
    if is_group_digit(b) {
        bytes.push_slice(taken(aus, spans.group(b - b'0')))
    } else {
        bytes.push_slice(&[b])
    }
}

// The bytes that a span takes.
#[tactic(auto, using(crate::proofs::ExpandingLemmas::take_within, crate::proofs::ExpandingLemmas::drop_within))]
fn taken(aus: &[u8], span: Option<Span>) -> &[u8]
    ensures { result.now ≡ taken aus.now span }
{
    let Some(span) = span else {
        return &[];
    };
    let head = &aus[..usize::from(span.to).min(aus.len())];
    &head[usize::from(span.from).min(head.len())..]
}
