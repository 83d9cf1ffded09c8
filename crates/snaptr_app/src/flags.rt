//! What flags mean.
ghost use Rattle.std.specs.Prelude.{◌≡◌};
ghost use Rattle.snaptr_app.specs.App.{snaptr_flag, snaptr_kind, unaptr_flag, unaptr_kind};

use enum_base::fold_byte;
use service_field::Kind;

/// What flags of S-NAPTR mean, in either case (RFC 3958, section 6.4).
pub(crate) fn snaptr_kind(flags: &[u8]) -> Kind
    ensures { result ≡ snaptr_kind flags.now }
{
    match flags {
        [] => Kind::Step,
        [flag] => snaptr_flag(fold_byte(*flag)),
        _ => Kind::Unknown,
    }
}

/// What flags of U-NAPTR mean, in either case (RFC 4848, section 2.1).
pub(crate) fn unaptr_kind(flags: &[u8]) -> Kind
    ensures { result ≡ unaptr_kind flags.now }
{
    match flags {
        [] => Kind::Step,
        [flag] => unaptr_flag(fold_byte(*flag)),
        _ => Kind::Unknown,
    }
}

fn snaptr_flag(b: u8) -> Kind
    ensures { result ≡ snaptr_flag b }
{
    match b {
        b's' | b'a' => Kind::TerminalName(b),
        _ => Kind::Unknown,
    }
}

fn unaptr_flag(b: u8) -> Kind
    ensures { result ≡ unaptr_flag b }
{
    match b {
        b'u' => Kind::TerminalUri,
        _ => snaptr_flag(b),
    }
}
