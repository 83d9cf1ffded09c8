//! How RDATA is read, by kind and class.
ghost use Rattle.std.specs.Prelude.{◌≡◌};
ghost use Rattle.dns_wire.specs.Forms.{form_of, internet_form};

use crate::kinds;

/// The forms of RDATA: addresses, names, fields one after another, options, and bytes as they stand.
#[derive(Clone, Copy)]
pub(crate) enum Form {
    A,
    Aaaa,
    Ns,
    Cname,
    Ptr,
    Soa,
    Mx,
    Txt,
    Srv,
    Naptr,
    Opt,
    Raw,
}

/// The form of a record's RDATA.
pub(crate) fn form_of(kind: u16, class: u16) -> Form
    ensures { result ≡ form_of kind class }
{
    if kind == kinds::OPT {
        return Form::Opt;
    }
    if class != kinds::INTERNET {
        return Form::Raw;
    }
    internet_form(kind)
}

// The form in the class of the internet.
fn internet_form(kind: u16) -> Form
    ensures { result ≡ internet_form kind }
{
    match kind {
        kinds::A => Form::A,
        kinds::NS => Form::Ns,
        kinds::CNAME => Form::Cname,
        kinds::SOA => Form::Soa,
        kinds::PTR => Form::Ptr,
        kinds::MX => Form::Mx,
        kinds::TXT => Form::Txt,
        kinds::AAAA => Form::Aaaa,
        kinds::SRV => Form::Srv,
        kinds::NAPTR => Form::Naptr,
        _ => Form::Raw,
    }
}
