//! What the words ask of the zones.
ghost use Rattle.std.specs.Prelude.{◌≡◌, ◌≢◌, ◌≤◌, ℕ, List, Some, IfOk, length, map, option_map};
ghost use Rattle.enum_app.specs.Number.{digits_of};
ghost use Rattle.enum_top.specs.Applications.{Asks, Numbered, Strings, Wants, apex_of, apexes_of, every, under};
ghost use Rattle.enum_top.specs.Running.{domains_in, inquiry_in, string_in, wanted_in, wanted_or_cause};
ghost use Rattle.request_words.specs.Words.{cells, text_at, texts_of};

use crate::cause::Cause;
use crate::domains::Domains;
use dns_name::{Name, NameFault};
use enum_app::{Number, default_apex};
use enum_base::Text255;
use request_words::{AppName, Resolution, text_at};
use service_field::{ServiceFault, Wanted, want_enum, want_snaptr};
use snaptr_app::Domain;

/// The original string of an application, the services that are wanted, and the keys: the domains that the walk begins at.
#[derive(Clone, Copy, Debug)]
pub(crate) struct Inquiry<'a> {
    pub(crate) string: Text255,
    pub(crate) wanted: Wanted<'a>,
    pub(crate) keys: Domains,
}

/// Reads what the words ask: the string, the wanted list, every apex and then every key, of which the first that is
/// ill-formed is told. Takes no memory.
pub(crate) fn read_inquiry<'a>(
    words: &'a [String],
    asked: &Resolution,
) -> Result<Inquiry<'a>, Cause>
    requires few { asked.now.apexes.count ≤ 8 }
    ensures { Asks (texts_of words.now) asked.now.app asked.now.string asked.now.want (cells asked.now.apexes) (inquiry_in result) }
{
    match asked.app {
        AppName::Enum => ask_number(words, asked.string, asked.want, asked.apexes.as_slice()),
        AppName::Snaptr => ask_domain(words, AppName::Snaptr, asked.string, asked.want),
        AppName::Unaptr => ask_domain(words, AppName::Unaptr, asked.string, asked.want),
    }
}

// A telephone number.
fn ask_number<'a>(
    words: &'a [String],
    string: usize,
    want: Option<usize>,
    apexes: &[usize],
) -> Result<Inquiry<'a>, Cause>
    requires few { length apexes.now ≤ 8 }
    ensures { Asks (texts_of words.now) AppName.Enum string want apexes.now (inquiry_in result) }
{
    let number = match read_number(text_at(words, string).as_bytes()) {
        Ok(number) => number,
        Err(cause) => return Err(cause),
    };
    let wanted = match read_wanted(AppName::Enum, words, want) {
        Ok(wanted) => wanted,
        Err(cause) => return Err(cause),
    };
    let keys = match read_keys(&number, words, apexes) {
        Ok(keys) => keys,
        Err(cause) => return Err(cause),
    };
    Ok(Inquiry {
        string: number.aus(),
        wanted,
        keys,
    })
}

// A domain, of which S-NAPTR and U-NAPTR ask for the text as it stands. No apex is looked at.
fn ask_domain(
    words: &[String],
    app: AppName,
    string: usize,
    want: Option<usize>,
) -> Result<Inquiry<'_>, Cause>
    requires { app ≢ AppName.Enum }
    ensures { (apexes : List ℕ) → Asks (texts_of words.now) app string want apexes (inquiry_in result) }
{
    let domain = match Domain::parse(text_at(words, string).as_bytes()) {
        Ok(domain) => domain,
        Err(fault) => return Err(Cause::Domain(fault)),
    };
    let wanted = match read_wanted(app, words, want) {
        Ok(wanted) => wanted,
        Err(cause) => return Err(cause),
    };
    Ok(Inquiry {
        string: domain.aus(),
        wanted,
        keys: Domains::one(domain.key()),
    })
}

fn read_number(text: &[u8]) -> Result<Number, Cause>
    ensures string { Strings AppName.Enum text.now (string_in result) }
    ensures digits { IfOk result (λ number. number ≡ digits_of text.now) }
{
    match Number::parse(text) {
        Ok(number) => Ok(number),
        Err(fault) => Err(Cause::Number(fault)),
    }
}

// The wanted services of the list at a place; any where there is no list.
fn read_wanted(app: AppName, words: &[String], want: Option<usize>) -> Result<Wanted<'_>, Cause>
    ensures { Wants app (option_map (text_at (texts_of words.now)) want) (wanted_in result) }
{
    match want {
        Some(place) => read_list(app, text_at(words, place).as_bytes()),
        None => Ok(Wanted::Any),
    }
}

fn read_list(app: AppName, list: &[u8]) -> Result<Wanted<'_>, Cause>
    ensures { Wants app (Some list.now) (wanted_in result) }
{
    match app {
        AppName::Enum => wanted_or_cause(want_enum(list)),
        AppName::Snaptr => wanted_or_cause(want_snaptr(list)),
        AppName::Unaptr => wanted_or_cause(want_snaptr(list)),
    }
}

fn wanted_or_cause(read: Result<Wanted<'_>, ServiceFault>) -> Result<Wanted<'_>, Cause>
    ensures { wanted_in result ≡ wanted_or_cause read.entry }
{
    match read {
        Ok(wanted) => Ok(wanted),
        Err(fault) => Err(Cause::Want(fault)),
    }
}

// The domains of a number under the apexes at these places.
fn read_keys(number: &Number, words: &[String], apexes: &[usize]) -> Result<Domains, Cause>
    requires few { length apexes.now ≤ 8 }
    ensures { Numbered number.now (map (text_at (texts_of words.now)) apexes.now) (domains_in result) }
{
    match read_apexes(words, apexes) {
        Ok(tops) => keys_under(number, tops.as_slice()),
        Err(fault) => Err(Cause::Apex(fault)),
    }
}

// The apexes at these places; `e164.arpa.` where there is none.
fn read_apexes(words: &[String], apexes: &[usize]) -> Result<Domains, NameFault>
    requires few { length apexes.now ≤ 8 }
    ensures { domains_in result ≡ apexes_of (map (text_at (texts_of words.now)) apexes.now) }
{
    if apexes.is_empty() {
        Ok(Domains::one(default_apex()))
    } else {
        read_names(words, apexes)
    }
}

// The names at these places.
fn read_names(words: &[String], places: &[usize]) -> Result<Domains, NameFault>
    requires few { length places.now ≤ 8 }
    ensures { domains_in result ≡ every (map apex_of (map (text_at (texts_of words.now)) places.now)) }
{
    let mut names = Domains::none();
    for place in places {
        match read_apex(text_at(words, *place).as_bytes()) {
            Ok(name) => names.push(name),
            Err(fault) => return Err(fault),
        }
    }
    Ok(names)
}

fn read_apex(text: &[u8]) -> Result<Name, NameFault>
    ensures { result ≡ apex_of text.now }
{
    Name::from_text(text, Some(&Name::root()))
}

// The domain of a number under each of these apexes.
fn keys_under(number: &Number, tops: &[Name]) -> Result<Domains, Cause>
    requires few { length tops.now ≤ 8 }
    ensures { domains_in result ≡ every (map (under number.now) tops.now) }
{
    let mut keys = Domains::none();
    for top in tops {
        match key_under(number, top) {
            Ok(key) => keys.push(key),
            Err(cause) => return Err(cause),
        }
    }
    Ok(keys)
}

fn key_under(number: &Number, apex: &Name) -> Result<Name, Cause>
    ensures { result ≡ under number.now apex.now }
{
    match number.key(apex) {
        Ok(key) => Ok(key),
        Err(_) => Err(Cause::Key),
    }
}
