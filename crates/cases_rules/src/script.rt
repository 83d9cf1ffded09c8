//! Walks, by a script under way:
//!
//! - `new`: a source with nothing in it, the ENUM application, any services wanted, an empty string.
//! - `kind step`, `kind uri`, `kind letter L`, `kind none`: an application for which all flags mean that, and all services
//!   serve. `kind enum`: ENUM.
//! - `string S`, `want LIST`, and `want` for any services.
//! - `rule OWNER ORDER PREFERENCE FLAGS SERVICES REGEXP REPLACEMENT`, the rules of one owner in their order; `alias OWNER
//!   TARGET`; `open OWNER`: nobody serves it. At other names there are no rules.
//! - `kept NAME`: the source keeps this name; it keeps two. `trouble N`: it has trouble at its ask N.
//! - `layers N`: N layers of two domains, `a1.` and `b1.` and so on, under `a0.`, each with a step to both of the next
//!   layer; the last `a` has one terminal rule.
//! - `find KEYS LIMIT` walks from 1 to 8 keys with `,` between them, and prints what was found: a line for each end, with
//!   its derivation, domain, ORDER, PREFERENCE and outcome, and their number; or the loop, with its derivation and domains;
//!   or the refusal. With several keys a derivation has the place of its key in front. A URI of more than 255 bytes is told
//!   by its length.
//! - `walk KEYS LIMIT` prints before it the domains that were asked, in order, and what the source keeps and counts.
//!
//! In a field `-` is no bytes.
ghost use Rattle.std.specs.Prelude.{◌<◌};

use crate::app::Always;
use crate::listed::{Item, Listed, Place};
use crate::print::{print_answer, print_source};
use cases_text::{field_of, name_of, number_of, text_of};
use ddds_walk::{Report, WalkFault, walk};
use dns_name::{Name, Names};
use enum_app::EnumApp;
use enum_base::{Bytes, MemoryFault, Text255};
use naptr_data::Naptr;
use service_field::{DddsApp, Kind, Wanted};
use std::alloc::Global;

#[derive(Drop)]
pub struct Script {
    source: Listed,
    // The kind of all flags; `None` takes the ENUM application.
    kind: Option<Kind>,
    // The wanted list; no bytes are any services.
    wanted: Bytes,
    string: Bytes,
}

impl Script {
    pub fn new(alloc: Global) -> Script {
        Script {
            source: Listed::new(alloc),
            kind: None,
            wanted: Bytes::new(alloc),
            string: Bytes::new(alloc),
        }
    }

    // Does what a line says, and tells what it comes to.
    pub fn read(&mut self, alloc: Global, verb: &str, rest: &str) -> Result<String, MemoryFault> {
        match verb {
            "new" => *self = Script::new(alloc),
            "kind" => self.kind = kind_of(rest),
            "string" => self.string = field_of(alloc, rest)?,
            "want" => self.wanted = field_of(alloc, rest)?,
            "kept" => self.source.cache.keep(&named(alloc, rest)?),
            "trouble" => self.source.failing.push(number_of(rest))?,
            "layers" => self.put_layers(alloc, number_of(rest))?,
            "find" => return self.find(alloc, rest),
            "walk" => return self.walk(alloc, rest),
            _ => self.put(alloc, verb, rest)?,
        }
        Ok(String::new(alloc))
    }

    // Puts something into the source.
    fn put(&mut self, alloc: Global, verb: &str, rest: &str) -> Result<(), MemoryFault> {
        let (owner, fields) = rest.split_once(' ').unwrap_or((rest, ""));
        let owner = named(alloc, owner)?;
        match verb {
            "rule" => {
                let rule = rule_of(alloc, fields)?;
                self.add(owner, Item::Rule(rule))
            }
            "alias" => {
                let target = named(alloc, fields)?;
                self.add(owner, Item::Alias(target))
            }
            "open" => self.add(owner, Item::Unserved),
            _ => Ok(()),
        }
    }

    // Layers of two domains, each with a step to both of the next layer; the last `a` has a terminal rule.
    fn put_layers(&mut self, alloc: Global, count: u32) -> Result<(), MemoryFault> {
        for layer in 0..count {
            self.put_steps(alloc, 'a', layer)?;
            self.put_steps(alloc, 'b', layer)?;
        }
        let last = format!(in alloc; "a{count}. 100 10 u E2U+sip !^.*$!sip:info@example.com! .")?;
        self.put(alloc, "rule", last.as_str())
    }

    fn put_steps(&mut self, alloc: Global, letter: char, layer: u32) -> Result<(), MemoryFault>
        requires { layer < 4_294_967_295 }
    {
        let next = layer + 1;
        let first = format!(in alloc; "{letter}{layer}. 100 10 - - - a{next}.")?;
        self.put(alloc, "rule", first.as_str())?;
        let second = format!(in alloc; "{letter}{layer}. 100 20 - - - b{next}.")?;
        self.put(alloc, "rule", second.as_str())
    }

    fn add(&mut self, owner: Name, item: Item) -> Result<(), MemoryFault> {
        self.source.places.push(Place { owner, item })
    }

    // Walks from keys, and tells what it found.
    fn find(&mut self, alloc: Global, rest: &str) -> Result<String, MemoryFault> {
        let answer = self.answer(alloc, rest)?;
        let mut out = Bytes::new(alloc);
        print_answer(&answer, rest.contains(','), &mut out)?;
        text_of(alloc, out.as_slice())
    }

    // Walks from keys, and tells whom it asked, what the source keeps and counts, and what it found.
    fn walk(&mut self, alloc: Global, rest: &str) -> Result<String, MemoryFault> {
        self.source.asked = Names::new(alloc);
        let answer = self.answer(alloc, rest)?;
        let mut out = Bytes::new(alloc);
        print_source(&self.source, &mut out)?;
        print_answer(&answer, rest.contains(','), &mut out)?;
        text_of(alloc, out.as_slice())
    }

    fn answer(
        &mut self,
        alloc: Global,
        rest: &str,
    ) -> Result<Result<Report, WalkFault>, MemoryFault> {
        let (keys, limit) = rest.split_once(' ').unwrap_or((rest, ""));
        let (keys, limit) = (keys_of(alloc, keys)?, number_of(limit));
        let string = Text255::from_bytes(self.string.as_slice()).ok_or(MemoryFault)?;
        let wanted = match self.wanted.as_slice() {
            [] => Wanted::Any,
            list => Wanted::List(list),
        };
        Ok(match self.kind {
            Some(kind) => walked(
                alloc,
                &Always { kind },
                wanted,
                &string,
                keys.as_slice(),
                &mut self.source,
                limit,
            ),
            None => walked(
                alloc,
                &EnumApp,
                wanted,
                &string,
                keys.as_slice(),
                &mut self.source,
                limit,
            ),
        })
    }
}

// The walk, with a limit of at least 1. A case has from 1 to 8 keys.
fn walked<P: DddsApp>(
    alloc: Global,
    app: &P,
    wanted: Wanted<'_>,
    string: &Text255,
    keys: &[Name],
    source: &mut Listed,
    limit: u32,
) -> Result<Report, WalkFault> {
    if keys.is_empty() || keys.len() > 8 {
        return Err(WalkFault::Memory);
    }
    walk(alloc, app, wanted, string, keys, source, limit.max(1))
}

// The keys of a field, with `,` between them.
fn keys_of(alloc: Global, text: &str) -> Result<Names, MemoryFault> {
    let mut keys = Names::new(alloc);
    for key in text.split(',') {
        keys.push(named(alloc, key)?)?;
    }
    Ok(keys)
}

fn kind_of(text: &str) -> Option<Kind> {
    match text.as_bytes() {
        b"step" => Some(Kind::Step),
        b"uri" => Some(Kind::TerminalUri),
        b"none" => Some(Kind::Unknown),
        [b'l', b'e', b't', b't', b'e', b'r', b' ', letter] => Some(Kind::TerminalName(*letter)),
        _ => None,
    }
}

// The name that a field stands for, and the root where it stands for none.
fn named(alloc: Global, field: &str) -> Result<Name, MemoryFault> {
    Ok(name_of(alloc, field)?.unwrap_or(Name::root()))
}

// The string of a field, which has at most 255 bytes.
fn string_of(alloc: Global, field: &str) -> Result<Text255, MemoryFault> {
    Text255::from_bytes(field_of(alloc, field)?.as_slice()).ok_or(MemoryFault)
}

// The rule of six fields.
pub fn rule_of(alloc: Global, text: &str) -> Result<Naptr, MemoryFault> {
    let mut fields = text.split(' ');
    let order = number_of(fields.next().unwrap_or(""));
    let preference = number_of(fields.next().unwrap_or(""));
    Ok(Naptr {
        order: u16::try_from(order).unwrap_or(0),
        preference: u16::try_from(preference).unwrap_or(0),
        flags: string_of(alloc, fields.next().unwrap_or(""))?,
        services: string_of(alloc, fields.next().unwrap_or(""))?,
        regexp: string_of(alloc, fields.next().unwrap_or(""))?,
        replacement: named(alloc, fields.next().unwrap_or(""))?,
    })
}
