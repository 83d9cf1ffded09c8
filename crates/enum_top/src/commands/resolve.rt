//! `resolve APP STRING`: the report of a walk (RFC 3402).
ghost use Rattle.std.specs.Prelude.{◌≡◌, ◌≤◌, Err, IfOk, IsErrOf, length, map};
ghost use Rattle.dns_name.specs.Name.{folded_labels};
ghost use Rattle.ddds_walk.specs.Report.{Answers};
ghost use Rattle.ddds_walk.specs.Rules.{client_of};
ghost use Rattle.request_words.specs.Words.{cells, texts_of};
ghost use Rattle.service_field.specs.Wanted.{wanted_text};
ghost use Rattle.zone_build.specs.Plain.{told};
ghost use Rattle.enum_top.specs.Applications.{Asks};
ghost use Rattle.enum_top.specs.Handling.{ReadsShelf};
ghost use Rattle.enum_top.specs.Resolving.{Resolves, client_for, ending_of, files_of};
ghost use Rattle.enum_top.specs.Running.{DoesOnShelf, inquiry_of, listed};
ghost use Rattle.enum_top.specs.Walking.{WalksOnce};
ghost use Rattle.enum_top.specs.declared.cause.Cause.{Cause};

use crate::inquiry::{Inquiry, read_inquiry};
use crate::objects::Object;
use crate::status::{Ending, Printed};
use crate::why::Why;
use crate::zones::read_zones;
use ddds_walk::{End, Report, WalkFault, needed_bound, walk};
use enum_app::EnumApp;
use enum_base::{MemoryFault, Shelf};
use naptr_data::RuleSource;
use report_text::print_report;
use request_words::{AppName, Origin, Resolution};
use service_field::DddsApp;
use snaptr_app::{SnaptrApp, UnaptrApp};
use std::alloc::Global;
use zone_db::{ZoneSet, ZoneSource};

/// Prints the report of what is asked, over the zones of the files.
pub(crate) fn resolve_text<S: Shelf>(
    alloc: Global,
    words: &[String],
    asked: &Resolution,
    shelf: &mut S,
) -> Result<Printed, Why>
    requires few { asked.now.apexes.count ≤ 8 }
    ensures does { DoesOnShelf (Resolves (S.state shelf.old).files (texts_of words.now) asked.now) result }
    ensures early { (cause : Cause) → Asks (texts_of words.now) asked.now.app asked.now.string asked.now.want (cells asked.now.apexes) (Err cause)
        → IsErrOf result (Why.Judged cause) }
    ensures shelf { ReadsShelf (S.state shelf.old) (S.state shelf.new) (IsErrOf result (Why.Outside Object.Shelf)) }
{
    let inquiry = match read_inquiry(words, asked) {
        Ok(inquiry) => inquiry,
        Err(cause) => return Err(Why::Judged(cause)),
    };
    let zones = read_zones(alloc, words, files_of(&asked.origin), shelf)?;
    let report = report_over(alloc, asked.app, &inquiry, &zones)?;
    let text = print_report(alloc, &report, inquiry.keys.as_slice().len())?;
    Ok(Printed {
        ending: ending_of(&report),
        text,
    })
}

// The places of the names of the files.
fn files_of(origin: &Origin) -> &[usize]
    ensures { result.now ≡ files_of origin.now }
{
    match origin {
        Origin::Files(places) => places.as_slice(),
    }
}

// The report of what an application asks of zones. Out of memory is its one fault.
fn report_over(
    alloc: Global,
    app: AppName,
    inquiry: &Inquiry<'_>,
    zones: &ZoneSet,
) -> Result<Report, MemoryFault>
    requires some { 1 ≤ length (listed inquiry.now.keys) }
    ensures { IfOk result (Answers (client_for app (inquiry_of inquiry.now)) (told zones.now) (map folded_labels (listed inquiry.now.keys))) }
{
    // No more domains than this are needed.
    let limit = zones.rules_and_aliases() + inquiry.keys.as_slice().len() as u32;
    let mut source = ZoneSource::new(zones);
    needed_bound();
    match report_of(alloc, app, inquiry, &mut source, limit) {
        Ok(report) => Ok(report),
        Err(WalkFault::Memory) => Err(MemoryFault),
        Err(WalkFault::Limit { .. }) => unreachable!(),
        Err(WalkFault::Trouble) => unreachable!(),
    }
}

// The report of what an application asks of a source, by one walk.
fn report_of<R: RuleSource>(
    alloc: Global,
    app: AppName,
    inquiry: &Inquiry<'_>,
    source: &mut R,
    limit: u32,
) -> Result<Report, WalkFault>
    requires limit { 1 ≤ limit }
    requires some { 1 ≤ length (listed inquiry.now.keys) }
    ensures { WalksOnce (client_for app (inquiry_of inquiry.now)) (map folded_labels (listed inquiry.now.keys)) limit
        (R.state source.old) (R.state source.new) result }
{
    match app {
        AppName::Enum => walk_as(alloc, &EnumApp, inquiry, source, limit),
        AppName::Snaptr => walk_as(alloc, &SnaptrApp, inquiry, source, limit),
        AppName::Unaptr => walk_as(alloc, &UnaptrApp, inquiry, source, limit),
    }
}

fn walk_as<P: DddsApp, R: RuleSource>(
    alloc: Global,
    app: &P,
    inquiry: &Inquiry<'_>,
    source: &mut R,
    limit: u32,
) -> Result<Report, WalkFault>
    requires limit { 1 ≤ limit }
    requires some { 1 ≤ length (listed inquiry.now.keys) }
    ensures { WalksOnce (client_of (P.meaning app.now) (wanted_text inquiry.now.wanted) inquiry.now.string)
        (map folded_labels (listed inquiry.now.keys)) limit (R.state source.old) (R.state source.new) result }
{
    walk(
        alloc,
        app,
        inquiry.wanted,
        &inquiry.string,
        inquiry.keys.as_slice(),
        source,
        limit,
    )
}

// Whether a report has an end, none, or is a loop.
fn ending_of(report: &Report) -> Ending
    ensures { result ≡ ending_of report.now }
{
    match report {
        Report::Ends(ends) => ending_of_ends(ends.as_slice()),
        Report::Loop(_) => Ending::Loop,
    }
}

fn ending_of_ends(ends: &[End]) -> Ending
    ensures { result ≡ ending_of (Report.Ends ends.now) }
{
    match ends {
        [] => Ending::Nothing,
        [_, ..] => Ending::Done,
    }
}
