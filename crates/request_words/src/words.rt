//! The words of a command.
ghost use Rattle.std.specs.Prelude.{◌≡◌, ◌+◌, ◌≤◌, ◌<◌, ◌^◌, IfOk, Ok, length, string_bytes, bytes_eq, find, option_map};
ghost use Rattle.std.specs.List.{list_all, position};
ghost use Rattle.std.specs.Result.{result_ok};
ghost use Rattle.request_words.specs.Reading.{app_in, app_named, are_chosen, are_options, is_often, is_option};
ghost use Rattle.request_words.specs.Reading.{options_in, places_in, request_by, request_in, request_with, row_in};
ghost use Rattle.request_words.specs.Rows.{app_word, is_app, option_word, size_of, table};
ghost use Rattle.request_words.specs.Words.{Means, request_of, texts_of, text_at};
ghost use Rattle.request_words.specs.declared.request.Request.{Request};

use crate::option::{Choice, OptionName};
use crate::places::{place_of, places_of};
use crate::request::{AppName, Origin, Request, Resolution};
use crate::row::{Command, Row, table};

/// The words are no request.
#[derive(Clone, Copy, Debug, PartialEq, Eq)]
pub struct Usage;

/// Reads the words of a command as the table of commands says: its word, its arguments, and its options in any order.
/// The word after an option is its value, whatever it is. Takes no memory.
pub fn read_words(words: &[String]) -> Result<Request, Usage>
    ensures meant { IfOk result (λ request. Means (texts_of words.now) request) }
    ensures only { (request : Request) → Means (texts_of words.now) request → result ≡ Ok request }
{
    read_words_inner(words)
}

// The same, by the table.
fn read_words_inner(words: &[String]) -> Result<Request, Usage>
    ensures { result_ok result ≡ request_in (texts_of words.now) }
{
    match row_of(text_at(words, 0).as_bytes()) {
        Some(row) => request_by(&row, words).ok_or(Usage),
        None => Err(Usage),
    }
}

// The row of a command's word.
fn row_of(word: &[u8]) -> Option<Row>
    ensures { option_map row_in result ≡ find (λ row. bytes_eq word.now row.word) table }
{
    for row in table() {
        if word == row.word {
            return Some(*row);
        }
    }
    None
}

// The request that words of this row are.
fn request_by(row: &Row, words: &[String]) -> Option<Request>
    ensures { result ≡ request_by (row_in row.now) (texts_of words.now) }
{
    if words.len() < row.size() {
        None
    } else {
        request_with(row, words, app_of(row, words))
    }
}

// .. with the application that they name.
fn request_with(row: &Row, words: &[String], app: Option<AppName>) -> Option<Request>
    requires { size_of (row_in row.now) ≤ length words.now }
    ensures { result ≡ request_with (row_in row.now) (texts_of words.now) app }
{
    let app = app?;
    let options = options_of(row, words);
    if are_chosen(options, row.choices, app) {
        Some(request_of(row.command, app, options, row.size() + 1))
    } else {
        None
    }
}

// The words of the options.
fn options_of<'a>(row: &Row, words: &'a [String]) -> &'a [String]
    requires { size_of (row_in row.now) ≤ length words.now }
    ensures words { texts_of result.now ≡ options_in (row_in row.now) (texts_of words.now) }
    ensures count { size_of (row_in row.now) + length result.now ≡ length words.now }
{
    &words[row.size()..]
}

// The request of a command, whose options are these words, and the first value may stand at this place.
fn request_of(command: Command, app: AppName, options: &[String], place: usize) -> Request
    requires { place + length options.now < 2 ^ 63 }
    ensures { result ≡ request_of command app (λ option. places_in (option_word option) place (texts_of options.now)) }
{
    match command {
        Command::Resolve => Request::Resolve(Resolution {
            app,
            string: 2,
            want: place_of(options, OptionName::Want, place),
            apexes: places_of(options, OptionName::Apex, place),
            origin: Origin::Files(places_of(options, OptionName::Zones, place)),
        }),
        Command::Show => Request::Show,
    }
}

// The application that words of this row name; ENUM where the row has no place for it.
fn app_of(row: &Row, words: &[String]) -> Option<AppName>
    ensures { result ≡ app_in (position is_app row.now.arguments.now) (texts_of words.now) }
{
    match row.app_place() {
        Some(place) => app_named(text_at(words, place.saturating_add(1)).as_bytes()),
        None => Some(AppName::Enum),
    }
}

// The application of this name.
fn app_named(word: &[u8]) -> Option<AppName>
    ensures { result ≡ app_named word.now }
{
    if word == app_word(AppName::Enum) {
        Some(AppName::Enum)
    } else if word == app_word(AppName::Snaptr) {
        Some(AppName::Snaptr)
    } else if word == app_word(AppName::Unaptr) {
        Some(AppName::Unaptr)
    } else {
        None
    }
}

// The name of an application.
fn app_word(app: AppName) -> &'static [u8]
    ensures { result.now ≡ app_word app }
{
    match app {
        AppName::Enum => b"enum",
        AppName::Snaptr => b"snaptr",
        AppName::Unaptr => b"unaptr",
    }
}

// Whether the words are options of these with their values, each as often as it may stand.
fn are_chosen(words: &[String], choices: &[Choice], app: AppName) -> bool
    ensures { result ≡ are_chosen app choices.now (texts_of words.now) }
{
    are_options(words, choices) && each_often(words, choices, app)
}

fn are_options(words: &[String], choices: &[Choice]) -> bool
    ensures { result ≡ are_options choices.now (texts_of words.now) }
{
    let mut left = words;
    'options: while let [word, _, rest @ ..] = left {
        if !is_option(word, choices) {
            return false;
        }
        left = rest;
    }
    left.is_empty()
}

fn is_option(word: &String, choices: &[Choice]) -> bool
    ensures { result ≡ is_option choices.now (string_bytes word.now) }
{
    choices
        .iter()
        .any(|choice| is_word(word, choice.option.word()))
}

fn each_often(words: &[String], choices: &[Choice], app: AppName) -> bool
    ensures { result ≡ list_all (is_often app (texts_of words.now)) choices.now }
{
    choices.iter().all(|choice| is_often(words, choice, app))
}

fn is_often(words: &[String], choice: &Choice, app: AppName) -> bool
    ensures { result ≡ is_often app (texts_of words.now) choice.now }
{
    let count = places_of(words, choice.option, 0).count;
    choice.least <= count && count <= choice.most_for(app)
}

/// Whether a word is this one.
pub(crate) fn is_word(word: &String, text: &[u8]) -> bool
    ensures { result ≡ bytes_eq (string_bytes word.now) text.now }
{
    word.as_bytes() == text
}

/// The word at a place; the empty text where there is none.
pub fn text_at(words: &[String], place: usize) -> &str
    ensures { result.now ≡ text_at (texts_of words.now) place }
{
    match words.get(place) {
        Some(word) => word.as_str(),
        None => "",
    }
}
