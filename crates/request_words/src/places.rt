//! Places of words.
ghost use Rattle.std.specs.Prelude.{◌≡◌, ◌+◌, ◌≤◌, ◌<◌, ◌^◌, length, string_bytes};
ghost use Rattle.request_words.specs.Reading.{places_in, with_place, with_value};
ghost use Rattle.request_words.specs.Rows.{option_word};
ghost use Rattle.request_words.specs.Words.{cells, first_of, places_from, texts_of};

use crate::option::OptionName;
use crate::words::is_word;

/// The places of the values of an option that is repeated, in their order; items past `count` are 0.
#[derive(Clone, Copy, Debug)]
pub struct Places {
    pub count: usize,
    pub at: [usize; 64],
}

impl Places {
    /// The places in their order.
    pub fn as_slice(&self) -> &[usize]
        ensures value { result.now ≡ cells self.now }
        ensures few { length result.now ≤ 64 }
    {
        &self.at[..self.count.min(self.at.len())]
    }
}

/// The place of the first value of one option, as of `places_of`.
pub(crate) fn place_of(words: &[String], option: OptionName, place: usize) -> Option<usize>
    requires { place + length words.now < 2 ^ 63 }
    ensures { result ≡ first_of (places_in (option_word option) place (texts_of words.now)) }
{
    let places = places_of(words, option, place);
    if places.count == 0 {
        None
    } else {
        Some(places.at[0])
    }
}

/// The places of all values of one option among words that are options with their values, where the first value would
/// stand at `place`. Of more than 64 the others are only counted.
pub(crate) fn places_of(words: &[String], option: OptionName, place: usize) -> Places
    requires { place + length words.now < 2 ^ 63 }
    ensures { result ≡ places_from (places_in (option_word option) place (texts_of words.now)) }
{
    let mut places = Places {
        count: 0,
        at: [0; 64],
    };
    let mut at = place;
    let mut left = words;
    'options: while let [word, _, rest @ ..] = left {
        places = with_value(places, word, option, at);
        at += 2;
        left = rest;
    }
    places
}

// One place more, where the word is that option.
fn with_value(places: Places, word: &String, option: OptionName, place: usize) -> Places
    requires { places.count < 2 ^ 63 }
    ensures { result ≡ with_value places (string_bytes word.now) (option_word option) place }
{
    if is_word(word, option.word()) {
        with_place(places, place)
    } else {
        places
    }
}

// One place more.
fn with_place(places: Places, place: usize) -> Places
    requires { places.count < 2 ^ 63 }
    ensures { result ≡ with_place places place }
{
    let mut at = places.at;
    if places.count < at.len() {
        at[places.count] = place;
    }
    Places {
        count: places.count + 1,
        at,
    }
}
