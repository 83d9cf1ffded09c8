//! Brackets, a byte at a time.
ghost use Rattle.std.specs.Prelude.{◌≡◌};
ghost use Rattle.posix_ere.specs.Bracket.Item.{single, range, members};
ghost use Rattle.posix_ere.specs.BracketMachine.{
  begun,
  answer,
  at_phase,
  marked,
  begin_item,
  start_step,
  element_step,
  dash_step,
  inner_step,
  range_inner_step,
  last_step,
  class_step,
  class_end_step,
  list_step,
};

use crate::class::Class;
use crate::why::{Why, is_printable};

// Which bytes of ASCII are listed.
pub(crate) type Marks = [bool; 128];

// What may come next in a bracket.
#[derive(Clone, Copy, Debug, PartialEq, Eq, Drop)]
enum Phase {
    // After the `[`.
    Start,
    // After the `[^`.
    First,
    // After a range or a class.
    Next,
    // After an element that may begin a range.
    Element(u8),
    // After an element and `-`.
    Dash(u8),
    // After a `[` that begins an item.
    Inner,
    // After an element and `-[`.
    RangeInner(u8),
    // After a `-` that may only be last.
    Last,
    // After `[:` and so many letters of this class's name.
    ClassName(Class, u8),
    // After `[:name:`.
    ClassEnd(Class),
}

// What was read of a bracket after its `[`.
#[derive(Clone, Copy, Drop)]
pub(crate) struct Bracket {
    pub(crate) negated: bool,
    pub(crate) marks: Marks,
    phase: Phase,
}

// Whether a bracket is open after a byte.
#[derive(Clone, Copy, Debug, PartialEq, Eq, Drop)]
pub(crate) enum Progress {
    Open,
    Closed,
}

fn mark_byte(marks: &mut Marks, byte: u8)
    ensures { marks.new ≡ marked (single byte) marks.old }
{
    if byte < 128 {
        marks[byte as usize] = true;
    }
}

fn mark_range(marks: &mut Marks, first: u8, last: u8)
    ensures { marks.new ≡ marked (range first last) marks.old }
{
    for byte in 0..128u8 {
        if first <= byte && byte <= last {
            marks[byte as usize] = true;
        }
    }
}

fn mark_class(marks: &mut Marks, class: Class)
    ensures { marks.new ≡ marked (members class) marks.old }
{
    for byte in 0..128u8 {
        if class.has(byte) {
            marks[byte as usize] = true;
        }
    }
}

impl Bracket {
    // A bracket after its `[`.
    pub(crate) fn new() -> Bracket
        ensures { result ≡ begun }
    {
        Bracket {
            negated: false,
            marks: [false; 128],
            phase: Phase::Start,
        }
    }

    // One more byte.
    pub(crate) fn step(&mut self, byte: u8) -> Result<Progress, Why>
        ensures { answer result self.new ≡ list_step self.old byte }
    {
        match self.phase {
            Phase::Start => self.start(byte),
            Phase::First => self.begin(true, byte),
            Phase::Next => self.begin(false, byte),
            Phase::Element(element) => self.after_element(element, byte),
            Phase::Dash(element) => self.after_dash(element, byte),
            Phase::Inner => self.after_inner(byte),
            Phase::RangeInner(element) => self.after_range_inner(element, byte),
            Phase::Last => self.after_last(byte),
            Phase::ClassName(class, read) => self.after_letters(class, read, byte),
            Phase::ClassEnd(class) => self.after_class(class, byte),
        }
    }

    fn open(&mut self, phase: Phase) -> Result<Progress, Why>
        ensures { answer result self.new ≡ at_phase self.old.negated self.old.marks phase }
    {
        self.phase = phase;
        Ok(Progress::Open)
    }

    fn start(&mut self, byte: u8) -> Result<Progress, Why>
        ensures { answer result self.new ≡ start_step self.old.negated self.old.marks byte }
    {
        if byte == b'^' {
            self.negated = true;
            self.open(Phase::First)
        } else {
            self.begin(true, byte)
        }
    }

    // A byte where an item may begin.
    fn begin(&mut self, first: bool, byte: u8) -> Result<Progress, Why>
        ensures { answer result self.new ≡ begin_item first self.old.negated self.old.marks byte }
    {
        if byte == b']' {
            if first {
                self.open(Phase::Element(byte))
            } else {
                Ok(Progress::Closed)
            }
        } else if byte == b'[' {
            self.open(Phase::Inner)
        } else if byte == b'-' && !first {
            self.open(Phase::Last)
        } else if is_printable(byte) {
            self.open(Phase::Element(byte))
        } else {
            Err(Why::NotAscii)
        }
    }

    fn after_element(&mut self, element: u8, byte: u8) -> Result<Progress, Why>
        ensures { answer result self.new ≡ element_step element self.old.negated self.old.marks byte }
    {
        if byte == b'-' {
            self.open(Phase::Dash(element))
        } else {
            mark_byte(&mut self.marks, element);
            self.begin(false, byte)
        }
    }

    // A byte after an element and `-`.
    fn after_dash(&mut self, element: u8, byte: u8) -> Result<Progress, Why>
        ensures { answer result self.new ≡ dash_step element self.old.negated self.old.marks byte }
    {
        if byte == b']' {
            mark_byte(&mut self.marks, element);
            mark_byte(&mut self.marks, b'-');
            Ok(Progress::Closed)
        } else if !is_printable(byte) {
            Err(Why::NotAscii)
        } else if byte < element {
            Err(Why::BadRange)
        } else if byte == b'[' {
            self.open(Phase::RangeInner(element))
        } else {
            mark_range(&mut self.marks, element, byte);
            self.open(Phase::Next)
        }
    }

    // A byte after a `[` that begins an item.
    fn after_inner(&mut self, byte: u8) -> Result<Progress, Why>
        ensures { answer result self.new ≡ inner_step self.old.negated self.old.marks byte }
    {
        if byte == b'.' || byte == b'=' {
            Err(Why::Collating)
        } else if byte == b':' {
            self.open(Phase::ClassName(Class::Alnum, 0))
        } else {
            self.after_element(b'[', byte)
        }
    }

    // A byte after a `[` that ends a range.
    fn after_range_inner(&mut self, element: u8, byte: u8) -> Result<Progress, Why>
        ensures { answer result self.new ≡ range_inner_step element self.old.negated self.old.marks byte }
    {
        if byte == b'.' || byte == b'=' {
            Err(Why::Collating)
        } else if byte == b':' {
            Err(Why::BadRange)
        } else {
            mark_range(&mut self.marks, element, b'[');
            self.begin(false, byte)
        }
    }

    // A byte after a `-` that may only be last.
    fn after_last(&mut self, byte: u8) -> Result<Progress, Why>
        ensures { answer result self.new ≡ last_step self.old.negated self.old.marks byte }
    {
        if byte == b']' {
            mark_byte(&mut self.marks, b'-');
            Ok(Progress::Closed)
        } else {
            Err(Why::BadRange.at(byte))
        }
    }

    // A byte after so many letters of a class name.
    fn after_letters(&mut self, class: Class, read: u8, byte: u8) -> Result<Progress, Why>
        ensures { answer result self.new ≡ class_step class read self.old.negated self.old.marks byte }
    {
        if byte == b':' && class.is_whole(read) {
            return self.open(Phase::ClassEnd(class));
        }
        match class.next(read, byte) {
            Some(next) => self.open(Phase::ClassName(next, read + 1)),
            None => Err(Why::BadClass.at(byte)),
        }
    }

    // A byte after `[:name:`.
    fn after_class(&mut self, class: Class, byte: u8) -> Result<Progress, Why>
        ensures { answer result self.new ≡ class_end_step class self.old.negated self.old.marks byte }
    {
        if byte == b']' {
            mark_class(&mut self.marks, class);
            self.open(Phase::Next)
        } else {
            Err(Why::BadClass.at(byte))
        }
    }
}
