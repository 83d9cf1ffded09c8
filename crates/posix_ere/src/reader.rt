//! Reading an expression a byte at a time.
ghost use Rattle.std.specs.Prelude.{◌≡◌, ◌+◌, ◌<◌, ◌≤◌, ◌^◌, length, slice_index_or, true, false, Ok, IfOk};
ghost use Rattle.std.specs.Result.{OnOk, IfErr, IsOkAnd};
ghost use Rattle.posix_ere.specs.Cells.{stack_of, FitsNode};
ghost use Rattle.posix_ere.specs.Machine.{
  State,
  state_of,
  start,
  step,
  finish,
  Fair,
  Stops,
  with_leaf,
  with_repeat,
  with_group,
  with_branch,
  closed,
  if_repeatable,
  plain_step,
  escape_step,
  interval_step,
  at_mode,
  no_marks,
  with_end,
  with_frame,
  sign_of,
  ended,
  top_of,
  Ends,
  LeavesOpen,
};
ghost use Rattle.posix_ere.specs.Parts.{groups as groups_of, weight as weight_of};
ghost use Rattle.posix_ere.specs.Nodes.{whole};
ghost use Rattle.posix_ere.specs.IntervalMachine.{count_step};
ghost use Rattle.posix_ere.specs.declared.frame.Mode.TheVariants as mode;
ghost use Rattle.posix_ere.specs.declared.interval.Interval.TheVariants as interval;

use crate::bracket::{Bracket, Marks, Progress};
use crate::cell::Cells;
use crate::ere::Ere;
use crate::frame::{Frame, Mode};
use crate::interval::{Counting, Interval};
use crate::node::Node;
use crate::sign::Sign;
use crate::why::{EreFault, Why, is_printable};
use std::alloc::{AllocError, Allocator};

// The greatest weight of an expression.
const MAX_WEIGHT: u32 = 512;

// No byte listed.
const NO_MARKS: Marks = [false; 128];

// What was read of an expression.
#[derive(Drop)]
pub(crate) struct Reader<A: Allocator> {
    cells: Cells<A>,
    frames: Vec<Frame, A>,
    top: Frame,
    opened: u32,
    mode: Mode,
}

impl<A: Allocator + Copy> Reader<A> {
    pub(crate) fn new(alloc: A) -> Reader<A>
        ensures { state_of result ≡ start }
    {
        Reader {
            cells: Cells::new(alloc),
            frames: Vec::new(alloc),
            top: Frame::new(0),
            opened: 0,
            mode: Mode::Plain,
        }
    }
}

impl<A: Allocator> Reader<A> {
    // One more piece, a leaf.
    fn leaf(&mut self, node: Node, marks: Marks, repeatable: bool) -> Result<(), AllocError>
        requires leaf { FitsNode node 0 }
        requires room { length self.old.cells < 2 ^ 32 }
        requires pieces { self.old.top.pieces + 1 < 2 ^ 32 }
        ensures { OnOk result (state_of self.new ≡ with_leaf node marks repeatable (state_of self.old)) }
    {
        self.cells.push(node, marks, 0)?;
        self.top.pieces += 1;
        self.top.repeatable = repeatable;
        self.mode = Mode::Plain;
        Ok(())
    }

    // One more piece that may be repeated.
    fn atom(&mut self, node: Node) -> Result<(), AllocError>
        requires leaf { FitsNode node 0 }
        requires room { length self.old.cells < 2 ^ 32 }
        requires pieces { self.old.top.pieces + 1 < 2 ^ 32 }
        ensures { OnOk result (state_of self.new ≡ with_leaf node no_marks true (state_of self.old)) }
    {
        self.leaf(node, NO_MARKS, true)
    }

    // One more piece that may not.
    fn anchor(&mut self, node: Node) -> Result<(), AllocError>
        requires leaf { FitsNode node 0 }
        requires room { length self.old.cells < 2 ^ 32 }
        requires pieces { self.old.top.pieces + 1 < 2 ^ 32 }
        ensures { OnOk result (state_of self.new ≡ with_leaf node no_marks false (state_of self.old)) }
    {
        self.leaf(node, NO_MARKS, false)
    }

    // The last piece repeated.
    fn repeat(&mut self, low: u32, high: Option<u32>) -> Result<(), AllocError>
        requires room { length self.old.cells < 2 ^ 32 }
        requires some { 1 ≤ length (stack_of self.old.cells) }
        ensures { OnOk result (state_of self.new ≡ with_repeat low high (state_of self.old)) }
    {
        self.cells.push(Node::Rep(low, high), NO_MARKS, 1)?;
        self.mode = Mode::Plain;
        Ok(())
    }

    // One more branch.
    fn branch(&mut self) -> Result<(), AllocError>
        requires room { length self.old.cells < 2 ^ 32 }
        requires pieces { self.old.top.pieces ≤ length (stack_of self.old.cells) }
        requires branches { self.old.top.branches + 1 < 2 ^ 32 }
        ensures { OnOk result (state_of self.new ≡ with_branch (state_of self.old)) }
    {
        self.cells.push(Node::Branch, NO_MARKS, self.top.pieces)?;
        self.top.branches += 1;
        self.top.pieces = 0;
        self.top.repeatable = false;
        Ok(())
    }

    // One more group.
    fn open(&mut self) -> Result<(), AllocError>
        requires { self.old.opened + 1 < 2 ^ 32 }
        ensures { OnOk result (state_of self.new ≡ with_group (state_of self.old)) }
    {
        self.frames.push(self.top)?;
        self.opened += 1;
        self.top = Frame::new(self.opened);
        Ok(())
    }

    // The end of the innermost alternatives.
    fn end(&mut self) -> Result<(), AllocError>
        requires room { length self.old.cells + 2 < 2 ^ 32 }
        requires enough { self.old.top.pieces + self.old.top.branches ≤ length (stack_of self.old.cells) }
        requires branches { self.old.top.branches + 1 < 2 ^ 32 }
        ensures { OnOk result (state_of self.new ≡ with_end (state_of self.old)) }
    {
        self.cells.push(Node::Branch, NO_MARKS, self.top.pieces)?;
        self.cells.push(Node::Alt, NO_MARKS, self.top.branches + 1)?;
        Ok(())
    }

    // What is around the innermost group.
    fn leave(&mut self, at: u8) -> Result<Frame, EreFault>
        ensures ok { IfOk result (λ outer. state_of self.old ≡ with_frame outer (state_of self.new)) }
        ensures stops { IfErr result (λ e. Stops at e (closed (state_of self.old) (state_of self.old).frames)) }
    {
        self.frames.pop().ok_or(EreFault::Broken {
            at,
            why: Why::StrayClose,
        })
    }

    // The end of a group.
    fn close(&mut self, at: u8) -> Result<(), EreFault>
        requires { Fair at (state_of self.old) }
        ensures ok { OnOk result (closed (state_of self.old) (state_of self.old).frames ≡ Ok (state_of self.new)) }
        ensures stops { IfErr result (λ e. Stops at e (closed (state_of self.old) (state_of self.old).frames)) }
    {
        let outer = self.leave(at)?;
        self.end()?;
        self.cells.push(Node::Group(self.top.number), NO_MARKS, 1)?;
        self.top = Frame {
            pieces: outer.pieces + 1,
            repeatable: true,
            ..outer
        };
        Ok(())
    }

    // That the last piece may be repeated.
    fn may_repeat(&self, at: u8) -> Result<(), EreFault>
        ensures ok { OnOk result (self.now.top.repeatable ≡ true) }
        ensures stops { (next : State) → IfErr result (λ e. Stops at e (if_repeatable (state_of self.now) next)) }
    {
        if self.top.repeatable {
            return Ok(());
        }
        Err(EreFault::Broken {
            at,
            why: Why::NothingToRepeat,
        })
    }

    // A repeat, where something may be repeated.
    fn repeat_last(&mut self, at: u8, low: u32, high: Option<u32>) -> Result<(), EreFault>
        requires { Fair at (state_of self.old) }
        ensures ok { OnOk result
            (if_repeatable (state_of self.old) (with_repeat low high (state_of self.old)) ≡ Ok (state_of self.new)) }
        ensures stops { IfErr result
            (λ e. Stops at e (if_repeatable (state_of self.old) (with_repeat low high (state_of self.old)))) }
    {
        self.may_repeat(at)?;
        self.repeat(low, high)?;
        Ok(())
    }

    // The `{` of an interval, where something may be repeated.
    fn brace(&mut self, at: u8) -> Result<(), EreFault>
        ensures ok { OnOk result (if_repeatable (state_of self.old)
            (at_mode (mode.Interval interval.Start) (state_of self.old)) ≡ Ok (state_of self.new)) }
        ensures stops { IfErr result (λ e. Stops at e (if_repeatable (state_of self.old)
            (at_mode (mode.Interval interval.Start) (state_of self.old)))) }
    {
        self.may_repeat(at)?;
        self.mode = Mode::Interval(Interval::Start);
        Ok(())
    }

    // A byte outside brackets, intervals and escapes.
    fn plain(&mut self, at: u8, byte: u8) -> Result<(), EreFault>
        requires { Fair at (state_of self.old) }
        ensures ok { OnOk result (plain_step (state_of self.old) byte (sign_of byte) ≡ Ok (state_of self.new)) }
        ensures stops { IfErr result (λ e. Stops at e (plain_step (state_of self.old) byte (sign_of byte))) }
    {
        match Sign::of(byte) {
            Sign::Open => self.open()?,
            Sign::Close => self.close(at)?,
            Sign::Bar => self.branch()?,
            Sign::Star => self.repeat_last(at, 0, None)?,
            Sign::Plus => self.repeat_last(at, 1, None)?,
            Sign::Question => self.repeat_last(at, 0, Some(1))?,
            Sign::Brace => self.brace(at)?,
            Sign::Bracket => self.mode = Mode::Bracket(Bracket::new()),
            Sign::Escape => self.mode = Mode::Escape,
            Sign::Dot => self.atom(Node::Any)?,
            Sign::Circumflex => self.anchor(Node::Start)?,
            Sign::Dollar => self.anchor(Node::End)?,
            Sign::Ordinary => self.atom(Node::Byte(byte))?,
            Sign::Outside => return Err(EreFault::Broken {
                at,
                why: Why::NotAscii,
            }),
        }
        Ok(())
    }

    // A byte after a backslash.
    fn escaped(&mut self, at: u8, byte: u8) -> Result<(), EreFault>
        requires { Fair at (state_of self.old) }
        ensures ok { OnOk result (escape_step (state_of self.old) byte ≡ Ok (state_of self.new)) }
        ensures stops { IfErr result (λ e. Stops at e (escape_step (state_of self.old) byte)) }
    {
        if is_printable(byte) && !byte.is_ascii_alphanumeric() {
            self.atom(Node::Byte(byte))?;
            return Ok(());
        }
        Err(EreFault::Broken {
            at,
            why: Why::BadEscape.at(byte),
        })
    }

    // A byte of an interval.
    fn counted(&mut self, at: u8, byte: u8, interval: Interval) -> Result<(), EreFault>
        requires fair { Fair at (state_of self.old) }
        requires repeatable { self.old.top.repeatable ≡ true }
        ensures ok { OnOk result
            (interval_step (state_of self.old) byte (count_step interval byte) ≡ Ok (state_of self.new)) }
        ensures stops { IfErr result
            (λ e. Stops at e (interval_step (state_of self.old) byte (count_step interval byte))) }
    {
        match interval.step(byte) {
            Counting::More(interval) => self.mode = Mode::Interval(interval),
            Counting::Done(low, high) => self.repeat(u32::from(low), high.map(u32::from))?,
            Counting::Broken => return Err(EreFault::Broken {
                at,
                why: Why::BadInterval.at(byte),
            }),
        }
        Ok(())
    }

    // The byte at this place.
    #[tactic(auto, unfolding(crate::specs::Machine::step))]
    fn step(&mut self, at: u8, byte: u8) -> Result<(), EreFault>
        requires { Fair at (state_of self.old) }
        ensures ok { OnOk result (step (state_of self.old) byte ≡ Ok (state_of self.new)) }
        ensures stops { IfErr result (λ e. Stops at e (step (state_of self.old) byte)) }
    {
        match &mut self.mode {
            Mode::Plain => self.plain(at, byte)?,
            Mode::Escape => self.escaped(at, byte)?,
            Mode::Interval(interval) => {
                let interval = *interval;
                self.counted(at, byte, interval)?
            }
            Mode::Bracket(bracket) => match bracket.step(byte) {
                Ok(Progress::Open) => {}
                Ok(Progress::Closed) => {
                    let Bracket { negated, marks, .. } = *bracket;
                    self.leaf(Node::Set(negated), marks, true)?
                }
                Err(why) => return Err(EreFault::Broken { at, why }),
            },
        }
        Ok(())
    }

    // The byte of a text at this place.
    pub(crate) fn read(&mut self, text: &[u8], at: usize) -> Result<(), EreFault>
        requires within { at < length text.now }
        requires short { length text.now ≤ 255 }
        requires fair { Fair at (state_of self.old) }
        ensures ok { OnOk result (step (state_of self.old) (slice_index_or text.now at 0) ≡ Ok (state_of self.new)) }
        ensures stops { IfErr result (λ e. Stops at e (step (state_of self.old) (slice_index_or text.now at 0))) }
    {
        self.step(at as u8, text[at])
    }

    // The expression, where the text ends at this place.
    pub(crate) fn finish(self, at: u8) -> Result<Ere<A>, EreFault>
        requires fair { Fair at (state_of self) }
        requires numbered { IfOk (finish (state_of self)) (λ stack. self.opened ≡ groups_of (top_of stack)) }
        ensures ok { IfOk result (λ ere. IsOkAnd (finish (state_of self)) (λ stack. whole ere ≡ top_of stack)) }
        ensures light { IfOk result (λ ere. weight_of (whole ere) ≤ 512) }
        ensures stops { IfErr result (λ e. Ends at e (finish (state_of self))) }
    {
        match self.open_part() {
            None => self.whole(at),
            Some(why) => Err(EreFault::Broken { at, why }),
        }
    }

    // Why the text may not end here.
    #[tactic(auto, unfolding(crate::specs::Machine::finish))]
    fn open_part(&self) -> Option<Why>
        ensures { LeavesOpen result (state_of self.now) }
    {
        match self.mode {
            Mode::Plain => if self.frames.is_empty() {
                None
            } else {
                Some(Why::OpenGroup)
            },
            Mode::Escape => Some(Why::BadEscape),
            Mode::Interval(_) => Some(Why::BadInterval),
            Mode::Bracket(_) => Some(Why::OpenBracket),
        }
    }

    // The expression, where nothing is open.
    fn whole(mut self, at: u8) -> Result<Ere<A>, EreFault>
        requires fair { Fair at (state_of self) }
        requires numbered { self.opened ≡ groups_of (top_of (ended (state_of self))) }
        ensures ok { IfOk result (λ ere. whole ere ≡ top_of (ended (state_of self))) }
        ensures light { IfOk result (λ ere. weight_of (whole ere) ≤ 512) }
        ensures stops { IfErr result (λ e. Ends at e (Ok (ended (state_of self)))) }
    {
        self.end()?;
        let weight = self.cells.weight((self.cells.len() - 1) as u32);
        if weight > MAX_WEIGHT {
            return Err(EreFault::TooHeavy { weight });
        }
        let Reader { cells, opened, .. } = self;
        Ok(Ere::new(cells, opened))
    }
}
