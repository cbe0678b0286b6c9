//! The register of a network of lines.
ghost use Rattle.std.specs.Prelude.{◌≡◌, ◌≤◌, ◌<◌, false, true, [], ◌∷◌, set, length, slice_get, IfOk, IsOk, OnOk, OnErr};
ghost use Rattle.packet_codec.specs.Digits.{digits_or_none};
ghost use Rattle.call_records.specs.Register.{empty_register, made_register, with_free_line, book_at, holder_at};
ghost use Rattle.call_records.specs.Register.{handed_on, HasNoRecords, forgotten};
ghost use Rattle.call_records.specs.RegisterView.{register_of, end_of, lines_of, ends_in, with_ends, IsOpen, IsClosed};

use crate::book::Book;
use crate::ends::Ends;
use crate::record::Hop;
use link_timers::Role;
use packet_codec::Address;
use std::alloc::{AllocError, Global};

/// A channel at an end of a line.
#[derive(Clone, Copy)]
pub struct ChannelEnd {
    pub line: usize,
    pub role: Role,
    pub channel: u8,
}

/// The register of a network: the records and pairs of all calls, in the order of making, and for each line its two
/// ends, channel by channel. What happens at a line is written into the book, once it is open there.
#[derive(Drop)]
pub struct Register {
    /// The records and pairs, and the ends of the line at which it is open.
    pub book: Book,
    open: Option<usize>,
    /// The ends of the lines, but for those that are in the book.
    lines: Vec<Ends>,
}

impl Register {
    /// The register of a network without lines. It is refused for want of memory.
    pub fn new(alloc: Global) -> Result<Register, AllocError>
        ensures value { IfOk result (λ r. register_of r ≡ empty_register) }
        ensures closed { IfOk result IsClosed }
    {
        Ok(Register {
            book: Book::new(alloc, 0, 0, 0, false)?,
            open: None,
            lines: Vec::new(alloc),
        })
    }

    /// The register of one line without an address, whose first channel has a call, which counts as placed by the DTE.
    /// It is refused for want of memory.
    pub fn standing(
        alloc: Global,
        dte_node: usize,
        dce_node: usize,
        channels: u8,
    ) -> Result<Register, AllocError>
        requires { 1 ≤ channels }
        ensures { IfOk result (λ r. register_of r ≡ made_register
            (record {
              dte_node = dte_node;
              dce_node = dce_node;
              address = [];
              channels = channels;
              standing = true;
            } ∷ [])) }
    {
        let mut lines = Vec::new(alloc);
        lines.push(Ends::new(alloc, 0, 0, None, 0)?)?;
        let book = Book::new(alloc, dte_node, dce_node, channels, true)?;
        Ok(Register {
            book,
            open: Some(0),
            lines,
        })
    }

    /// Adds a line between two nodes, with an address if it has any, and with channels from 1 on, all of them free.
    /// Without the memory the register is as before.
    pub fn add_line(
        &mut self,
        alloc: Global,
        dte_node: usize,
        dce_node: usize,
        address: Option<Address>,
        channels: u8,
    ) -> Result<(), AllocError>
        requires { IsClosed self.old }
        ensures ok { OnOk result (register_of self.new ≡ with_free_line (record {
          dte_node = dte_node;
          dce_node = dce_node;
          address = digits_or_none address;
          channels = channels;
          standing = false;
        }) (register_of self.old)) }
        ensures err { OnErr result (register_of self.new ≡ register_of self.old) }
        ensures closed { IsClosed self.new }
    {
        let ends = Ends::new(alloc, dte_node, dce_node, address, channels)?;
        self.lines.push(ends)?;
        Ok(())
    }

    /// Opens the book at a line, and makes room there for so many writes and pairs. Without the memory there is no
    /// room, and the register is as before. If the register has no record and no pair, there is room for 16 writes.
    #[inline(always)]
    pub fn open(&mut self, line: usize, count: usize) -> Result<(), AllocError>
        ensures same { register_of self.new ≡ register_of self.old }
        ensures lines { length self.new.lines.items ≡ length self.old.lines.items }
        ensures at { line < length self.old.lines.items → IsOpen line self.new }
        ensures book { line < length self.old.lines.items → self.new.book.book ≡ book_at line (register_of self.old) }
        ensures room { OnOk result (self.new.book.room ≡ count) }
        ensures pairs { OnOk result (self.new.book.pairs ≡ count) }
        ensures ready { HasNoRecords (register_of self.old) → count ≤ 16 → IsOk result }
    {
        if self.open == Some(line) {
            return self.book.reserve(count);
        }
        self.exchange_to(line, count)
    }

    /// Opens the book at a line where it is not open, and makes room there.
    #[inline(never)]
    fn exchange_to(&mut self, line: usize, count: usize) -> Result<(), AllocError>
        ensures same { register_of self.new ≡ register_of self.old }
        ensures lines { length self.new.lines.items ≡ length self.old.lines.items }
        ensures at { line < length self.old.lines.items → IsOpen line self.new }
        ensures book { line < length self.old.lines.items → self.new.book.book ≡ book_at line (register_of self.old) }
        ensures room { OnOk result (self.new.book.room ≡ count) }
        ensures pairs { OnOk result (self.new.book.pairs ≡ count) }
        ensures ready { HasNoRecords (register_of self.old) → count ≤ 16 → IsOk result }
    {
        self.close();
        exchange(&mut self.book, &mut self.lines, line);
        self.open = Some(line);
        self.book.reserve(count)
    }

    /// Forgets the records and pairs of all calls, as [`Book::forget`] does.
    pub fn forget(&mut self)
        ensures { register_of self.new ≡ forgotten (register_of self.old) }
    {
        self.book.forget();
    }

    /// A call goes on from a channel at an end of a line to another one, if that one's line is there. The record that
    /// the first one holds gets the hop to the second one, which then holds it. The book is open at no line then.
    pub fn hand_on(&mut self, from: ChannelEnd, to: ChannelEnd)
        ensures same { register_of self.new ≡ handed_on (end_of from) (end_of to) (register_of self.old) }
        ensures lines { length self.new.lines.items ≡ length self.old.lines.items }
        ensures closed { IsClosed self.new }
    {
        self.close();
        if to.line >= self.lines.len() {
            return;
        }
        let holder = self.holder(from);
        let ends = &mut self.lines[to.line];
        let switch = ends.of(to.role).node();
        ends.hold(to.role, to.channel, holder);
        if let Some(number) = holder {
            self.book.go_on(
                number,
                Hop {
                    switch,
                    line: to.line,
                    channel: to.channel,
                },
            );
        }
    }

    /// The number of the record that a channel at an end of a line holds.
    fn holder(&self, at: ChannelEnd) -> Option<usize>
        requires { IsClosed self.now }
        ensures { result ≡ holder_at (end_of at) (register_of self.now) }
    {
        if at.line < self.lines.len() {
            self.lines[at.line].of(at.role).slot(at.channel).placed
        } else {
            None
        }
    }

    /// Closes the book: the ends in it go to their own line.
    fn close(&mut self)
        ensures same { register_of self.new ≡ register_of self.old }
        ensures lines { length self.new.lines.items ≡ length self.old.lines.items }
        ensures closed { IsClosed self.new }
    {
        if let Some(last) = self.open {
            exchange(&mut self.book, &mut self.lines, last);
        }
        self.open = None;
    }
}

/// The book gets the ends of a line, if there is one, and gives its own for them.
fn exchange(book: &mut Book, lines: &mut Vec<Ends>, line: usize)
    ensures book { book.new.book ≡ with_ends (slice_get (lines_of lines.old.items) line) book.old.book }
    ensures lines { lines_of lines.new.items ≡ set (lines_of lines.old.items) line (ends_in book.old.book) }
{
    if line < lines.len() {
        book.exchange_ends(&mut lines[line]);
    }
}
