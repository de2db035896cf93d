//! The count of levels, a token after another.
ghost use Rattle.std.specs.Prelude.{◌≡◌, OnOk};
ghost use Rattle.parser_input.specs.Kind.{raw_of};
ghost use Rattle.text_levels.specs.Levels.{after_block, at_angle, at_operator, at_pipe, begun, closed, counted, ended, is_plain, more_pending, moved, noted, opened, plus, start, total};

use crate::token;
use parser_input::SyntaxKind;
use std::alloc::{AllocError, Global};
use std::marker::Model;

/// The levels that were opened since an opening bracket, or since the text began.
#[derive(Clone, Copy)]
pub struct Frame {
    /// The raw number of what closes the bracket.
    closing: u16,
    /// The levels around the bracket, and its own.
    base: u64,
    /// Operators, keywords and brackets that were closed: they end at `;`, or at a `,` outside
    /// of generic arguments and of the parameters of a closure.
    pending: u64,
    /// The `<` without a `>`.
    angles: u64,
    /// The `|` that may begin a closure.
    closures: u64,
}

impl Frame {
    fn new(closing: u16, base: u64) -> Frame
        ensures { result ≡ begun closing base }
    {
        Frame {
            closing,
            base,
            pending: 0,
            angles: 0,
            closures: 0,
        }
    }

    fn total(self) -> u64
        ensures { result ≡ total self }
    {
        self.base
            .saturating_add(self.pending)
            .saturating_add(self.angles)
            .saturating_add(self.closures)
    }

    /// Returns the frame with one more level that ends at the next `;` or `,`.
    fn more_pending(self) -> Frame
        ensures { result ≡ more_pending self }
    {
        Frame {
            pending: self.pending.saturating_add(1),
            ..self
        }
    }

    /// Returns the frame without what is pending, unless that may go on.
    fn ended(self) -> Frame
        ensures { result ≡ ended self }
    {
        if self.angles == 0 && self.closures == 0 {
            Frame { pending: 0, ..self }
        } else {
            self
        }
    }

    /// Returns the frame after a `|`, whose token before is `last`.
    fn at_pipe(self, last: u16) -> Frame
        ensures { result ≡ at_pipe last self }
    {
        if token::may_end(last) {
            self.more_pending()
        } else {
            Frame {
                closures: self.closures.saturating_add(1),
                ..self
            }
        }
    }

    /// Returns the frame after a `>`, whose token before is `last`.
    fn at_angle(self, last: u16) -> Frame
        ensures { result ≡ at_angle last self }
    {
        let more = self.more_pending();
        if last == token::MINUS || last == token::EQ {
            more
        } else {
            Frame {
                angles: self.angles.saturating_sub(1),
                ..more
            }
        }
    }

    /// Returns the frame after a token that is neither a bracket nor an operand.
    fn at_operator(self, last: u16, kind: u16) -> Frame
        ensures { result ≡ at_operator last kind self }
    {
        if kind == token::SEMICOLON {
            Frame::new(self.closing, self.base)
        } else if kind == token::COMMA {
            self.ended()
        } else if kind == token::L_ANGLE {
            Frame {
                angles: self.angles.saturating_add(1),
                ..self
            }
        } else if kind == token::PIPE {
            self.at_pipe(last)
        } else if kind == token::R_ANGLE {
            self.at_angle(last)
        } else {
            self.more_pending()
        }
    }
}

/// The count so far. A contract sees the frames around the present one with the innermost first.
#[derive(Drop)]
pub struct Counter {
    around: Vec<Frame>,
    present: Frame,
    last: u16,
    greatest: u64,
}

impl Model for Counter {
    ghost use Rattle.std.specs.Prelude.{reverse};
    ghost use Rattle.text_levels.specs.Levels.{Count};

    ghost Value = { Count };

    ghost view = { λ c. record {
      around = reverse c.around.items;
      present = c.present;
      last = c.last;
      greatest = c.greatest;
    } };
}

impl Counter {
    pub fn new(alloc: Global) -> Counter
        ensures { result ≡ start }
    {
        Counter {
            around: Vec::new(alloc),
            present: Frame::new(token::EOF, 0),
            last: token::EOF,
            greatest: 0,
        }
    }

    /// Returns the greatest count so far.
    pub fn greatest(&self) -> u64
        ensures { result ≡ self.now.greatest }
    {
        self.greatest
    }

    /// Ends what is pending where a token cannot go on with the expression that a `}` ends.
    fn end_after_block(&mut self, kind: SyntaxKind)
        ensures { self.new ≡ after_block (raw_of kind) self.old }
    {
        if self.last == token::R_CURLY && !token::continues(kind) {
            self.present = self.present.ended();
        }
    }

    /// Begins the frame of an opening bracket.
    fn open(&mut self, kind: u16) -> Result<(), AllocError>
        ensures { OnOk result (self.new ≡ opened kind self.old) }
    {
        self.around.push(self.present)?;
        let base = self.present.total().saturating_add(1);
        self.present = Frame::new(token::closing_of(kind), base);
        Ok(())
    }

    /// Ends a frame at its closing bracket. What the bracket holds may be an operand of what follows.
    fn close(&mut self)
        ensures { self.new ≡ closed self.old }
    {
        if let Some(frame) = self.around.pop() {
            self.present = frame;
        }
        self.present = self.present.more_pending();
    }

    fn step(&mut self, kind: SyntaxKind) -> Result<(), AllocError>
        ensures { OnOk result (self.new ≡ moved (raw_of kind) self.old) }
    {
        let raw = kind.to_raw();
        if kind.is_l_delimiter() {
            self.open(raw)?;
        } else if raw == self.present.closing {
            self.close();
        } else if !token::is_operand(raw) {
            self.present = self.present.at_operator(self.last, raw);
        }
        Ok(())
    }

    fn note(&mut self, kind: u16)
        ensures { self.new ≡ noted kind self.old }
    {
        self.last = kind;
        self.greatest = self.greatest.max(self.present.total());
    }

    /// Counts a token.
    ///
    /// # Errors
    ///
    /// [`AllocError`] if an allocation fails.
    #[tactic(auto, unfolding(crate::specs::Levels::counted))]
    pub fn count(&mut self, kind: SyntaxKind) -> Result<(), AllocError>
        ensures { OnOk result (self.new ≡ counted (raw_of kind) self.old) }
    {
        if kind.is_trivia() {
            return Ok(());
        }
        self.end_after_block(kind);
        self.step(kind)?;
        self.note(kind.to_raw());
        Ok(())
    }
}
