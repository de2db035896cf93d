//! Comments.

ghost use Rattle.std.specs.Prelude.{◌≡◌};
ghost use Rattle.rustc_lexer.specs.Scan.{opens_comment, closes_comment, block};
ghost use Rattle.rustc_lexer.specs.Lexeme.{doc_style, line_comment, block_comment};
ghost use Rattle.rustc_lexer.specs.Reads.{Reads};

use crate::cursor::Cursor;
use crate::token::{DocStyle, TokenKind};

fn opens_comment(a: char, b: char) -> bool
    ensures { result ≡ opens_comment a b }
{
    a == '/' && b == '*'
}

fn closes_comment(a: char, b: char) -> bool
    ensures { result ≡ closes_comment a b }
{
    a == '*' && b == '/'
}

// Returns the doc style of the comment `text`; `None` if it is not a doc comment.
#[tactic(auto, unfolding(crate::specs::Lexeme::doc_style))]
fn doc_style(text: &Cursor) -> Option<DocStyle>
    ensures { result ≡ doc_style text.now }
{
    let (second, third, fourth) = (text.second(), text.third(), text.fourth());
    if third == '!' {
        return Some(DocStyle::Inner);
    }
    if second == '/' && third == '/' && fourth != '/' {
        return Some(DocStyle::Outer);
    }
    if second == '*' && third == '*' && !(fourth == '*' || fourth == '/') {
        return Some(DocStyle::Outer);
    }
    None
}

impl<'a> Cursor<'a> {
    /// Skips a line comment, from `//` up to the line feed or the end, and returns its kind.
    pub(crate) fn line_comment(&mut self) -> TokenKind
        ensures { Reads line_comment self.old result self.new }
    {
        let start = self.here();
        self.bump();
        self.bump();
        self.eat_line();
        TokenKind::LineComment {
            doc_style: doc_style(&start.until(self)),
        }
    }

    /// Skips a block comment, from `/*` to the matching `*/` or the end, and returns its kind.
    pub(crate) fn block_comment(&mut self) -> TokenKind
        ensures { Reads block_comment self.old result self.new }
    {
        let start = self.here();
        self.bump();
        self.bump();
        let terminated = self.eat_block();
        TokenKind::BlockComment {
            doc_style: doc_style(&start.until(self)),
            terminated,
        }
    }

    // Skips the rest of a block comment, after its `/*`. Returns `true` if it is terminated.
    fn eat_block(&mut self) -> bool
        ensures { Reads (block 0) self.old result self.new }
    {
        let room = self.remaining();
        let mut depth: usize = 0;
        'block: while !self.is_empty() {
            self.eat_unmarked();
            let (a, b) = (self.first(), self.second());
            if opens_comment(a, b) {
                self.bump();
                self.bump();
                prove!(depth < room);
                depth += 1;
            } else if closes_comment(a, b) {
                self.bump();
                self.bump();
                if depth == 0 {
                    return true;
                }
                depth -= 1;
            } else {
                self.bump();
            }
        }
        false
    }
}
