//! The preface of a text: its shebang and its frontmatter.
ghost use Rattle.std.specs.Prelude.{◌≡◌, ◌+◌, chars, is_some, IsUtf8};
ghost use Rattle.rustc_lexer.specs.Shebang.{shebang};
ghost use Rattle.parser_input.specs.Lexed.{content};
ghost use Rattle.parser_input.specs.Preface.{after_shebang, source};
ghost use Rattle.parser_input.specs.Stored.{frontmatter_end};
ghost use Rattle.rust_document.specs.NextReading.{one_if};

use parser_input::frontmatter::ScriptSource;
use rustc_lexer::strip_shebang;

/// The parts of a text.
#[derive(Clone, Copy)]
pub(crate) struct Parts<'a> {
    /// The bytes of the shebang, if there is one.
    pub shebang: Option<usize>,
    /// `true` if there is a frontmatter.
    pub has_frontmatter: bool,
    /// The text behind the preface.
    pub content: &'a str,
}

/// Returns the text behind a shebang of `bytes` bytes.
fn behind_shebang(text: &str, bytes: Option<usize>) -> &str
    requires { bytes ≡ shebang (chars text.now) }
    ensures { chars result.now ≡ after_shebang (chars text.now) }
{
    match bytes {
        Some(end) => &text[end..],
        None => text,
    }
}

/// Returns `true` if there is a frontmatter.
fn has_frontmatter(source: &ScriptSource<'_>) -> bool
    ensures { result ≡ is_some source.now.closing }
{
    match source.close_span() {
        Some(_fence) => true,
        None => false,
    }
}

/// Finds the preface of a text. A refused frontmatter is none.
pub(crate) fn parts_of(text: &str) -> Parts<'_>
    ensures shebang { result.shebang ≡ shebang (chars text.now) }
    ensures frontmatter { result.has_frontmatter
        ≡ is_some (frontmatter_end (source (chars text.now))) }
    ensures content { chars result.content.now ≡ content (chars text.now) }
    ensures text { IsUtf8 result.content.now }
{
    let shebang = strip_shebang(text);
    match ScriptSource::parse(text) {
        Ok(source) => Parts {
            shebang,
            has_frontmatter: has_frontmatter(&source),
            content: source.content(),
        },
        Err(_) => Parts {
            shebang,
            has_frontmatter: false,
            content: behind_shebang(text, shebang),
        },
    }
}

impl Parts<'_> {
    /// Returns the number of leaves of the preface.
    pub(crate) fn preface_len(&self) -> usize
        ensures { result ≡ one_if (is_some self.now.shebang) + one_if self.now.has_frontmatter }
    {
        let shebang = match self.shebang {
            Some(_) => 1,
            None => 0,
        };
        if self.has_frontmatter {
            shebang + 1
        } else {
            shebang
        }
    }
}
