//! Leaves of texts whose tokens are known.
ghost use Rattle.std.specs.Prelude.{◌≡◌, IfOk, chars};
ghost use Rattle.rustc_lexer.specs.Tokens.{token_list};

use parser_input::frontmatter::ScriptSource;
use parser_input::{Edition, LexedStr};
use rustc_lexer::{Token, tokenize};
use std::alloc::{AllocError, Global};

// Returns the tokens of a text.
fn tokens_of(alloc: Global, text: &str) -> Result<Vec<Token>, AllocError>
    ensures { IfOk result (λ tokens. tokens.items ≡ token_list (chars text.now)) }
{
    tokenize(text).collect(alloc)
}

// Returns `true` if a text with given tokens has the expected leaves.
fn reads_alike(alloc: Global, text: &str) -> Result<bool, AllocError> {
    let Ok(source) = ScriptSource::parse(text) else {
        return Ok(false);
    };
    let tokens = tokens_of(alloc, source.content())?;
    let known = LexedStr::from_tokens(alloc, Edition::Edition2024, text, &tokens)?;
    for (leaf, own) in [(0, "#!x"), (1, "\n---\n---\n"), (2, "a"), (3, " ")] {
        if leaf >= known.len() || known.text(leaf) != own {
            return Ok(false);
        }
    }
    Ok(known.len() == 4)
}

#[test]
fn leaves_of_known_tokens(rt: HostRuntime) -> Result<(), AllocError> {
    assert!(rt; reads_alike(rt.alloc(), "#!x\n---\n---\na ")?);
    assert!(rt; !reads_alike(rt.alloc(), "#!x\n---\n---\nab ")?);
    Ok(())
}
