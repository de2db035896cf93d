//! Tokens as rows.
ghost use Rattle.std.specs.Prelude.{◌≡◌, IfOk};
ghost use Rattle.rust_document.specs.Tokens.{span_of};
ghost use Rattle.document_rows.specs.Rows.{token_row, token_rows};

use crate::rows::TokenRow;
use rust_document::{Document, LexedToken};
use std::alloc::{AllocError, Global};

/// Returns the row of a token.
fn token_row(token: LexedToken) -> TokenRow
    ensures { result ≡ token_row (span_of token) }
{
    TokenRow {
        kind: u32::from(token.kind.to_raw()),
        start: u32::from(token.range.start()),
        end: u32::from(token.range.end()),
    }
}

/// Returns a row for each token of a document, in order.
///
/// # Errors
///
/// [`AllocError`] if an allocation fails.
pub fn token_rows(alloc: Global, document: &Document) -> Result<Vec<TokenRow>, AllocError>
    ensures { IfOk result (λ rows. rows.items ≡ token_rows document.now) }
{
    let mut rows = Vec::new(alloc);
    for token in document.tokens() {
        rows.push(token_row(token))?;
    }
    Ok(rows)
}
