//! The rows of the table, and the loop over them.
ghost use Rattle.std.specs.Prelude.{◌≡◌, [], string_bytes};

use std::alloc::{AllocError, Global};

/// The answer to a question.
pub trait Ask: Copy {
    /// Makes the call. A call that changes a value is made a second time if it answers out of
    /// memory, and counted in `refused`.
    fn answer(self, alloc: Global, refused: &mut u32) -> anyhow::Result<String>;
}

/// A row of the table: the path of a call, or of several that are made one after another; what is
/// asked; and what is written for the answer.
pub type Row<A> = (&'static str, A, &'static str);

/// What became of the rows.
#[derive(Drop)]
pub struct Tally {
    /// The number of rows.
    pub tried: u32,
    /// The number of calls that answered out of memory.
    pub refused: u32,
    /// The last of these calls.
    pub last_refused: &'static str,
    /// The rows with another answer than the wanted one, a line each.
    pub wrong: String,
}

impl Tally {
    /// Returns a tally of no rows.
    pub fn new(alloc: Global) -> Tally
        ensures tried { result.tried ≡ 0 }
        ensures refused { result.refused ≡ 0 }
        ensures none_refused { result.last_refused.now ≡ [] }
        ensures none_wrong { string_bytes result.wrong ≡ [] }
    {
        Tally {
            tried: 0,
            refused: 0,
            last_refused: "",
            wrong: String::new(alloc),
        }
    }

    /// Adds the line of a wrong answer.
    fn add_wrong(&mut self, call: &str, answer: &str) -> Result<(), AllocError> {
        self.wrong.push_str(call)?;
        self.wrong.push_str(": ")?;
        self.wrong.push_str(answer)?;
        self.wrong.push_str("\n")
    }
}

/// Returns `true` if the error is out of memory.
fn is_out_of_memory(alloc: Global, error: &anyhow::Error) -> bool {
    match format!(in alloc; "{error}") {
        Ok(text) => text.as_str().contains("memory"),
        Err(_) => false,
    }
}

/// Asks the question of a row, a second time if it answers out of memory.
fn answer<A: Ask>(alloc: Global, ask: A, refused: &mut u32) -> anyhow::Result<String> {
    match ask.answer(alloc, refused) {
        Err(error) if is_out_of_memory(alloc, &error) => {
            *refused = refused.saturating_add(1);
            ask.answer(alloc, refused)
        }
        answer => answer,
    }
}

/// Returns what an answer is if it is not the wanted one.
fn wrong_answer(
    alloc: Global,
    answer: anyhow::Result<String>,
    wanted: &str,
) -> Result<Option<String>, AllocError> {
    match answer {
        Ok(text) if text.as_str() == wanted => Ok(None),
        Ok(text) => Ok(Some(text)),
        Err(error) => Ok(Some(format!(in alloc; "{error}")?)),
    }
}

/// Tries all rows, and counts.
pub fn try_all<A: Ask>(
    alloc: Global,
    rows: &[Row<A>],
    tally: &mut Tally,
) -> Result<(), AllocError> {
    for (call, ask, wanted) in rows {
        let mut refused = 0;
        let answer = answer(alloc, *ask, &mut refused);
        if let Some(wrong) = wrong_answer(alloc, answer, *wanted)? {
            tally.add_wrong(*call, wrong.as_str())?;
        }
        if refused != 0 {
            tally.refused = tally.refused.saturating_add(refused);
            tally.last_refused = *call;
        }
        tally.tried = tally.tried.saturating_add(1);
    }
    Ok(())
}
