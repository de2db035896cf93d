//! The pieces of a text, one after another.
ghost use Rattle.std.specs.Prelude.{Ok};
ghost use Rattle.std.specs.Fn.{TakesAt, CalledAt};
ghost use Rattle.rowan.specs.Pieces.{FoldsText, TakesText, FoldCall, FoldTakes, VisitCall, EachCall, ChunkTakes};

use crate::chunks::ChunkReader;
use crate::syntax_text::SyntaxText;
use std::marker::PhantomData;

/// A fold in progress: the result of the previous call, and the function to call.
#[derive(Drop)]
struct Folding<T, E, F> {
    total: T,
    call: F,
    refusal: PhantomData<E>,
}

impl<T: Drop, E, F: FnMut(T, &str) -> Result<T, E> + Drop> ChunkReader for Folding<T, E, F> {
    type Found = E;

    ghost use Rattle.rowan.specs.Pieces.{FoldCall, FoldTakes, TakesText};
    ghost use Rattle.rowan.specs.Reading.{ReadsFold, text_nothing, fold_further, fold_stopped, takes_begins, takes_rest};

    ghost can_read = { λ s. TakesText (FoldCall F.FnMut) (FoldTakes F.FnMut) s.call s.total };

    ghost begins = { λ r. takes_begins (FoldCall F.FnMut) (FoldTakes F.FnMut) r.call r.total };

    ghost goes_on = { λ r s _. takes_rest (FoldCall F.FnMut) (FoldTakes F.FnMut) r.call s.call r.total s.total };

    ghost reads = { λ r _ text x. ReadsFold (FoldCall F.FnMut) (λ s. s.call) (λ s. s.total) r text x };

    ghost nothing = { λ r _. text_nothing (FoldCall F.FnMut) r.call r.total };

    ghost further = { λ r s _. fold_further (FoldCall F.FnMut) (λ s. s.call) (λ s. s.total) r s };

    ghost stopped = { λ r e _. fold_stopped (FoldCall F.FnMut) (λ s. s.call) (λ s. s.total) r e };

    fn read(self, _at: u32, chunk: &str) -> Result<Folding<T, E, F>, E> {
        let Folding {
            total,
            mut call,
            refusal,
        } = self;
        let total = call_with(&mut call, total, chunk)?;
        Ok(Folding {
            total,
            call,
            refusal,
        })
    }
}

/// A function that is called with each piece, and may return an error.
#[derive(Drop)]
struct Visiting<E, F> {
    call: F,
    refusal: PhantomData<E>,
}

impl<E, F: FnMut(&str) -> Result<(), E> + Drop> ChunkReader for Visiting<E, F> {
    type Found = E;

    ghost use Rattle.rowan.specs.Pieces.{VisitCall, ChunkTakes, TakesText};
    ghost use Rattle.rowan.specs.Reading.{ReadsFold, text_nothing, fold_further, fold_stopped, takes_begins, takes_rest};

    ghost can_read = { λ s. TakesText (VisitCall F.FnMut) (ChunkTakes F.FnMut) s.call tt };

    ghost begins = { λ r. takes_begins (VisitCall F.FnMut) (ChunkTakes F.FnMut) r.call tt };

    ghost goes_on = { λ r s _. takes_rest (VisitCall F.FnMut) (ChunkTakes F.FnMut) r.call s.call tt tt };

    ghost reads = { λ r _ text x. ReadsFold (VisitCall F.FnMut) (λ s. s.call) (λ _. tt) r text x };

    ghost nothing = { λ r _. text_nothing (VisitCall F.FnMut) r.call tt };

    ghost further = { λ r s _. fold_further (VisitCall F.FnMut) (λ s. s.call) (λ _. tt) r s };

    ghost stopped = { λ r e _. fold_stopped (VisitCall F.FnMut) (λ s. s.call) (λ _. tt) r e };

    fn read(mut self, _at: u32, chunk: &str) -> Result<Visiting<E, F>, E> {
        call_at(&mut self.call, chunk)?;
        Ok(self)
    }
}

/// A function that is called with each piece.
#[derive(Drop)]
struct Calling<F> {
    call: F,
}

impl<F: FnMut(&str) + Drop> ChunkReader for Calling<F> {
    type Found = ();

    ghost use Rattle.rowan.specs.Pieces.{EachCall, ChunkTakes, TakesText};
    ghost use Rattle.rowan.specs.Reading.{ReadsEach, text_nothing, each_further, takes_begins, takes_rest};

    ghost can_read = { λ s. TakesText (EachCall F.FnMut) (ChunkTakes F.FnMut) s.call tt };

    ghost begins = { λ r. takes_begins (EachCall F.FnMut) (ChunkTakes F.FnMut) r.call tt };

    ghost goes_on = { λ r s _. takes_rest (EachCall F.FnMut) (ChunkTakes F.FnMut) r.call s.call tt tt };

    ghost reads = { λ r _ text x. ReadsEach (EachCall F.FnMut) (λ s. s.call) r text x };

    ghost nothing = { λ r _. text_nothing (EachCall F.FnMut) r.call tt };

    ghost further = { λ r s _. each_further (EachCall F.FnMut) (λ s. s.call) r s };

    ghost stopped = { λ r e _ a b h. h };

    fn read(mut self, _at: u32, chunk: &str) -> Result<Calling<F>, ()> {
        call_at(&mut self.call, chunk);
        Ok(self)
    }
}

/// Calls `call` with a piece.
fn call_at<R, F: FnMut(&str) -> R>(call: &mut F, chunk: &str) -> R
    requires { TakesAt F.FnMut call.old chunk.now }
    ensures { CalledAt F.FnMut call.old chunk.now result call.new }
{
    call(chunk)
}

/// Calls `call` with the result of the previous call and a piece.
fn call_with<T, E, F: FnMut(T, &str) -> Result<T, E>>(
    call: &mut F,
    total: T,
    chunk: &str,
) -> Result<T, E>
    requires { FoldTakes F.FnMut call.old total chunk.now }
    ensures { FoldCall F.FnMut call.old total chunk.now result call.new }
{
    call(total, chunk)
}

impl SyntaxText {
    /// Calls `f` on the pieces of the text in order, each time with the result of the previous
    /// call, the first time with `init`. No piece is empty, and together they are the text. Stops
    /// at the first error. Copies no text.
    ///
    /// # Errors
    ///
    /// The first error that a call of `f` returns.
    pub fn try_fold_chunks<T: Drop, E, F: FnMut(T, &str) -> Result<T, E> + Drop>(
        &self,
        init: T,
        f: F,
    ) -> Result<T, E>
        requires { TakesText (FoldCall F.FnMut) (FoldTakes F.FnMut) f init self.now }
        ensures { (last : F) × FoldsText (FoldCall F.FnMut) f init self.now result last }
    {
        let folding = Folding {
            total: init,
            call: f,
            refusal: PhantomData,
        };
        match self.part().read(folding) {
            Ok(folding) => Ok(folding.total),
            Err(error) => Err(error),
        }
    }

    /// Calls `f` on the pieces of the text in order, as [`SyntaxText::try_fold_chunks`] does. Stops
    /// at the first error.
    ///
    /// # Errors
    ///
    /// The first error that a call of `f` returns.
    pub fn try_for_each_chunk<E, F: FnMut(&str) -> Result<(), E> + Drop>(
        &self,
        f: F,
    ) -> Result<(), E>
        requires { TakesText (VisitCall F.FnMut) (ChunkTakes F.FnMut) f tt self.now }
        ensures { (last : F) × FoldsText (VisitCall F.FnMut) f tt self.now result last }
    {
        let visiting = Visiting {
            call: f,
            refusal: PhantomData,
        };
        match self.part().read(visiting) {
            Ok(_) => Ok(()),
            Err(error) => Err(error),
        }
    }

    /// Calls `f` on all pieces of the text in order, as [`SyntaxText::try_fold_chunks`] does.
    pub fn for_each_chunk<F: FnMut(&str) + Drop>(&self, f: F)
        requires { TakesText (EachCall F.FnMut) (ChunkTakes F.FnMut) f tt self.now }
        ensures { (last : F) × FoldsText (EachCall F.FnMut) f tt self.now (Ok tt) last }
    {
        let _ = self.part().read(Calling { call: f });
    }
}
