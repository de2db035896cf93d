//! Laws of the definitions. Each is the contract of a function that calls other laws, or none.
ghost use Rattle.syntax_editor.specs.Laws.{SwapsAgree, VerdictsStay, CallsAgree};

use tree_rewrite::laws;

/// Two neighbouring changes that do not both insert into one gap may be recorded in either order:
/// neither the new tree nor the error in its absence depends on it.
pub fn swaps_agree()
    ensures { SwapsAgree }
{
    laws::swaps_agree();
}

/// Whether a call that records is refused, and with which error, does not depend on what is
/// recorded.
pub fn verdicts_stay()
    ensures { VerdictsStay }
{}

/// Two calls that record, one after another, may be made in either order, whichever calls follow
/// and whatever is merged after that, unless both insert into one gap or both name one element
/// alone: neither the new tree nor the error in its absence depends on it.
pub fn calls_agree()
    ensures { CallsAgree }
{
    swaps_agree();
}
