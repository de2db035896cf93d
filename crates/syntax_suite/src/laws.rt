//! Results of the definitions of a rewrite, computed.
ghost use Rattle.std.specs.Prelude.{◌≡◌, true};
ghost use Rattle.std.specs.List.{list_all};
ghost use Rattle.syntax_suite.specs.Case.{agrees};
ghost use Rattle.syntax_suite.specs.Cases.{cases};
ghost use Rattle.syntax_suite.specs.Rows.{Rows};

/// Rewrites worked by hand.
pub(crate) fn rows()
    ensures holds { Rows }
{}

/// Rewrites computed by a reference implementation, with all orders of their changes.
pub(crate) fn cases_agree()
    ensures { list_all agrees cases ≡ true }
{}
