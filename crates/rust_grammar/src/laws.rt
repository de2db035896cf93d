//! Laws of the definitions. Each is the contract of a function that makes no call.

ghost use Rattle.rust_grammar.specs.Examples.{ExamplesAreRight};
ghost use Rattle.rust_grammar.specs.Kept.{ProfileBeginsAsBefore, ProfileEntriesAreKept, ProfileReadsAsBefore};
ghost use Rattle.rust_grammar.specs.Laws.{CallsBeginFromStart, CallsHaveGivenNothing, EachProductionHasARule, EntriesAreRooted, EntriesFit, EntriesTakeAllInOrder, LeadsGiveOneNode, NodesHaveGivenNothing, OnlyOneBeginning, OnlyOneReading, OperatorsOfEntriesBindByPower, OperatorsOfProductionsBindByPower, PartsLookAhead, ProductionsTakeInOrder, RepetitionsAreReadTurnByTurn, TokenTreesAreBracketed, WholeProductionsBeginAsTheirRules, WholeProductionsMeanTheirRules};
ghost use Rattle.rust_grammar.specs.Misplaced.{MisplacedOperatorsAreTold};

/// A production gives what its rule gives, where each production that the rule calls gives what it
/// means; each has a rule, and begins where its rule does.
pub fn whole_productions_mean_their_rules()
    ensures means { WholeProductionsMeanTheirRules }
    ensures begin { WholeProductionsBeginAsTheirRules }
    ensures all { EachProductionHasARule }
{}

/// Nothing else begins and reads as the rules say: each production has one meaning.
pub fn whole_productions_have_one_meaning()
    ensures begin { OnlyOneBeginning }
    ensures read { OnlyOneReading }
{}

/// Each repetition is one turn and the repetition again, or nothing.
pub fn repetitions_are_read_turn_by_turn()
    ensures { RepetitionsAreReadTurnByTurn }
{}

/// Looks after a part are those of the place after it. A call and a node begin where they would
/// with nothing given, and what was given makes no difference to where a production begins.
pub fn looks_are_of_their_place()
    ensures ahead { PartsLookAhead }
    ensures called { CallsHaveGivenNothing }
    ensures nodes { NodesHaveGivenNothing }
    ensures from_start { CallsBeginFromStart }
{}

/// What a production gives stands over the tokens that it takes, one leaf after another, each over
/// tokens that are spelled as its kind says; the tree of an entry stands so over all tokens.
pub fn leaves_are_spelled()
    ensures productions { ProductionsTakeInOrder }
    ensures entries { EntriesTakeAllInOrder }
{}

/// The tree of each of the seven entries is one node, whatever the tokens are; its steps fit every
/// text with that input.
pub fn entries_fit()
    ensures rooted { EntriesAreRooted }
    ensures fit { EntriesFit }
{}

/// What is read as a lead, into which what was given before goes, is one node.
pub fn leads_give_one_node()
    ensures { LeadsGiveOneNode }
{}

/// Each token tree starts with an opening delimiter, and ends with the closing one or the error for
/// a missing one.
pub fn token_trees_are_bracketed()
    ensures { TokenTreesAreBracketed }
{}

/// A right operand that is a binary expression binds more tightly than the operator before it,
/// unless that is an assignment; a left one binds no less tightly than the operator after it, and
/// is no assignment. Of some trees that break this the law finds that they do.
pub fn operators_bind_by_power()
    ensures productions { OperatorsOfProductionsBindByPower }
    ensures entries { OperatorsOfEntriesBindByPower }
    ensures misplaced { MisplacedOperatorsAreTold }
{}

/// Over tokens none of which says that the whole language is read, each production of the profile begins
/// where it does in the table that the profile had alone, and gives the same; so does each entry.
pub fn profile_is_kept()
    ensures begin { ProfileBeginsAsBefore }
    ensures read { ProfileReadsAsBefore }
    ensures entries { ProfileEntriesAreKept }
{}

/// Some inputs, with the trees that the grammar gives them.
pub fn examples_are_right()
    ensures { ExamplesAreRight }
{}
