//! Laws of the core language. Each is the contract of a function that makes no call.

ghost use Rattle.core_language.specs.Examples.{ExamplesAreCore};
ghost use Rattle.core_language.specs.Laws.{CoreExpressionsAreClean, CoreExpressionsAreRead, CoreExpressionsHaveOneDerivation, CoreExpressionsHaveOneTree, CoreFilesAreClean, CoreFilesAreRead, CoreFilesHaveOneDerivation, CoreFilesHaveOneTree, CoreTypesAreClean, CoreTypesAreRead, CoreTypesHaveOneDerivation, CoreTypesHaveOneTree, SpacedCoreExpressionsAreCore, SpacedCoreFilesAreCore, SpacedCoreTypesAreCore, WholeReadsCoreExpressions, WholeReadsCoreFiles, WholeReadsCoreTypes};

/// Where the input is a core file, type or expression, the grammar gives its tree.
pub fn core_lists_are_read()
    ensures files { CoreFilesAreRead }
    ensures types { CoreTypesAreRead }
    ensures expressions { CoreExpressionsAreRead }
{}

/// Where each token of a core file, type or expression says that the whole language is read, the
/// grammar gives the same tree.
pub fn whole_language_reads_core_lists()
    ensures files { WholeReadsCoreFiles }
    ensures types { WholeReadsCoreTypes }
    ensures expressions { WholeReadsCoreExpressions }
{}

/// An input is a core file, type or expression with one tree at most.
pub fn core_lists_have_one_tree()
    ensures files { CoreFilesHaveOneTree }
    ensures types { CoreTypesHaveOneTree }
    ensures expressions { CoreExpressionsHaveOneTree }
{}

/// An input is a core file, type or expression by one derivation at most.
pub fn core_lists_have_one_derivation()
    ensures files { CoreFilesHaveOneDerivation }
    ensures types { CoreTypesHaveOneDerivation }
    ensures expressions { CoreExpressionsHaveOneDerivation }
{}

/// A core tree has no message, no error and no mark of a float.
pub fn core_trees_are_clean()
    ensures files { CoreFilesAreClean }
    ensures types { CoreTypesAreClean }
    ensures expressions { CoreExpressionsAreClean }
{}

/// The leaves of a core tree, with whitespace between them, are a core list of that tree, whatever its
/// floats are.
pub fn spaced_core_trees_are_core()
    ensures files { SpacedCoreFilesAreCore }
    ensures types { SpacedCoreTypesAreCore }
    ensures expressions { SpacedCoreExpressionsAreCore }
{}

/// A file and an expression of the core language, with their trees; and a tree that this expression
/// does not have.
pub fn examples_are_core()
    ensures { ExamplesAreCore }
{}
