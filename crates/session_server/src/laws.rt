//! Laws of what a server answers.

ghost use Rattle.session_server.specs.Laws.{AnswersAreOne, PartsAreFronts};

/// An input has one answer, in whatever pieces it comes.
pub fn answers_are_one()
    ensures { AnswersAreOne }
{}

/// What is written before an error is a front of the answer.
pub fn parts_are_fronts()
    ensures { PartsAreFronts }
{}
