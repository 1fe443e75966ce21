//! Each line is read as what it was written for, and nothing else is.
ghost use Rattle.desk_words.specs.Laws.{AnswersAreRead, GreetingsAreRead, OnlyAnswersAreRead, OnlyGreetingsAreRead, OnlyTalesAreRead, TalesAreRead};

/// What a caller asks for is read again.
pub fn greetings_are_read()
    ensures { GreetingsAreRead }
{}

/// No other line asks for anything.
pub fn only_greetings_are_read()
    ensures { OnlyGreetingsAreRead }
{}

/// What a caller reports is read again.
pub fn tales_are_read()
    ensures { TalesAreRead }
{}

/// No other line reports anything.
pub fn only_tales_are_read()
    ensures { OnlyTalesAreRead }
{}

/// What the desk answers is read again.
pub fn answers_are_read()
    ensures { AnswersAreRead }
{}

/// No other line is an answer.
pub fn only_answers_are_read()
    ensures { OnlyAnswersAreRead }
{}
