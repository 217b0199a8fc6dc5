//! Laws of simple commands. Each is the contract of a function that does nothing.
ghost use Rattle.s39_clap.specs.Faults.{FaultlessWordsAreTaken, FaultsAreOneRequestOrMistakes};
ghost use Rattle.s39_clap.specs.Found.{ArgumentsHaveValues, FlagsAreSaidOrNot, TakenWordsEnterOne};

/// Words in which no step of a parse fails are taken.
pub fn faultless_words_are_taken()
    ensures { FaultlessWordsAreTaken }
{}

/// Words ask only for help, ask only for the version, have only mistakes, or have no fault.
pub fn faults_are_one_request_or_mistakes()
    ensures { FaultsAreOneRequestOrMistakes }
{}

/// If a command requires a subcommand, the words that it takes name one of its subcommands. The parsers of that
/// subcommand's arguments accept the values that are found for them.
pub fn taken_words_enter_one()
    ensures { TakenWordsEnterOne }
{}

/// An argument that is required or has a default has a value.
pub fn arguments_have_values()
    ensures { ArgumentsHaveValues }
{}

/// A flag has the value true or false.
pub fn flags_are_said_or_not()
    ensures { FlagsAreSaidOrNot }
{}
