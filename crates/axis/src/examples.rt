// The worked cases of the documents, proved over the definitions that the calls are held to.
ghost use Rattle.axis.specs.Examples.{WorkedCases};

// Does nothing; its contract is what the worked cases state.
pub fn worked_cases()
    ensures { WorkedCases }
{}
