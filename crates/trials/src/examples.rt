// Worked examples of the definitions, as a theorem.
ghost use Rattle.trials.specs.Examples.{WorkedExamples};

// Every worked example holds, for any guest's sight, base and access.
pub fn worked_examples_hold()
    ensures law { WorkedExamples }
{}
