// Laws of the walk, each on the contract of a function of its own.
ghost use Rattle.walk.specs.Laws.{WalkReadsOnlyWhatIsReadable};
ghost use Rattle.walk.specs.Leads.{AnswersAreLedTo, WhatIsLedToIsAnswered};

// Two memories and two books that look alike to a guest give its walks the same answers.
pub fn walk_reads_only_what_is_readable()
    ensures law { WalkReadsOnlyWhatIsReadable }
{}

// The walk answers exactly the mappings that the guest's tables lead to and that the guest may have.
pub fn walk_answers_where_tables_lead()
    ensures only { AnswersAreLedTo }
    ensures every { WhatIsLedToIsAnswered }
{}
