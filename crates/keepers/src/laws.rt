// What every page keeper keeps true, whatever the calls.
ghost use Rattle.keepers.specs.Laws.{StayLawful};

// The holdings of all guests stay sets, each of at most 64 pages and apart from the others.
#[tactic(auto, using(crate::proofs::Lawful::stay_lawful))]
pub fn holdings_stay_sets()
    ensures law { StayLawful }
{}
