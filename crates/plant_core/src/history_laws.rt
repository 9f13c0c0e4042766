//! What is true of every history of a plant, whichever seats ask in it.

ghost use Rattle.plant_core.specs.HistoryLaws.{HistoriesStayValid, HistoriesKeepThePlant};
ghost use Rattle.plant_core.specs.HistoryLaws.{HistoriesKeepTiesValid};
ghost use Rattle.plant_core.specs.HistoryLaws.{LegalAnswersCanBeSent};

/// Whatever is asked of a valid state, one request after the other, leaves a valid state of the same plant. So at each
/// place of a history that begins at the start of a plant the ties are valid: no tie carries two sources.
pub fn histories_stay_valid()
    ensures valid { HistoriesStayValid }
    ensures plant { HistoriesKeepThePlant }
    ensures ties { HistoriesKeepTiesValid }
{}

/// In a history that is legal from a valid state, of which the commands that aren't extended can tell what they alone can
/// reach, each answer can be spelled, and no entry has more answers than there has to be room for.
pub fn answers_can_be_sent()
    ensures { LegalAnswersCanBeSent }
{}
