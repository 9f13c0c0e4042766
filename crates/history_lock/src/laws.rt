//! What is true of every history of every machine.

ghost use Rattle.history_lock.specs.Laws.{FrontsAreLegal, RequestsFixAnswers};
ghost use Rattle.history_lock.specs.Laws.{RunsCompose, StepsStayLegal};
ghost use Rattle.history_lock.specs.Shares.{SeatsShareHistory};

use crate::machine::Machine;

/// A front of a legal history is legal.
pub fn fronts_are_legal<M: Machine>()
    ensures { FrontsAreLegal M.step M.Fits }
{}

/// A legal history goes on with any request that fits, as the machine answers it there.
pub fn steps_stay_legal<M: Machine>()
    ensures { StepsStayLegal M.step M.Fits }
{}

/// What a history leaves is what its end leaves, begun where its front ended.
pub fn runs_compose<M: Machine>()
    ensures { RunsCompose M.step }
{}

/// Two legal histories in which the same seats asked the same are the same.
pub fn requests_fix_answers<M: Machine>()
    ensures { RequestsFixAnswers M.step M.Fits }
{}

/// Each entry of the history of a closed lock is an own entry of exactly one seat, at its position.
pub fn seats_share_history<M: Machine>()
    ensures { SeatsShareHistory M M.Request M.Answer }
{}
