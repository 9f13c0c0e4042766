//! What is true of every standby and of all that comes to it, not only of those that a program makes.

ghost use Rattle.standby.specs.Laws.{AnswersAreExact, NewStandbysFollow, StandbysFollow};
ghost use Rattle.standby.specs.Laws.{StatesAreOfFronts, FrontsAreExact, NothingIsLost};
ghost use Rattle.standby.specs.Laws.{StandbysAgree, StandbysKeepTheSame, TakeoversGoOn};

/// To each request that comes there is one answer, and it leaves one standby.
pub fn answers_are_exact()
    ensures { AnswersAreExact }
{}

/// A new standby follows every history.
pub fn new_standbys_follow()
    ensures { NewStandbysFollow }
{}

/// What a history has at its position is never answered by a difference, and a standby that follows it goes on following it.
pub fn standbys_follow()
    ensures { StandbysFollow }
{}

/// Whatever a line loses, repeats and reorders: after what came of a history, the state is that of a front of it.
pub fn states_are_of_fronts()
    ensures { StatesAreOfFronts }
{}

/// That front is exact: all that is applied or kept came, and the applied number is the lowest that is neither.
pub fn fronts_are_exact()
    ensures { FrontsAreExact }
{}

/// Nothing is lost that came within the window.
pub fn nothing_is_lost()
    ensures { NothingIsLost }
{}

/// Of two standbys of one history, the further one has the state that the other one comes to by the entries between them.
pub fn standbys_agree()
    ensures { StandbysAgree }
{}

/// Two standbys of one history keep the same request for a position.
pub fn standbys_keep_the_same()
    ensures { StandbysKeepTheSame }
{}

/// What is asked after a takeover makes one legal history from the plant's start, behind the front that was applied.
pub fn takeovers_go_on()
    ensures { TakeoversGoOn }
{}
