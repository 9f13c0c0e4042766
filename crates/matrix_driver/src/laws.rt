//! What is true of every driver and every run of the line and the frame, not only of those that a program makes.

ghost use Rattle.matrix_driver.specs.declared.crosspoint.Crosspoint.{Crosspoint};
ghost use Rattle.matrix_driver.specs.declared.level.Level.{Level};
ghost use Rattle.matrix_driver.specs.World.{World};
ghost use Rattle.matrix_driver.specs.Laws.{AnswersAreExact, AlwaysHad, DoneWhereQuiet};
ghost use Rattle.matrix_driver.specs.Turns.{SettlesAll, IsTurn};

/// The outstanding connect is answered by one message alone: the frame's word that it made this crosspoint.
pub fn answers_are_exact()
    ensures { (level : Level) (crosspoint : Crosspoint) → AnswersAreExact level crosspoint }
{}

/// What the driver counts as settled, the frame has: after any steps, whatever was lost, sent again or wanted meanwhile, and
/// whatever the frame carried at first.
pub fn settled_is_had()
    ensures { (level : Level) → AlwaysHad level }
{}

/// Where nothing is outstanding, each destination of which something was wanted is settled at what was wanted last, and the
/// frame has it there: no want is lost.
pub fn quiet_is_done()
    ensures { (level : Level) → DoneWhereQuiet level }
{}

/// Whatever was lost and wanted before: if from then on nothing is lost and nothing more is wanted, so many turns settle all.
pub fn turns_settle_all()
    ensures { (level : Level) → SettlesAll level }
{}

/// A turn is a step of the world, and neither loses a message nor wants anything.
pub fn turns_are_steps()
    ensures { (world : World) → IsTurn world }
{}
