// Worked examples of the definitions, as one joint statement.
ghost use Rattle.reader.specs.Trials.{Trials};

// Answers nothing of use: its contract says that the examples hold.
pub fn trials_stand()
    ensures { Trials }
{}
