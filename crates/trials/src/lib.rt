// Worked examples of the whole, from a pattern's text to what a search answers and how it is counted, in one joint statement.
#![tactic(auto)]

ghost use Rattle.trials.specs.Trials.{Trials};

use reader::trials_stand as reading_stands;

// Its contract says that the examples hold.
pub fn trials_stand()
    ensures { Trials }
{
    reading_stands();
}
