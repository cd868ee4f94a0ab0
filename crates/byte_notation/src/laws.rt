// What the byte notation promises as a whole.
ghost use Rattle.byte_notation.specs.Law.{Lawful};
ghost use Rattle.byte_notation.specs.Trials.{Trials};

// Every text is read as what stands in it, and whatever stands in a text is read. The examples are read as told.
pub fn reads_what_stands()
    ensures law { Lawful }
    ensures trials { Trials }
{}
