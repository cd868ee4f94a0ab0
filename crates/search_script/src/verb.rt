// The first word of a line that searches.
ghost use Rattle.std.specs.Prelude.{◌≡◌};
ghost use Rattle.search_script.specs.Verbs.{manner_of, search_verb_of, verb_of};

// How a record is given.
#[derive(Clone, Copy, Debug, PartialEq, Eq)]
pub(crate) enum Manner {
    Text,
    Hex,
    HexRepeat,
    File,
    Events,
    EventsRepeat,
    EventsFile,
}

#[derive(Clone, Copy, Debug, PartialEq, Eq)]
pub(crate) enum Verb {
    Open,
    Record(Manner),
    Find,
    List,
    Whole,
    Limit,
    Clear,
    Memory,
}

#[tactic(auto, using(script::proofs::Same::same_is))]
fn manner_of(word: &[u8]) -> Option<Manner>
    ensures { result ≡ manner_of word.now }
{
    match word {
        b"record" => Some(Manner::Text),
        b"record-hex" => Some(Manner::Hex),
        b"record-repeat" => Some(Manner::HexRepeat),
        b"record-file" => Some(Manner::File),
        b"events" => Some(Manner::Events),
        b"events-repeat" => Some(Manner::EventsRepeat),
        b"events-file" => Some(Manner::EventsFile),
        _ => None,
    }
}

#[tactic(auto, using(script::proofs::Same::same_is))]
fn search_verb_of(word: &[u8]) -> Option<Verb>
    ensures { result ≡ search_verb_of word.now }
{
    match word {
        b"open" => Some(Verb::Open),
        b"find" => Some(Verb::Find),
        b"list" => Some(Verb::List),
        b"whole" => Some(Verb::Whole),
        b"limit" => Some(Verb::Limit),
        b"clear" => Some(Verb::Clear),
        b"memory" => Some(Verb::Memory),
        _ => None,
    }
}

pub(crate) fn verb_of(word: &[u8]) -> Option<Verb>
    ensures { result ≡ verb_of word.now }
{
    if let Some(manner) = manner_of(word) {
        return Some(Verb::Record(manner));
    }
    search_verb_of(word)
}
