// What a searcher is opened with.
ghost use Rattle.std.specs.Prelude.{◌≡◌};
ghost use Rattle.search_script.specs.Openings.{policy_of, opened_on, dense, opening};

use crate::command::{Mistake, Opening, PolicyChoice, ShelfChoice};
use script::arguments::parse_count;
use script::words::{before, behind, trimmed};

#[tactic(auto, using(script::proofs::Same::same_is))]
fn policy_of(word: &[u8]) -> Option<PolicyChoice>
    ensures { result ≡ policy_of word.now }
{
    match word {
        b"flush" => Some(PolicyChoice::Flush),
        b"clock" => Some(PolicyChoice::Clock),
        _ => None,
    }
}

fn opened_on(shelf: ShelfChoice, word: &[u8]) -> Result<Opening, Mistake>
    ensures { result ≡ opened_on shelf (policy_of word.now) }
{
    let policy = policy_of(word).ok_or(Mistake::UnknownPolicy)?;
    Ok(Opening { shelf, policy })
}

fn parse_dense(rest: &[u8]) -> Result<Opening, Mistake>
    ensures { result ≡ dense rest.now }
{
    let bytes = parse_count(rest)?;
    opened_on(ShelfChoice::Dense(bytes), behind(rest, b' '))
}

// `dense BYTES POLICY` or `pair POLICY`.
#[tactic(auto, using(script::proofs::Same::same_is))]
pub(crate) fn parse_opening(rest: &[u8]) -> Result<Opening, Mistake>
    ensures { result ≡ opening rest.now }
{
    let text = trimmed(rest);
    let behind_shelf = behind(text, b' ');
    match before(text, b' ') {
        b"dense" => parse_dense(behind_shelf),
        b"pair" => opened_on(ShelfChoice::Pair, behind_shelf),
        _ => Err(Mistake::UnknownShelf),
    }
}
