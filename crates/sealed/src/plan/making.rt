// A plan from codes.
ghost use Rattle.std.specs.Prelude.{◌≡◌, []};
ghost use Rattle.sealed.specs.Assembling.{atom_codes};
ghost use Rattle.sealed.specs.Plans.{codes_of, sealable};

use crate::plan::Plan;
use crate::tables::Tables;
use alphabet::keep;
use pattern::Code;

fn atoms(codes: &[Code]) -> usize
    ensures { result ≡ atom_codes codes.now }
{
    codes
        .iter()
        .filter(|code| matches!(**code, Code::Atom))
        .count()
}

impl Plan {
    // The plan of a pattern without words.
    fn none() -> Plan
        ensures { codes_of result ≡ [] }
    {
        Plan {
            codes: [Code::Atom; 1023],
            used: 0,
            tables: Tables::none(),
        }
    }

    // Codes past a draft's limits give a pattern without words.
    pub fn of(codes: &[Code]) -> Plan
        ensures { codes_of result ≡ sealable codes.now }
    {
        // The length is asked first: of too many codes none is counted.
        if codes.len() > 1023 || atoms(codes) > 63 {
            return Plan::none();
        }
        let mut own = [Code::Atom; 1023];
        let used = keep(&mut own, codes);
        Plan {
            codes: own,
            used,
            tables: Tables::of(codes),
        }
    }
}
