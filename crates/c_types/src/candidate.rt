// Turns a candidate from a host in C into the library's own type.
ghost use Rattle.std.specs.Prelude.{◌≡◌};
ghost use Rattle.c_types.specs.Candidate.{candidate_from};

use crate::structs::StarCandidate;
use candidates::entry_tests::Candidate;
use pattern_entry::stars::StarIndex;
use preprocess::brightness_list::Place;

impl From<StarCandidate> for Candidate {
    ghost from_gives = { λ raw c. c ≡ candidate_from raw };

    // Returns the candidate. Any number but 0 sets its rebuild mark.
    #[tactic(auto, unfolding(crate::specs::Candidate::candidate_from))]
    fn from(raw: StarCandidate) -> Candidate {
        Candidate {
            pass: raw.pass,
            places: raw.place.map(|n| Place(n)),
            slot: raw.slot,
            stars: raw.star.map(|n| StarIndex(n)),
            field: raw.field,
            rebuild: raw.rebuild != 0,
        }
    }
}
