// Turns settings from a host in C into the library's own types. A tag says whether an option is absent (0) or given (1).
// An unknown tag becomes a value that its question refuses, so that the questions keep their order and the first no wins.
ghost use Rattle.std.specs.Prelude.{◌≡◌};
ghost use Rattle.c_types.specs.Config.{option_of, cap_of, bins_of, config_of};

use crate::structs::StarSettings;
use search_feed::SearchConfig;
use settings::tolerance::Tolerance;

// Returns an option from its tag and value. An unknown tag gives a NaN, which questions 4 and 12 refuse.
pub fn option_of(tag: u32, x: f32) -> Tolerance
    ensures { result ≡ option_of tag x }
{
    if tag == 0 {
        return Tolerance::Absent;
    }
    if tag == 1 {
        return Tolerance::Given(x);
    }
    Tolerance::Given(0.0 / 0.0)
}

// Returns the cap from its tag and value. `bins_of` takes care of an unknown tag.
fn cap_of(tag: u32, most: u64) -> Option<u64>
    ensures { result ≡ cap_of tag most }
{
    if tag == 0 {
        return None;
    }
    Some(most)
}

// Returns the bins, or 0 where the cap's tag is unknown, which question 4 refuses. The cap itself has no value that a question would refuse.
fn bins_of(tag: u32, bins: u32) -> u32
    ensures { result ≡ bins_of tag bins }
{
    if tag <= 1 {
        return bins;
    }
    0
}

impl From<StarSettings> for SearchConfig {
    ghost from_gives = { λ raw config. config ≡ config_of raw };

    // Returns the settings.
    fn from(raw: StarSettings) -> SearchConfig {
        SearchConfig {
            bins: bins_of(raw.cap_given, raw.bins),
            checking: raw.checking,
            error: raw.error,
            radius: raw.radius,
            matching: option_of(raw.matching_given, raw.matching),
            fov: option_of(raw.fov_given, raw.fov),
            cap: cap_of(raw.cap_given, raw.cap),
            patterns: raw.patterns,
        }
    }
}
