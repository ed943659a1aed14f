// The questions that document 01 numbers. Each input has to pass those that are asked of it, in order, and the first one answered no refuses the call;
// so a question is what an error of the library names.
#![tactic(auto)]

ghost use Rattle.std.specs.Prelude.{◌≡◌};
ghost use Rattle.question.specs.Question.{number_of};

use std::fmt;

// A question of document 01, by what it asks about.
#[derive(Clone, Copy, PartialEq, Eq)]
pub enum Question {
    // 1: is the centroid slice of even length, and short enough?
    CentroidSlice,
    // 2: is each coordinate within its limits?
    Coordinates,
    // 3: is every index of the brightness list below the centroid count, and none twice?
    BrightnessList,
    // 4: are the settings within their limits?
    Settings,
    // 5: is the pass slice whole, and each pass within its limits?
    Passes,
    // 6: are there few enough slots, and just the words for them?
    SlotsAndWords,
    // 7: is the star slice whole, and short enough?
    StarSlice,
    // 8: does the saved state exist here?
    SavedState,
    // 9: is the entry inside the packed section, and are its stars valid?
    EntryAndStars,
    // 10: are the ranks and the section those of the filled slots?
    RanksAndSection,
    // 11: is the slot below the slot count?
    SlotNumber,
    // 12: are the numbers of the sweep within their limits?
    SweepNumbers,
    // 13: does the sweep's list fit the lent slice?
    SweepRoom,
    // 14: do the candidate's pass and places exist, and is the scale within its limits?
    CandidateAndScale,
}

impl From<Question> for u32 {
    ghost from_gives = { λ q n. n ≡ number_of q };

    // Returns the number that document 01 gives the question.
    fn from(question: Question) -> u32 {
        match question {
            Question::CentroidSlice => 1,
            Question::Coordinates => 2,
            Question::BrightnessList => 3,
            Question::Settings => 4,
            Question::Passes => 5,
            Question::SlotsAndWords => 6,
            Question::StarSlice => 7,
            Question::SavedState => 8,
            Question::EntryAndStars => 9,
            Question::RanksAndSection => 10,
            Question::SlotNumber => 11,
            Question::SweepNumbers => 12,
            Question::SweepRoom => 13,
            Question::CandidateAndScale => 14,
        }
    }
}

impl fmt::Display for Question {
    // Writes what the question asks about.
    fn fmt<W: fmt::Write>(&self, f: &mut fmt::Formatter<W>) -> fmt::Result {
        f.write_str(match self {
            Question::CentroidSlice => "centroid slice",
            Question::Coordinates => "coordinates",
            Question::BrightnessList => "brightness list",
            Question::Settings => "settings",
            Question::Passes => "passes",
            Question::SlotsAndWords => "slots and words",
            Question::StarSlice => "star slice",
            Question::SavedState => "saved state",
            Question::EntryAndStars => "entry and its stars",
            Question::RanksAndSection => "ranks and section",
            Question::SlotNumber => "slot number",
            Question::SweepNumbers => "numbers of the sweep",
            Question::SweepRoom => "room for the sweep",
            Question::CandidateAndScale => "candidate and scale",
        })
    }
}
