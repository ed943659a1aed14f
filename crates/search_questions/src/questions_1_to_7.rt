// Questions 1 to 7, which a call goes through before question 8, the one about its state.
ghost use Rattle.std.specs.Prelude.{◌≡◌};
ghost use Rattle.search_feed.specs.Data.{settings_ok};
ghost use Rattle.search_feed.specs.Lent.{frame_in};
ghost use Rattle.search_questions.specs.Questions.{first_seven};
ghost use Rattle.question.specs.Question.{refused_by};

use question::Question;
use search_feed::SearchConfig;
use search_feed::lent::{Frame, Table};

// Goes through questions 1 to 7 in order, and refuses with the first one answered no.
pub fn first_seven(frame: &Frame<'_>, table: &Table<'_>) -> Result<(), Question>
    ensures { refused_by result ≡ first_seven (frame_in frame.now) table.now.slots table.now.words.now table.now.stars.now }
{
    if !preprocess::unit_vectors::centroids_fit(frame.centroids) {
        return Err(Question::CentroidSlice);
    }
    if !preprocess::unit_vectors::coordinates_fit(frame.centroids) {
        return Err(Question::Coordinates);
    }
    if !preprocess::brightness_list::order_fits(frame.order, frame.centroids) {
        return Err(Question::BrightnessList);
    }
    if !settings_ok(frame.config) {
        return Err(Question::Settings);
    }
    if !settings::passes::passes_fit(frame.passes) {
        return Err(Question::Passes);
    }
    if !pattern_catalog::blocks::table_fits(table.slots, table.words) {
        return Err(Question::SlotsAndWords);
    }
    if !pattern_entry::stars::stars_fit(table.stars) {
        return Err(Question::StarSlice);
    }
    Ok(())
}

// Returns the answer to question 4, about the settings.
fn settings_ok(config: SearchConfig) -> bool
    ensures { result ≡ settings_ok config }
{
    let own = config.matching;
    let field = config.fov;
    settings::settings_limits::settings_fit(
        config.bins,
        config.checking,
        config.error,
        config.radius,
        own,
        field,
    )
}
