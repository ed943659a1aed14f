// How a pass begins, by how many spots it keeps and by the table.
ghost use Rattle.std.specs.Prelude.{◌≡◌, ◌≤◌};
ghost use Rattle.search_step.specs.PassStart.{start_of_pass};

use combinations::Combination;
use undivided_run::state::Status;

// How a pass begins: with its first combination, or, where it makes no read, with its status.
// Kept: not a Result, since a pass without a read has not failed; its status is what the run may end with.
#[derive(Clone, Copy)]
pub enum PassStart {
    First(Combination),
    Over(Status),
}

// Returns how a pass begins that keeps `kept` spots: below 4 it has TooFew, and with a table without slots or patterns NoMatch.
pub fn start_pass(kept: u32, slots: u64, patterns: u64) -> PassStart
    requires { kept ≤ 64 }
    ensures { result ≡ start_of_pass kept slots patterns }
{
    if kept < 4 {
        return PassStart::Over(Status::TooFew);
    }
    if slots == 0 {
        return PassStart::Over(Status::NoMatch);
    }
    if patterns == 0 {
        return PassStart::Over(Status::NoMatch);
    }
    match combinations::first_combination(kept) {
        Some(q) => PassStart::First(q),
        None => PassStart::Over(Status::NoMatch),
    }
}
