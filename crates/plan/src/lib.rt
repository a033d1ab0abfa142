// Sheets planned before the flight: the least and the greatest W and H of a planning tree.
#![tactic(auto)]

mod ends;

ghost use Rattle.std.specs.Prelude.{◌≡◌};
ghost use Rattle.plan.specs.Clauses.{Wide};
ghost use Rattle.plan.specs.Answers.{no_planned, ends_answered, plan_input, planned_of};

use ends::sheet_end;
use sizes::Size;

// Number 0, and the least and greatest W and H; or a refusal.
#[derive(Clone, Copy)]
pub struct Planned {
    pub number: u8,
    pub least_width: u32,
    pub greatest_width: u32,
    pub least_height: u32,
    pub greatest_height: u32,
}

fn refused(number: u8) -> Planned
    ensures { result ≡ no_planned number }
{
    Planned {
        number,
        least_width: 0,
        greatest_width: 0,
        least_height: 0,
        greatest_height: 0,
    }
}

// The two ends as numbers of 32 bits.
fn answer(least: Size, most: Size) -> Planned
    requires { Wide least × Wide most }
    ensures { result ≡ ends_answered least most }
{
    Planned {
        number: 0,
        least_width: least.width as u32,
        greatest_width: most.width as u32,
        least_height: least.height as u32,
        greatest_height: most.height as u32,
    }
}

// The least and the greatest W and H of a planning tree: 1, then 2 to 5 and 17 in the order of reading.
pub fn plan_sheet(settings: &[u8], tree: &[u8]) -> Planned
    ensures { result ≡ planned_of (plan_input settings.now tree.now) }
{
    let read = settings::read_settings(settings);
    if read.number != 0 {
        return refused(read.number);
    }
    let t = tree::read_plan(tree);
    if t.number != 0 {
        return refused(t.number);
    }
    let s = read.settings;
    let least = sheet_end(tree, s, false);
    let most = sheet_end(tree, s, true);
    answer(least, most)
}
