// The programs without their reading and writing: what each prints of what it was given.
#![tactic(auto)]

ghost use Rattle.std.specs.Prelude.{◌≤◌, length};
ghost use Rattle.sizes.specs.Input.{input_of};
ghost use Rattle.program.specs.Clauses.{Ended};

use frame::Written;

pub mod leg_sheet;
pub mod typed_sheet;
pub mod words;

// The largest sheet, 160 lines of 400 columns, each with its 0A.
pub const ANSWER_BYTES: usize = 64160;

// The sheet and 0A at the front of `out`, and how many bytes they are; or why there is no sheet.
fn print_ended(settings: &[u8], tree: &[u8], out: &mut [u8]) -> Written
    requires { 64160 ≤ length out.old }
    ensures { Ended (input_of settings.now tree.now) result out.old out.new }
{
    let w = sheet::print_sheet(settings, tree, out);
    if w.number != 0 {
        return w;
    }
    out[w.count] = b'\n';
    Written {
        number: 0,
        count: w.count + 1,
    }
}
