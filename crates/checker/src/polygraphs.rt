// Encode: the plan of a case's polygraph in a setting, before anything is written.
ghost use Rattle.listing.specs.Choosing.{Space};
ghost use Rattle.checker.specs.Encodings.{Plans};

use crate::Case;
use crate::held::loaded_window;
use answers::settings::{test_places, test_setting};
use encoding::{Known, prepare};
use listing::{PLACES, WORDS};
use refusals::Refusal;

// The tests of Encode in their order, 22, 12, 25, and the polygraph planned into the tables and the numbers, with its known edges before pruning.
pub(crate) fn planned(
    c: &Case,
    encoding: u8,
    pruning: u8,
    places: usize,
    words: usize,
    tables: &mut [u32; WORDS],
    chosen: &mut [u16; PLACES],
) -> Result<Known, Refusal>
    requires { Space tables.old chosen.old }
    ensures { Plans c.now encoding pruning places words tables.new chosen.new result }
{
    let w = loaded_window(c)?;
    let setting = test_setting(encoding, pruning)?;
    let known = prepare(w, setting.encoding, tables, chosen);
    test_places(known.count, places, words)?;
    Ok(known)
}
