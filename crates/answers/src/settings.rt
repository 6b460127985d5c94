// The tests of a setting and of the places of lent lists: 12, 25.
ghost use Rattle.std.specs.Prelude.{◌≡◌, IfOk};
ghost use Rattle.refusals.specs.Numbers.{number_of};
ghost use Rattle.setting.specs.Encodings.{encoding_number, pruning_number};
ghost use Rattle.answers.specs.Settings.{setting_refusal, places_refusal};

use refusals::Refusal;
use setting::{Encoding, Setting};

// The setting with these numbers: 12 one out of range.
#[tactic(auto, unfolding(crate::specs::Settings::setting_refusal))]
pub fn test_setting(encoding: u8, pruning: u8) -> Result<Setting, Refusal>
    ensures number { number_of result ≡ setting_refusal encoding pruning }
    ensures setting { IfOk result (λ s. (encoding_number s.encoding ≡ encoding) × (pruning_number s.pruned ≡ pruning)) }
{
    let encoding = Encoding::try_from(encoding)?;
    if pruning > 1 {
        return Err(Refusal::NoSuchSetting);
    }
    Ok(Setting {
        encoding,
        pruned: pruning == 1,
    })
}

// 25 a list with fewer places than constraints, or fewer than 32 row words.
#[tactic(auto, unfolding(crate::specs::Settings::places_refusal))]
pub fn test_places(count: u16, places: usize, words: usize) -> Result<(), Refusal>
    ensures { number_of result ≡ places_refusal count places words }
{
    if places < usize::from(count) || words < 32 {
        return Err(Refusal::TooFewPlaces);
    }
    Ok(())
}
