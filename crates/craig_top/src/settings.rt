//! How a run of the program begins.

ghost use Rattle.std.specs.Prelude.{◌≡◌};
ghost use Rattle.craig_top.specs.StartingSettings.{starting_settings};
ghost use Rattle.craig_top.specs.WordsRun.{settings_with};

use craig_script::{FormatWord, SystemWord};
use craig_words::Words;

/// What holds before the first line of a script.
#[derive(Clone, Copy, Debug, PartialEq, Eq)]
pub struct Settings {
    /// The interpolation system.
    pub system: SystemWord,
    /// The format of written circuits.
    pub format: FormatWord,
    /// How many conflicts a `solve` may meet, where there is a limit.
    pub limit: Option<u64>,
}

impl Settings {
    /// Pudlák's system, the `aag` format and no limit.
    pub fn start() -> Settings
        ensures { result ≡ starting_settings }
    {
        Settings {
            system: SystemWord::Pudlak,
            format: FormatWord::Aag,
            limit: None,
        }
    }

    /// The settings that the words set, and those of the start where they set none.
    pub fn with(words: &Words) -> Settings
        ensures { result ≡ settings_with words.now }
    {
        let start = Settings::start();
        Settings {
            system: words.system.unwrap_or(start.system),
            format: words.format.unwrap_or(start.format),
            limit: words.limit.unwrap_or(start.limit),
        }
    }
}
