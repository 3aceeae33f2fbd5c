//! The options of a check: docs/reference/programs.md, "One query, checked".

ghost use Rattle.std.specs.Prelude.{◌≡◌, map, string_bytes};
ghost use Rattle.promql_programs.specs.CheckSettings as spec;

use crate::limit_options::{default_limits, limits_with};
use promql_span::limits::Limits;

/// How a query is checked.
#[derive(Clone, Copy, Debug, PartialEq, Eq)]
pub struct CheckSettings {
    /// The limits of the query.
    pub limits: Limits,
    /// Whether what is said of it has colors.
    pub colors: bool,
}

/// Whether this word asks for colors; `None` where it is no such word.
fn colors_when(usual: bool, word: &str) -> Option<bool>
    ensures { result ≡ spec.colors_when usual word.now }
{
    match word {
        "auto" => Some(usual),
        "always" => Some(true),
        "never" => Some(false),
        _ => None,
    }
}

/// These settings as options change them, the last of one name; `None` where the words are no such options.
fn settings_with(usual: bool, settings: CheckSettings, words: &[String]) -> Option<CheckSettings>
    ensures { result ≡ spec.settings_with usual settings (map string_bytes words.now) }
{
    let mut changed = settings;
    let mut rest = words;
    while let [name, value, after @ ..] = rest {
        if name.as_str() == "--color" {
            changed.colors = colors_when(usual, value.as_str())?;
        } else {
            changed.limits = limits_with(changed.limits, &rest[..2])?;
        }
        rest = after;
    }
    if rest.is_empty() { Some(changed) } else { None }
}

/// The settings that options ask for; `None` where there are no such options. `usual` says whether there are colors where no option says
/// it.
pub fn check_settings_of(usual: bool, options: &[String]) -> Option<CheckSettings>
    ensures { result ≡ spec.check_settings_of usual (map string_bytes options.now) }
{
    let settings = CheckSettings {
        limits: default_limits().for_check(),
        colors: usual,
    };
    settings_with(usual, settings, options)
}
