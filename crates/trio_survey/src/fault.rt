//! Why a survey or an image is refused.

ghost use Rattle.std.specs.Prelude.{◌≡◌};
ghost use Rattle.trio_layout.specs.Rule.{rule_number};

use trio_layout::{FaultAt, Rule};
use trio_page::NoMemory;

/// Why a survey has no tables, or an image doesn't verify.
#[derive(Clone, Copy, Debug, PartialEq, Eq)]
pub enum SurveyFault {
    /// The number of the lowest rule that fails, and a file and place at which it does.
    ///
    /// - [`Rule::Grammar`]: the file `ino` can't be read. `page` and `slot` are both 0 for its body; else `page`
    ///   is an index page or a directory page, and `slot` a slot of it, or 0 where the page as a
    ///   whole is meant.
    /// - [`Rule::Owning`]: the file `ino` lists something that was listed before: the page `page`, with slot 0,
    ///   or the inode number of the entry in `slot` of `page`.
    /// - [`Rule::Tables`]: the stored tables aren't those of the files. `ino` is a number whose stored row
    ///   differs, or `page` a page whose stored owner differs; all else is 0.
    Fails {
        rule: u8,
        ino: u32,
        page: u32,
        slot: u16,
    },
    /// There was no memory for the answer.
    NoMemory,
}

impl SurveyFault {
    // this rule fails here
    pub(crate) fn fails(rule: Rule, at: FaultAt) -> SurveyFault
        ensures { result ≡ SurveyFault.Fails (rule_number rule) at.ino at.place.page at.place.slot }
    {
        SurveyFault::Fails {
            rule: rule.number(),
            ino: at.ino,
            page: at.place.page,
            slot: at.place.slot,
        }
    }
}

impl From<NoMemory> for SurveyFault {
    ghost use Rattle.trio_survey.specs.declared.fault.SurveyFault.{SurveyFault};

    ghost from_gives = { λ _ e. e ≡ SurveyFault.NoMemory };

    fn from(_fault: NoMemory) -> SurveyFault {
        SurveyFault::NoMemory
    }
}
