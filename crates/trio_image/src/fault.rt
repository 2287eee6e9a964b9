//! Why an image can't be loaded or saved.

use trio_page::NoMemory;
use trio_survey::SurveyFault;

/// Why an image can't be loaded. Each cause comes where those before it don't stand.
#[derive(Clone, Copy, Debug, PartialEq, Eq)]
pub enum LoadFault {
    /// A read failed, and `read_faults` of the name rose.
    ReadFault,
    /// The file has more than 33,554,432 bytes.
    TooLong,
    /// The count of bytes, which is under 4096 or isn't the superblock's pages times 4096.
    Length(u64),
    /// There is a page at least, and the first one is a superblock of the other version: of version 1 where
    /// today's is asked for.
    OldVersion,
    /// There is a page at least, and the first one is a superblock of no version.
    BadSuper,
    /// The lowest rule that fails, and a file and place at which it does, as in
    /// [`SurveyFault::Fails`].
    Fails {
        rule: u8,
        ino: u32,
        page: u32,
        slot: u16,
    },
    /// There was no memory for the image, which may come in place of any other answer.
    NoMemory,
}

impl From<NoMemory> for LoadFault {
    ghost use Rattle.std.specs.Prelude.{◌≡◌};
    ghost use Rattle.trio_image.specs.declared.fault.LoadFault.{LoadFault};

    ghost from_gives = { λ _ e. e ≡ LoadFault.NoMemory };

    fn from(_fault: NoMemory) -> LoadFault {
        LoadFault::NoMemory
    }
}

impl From<SurveyFault> for LoadFault {
    ghost use Rattle.std.specs.Prelude.{◌≡◌};
    ghost use Rattle.trio_image.specs.Fault.{fault_of_survey};

    ghost from_gives = { λ fault e. e ≡ fault_of_survey fault };

    fn from(fault: SurveyFault) -> LoadFault {
        match fault {
            SurveyFault::Fails {
                rule,
                ino,
                page,
                slot,
            } => LoadFault::Fails {
                rule,
                ino,
                page,
                slot,
            },
            SurveyFault::NoMemory => LoadFault::NoMemory,
        }
    }
}

/// Why an image wasn't saved.
#[derive(Clone, Copy, Debug, PartialEq, Eq)]
pub enum SaveFault {
    /// The write failed, and `write_faults` of the name rose. The content of the name isn't told.
    WriteFault,
    /// There was no memory for the bytes. Nothing was written.
    NoMemory,
}

impl From<NoMemory> for SaveFault {
    ghost use Rattle.std.specs.Prelude.{◌≡◌};
    ghost use Rattle.trio_image.specs.declared.fault.SaveFault.{SaveFault};

    ghost from_gives = { λ _ e. e ≡ SaveFault.NoMemory };

    fn from(_fault: NoMemory) -> SaveFault {
        SaveFault::NoMemory
    }
}
