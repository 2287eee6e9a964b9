//! The laws of what a session has in hand that edits and takings rest on: the body of each function is
//! empty, and its contract is the law.

ghost use Rattle.trio_edit_laws.specs.session.Chains.{BytesCut, BytesGrow, BytesMany, BytesPut, NamedReads, ReadsNamed, SharesStay};
ghost use Rattle.trio_edit_laws.specs.session.FileEdits.{FileEditShows};
ghost use Rattle.trio_edit_laws.specs.session.Fresh.{FreshIsFree, FreshIsNew, FreshIsUntouched};
ghost use Rattle.trio_edit_laws.specs.session.Listed.{
  JudgedAfterAllotment,
  JudgedAfterHold,
  JudgedAfterWrite,
  ListedAfterAllotment,
  ListedAfterEdit,
  ListedAfterHold,
  ListedAfterWrite,
  ListedAreInHand,
  TakingKeeps,
};

/// What calls come to is what is shown after a taking too.
pub fn taking_keeps()
    ensures law { TakingKeeps }
{}

/// Which pages the judged files list, and how takings and edits change that.
pub fn lists_pages()
    ensures hand { ListedAreInHand }
    ensures write { ListedAfterWrite }
    ensures hold { ListedAfterHold }
    ensures allotment { ListedAfterAllotment }
    ensures edit { ListedAfterEdit }
{}

/// Which files are judged after more was taken, and what they read.
pub fn judges_taken()
    ensures write { JudgedAfterWrite }
    ensures hold { JudgedAfterHold }
    ensures allotment { JudgedAfterAllotment }
{}

/// What a desk gives is none of what is in hand: a write lease, a hold, and allotted pages.
pub fn fresh_is_none_in_hand()
    ensures writes { FreshIsUntouched }
    ensures holds { FreshIsFree }
    ensures pages { FreshIsNew }
{}

/// Where one written file that is no directory is edited, that file alone of the nodes that are shown
/// has other bytes and another guard: those that it now reads.
pub fn file_edit_shows()
    ensures law { FileEditShows }
{}

/// A file that is no directory reads by its index pages, each of which names its share of the blocks, and a share
/// stays however the chain grows or is cut behind it; and the bytes of blocks that grow, are cut or are
/// put.
pub fn chains_read()
    ensures named { ReadsNamed }
    ensures reads { NamedReads }
    ensures stay { SharesStay }
    ensures many { BytesMany }
    ensures cut { BytesCut }
    ensures grow { BytesGrow }
    ensures put { BytesPut }
{}
