//! The pages of a bundle are whole.

ghost use Rattle.std.specs.Prelude.{◌≡◌, ℕ, List, Some, length};
ghost use Rattle.std.specs.Option.{option_copied};
ghost use Rattle.trio_lists.specs.Lists.{In};
ghost use Rattle.trio_lease.specs.Shown.{LentFile};
ghost use Rattle.trio_lease.specs.Views.{bundle_in};
ghost use Rattle.trio_lease.specs.declared.parts.FreshParts.{FreshParts as FreshShown};
ghost use Rattle.trio_state.specs.Moves.{IsFull};
ghost use Rattle.trio_open.specs.Belonging.{AreWhole};

use trio_lease::{Bundle, FreshPage, WriteLease};
use trio_page::Page;

/// Each page of a bundle has 4096 bytes, as every page has. Nothing is done.
pub fn is_full(bundle: &Bundle)
    ensures { IsFull (bundle_in bundle.now) }
{
    are_leases_full(bundle.writes());
    are_pages_full(bundle.pages());
}

fn are_leases_full(leases: &[WriteLease])
    ensures { (f : LentFile) → In f leases.now → AreWhole f.stands.index × AreWhole f.stands.blocks }
{
    for lease in leases {
        is_index_full(lease);
        are_blocks_full(lease);
    }
}

fn is_index_full(lease: &WriteLease)
    ensures { AreWhole lease.now.stands.index }
{
    for i in 0..lease.index_len() {
        is_whole(lease.index(i));
    }
}

fn are_blocks_full(lease: &WriteLease)
    ensures { AreWhole lease.now.stands.blocks }
{
    for i in 0..lease.blocks_len() {
        is_whole(lease.block(i));
    }
}

fn are_pages_full(pages: &[FreshPage])
    ensures { (p : FreshShown) → In p pages.now → length p.page ≡ 4096 }
{
    for fresh in pages {
        is_page_full(fresh);
    }
}

fn is_page_full(fresh: &FreshPage)
    ensures { length fresh.now.page ≡ 4096 }
{
    let _bytes = fresh.page().bytes();
}

fn is_whole(page: Option<&Page>)
    ensures { (bytes : List ℕ) → option_copied page.entry ≡ Some bytes → length bytes ≡ 4096 }
{
    if let Some(page) = page {
        let _bytes = page.bytes();
    }
}
