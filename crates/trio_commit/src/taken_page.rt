//! A page that leaves home for a moment, so that bodies are put into it.

ghost use Rattle.std.specs.Prelude.{◌≡◌, ◌<◌, ◌≤◌, ◌+◌, ◌*◌, None, is_some, slice_index_or, slice_set, length, IsTrue};
ghost use Rattle.std.specs.Option.{option_map};
ghost use Rattle.trio_page.specs.Home.{raised};
ghost use Rattle.trio_layout.specs.Accept.{with_body_in, with_body_at};

use trio_page::field::put_bytes_in;
use trio_page::{Home, Page, PageNo, Reads};

/// A page that was taken out of home; `None` where none was there.
#[derive(Drop)]
pub(crate) struct TakenPage {
    pub no: PageNo,
    pub page: Option<Page>,
}

impl TakenPage {
    /// Takes the page of this number, which is one look.
    pub(crate) fn take(home: &mut Home, no: PageNo, reads: &mut Reads) -> TakenPage
        ensures number { result.no ≡ no }
        ensures page { result.page ≡ slice_index_or home.old.pages no.0 None }
        ensures home { home.new ≡ record { pages = slice_set home.old.pages no.0 None; looked = raised home.old.looked } }
        ensures floor { home.old.looked ≤ home.new.looked }
        ensures reads { reads.new ≡ raised reads.old }
    {
        let page = home.take(no, reads);
        TakenPage { no, page }
    }

    /// Puts a body into a slot of the page, if it is there.
    pub(crate) fn put_body(&mut self, slot: u16, body: &[u8; 64])
        requires { slot < 16 }
        ensures { self.new ≡ record self.old { page = option_map (with_body_in slot body.now) self.old.page } }
    {
        if let Some(page) = &mut self.page {
            put_body_in(page, slot, body);
        }
    }

    /// Puts the page back in its place, at which none stands meanwhile.
    pub(crate) fn put_back(self, home: &mut Home)
        requires away { slice_index_or home.old.pages self.no.0 None ≡ None }
        requires within { IsTrue (is_some self.page) → self.no.0 < length home.old.pages }
        ensures { home.new ≡ record home.old { pages = slice_set home.old.pages self.no.0 self.page } }
    {
        let TakenPage { no, page } = self;
        if let Some(page) = page {
            home.put(no, page);
        }
    }
}

/// Puts a body into a slot of a page.
fn put_body_in(page: &mut Page, slot: u16, body: &[u8; 64])
    requires { slot < 16 }
    ensures { page.new ≡ with_body_in slot body.now page.old }
{
    put_bytes_in(page.bytes_mut(), body_offset(slot), body);
}

/// Where the body of a slot begins, in bytes from the page's front.
fn body_offset(slot: u16) -> usize
    requires { slot < 16 }
    ensures { result ≡ 256 * slot + 192 }
{
    256 * usize::from(slot) + 192
}

/// Puts a body into a slot of the page of this number at home, if it is there. It is one look.
pub(crate) fn put_body_home(
    home: &mut Home,
    no: PageNo,
    slot: u16,
    body: &[u8; 64],
    reads: &mut Reads,
)
    requires { slot < 16 }
    ensures home { home.new ≡ record { pages = with_body_at no.0 slot body.now home.old.pages; looked = raised home.old.looked } }
    ensures floor { home.old.looked ≤ home.new.looked }
    ensures reads { reads.new ≡ raised reads.old }
{
    let mut taken = TakenPage::take(home, no, reads);
    taken.put_body(slot, body);
    taken.put_back(home);
}
