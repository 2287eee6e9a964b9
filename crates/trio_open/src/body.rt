//! Bodies in the slots of a directory page.

ghost use Rattle.std.specs.Prelude.{◌≡◌, ◌<◌};
ghost use Rattle.trio_layout.specs.Entries.{body_in_slot};
ghost use Rattle.trio_open.specs.inner.Modes.{with_mode_in};

use trio_page::Page;
use trio_page::field::{put_bytes_in, put_u16_in};

/// The body in a slot of a directory page.
pub fn body_on(page: &Page, slot: u16) -> [u8; 64]
    requires { slot < 16 }
    ensures { result ≡ body_in_slot slot page.now }
{
    let at = 256 * usize::from(slot) + 192;
    *page.bytes()[at..at + 64].as_array().unwrap()
}

/// Puts a mode into the body in a slot of a directory page.
pub fn put_mode_in(page: &mut Page, slot: u16, mode: u16)
    requires { slot < 16 }
    ensures { page.new ≡ with_mode_in slot mode page.old }
{
    let mut body = body_on(page, slot);
    put_u16_in(&mut body, 0, mode);
    put_bytes_in(page.bytes_mut(), 256 * usize::from(slot) + 192, &body);
}
