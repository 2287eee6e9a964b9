//! What a thread has of a pool of workers: a library, whose releases the pool judges, or a worker.

ghost use Rattle.std.specs.Prelude.{◌≡◌};
ghost use Rattle.trio_pool.specs.Mails.{IsForMails, library_count};
ghost use Rattle.trio_pool.specs.Passes.{IsOf};

use trio_ctl::{Judged, Pending};
use trio_pool::{MailPass, Mails, Pool, PoolPass};

/// A pass of a pool and one of the mails in which what was judged comes back. Each library that a script
/// may have has a mail.
#[derive(Drop)]
pub(crate) struct Hand<'a> {
    pub(crate) pool: &'a Pool<Pending>,
    pub(crate) pass: PoolPass<Pending>,
    pub(crate) mails: &'a Mails<Judged>,
    pub(crate) mail: MailPass<Judged>,
    pub ghost is_pass: { IsOf pool.now pass },
    pub ghost is_mail: { ∥ IsForMails mails.now mail ∥₁ },
    pub ghost all: { library_count mails.now ≡ 16 },
}
