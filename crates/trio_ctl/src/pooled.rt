//! A release between its beginning and its end, as a case of a pool of workers.

use crate::pending::{Judged, Pending};
use trio_page::Reads;
use trio_pool::{OfLibrary, Weigh};
use trio_rights::LibNo;

impl OfLibrary for Judged {
    ghost library = { λ j. j.case.lib.0 };

    fn lib(&self) -> LibNo {
        self.case().lib()
    }
}

/// What a worker looks at counts among no library's reads.
impl Weigh<Judged> for Pending {
    fn weigh(self) -> Judged {
        Pending::weigh(self, &mut Reads::new())
    }
}
