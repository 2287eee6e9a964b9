//! A row of the shadow table and its 32 bytes.

ghost use Rattle.std.specs.Prelude.{◌≡◌, ◌<◌, ◌↔◌, IsTrue, IfSome};
ghost use Rattle.std.specs.Option.{ForSome, option_map};
ghost use Rattle.trio_page.specs.Field.{zeros};
ghost use Rattle.trio_tables.specs.Row.{as_row, row_bytes, row_spelled, row_read, row_with, IsFramedRow, IsRow, TableRow};

use trio_page::field::{
    all_zero, put_bytes_in, put_u16_in, put_u32_in, put_zeros_in, u16_in, u32_in,
};
use trio_rights::{Kind, Mode};

/// What the shadow table says of a live file.
#[derive(Clone, Copy, Debug, PartialEq, Eq)]
pub struct Row {
    pub kind: Kind,
    pub mode: Mode,
    pub uid: u32,
    pub gid: u32,
    /// The inode number of the directory that lists the file; 0 for the root.
    pub parent: u32,
    /// The number of the page on which it is listed; 0 for the root.
    pub page: u32,
    /// The slot of that page, 0 to 15.
    pub slot: u16,
}

/// What the bytes of a row are.
#[derive(Clone, Copy, Debug, PartialEq, Eq)]
pub enum RowRead {
    /// All zero: the inode number is not live.
    Free,
    /// The row of a live file.
    Live(Row),
    /// Outside the grammar.
    Bad,
}

impl Row {
    /// What the 32 bytes of a row are (`docs/FORMATS.md`, "Tables"). The grammar bounds the kind
    /// and the slot alone: it lets any mode, parent and page pass.
    pub fn read(bytes: &[u8; 32]) -> RowRead
        ensures free { (result ≡ RowRead.Free) ↔ (bytes.now ≡ zeros 32) }
        ensures found { IfSome (row_read result) (λ row. IsRow bytes.now row) }
        ensures only { (row : TableRow) → IsRow bytes.now row → row_read result ≡ Some row }
        ensures value { row_read result ≡ row_spelled bytes.now }
    {
        if all_zero(bytes) {
            return RowRead::Free;
        }
        if !is_framed(bytes) {
            return RowRead::Bad;
        }
        match Kind::from_byte(bytes[1]) {
            Some(kind) => RowRead::Live(Row::fields(kind, bytes)),
            None => RowRead::Bad,
        }
    }

    /// Writes the 32 bytes of a row, or those of an inode number that is not live. They are read
    /// again as that.
    pub fn write(row: Option<Row>, to: &mut [u8; 32])
        requires { ForSome row (λ r. r.slot < 16) }
        ensures bytes { to.new ≡ row_bytes (option_map as_row row) }
        ensures again { IsRow to.new (option_map as_row row) }
    {
        Row::put(row, to);
    }

    // the bytes of a row, whatever its slot
    #[tactic(auto, using(crate::proofs::RowLemmas::is_written))]
    pub(crate) fn put(row: Option<Row>, to: &mut [u8; 32])
        ensures { to.new ≡ row_bytes (option_map as_row row) }
    {
        match row {
            None => put_zeros_in(to, 0, 32),
            Some(row) => {
                put_bytes_in(to, 0, &[1, row.kind.byte()]);
                put_u16_in(to, 2, row.mode.0);
                put_u32_in(to, 4, row.uid);
                put_u32_in(to, 8, row.gid);
                put_u32_in(to, 12, row.parent);
                put_u32_in(to, 16, row.page);
                put_u16_in(to, 20, row.slot);
                put_zeros_in(to, 22, 10);
            }
        }
    }

    fn fields(kind: Kind, bytes: &[u8; 32]) -> Row
        ensures { as_row result ≡ row_with kind bytes.now }
    {
        Row {
            kind,
            mode: Mode(u16_in(bytes, 2)),
            uid: u32_in(bytes, 4),
            gid: u32_in(bytes, 8),
            parent: u32_in(bytes, 12),
            page: u32_in(bytes, 16),
            slot: u16_in(bytes, 20),
        }
    }
}

// all but the kind is as in a live row
fn is_framed(bytes: &[u8; 32]) -> bool
    ensures { IsTrue result ↔ IsFramedRow bytes.now }
{
    bytes[0] == 1 && u16_in(bytes, 20) < 16 && all_zero(&bytes[22..32])
}
