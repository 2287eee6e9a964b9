//! A file of a sample image.

use trio_rights::{Kind, Mode};

/// A file that is put into a sample image.
#[derive(Clone, Copy)]
pub struct SampleFile<'a> {
    /// The inode number, counted from 1, which is the root's.
    pub ino: u32,
    /// The inode number of the directory that lists the file; 0 for the root.
    pub parent: u32,
    pub name: &'a [u8],
    pub kind: Kind,
    pub mode: Mode,
    pub uid: u32,
    pub gid: u32,
    /// Whether a regular file is guarded.
    pub guard: bool,
    /// The bytes of a regular file, or the text of a link.
    pub content: &'a [u8],
}

/// A directory of mode 755, uid 0 and gid 0.
pub fn directory<'a>(ino: u32, parent: u32, name: &'a [u8]) -> SampleFile<'a> {
    SampleFile {
        ino,
        parent,
        name,
        kind: Kind::Directory,
        mode: Mode(0o755),
        uid: 0,
        gid: 0,
        guard: false,
        content: b"",
    }
}

/// A regular file of mode 644, uid 0 and gid 0.
pub fn regular<'a>(ino: u32, parent: u32, name: &'a [u8], content: &'a [u8]) -> SampleFile<'a> {
    SampleFile {
        kind: Kind::Regular,
        mode: Mode(0o644),
        content,
        ..directory(ino, parent, name)
    }
}

/// A link of mode 777, uid 0 and gid 0, of 1 to 4096 bytes.
pub fn link<'a>(ino: u32, parent: u32, name: &'a [u8], text: &'a [u8]) -> SampleFile<'a> {
    SampleFile {
        kind: Kind::Link,
        mode: Mode(0o777),
        content: text,
        ..directory(ino, parent, name)
    }
}

impl<'a> SampleFile<'a> {
    /// The file with this owner and group.
    pub fn owned(self, uid: u32, gid: u32) -> SampleFile<'a> {
        SampleFile { uid, gid, ..self }
    }

    /// The file, guarded.
    pub fn guarded(self) -> SampleFile<'a> {
        SampleFile {
            guard: true,
            ..self
        }
    }
}
