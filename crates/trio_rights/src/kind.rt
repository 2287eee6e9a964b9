//! What a file is.

ghost use Rattle.std.specs.Prelude.{◌≡◌, ◌≢◌, IfNone, IfSome};
ghost use Rattle.trio_rights.specs.ByKind.{covers_blocks, guard_fits, is_directory, is_link, takes_offsets};
ghost use Rattle.trio_rights.specs.Kind.{kind_byte, letter};

/// What a file is.
#[derive(Clone, Copy, Debug, PartialEq, Eq)]
pub enum Kind {
    /// A file of bytes.
    Regular,
    /// A file of directory entries.
    Directory,
    /// A symbolic link: a file that holds a text. Nobody here follows it.
    Link,
}

impl Kind {
    /// The byte that stands for the kind in directory entries and shadow rows
    /// (`docs/FORMATS.md`, "Directory page").
    pub fn byte(self) -> u8
        ensures { result ≡ kind_byte self }
    {
        match self {
            Kind::Regular => 1,
            Kind::Directory => 2,
            Kind::Link => 3,
        }
    }

    /// The kind that a byte stands for. `None` where it stands for none.
    pub fn from_byte(byte: u8) -> Option<Kind>
        ensures found { IfSome result (λ kind. byte ≡ kind_byte kind) }
        ensures none { IfNone result ((kind : Kind) → byte ≢ kind_byte kind) }
    {
        match byte {
            1 => Some(Kind::Regular),
            2 => Some(Kind::Directory),
            3 => Some(Kind::Link),
            _ => None,
        }
    }

    /// The letter that stands for the kind where a tree is printed.
    pub fn letter(self) -> &'static str
        ensures { result.now ≡ letter self }
    {
        match self {
            Kind::Regular => "f",
            Kind::Directory => "d",
            Kind::Link => "l",
        }
    }

    /// Whether a file of this kind lists entries.
    pub fn is_directory(self) -> bool
        ensures { result ≡ is_directory self }
    {
        match self {
            Kind::Directory => true,
            Kind::Regular | Kind::Link => false,
        }
    }

    /// Whether a file of this kind is a symbolic link.
    pub fn is_link(self) -> bool
        ensures { result ≡ is_link self }
    {
        match self {
            Kind::Link => true,
            Kind::Regular | Kind::Directory => false,
        }
    }

    /// Whether bytes of a file of this kind are written, read and cut at places.
    pub fn takes_offsets(self) -> bool
        ensures { result ≡ takes_offsets self }
    {
        match self {
            Kind::Regular => true,
            Kind::Directory | Kind::Link => false,
        }
    }

    /// Whether a checkpoint covers the blocks of a file of this kind, guarded or not, beside its
    /// index pages.
    pub fn covers_blocks(self, guarded: bool) -> bool
        ensures { result ≡ covers_blocks self guarded }
    {
        self.is_directory() || guarded
    }

    /// Whether a file of this kind may be guarded, or not be.
    pub fn guard_fits(self, guarded: bool) -> bool
        ensures { result ≡ guard_fits self guarded }
    {
        self.takes_offsets() || !guarded
    }
}
