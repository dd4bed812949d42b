//! The names of four bytes that OpenType gives.
ghost use Rattle.std.specs.Prelude.{◌≡◌, ◌↔◌, ℕ, IsTrue, codes};
ghost use Rattle.std.specs.Int.{to_be_bytes, w32};
ghost use Rattle.rb_common.specs.Tag.{tag_of, lossy_tag_of, uppercase_tag};

/// How many bytes a tag has.
pub const TAG_LEN: usize = 4;

/// A name of four bytes, as the OpenType tag registry gives to features, scripts, languages and
/// tables. The number holds the bytes with the first as the most significant. The default is the
/// null tag, whose number is 0.
#[derive(Clone, Copy, PartialEq, Eq, PartialOrd, Ord, Hash, Debug)]
pub struct Tag(pub u32);

impl Tag {
    /// The tag of these four bytes, the first most significant.
    pub fn from_bytes(bytes: &[u8; 4]) -> Self
        ensures { result.0 ≡ tag_of bytes.now }
    {
        Tag(u32::from_be_bytes(*bytes))
    }

    /// The tag of the first four bytes, with spaces after them where there are fewer, as OpenType
    /// pads short tags. No bytes give the null tag.
    pub fn from_bytes_lossy(bytes: &[u8]) -> Self
        ensures { result.0 ≡ lossy_tag_of bytes.now }
    {
        match *bytes {
            [] => Tag(0),
            [a] => Tag::from_bytes(&[a, b' ', b' ', b' ']),
            [a, b] => Tag::from_bytes(&[a, b, b' ', b' ']),
            [a, b, c] => Tag::from_bytes(&[a, b, c, b' ']),
            [a, b, c, d, ..] => Tag::from_bytes(&[a, b, c, d]),
        }
    }

    /// The number of the tag.
    pub fn as_u32(self) -> u32
        ensures { result ≡ self.0 }
    {
        let Tag(number) = self;
        number
    }

    /// The four bytes of the tag, the most significant first.
    pub fn to_bytes(self) -> [u8; 4]
        ensures { result ≡ to_be_bytes w32 self.0 }
    {
        self.0.to_be_bytes()
    }

    /// Whether this is the null tag.
    pub fn is_null(self) -> bool
        ensures { IsTrue result ↔ (self.0 ≡ 0) }
    {
        self.0 == 0
    }
}

impl Default for Tag {
    ghost is_default = { λ tag. tag.0 ≡ 0 };

    /// The null tag.
    fn default() -> Self {
        Tag(0)
    }
}

/// The tags that OpenType layout itself names, and a tag in capitals.
pub trait TagExt {
    /// The number that a tag stands for.
    ghost number: { Self → ℕ };

    /// The script tag `DFLT`, of a font's features for every other script.
    fn default_script() -> Self
        ensures { number result ≡ tag_of (codes "DFLT") };

    /// The language tag `dflt`, of a script's features for every other language.
    fn default_language() -> Self
        ensures { number result ≡ tag_of (codes "dflt") };

    /// The tag with its ASCII letters made capital.
    fn to_uppercase(&self) -> Self
        ensures { number result ≡ uppercase_tag (number self.now) };
}

impl TagExt for Tag {
    ghost number = { λ tag. tag.0 };

    fn default_script() -> Self {
        Tag::from_bytes(b"DFLT")
    }

    fn default_language() -> Self {
        Tag::from_bytes(b"dflt")
    }

    fn to_uppercase(&self) -> Self {
        let [a, b, c, d] = self.to_bytes();
        Tag::from_bytes(&[
            a.to_ascii_uppercase(),
            b.to_ascii_uppercase(),
            c.to_ascii_uppercase(),
            d.to_ascii_uppercase(),
        ])
    }
}
