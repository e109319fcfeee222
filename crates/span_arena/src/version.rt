//! A version of a row.
ghost use Rattle.std.specs.Prelude.{◌≡◌};
ghost use Rattle.std.specs.Option.{option_copied};
ghost use Rattle.span_arena.specs.Images.{image_of};

use span_value::seq::Seq;
use std::marker::Model;

/// What a commit left of a row.
#[derive(Debug, Drop, PartialEq, Eq)]
pub struct ArenaVersion {
    /// The commit timestamp.
    pub timestamp: u64,
    /// The packed row; none is a deletion.
    pub image: Option<Seq<u8>>,
}

/// A version that is lent. Contracts see the version.
#[derive(Drop)]
pub struct LentVersion<'a> {
    timestamp: u64,
    image: Option<&'a Seq<u8>>,
}

impl<'a> Model for LentVersion<'a> {
    ghost use Rattle.std.specs.Option.{option_copied};
    ghost use Rattle.span_arena.specs.declared.version.ArenaVersion.{ArenaVersion};

    ghost Value = { ArenaVersion };

    ghost view = { λ v. record { timestamp = v.timestamp; image = option_copied v.image } };
}

impl<'a> LentVersion<'a> {
    pub(crate) fn new(timestamp: u64, has_image: bool, image: &'a Seq<u8>) -> LentVersion<'a>
        ensures { result ≡ record { timestamp = timestamp; image = image_of has_image image.now } }
    {
        if has_image {
            LentVersion {
                timestamp,
                image: Some(image),
            }
        } else {
            LentVersion {
                timestamp,
                image: None,
            }
        }
    }

    /// The commit timestamp.
    pub fn timestamp(&self) -> u64
        ensures { result ≡ self.now.timestamp }
    {
        self.timestamp
    }

    /// The packed row; none is a deletion.
    pub fn image(&self) -> Option<&'a Seq<u8>>
        ensures { option_copied result ≡ self.now.image }
    {
        self.image
    }
}
