//! Kinds of length: by what measure one way is better than another.
ghost use Rattle.std.specs.Prelude.{◌≡◌};
ghost use Rattle.model.specs.declared.network.Link.{Link};
ghost use Rattle.routes.specs.LengthLaws.{LengthLaws};

use model::Link;
use queue::Rank;

/// A kind of length. As a `Rank` its order is total: the better length is before the other.
pub trait Length: Rank {
    /// The length of the way from a station to itself.
    ghost starting: { Self };

    /// The length of a way with one link more.
    ghost longer: { Self → Link → Self };

    /// The length of the way from a station to itself.
    fn start() -> Self
        ensures { result ≡ starting };

    /// The length of a way with one link more.
    fn lengthen(&self, link: &Link) -> Self
        ensures { result ≡ longer self.now link.now };

    /// What each kind of length must prove.
    ghost laws: { LengthLaws Self.before longer };
}
