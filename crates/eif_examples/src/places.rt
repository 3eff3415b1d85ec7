use eif_base::Place;

/// Which places of a tree count: all, or those with one of the offsets alone.
#[derive(Clone, Copy)]
pub struct Places<'o> {
    pub all: bool,
    pub offsets: &'o [u32],
}

impl<'o> Places<'o> {
    ghost use Rattle.std.specs.Prelude.{◌≡◌};
    ghost use Rattle.eif_examples.specs.Digest.{reads_of};

    pub(crate) fn reads(self, place: Place) -> bool
        ensures { result ≡ reads_of self.entry place }
    {
        self.all || self.offsets.contains(&place.offset)
    }
}
