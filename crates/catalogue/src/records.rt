// A supplement as its records, one after the other.
ghost use Rattle.std.specs.Prelude.{◌≡◌};
ghost use Rattle.std.specs.Iterator.{YieldsFirstRef, item_count};
ghost use Rattle.catalogue.specs.Kind.{record_size};
ghost use Rattle.catalogue.specs.Supplement.{records_of};

use crate::kind::record_size;

// The records of the bytes that are left. Neighbours are mostly of one kind, so a size serves until the kind changes: to look it up
// for each record makes the search half as long again.
#[derive(Drop)]
pub(crate) struct Records<'a> {
    rest: &'a [u8],
    kind: u8,
    size: usize,
    ghost sized: { size ≡ record_size kind },
}

impl<'a> Records<'a> {
    pub(crate) fn of(s: &'a [u8]) -> Records<'a>
        ensures { result.rest.now ≡ s.now }
    {
        Records {
            rest: s,
            kind: 0,
            size: record_size(0),
        }
    }
}

// A record that the end cuts is what there is of it.
#[tactic(auto, using(crate::proofs::supplement::Laws::records_cut, crate::proofs::supplement::Laws::records_none))]
impl<'a> Iterator for Records<'a> {
    type Item = &'a [u8];

    ghost next_gives = { YieldsFirstRef (λ r. records_of r.rest.now) };

    ghost remaining = { item_count (λ r. records_of r.rest.now) };

    fn next(&mut self) -> Option<&'a [u8]> {
        let kind = *self.rest.first()?;
        if kind != self.kind {
            self.kind = kind;
            self.size = record_size(kind);
        }
        let (record, rest) = self.rest.split_at(self.size.min(self.rest.len()));
        self.rest = rest;
        Some(record)
    }
}
