// The layout of a record: its PRNs.
ghost use Rattle.std.specs.Prelude.{◌≡◌, ◌≤◌, length};
ghost use Rattle.catalogue.specs.Record.{most_prns, layout_row};
ghost use Rattle.catalogue.specs.Lookup.{prns_used};

use crate::kind::MOST_PRNS;
use crate::record::{LAYOUT_COUNT, LAYOUT_PRNS, two_at};
use frame::bytes::byte_at;
use std::marker::Model;

// As many of the sixteen PRNs as the count says. The places behind them are zero, so that what is seen of it gives its fields back.
#[derive(Clone, Copy)]
pub struct Layout {
    count: usize,
    prns: [u16; MOST_PRNS],
}

impl Model for Layout {
    ghost use Rattle.std.specs.Prelude.{length, take};
    ghost use Rattle.catalogue.specs.Record.{LayoutRow};
    ghost use Rattle.catalogue.specs.Lookup.{in_sixteen, UsedFirst};

    ghost Value = { LayoutRow };

    ghost view = { λ l. record { prns = take l.count l.prns } };

    ghost invariant = { λ l. UsedFirst l.count l.prns };

    ghost inverse = { λ r. record { count = length r.prns; prns = in_sixteen r.prns } };

    ghost inverse_ok = { λ l h i. record { count = h.used i; prns = h.rest i } };
}

impl Layout {
    // The layout of a record.
    pub(crate) fn of(bytes: &[u8]) -> Layout
        ensures { result ≡ layout_row bytes.now }
    {
        let said = byte_at(bytes, LAYOUT_COUNT) as usize;
        let count = said.min(MOST_PRNS);
        let prns = prns_of(bytes, count);
        Layout { count, prns }
    }

    pub fn prns(&self) -> &[u16]
        ensures prns { result.now ≡ self.now.prns }
        ensures most { length result.now ≤ most_prns }
    {
        &self.prns[..self.count]
    }
}

// So many PRNs of a layout record. Most layouts use few of the sixteen. The loop goes by the place, which array and record share: an
// iterator over the array's part would have to cut it first, and count the place too.
fn prns_of(bytes: &[u8], count: usize) -> [u16; MOST_PRNS]
    requires { count ≤ most_prns }
    ensures { result ≡ prns_used count bytes.now }
{
    let mut prns = [0u16; MOST_PRNS];
    for i in 0..count {
        prns[i] = two_at(bytes, LAYOUT_PRNS + i * 2);
    }
    prns
}
