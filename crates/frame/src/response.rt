// The response: its kind, and its bytes without check byte.
ghost use Rattle.std.specs.Prelude.{◌≡◌};
ghost use Rattle.frame.specs.Response.{kind_number, response_size};

// What response a message type asks for: document 000, table 5. The number of Unassigned is handed over nowhere.
#[derive(Clone, Copy, Debug, PartialEq, Eq)]
pub enum ResponseKind {
    // "response kind 0, empty"
    Empty = 0,
    // "Kind 1: exactly one address byte."
    Single = 1,
    // "Kind 2: one or more address bytes."
    Several = 2,
    // "Kind 3: one or more data bytes, then a check byte over those data alone."
    Data = 3,
    // An unassigned type has no kind. It is no None, since by the definitions `type_table` and `kind_number` it has a place and a number.
    Unassigned = 4,
}

impl ResponseKind {
    pub fn number(self) -> u8
        ensures { result ≡ kind_number self }
    {
        self as u8
    }

    // How many of a response's n bytes are not its check byte.
    #[tactic(auto, unfolding(crate::specs::Response::response_size))]
    pub(crate) fn response_size(self, n: usize) -> usize
        ensures { result ≡ response_size self n }
    {
        if self == ResponseKind::Data {
            n.saturating_sub(1)
        } else {
            n
        }
    }
}
