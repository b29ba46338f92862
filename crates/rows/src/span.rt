// Spans of keys.
ghost use Rattle.std.specs.Prelude.{◌≡◌};
ghost use Rattle.rows.specs.Spans.{contains_key, no_keys, overlap};

// All keys from one to another, both counted in; none where the first is above the second.
#[derive(Clone, Copy, PartialEq, Eq, Debug)]
pub struct Span {
    pub from: u32,
    pub to: u32,
}

impl Span {
    pub fn contains(self, key: u32) -> bool
        ensures { result ≡ contains_key self key }
    {
        self.from <= key && key <= self.to
    }

    pub fn is_empty(self) -> bool
        ensures { result ≡ no_keys self }
    {
        self.from > self.to
    }

    // Whether some key lies in both; never where one of them is empty.
    pub fn overlaps(self, other: Span) -> bool
        ensures { result ≡ overlap self other }
    {
        !self.is_empty() && !other.is_empty() && self.from <= other.to && other.from <= self.to
    }
}
