// What an entry says was done to the rows.
ghost use Rattle.std.specs.Prelude.{◌≡◌, ◌&&◌, true, false, MatchResult};
ghost use Rattle.codec.specs.Bounds.{is_key};
ghost use Rattle.codec.specs.Actions.{HasWords, ReadsAs};

use rows::kind::Kind;
use rows::span::Span;

// An order without its rows: the files that an entry adds have them.
#[derive(Clone, Copy, PartialEq, Eq, Debug)]
pub enum Action {
    Insert,
    Erase(Span),
    Raise(Span, u32),
    Pack(u64),
}

// Numbers that no action has.
#[derive(Clone, Copy, PartialEq, Eq, Debug)]
pub struct NoAction;

// Kind and three numbers, of which those that the kind does not use are 0.
impl From<Action> for [u64; 4] {
    ghost from_gives = { HasWords };

    fn from(action: Action) -> [u64; 4] {
        let (kind, [a, b, c]) = match action {
            Action::Insert => (Kind::Insert, [0, 0, 0]),
            Action::Erase(span) => (Kind::Erase, [span.from.into(), span.to.into(), 0]),
            Action::Raise(span, by) => (Kind::Raise, [span.from.into(), span.to.into(), by.into()]),
            Action::Pack(most) => (Kind::Pack, [most, 0, 0]),
        };
        [kind.into(), a, b, c]
    }
}

impl TryFrom<[u64; 4]> for Action {
    type Error = NoAction;

    ghost try_from_gives = { ReadsAs };

    fn try_from(words: [u64; 4]) -> Result<Action, NoAction> {
        let [kind, a, b, c] = words;
        let Ok(kind) = Kind::try_from(kind) else {
            return Err(NoAction);
        };
        match (kind, [a, b, c]) {
            (Kind::Insert, [0, 0, 0]) => Ok(Action::Insert),
            (Kind::Erase, [from, to, 0]) => Ok(Action::Erase(span(from, to)?)),
            (Kind::Raise, [from, to, by]) => Ok(Action::Raise(span(from, to)?, key(by)?)),
            (Kind::Pack, [most, 0, 0]) => Ok(Action::Pack(most)),
            _ => Err(NoAction),
        }
    }
}

fn key(number: u64) -> Result<u32, NoAction>
    ensures { MatchResult result (λ key. (key ≡ number) × (is_key number ≡ true)) (λ _. is_key number ≡ false) }
{
    u32::try_from(number).map_err(|_| NoAction)
}

fn span(from: u64, to: u64) -> Result<Span, NoAction>
    ensures { MatchResult result (λ span. (span.from ≡ from) × (span.to ≡ to) × (is_key from ≡ true) × (is_key to ≡ true)) (λ _. (is_key from && is_key to) ≡ false) }
{
    Ok(Span {
        from: key(from)?,
        to: key(to)?,
    })
}
