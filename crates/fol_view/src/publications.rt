//! All publications so far, as one history.

ghost use Rattle.std.specs.Prelude.{◌≡◌, ◌+◌, ◌==◌, ◌<◌, ◌≤◌, ◌^◌, ◌++◌, ◌∷◌, ◌⊎◌, [], length, MatchBool, All};
ghost use Rattle.fol_lock.specs.Log.{StartsWith};
ghost use Rattle.fol_view.specs.Publications.{MayFollow, head_of};

use crate::publication::Publication;
use logbook::{Gain, Offer, Plain, Play, Rule, Seen, Start, Word};
use std::marker::Model;

/// The rule of the history: fronts never fall.
pub struct FrontsNeverFall;

impl Rule<Publication, u64> for FrontsNeverFall {
    ghost use Rattle.std.specs.Prelude.{[]};
    ghost use base.Fml.{ftrue};
    ghost use Rattle.fol_view.specs.Publications.{IsKept};

    ghost holds = { λ cells log. IsKept cells log };

    ghost first = { [] };

    ghost hinted = { λ n log. Unit {0} };

    ghost shows = { λ log. [] };

    ghost keeps = { λ names log. ftrue };

    ghost moves = { λ ask before after answer. Unit {0} };
}

/// Callers trade nothing.
pub struct Nothing;

impl Gain<Publication, u64> for Nothing {
    ghost use base.Fml.{ftrue};

    ghost after = { λ names about answer. ftrue };
}

/// A step that adds a publication.
pub struct Add;

impl Play<Publication, u64> for Add {
    ghost use Rattle.fol_view.specs.Publications.{Adds};

    ghost then = { Adds };
}

impl Plain<Publication, Publication, u64> for Add {
    ghost use Rattle.std.specs.Prelude.{None};

    ghost ask = { λ publication. publication };

    ghost state = { λ publication. None };
}

/// The word that counts the publications of a history.
pub(crate) type Head = Word<Publication, u64, FrontsNeverFall>;

/// A beginning of the one history of publications.
#[derive(Drop)]
pub struct Publications {
    count: u64,
    seen: Seen<Publication, u64, FrontsNeverFall>,
}

impl Model for Publications {
    ghost use Rattle.fol_view.specs.Publications.{Listed, listed, IsListed};

    ghost Value = { Listed };

    ghost view = { λ p. listed p.seen.book p.seen.log };

    ghost invariant = { λ p. IsListed p.count p.seen.log };
}

/// A new history.
pub(crate) struct Opened {
    pub head: Head,
    pub all: Publications,
    pub ghost head_is: { head ≡ head_of all.book },
    pub ghost empty: { all.list ≡ [] },
}

impl Publications {
    /// A history with no publication.
    pub(crate) fn open() -> Opened {
        let (seen, mut first, _second) = Seen::open(Start::alone(), 0, 0);
        let head = Word::tracked(0, &mut first);
        Opened {
            head,
            all: Publications { count: 0, seen },
        }
    }

    /// How many there are.
    pub(crate) fn len(&self) -> u64
        ensures { result ≡ length self.now.list }
    {
        self.count
    }

    /// The same once more. Takes no memory.
    pub(crate) fn again(&self) -> Publications
        ensures { result ≡ self.now }
    {
        Publications {
            count: self.count,
            seen: self.seen.again(),
        }
    }

    /// The longer of two beginnings of one history, which starts with both.
    pub(crate) fn longer(&self, other: &Publications) -> Publications
        requires { self.now.book ≡ other.now.book }
        ensures book { result.book ≡ self.now.book }
        ensures this { StartsWith result.list self.now.list }
        ensures that { StartsWith result.list other.now.list }
        ensures one { (result ≡ self.now) ⊎ (result ≡ other.now) }
        ensures other { length self.now.list ≤ length other.now.list → result ≡ other.now }
    {
        let mut both = self.seen.again();
        both.learn(&other.seen);
        if self.count <= other.count {
            other.again()
        } else {
            self.again()
        }
    }

    /// Adds a publication to the history, and returns whether it did. It did not where the history was longer than this, which has
    /// grown then.
    pub(crate) fn add(&mut self, head: &Head, publication: &Publication) -> bool
        requires head { head.now ≡ head_of self.old.book }
        requires room { length self.old.list < 2 ^ 62 }
        requires next { MayFollow self.old.list publication.now }
        ensures book { self.new.book ≡ self.old.book }
        ensures added { MatchBool result (self.new.list ≡ self.old.list ++ publication.now ∷ [])
            (StartsWith self.new.list self.old.list) }
    {
        let mut offer: Offer<Publication, u64, FrontsNeverFall, Nothing> = self
            .seen
            .plain::<Nothing, Publication, Add>(publication);
        let mut pen = self.seen.no_pen();
        let count = self.count;
        let found = head.compare_exchange::<Add, Nothing>(
            count,
            count + 1,
            &mut self.seen,
            &mut offer,
            &mut pen,
        );
        self.count = if found == count { count + 1 } else { found };
        found == count
    }
}
