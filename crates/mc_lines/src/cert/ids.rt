// Ids, each of a type of its own, as numbers.
ghost use Rattle.std.specs.Prelude.{◌≡◌, ℕ, refl};

use mc_base::{EdgeId, NodeId, PointId, PredId, StructId};

/// A type of ids. `of` and `number` are inverse to each other.
pub trait Id {
    /// The number that a value holds.
    ghost number_of: { Self → ℕ };

    /// The value that holds a number.
    ghost id_of: { ℕ → Self };

    fn of(n: u64) -> Self
        ensures { result ≡ id_of n };

    fn number(&self) -> u64
        ensures { result ≡ number_of self.now };

    ghost number_back: { (n : ℕ) → number_of (id_of n) ≡ n };

    ghost id_back: { (x : Self) → id_of (number_of x) ≡ x };
}

impl Id for NodeId {
    ghost number_of = { λ x. x.0 };

    ghost id_of = { λ n. record { 0 = n } };

    ghost number_back = { λ n. refl };

    ghost id_back = { λ x. refl };

    fn of(n: u64) -> NodeId {
        NodeId(n)
    }

    fn number(&self) -> u64 {
        self.0
    }
}

impl Id for EdgeId {
    ghost number_of = { λ x. x.0 };

    ghost id_of = { λ n. record { 0 = n } };

    ghost number_back = { λ n. refl };

    ghost id_back = { λ x. refl };

    fn of(n: u64) -> EdgeId {
        EdgeId(n)
    }

    fn number(&self) -> u64 {
        self.0
    }
}

impl Id for PointId {
    ghost number_of = { λ x. x.0 };

    ghost id_of = { λ n. record { 0 = n } };

    ghost number_back = { λ n. refl };

    ghost id_back = { λ x. refl };

    fn of(n: u64) -> PointId {
        PointId(n)
    }

    fn number(&self) -> u64 {
        self.0
    }
}

impl Id for StructId {
    ghost number_of = { λ x. x.0 };

    ghost id_of = { λ n. record { 0 = n } };

    ghost number_back = { λ n. refl };

    ghost id_back = { λ x. refl };

    fn of(n: u64) -> StructId {
        StructId(n)
    }

    fn number(&self) -> u64 {
        self.0
    }
}

impl Id for PredId {
    ghost number_of = { λ x. x.0 };

    ghost id_of = { λ n. record { 0 = n } };

    ghost number_back = { λ n. refl };

    ghost id_back = { λ x. refl };

    fn of(n: u64) -> PredId {
        PredId(n)
    }

    fn number(&self) -> u64 {
        self.0
    }
}
