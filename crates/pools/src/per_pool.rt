//! A table of two entries, one for each pool.
ghost use Rattle.std.specs.Borrow.{follows, sem};
ghost use Rattle.std.specs.Prelude.{◌≡◌};
ghost use Rattle.pools.specs.PerPool.{entry_of, with_entry};
ghost use Rattle.pools.specs.contracts.per_pool.PerPool.{the_row};
ghost use Rattle.pools.specs.declared.pool.Pool.{Pool};
ghost use Rattle.pools.specs.declared.pool.Pool.TheVariants.{Generic, Flexible};

use crate::pool::Pool;

/// An entry for each pool; unit and range are those of `T`.
#[derive(Clone, Copy, Default, PartialEq, Eq, Debug)]
pub struct PerPool<T> {
    /// The generic pool's entry.
    pub generic: T,
    /// The flexible pool's entry.
    pub flexible: T,
}

impl<T> PerPool<T> {
    /// What the function answers for each pool, asked for the generic pool first. Asks that the function may be called
    /// for each.
    // A clause for each pool, as docs/DECISIONS.md says.
    pub fn of<F: Fn(Pool) -> T>(entry: F) -> PerPool<T>
        requires { (p : Pool) → F.pre entry p }
        ensures generic { F.post entry Generic result.generic }
        ensures flexible { F.post entry Flexible result.flexible }
    {
        PerPool {
            generic: entry(Pool::Generic),
            flexible: entry(Pool::Flexible),
        }
    }

    /// Lends the pool's entry, so that a change through it cannot reach the other.
    pub fn entry(&mut self, pool: Pool) -> &mut T
        ensures* lends { sem 𝓛 (follows (the_row T.row) T.row self.entry.ghost_name result.ghost_name (λ w. with_entry self.old pool w)) }
        ensures value { result.now ≡ entry_of self.old pool }
    {
        match pool {
            Pool::Generic => &mut self.generic,
            Pool::Flexible => &mut self.flexible,
        }
    }
}

impl<T: Copy> PerPool<T> {
    /// A copy of the pool's entry.
    pub fn get(&self, pool: Pool) -> T
        ensures { result ≡ entry_of self.now pool }
    {
        match pool {
            Pool::Generic => self.generic,
            Pool::Flexible => self.flexible,
        }
    }
}
