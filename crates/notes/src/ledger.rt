//! How often something has happened, by where.

ghost use Rattle.std.specs.Prelude.{◌≡◌, ◌<◌, ◌≤◌, ◌^◌, IfOk, get_or, replicate};
ghost use Rattle.cover.specs.Tallies.{account_count};
ghost use Rattle.notes.specs.Counted.{counted_more, is_first, left_after, taken};

use cover::ACCOUNTS;
use std::alloc::{AllocError, Global};
use std::marker::Model;

/// How often something has happened, for each account by its number.
#[derive(Drop)]
pub(crate) struct Ledger {
    counts: Vec<u64>,
}

impl Model for Ledger {
    ghost use Rattle.std.specs.Prelude.{◌≡◌, ℕ, List, vec_len};
    ghost use Rattle.cover.specs.Tallies.{account_count};

    ghost Value = { List ℕ };

    ghost view = { λ l. l.counts.items };

    ghost invariant = { λ l. vec_len l.counts ≡ account_count };
}

impl Ledger {
    /// Nothing has happened. All memory is taken here.
    pub(crate) fn new(alloc: Global) -> Result<Ledger, AllocError>
        ensures { IfOk result (λ ledger. ledger ≡ replicate account_count 0) }
    {
        let mut counts = Vec::with_capacity(alloc, ACCOUNTS)?;
        counts.resize(ACCOUNTS, 0)?;
        Ok(Ledger { counts })
    }

    /// Counts once more at the number of an account, where something happens, and answers whether that is the first
    /// time.
    pub(crate) fn count(&mut self, number: usize, happens: bool) -> bool
        requires within { number < account_count }
        requires small { get_or self.old number 0 ≤ 2 ^ 62 }
        ensures counted { self.new ≡ counted_more self.old number happens }
        ensures first { result ≡ is_first self.old number happens }
    {
        if !happens {
            return false;
        }
        let before = self.counts[number];
        self.counts[number] = before + 1;
        before == 0
    }

    /// What was counted at the number of an account, where that is asked for, else 0.
    pub(crate) fn held(&self, number: usize, is_asked: bool) -> u64
        requires { number < account_count }
        ensures { result ≡ taken self.now number is_asked }
    {
        if is_asked { self.counts[number] } else { 0 }
    }

    /// Takes what was counted at the number of an account, where something happens, and leaves 0 there.
    pub(crate) fn take(&mut self, number: usize, happens: bool) -> u64
        requires within { number < account_count }
        ensures out { result ≡ taken self.old number happens }
        ensures left { self.new ≡ left_after self.old number happens }
    {
        if !happens {
            return 0;
        }
        let count = self.counts[number];
        self.counts[number] = 0;
        count
    }
}
