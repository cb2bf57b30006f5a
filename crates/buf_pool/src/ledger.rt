//! A ledger of shares, each of which shows which ledger it is of. It counts for contracts alone.
ghost use Rattle.std.specs.Prelude.{◌≡◌, ◌+◌, ◌-◌, ◌<◌, IfOk};
ghost use Rattle.buf_pool.specs.Holders.{IsKept, one_more_out, one_fewer_out, ShowsKeeper};
ghost use Rattle.buf_pool.specs.declared.ledger.Holder.TheVariants.{Keeper, Lent, Returned};

use atomic_table::{Join, Play, Seat, Split, Table, TableRule};
use std::alloc::{AllocError as NoMemory, Global};
use std::marker::Model;

/// What a holder of the ledger knows. No value of it is made.
pub enum Holder {
    /// The ledger itself, which knows how many shares are out.
    Keeper(u64),
    /// A share that is out.
    Lent,
    /// A share that came back.
    Returned,
}

struct ShareRule;

impl TableRule<(), Holder, ()> for ShareRule {
    ghost holds = { λ _. IsKept };

    ghost first = { λ _. Keeper 0 };
}

struct Lend;

impl Split<Holder> for Lend {
    ghost left = { one_more_out };

    ghost right = { λ _. Lent };
}

struct Return;

impl Join<Holder> for Return {
    ghost both = { λ keeper _. one_fewer_out keeper };

    ghost spent = { Returned };
}

struct Look;

impl Play<(), Holder> for Look {
    ghost then = { ShowsKeeper };
}

/// The ledger. A clause sees its name, which no other ledger has, and how many of its shares are out.
#[derive(Drop)]
pub(crate) struct Ledger {
    table: Table<(), Holder, (), ShareRule, Global>,
    keeper: Seat<(), Holder>,
}

impl Model for Ledger {
    ghost use Rattle.std.specs.Prelude.{◌≡◌, ◌<◌, [], ℕ};
    ghost use Rattle.buf_pool.specs.declared.ledger.Holder.TheVariants.{Keeper};
    ghost use Rattle.buf_pool.specs.Ledgers.{LedgerState, ledger_code, known_out};

    ghost Value = { LedgerState };

    ghost coded = { ledger_code };

    ghost view = { λ l. record { name = l.keeper.table_id; out = known_out l.keeper.me.0 } };

    ghost invariant = { λ l. record {
      own : l.keeper.table_id ≡ l.table.shared.table_id;
      some_word : 0 < l.table.shared.table_id.words;
      first : l.keeper.id ≡ 0;
      empty : l.keeper.me.1 ≡ [];
      keeps : (n : ℕ) × (l.keeper.me.0 ≡ Keeper n);
    } };
}

/// A share of a ledger. A clause sees the ledger's name.
#[derive(Drop)]
pub(crate) struct Share {
    seat: Seat<(), Holder>,
}

impl Model for Share {
    ghost use Rattle.std.specs.Prelude.{◌≡◌, []};
    ghost use Rattle.atomic_table.specs.Seated.{TableId, table_id_coded};
    ghost use Rattle.buf_pool.specs.declared.ledger.Holder.TheVariants.{Lent};

    ghost Value = { TableId };

    ghost coded = { table_id_coded };

    ghost view = { λ s. s.seat.table_id };

    ghost invariant = { λ s. s.seat.me ≡ (Lent, []) };
}

impl Ledger {
    /// A ledger of which no share is out.
    pub(crate) fn open(alloc: Global) -> Result<Ledger, NoMemory>
        ensures { IfOk result (λ ledger. ledger.out ≡ 0) }
    {
        let (table, keeper) = Table::of_words(alloc, &[0], &())?;
        Ok(Ledger { table, keeper })
    }

    pub(crate) fn lend(&mut self) -> Share
        ensures share { result ≡ self.old.name }
        ensures name { self.new.name ≡ self.old.name }
        ensures out { self.new.out ≡ self.old.out + 1 }
    {
        let Ledger { table, keeper } = self;
        let seat = table.shared.split_seat::<Lend>(keeper);
        Share { seat }
    }

    /// Shows that a share was out.
    pub(crate) fn take_back(&mut self, share: Share)
        requires { share ≡ self.old.name }
        ensures name { self.new.name ≡ self.old.name }
        ensures out { self.new.out + 1 ≡ self.old.out }
    {
        let Share { seat } = share;
        let Ledger { table, keeper } = self;
        table.shared.join_seat::<Return>(keeper, seat);
        table.shared.load::<Look>(keeper, 0);
    }
}
