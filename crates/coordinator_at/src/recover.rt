//! Transactions that a node's records keep alive.

ghost use Rattle.std.specs.Prelude.{◌≡◌, ◌++◌, IfOk, OnOk, map, option_copied};
ghost use Rattle.at_model.specs.Recovery.{recovered_decided, recovered_seat, recovered_superior, recovered_transaction, recovered_voted};
ghost use Rattle.coordinator_at.specs.Recoveries.{commits, promised, transactions_in};
ghost use Rattle.transaction_at.specs.PhaseNames.{phase_of};

use crate::create::identifier_of;
use crate::transactions::Transactions;
use at_base::epr::Epr;
use at_base::id::Id;
use at_base::notice::Kind;
use at_base::record::{Record, Seated};
use at_base::text::Text;
use at_posts::kept::kept;
use at_tables::cells::State;
use by_id::list::is_same;
use std::alloc::{AllocError, Global};
use transaction_at::transaction::{Enlistment, Link, Phase, Seats, Superior, Transaction};

/// The seats that voted Prepared, all in this state.
fn recovered_seats(alloc: Global, state: State, seats: &[Seated]) -> Result<Seats, AllocError>
    ensures { IfOk result (λ copy. copy ≡ map (recovered_seat state) seats.now) }
{
    let mut recovered = Seats::new(alloc);
    for seated in seats {
        let participant = kept(alloc, &seated.endpoint)?;
        let seat = Enlistment {
            number: seated.number,
            kind: Kind::Durable,
            participant,
            state,
        };
        recovered.push(alloc, seat)?;
    }
    Ok(recovered)
}

/// The links of a subordinate that voted: only the durable one is left.
fn recovered_superior(alloc: Global, state: State, superior: &Epr) -> Result<Superior, AllocError>
    ensures { IfOk result (λ links. links ≡ recovered_superior state superior.now) }
{
    let coordinator = kept(alloc, superior)?;
    Ok(Superior {
        volatile: Link {
            state: State::None,
            coordinator: None,
        },
        durable: Link {
            state,
            coordinator: Some(coordinator),
        },
        request: None,
    })
}

fn recovered_transaction(
    id: Id,
    identifier: Text,
    superior: Option<Superior>,
    phase: Phase,
    seats: Seats,
) -> Transaction
    ensures { result ≡ recovered_transaction id identifier superior (phase_of phase) seats }
{
    Transaction {
        id,
        identifier,
        superior,
        phase,
        deadline: None,
        sent: None,
        aborted: None,
        seats,
        completion: None,
    }
}

/// A subordinate that voted, in this phase, with its link and its seats in these states.
fn recovered_subordinate(
    alloc: Global,
    id: Id,
    superior: &Epr,
    seats: &[Seated],
    committed: bool,
) -> Result<Transaction, AllocError>
    ensures { IfOk result
        (λ transaction. transaction ≡ recovered_voted id superior.now seats.now committed) }
{
    let (phase, link, seat) = if committed {
        (Phase::Committing, State::Committing, State::Committing)
    } else {
        (Phase::Voted, State::PreparedSuccess, State::Prepared)
    };
    let superior = recovered_superior(alloc, link, superior)?;
    let seats = recovered_seats(alloc, seat, seats)?;
    let identifier = Text::from_string(String::new(alloc));
    Ok(recovered_transaction(id, identifier, Some(superior), phase, seats))
}

/// A root that decided to commit.
fn recovered_root(
    alloc: Global,
    base: &Text,
    id: Id,
    seats: &[Seated],
) -> Result<Transaction, AllocError>
    ensures { IfOk result (λ transaction. transaction ≡ recovered_decided base.now id seats.now) }
{
    let identifier = identifier_of(alloc, base, id)?;
    let seats = recovered_seats(alloc, State::Committing, seats)?;
    Ok(recovered_transaction(id, identifier, None, Phase::Committing, seats))
}

/// Whether a record is the SubCommitted of this id.
fn commits(id: Id, next: Option<&Record>) -> bool
    ensures { result ≡ commits id (option_copied next.entry) }
{
    match next {
        Some(Record::SubCommitted { id: committed }) => is_same(*committed, id),
        _ => false,
    }
}

/// The transaction of a live record, with the record behind it.
fn push_recovered(
    alloc: Global,
    transactions: &mut Vec<Transaction>,
    base: &Text,
    entry: &Record,
    next: Option<&Record>,
) -> Result<(), AllocError>
    ensures { OnOk result
        (transactions.new.items
        ≡ transactions.old.items ++ promised base.now entry.now (option_copied next.entry)) }
{
    match entry {
        Record::Voted {
            id,
            superior,
            seats,
        } => {
            let committed = commits(*id, next);
            let transaction = recovered_subordinate(
                alloc,
                *id,
                superior,
                seats.as_slice(),
                committed,
            )?;
            transactions.push(transaction)?;
            Ok(())
        }
        Record::Decided { id, seats } => {
            let transaction = recovered_root(alloc, base, *id, seats.as_slice())?;
            transactions.push(transaction)?;
            Ok(())
        }
        _ => Ok(()),
    }
}

impl Transactions {
    /// The transactions that live records promise, in their order: a SubCommitted stands directly behind its Voted.
    pub fn recover(alloc: Global, base: &Text, live: &[Record]) -> Result<Transactions, AllocError>
        ensures { IfOk result (λ transactions. transactions ≡ transactions_in base.now live.now) }
    {
        let mut transactions = Vec::new(alloc);
        let mut place = 0;
        for entry in live {
            place += 1;
            push_recovered(alloc, &mut transactions, base, entry, live.get(place))?;
        }
        Transactions::from_vec(transactions)
    }
}
