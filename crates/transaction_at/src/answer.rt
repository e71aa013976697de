//! How a subordinate's CreateCoordinationContext is answered (WS-Coordination 1.2, section 3.1): with the context once
//! neither link is Registering, with CannotCreateContext where the subordinate ended before.

ghost use Rattle.std.specs.Prelude.{◌≡◌, ◌++◌, ◌∷◌, [], List, IfOk, OnOk, Option, Some, if◌then◌else◌, option_copied, option_map};
ghost use Rattle.at_base.specs.declared.message.Message.TheVariants as messages;
ghost use Rattle.at_model.specs.Arrivals.{answer_request, context_of, refused_request, request_answered, request_left, request_of, request_stands, request_under, with_answer};
ghost use Rattle.at_base.specs.declared.outs.Effect.{Effect};
ghost use Rattle.at_model.specs.Book.{Phase as Stage, Transaction as Known};
ghost use Rattle.at_model.specs.Moves.{Records};
ghost use Rattle.at_model.specs.Posts.{reply_post};
ghost use Rattle.at_model.specs.Seats.{under};
ghost use Rattle.transaction_at.specs.Moves.{fate_of, meant, moved, turn_of};

use crate::at_link::is_registering;
use crate::moves::Move;
use crate::phases::or_undone;
use crate::transaction::{Phase, Request, Superior, Transaction};
use at_base::epr::Reply;
use at_base::event::Moment;
use at_base::fault::Fault;
use at_base::message::{Context, Message};
use at_base::record::Record;
use at_base::target::Target;
use at_base::text::Text;
use at_posts::list::PostList;
use at_posts::posts::{fault_post, reply_post};
use by_id::fates::{Choice, Fate, Turn};
use endpoints::addresses::endpoint_of;
use endpoints::uris::atomic;
use std::alloc::{AllocError, Global};
use std::mem::replace;

/// The context of a transaction, which lasts this many milliseconds, or any time.
pub fn context_of(
    alloc: Global,
    base: &Text,
    transaction: &Transaction,
    expires: Option<u32>,
) -> Result<Context, AllocError>
    ensures { IfOk result (λ context. context ≡ context_of base.now transaction.now expires) }
{
    let identifier = transaction.identifier.clone()?;
    let coordination = Text::copied(alloc, atomic())?;
    let registration = endpoint_of(alloc, base, &Target::Registration(transaction.id))?;
    Ok(Context {
        identifier,
        expires,
        coordination,
        registration,
    })
}

/// Adds the fault CannotCreateContext, where it can be sent.
fn push_refused(alloc: Global, posts: &mut PostList, request: &Request) -> Result<(), AllocError>
    ensures { OnOk result (posts.new ≡ posts.old ++ refused_request request.now) }
{
    match &request.fault {
        Reply::Anonymous | Reply::Nobody => Ok(()),
        Reply::At(to) => {
            let to = to.clone()?;
            posts.push(fault_post(alloc, Some(to), &request.id, Fault::CannotCreateContext)?)
        }
    }
}

/// Adds the answer with the transaction's context.
fn push_created(
    alloc: Global,
    posts: &mut PostList,
    moment: &Moment,
    request: &Request,
    transaction: &Transaction,
) -> Result<(), AllocError>
    ensures { OnOk result
        (posts.new
        ≡ posts.old
        ++ reply_post (Some request.now.reply) request.now.id
        (messages.CreateResponse (context_of moment.entry.now.base transaction.now request.now.expires))
        ∷ []) }
{
    let to = request.reply.clone()?;
    let context = context_of(alloc, &moment.base, transaction, request.expires)?;
    posts.push(reply_post(Some(to), &request.id, Message::CreateResponse(context))?)
}

/// The transaction's own request is answered.
fn set_answered(transaction: &mut Transaction)
    ensures { transaction.new ≡ record transaction.old { superior = option_map request_answered transaction.old.superior } }
{
    if let Some(superior) = &mut transaction.superior {
        superior.request = None;
    }
}

/// Adds the answer of a request that the transaction, which isn't Aborting, can give by now; whether it does.
fn push_ready(
    alloc: Global,
    posts: &mut PostList,
    moment: &Moment,
    request: &Request,
    superior: &Superior,
    transaction: &Transaction,
) -> Result<bool, AllocError>
    ensures { (effects : List Effect) → IfOk result
        (λ yes. record { item = Some (if yes then under (request_answered superior.now) transaction.now else transaction.now); posts = posts.new; effects = effects }
        ≡ request_stands moment.entry.now request.now transaction.now superior.now Stage.Active
        (record { item = Some transaction.now; posts = posts.old; effects = effects })) }
{
    if is_registering(superior) {
        return Ok(false);
    }
    push_created(alloc, posts, moment, request, transaction)?;
    Ok(true)
}

/// Adds the answer of a request, where the transaction can give it by now; whether it does.
fn push_answer(
    alloc: Global,
    posts: &mut PostList,
    moment: &Moment,
    request: &Request,
    superior: &Superior,
    transaction: &Transaction,
) -> Result<bool, AllocError>
    ensures { (effects : List Effect) → IfOk result
        (λ yes. record { item = Some (if yes then under (request_answered superior.now) transaction.now else transaction.now); posts = posts.new; effects = effects }
        ≡ request_stands moment.entry.now request.now transaction.now superior.now transaction.now.phase
        (record { item = Some transaction.now; posts = posts.old; effects = effects })) }
{
    match transaction.phase {
        Phase::Aborting => {
            push_refused(alloc, posts, request)?;
            Ok(true)
        }
        Phase::Registering
        | Phase::Active
        | Phase::Volatile
        | Phase::Durable
        | Phase::Voted
        | Phase::Committing => {
            let ready = push_ready(alloc, posts, moment, request, superior, transaction)?;
            Ok(ready)
        }
    }
}

/// The answer, where the transaction stays.
fn request_under(
    alloc: Global,
    posts: &mut PostList,
    moment: &Moment,
    request: &Request,
    transaction: &mut Transaction,
) -> Result<(), AllocError>
    ensures { (effects : List Effect) → OnOk result
        (record { item = Some transaction.new; posts = posts.new; effects = effects }
        ≡ request_under moment.entry.now request.now transaction.old transaction.old.superior
        (record { item = Some transaction.old; posts = posts.old; effects = effects })) }
{
    let now = &*transaction;
    let Some(superior) = &now.superior else {
        return Ok(());
    };
    if push_answer(alloc, posts, moment, request, superior, now)? {
        set_answered(transaction);
    }
    Ok(())
}

/// A copy of the transaction whose own request is answered.
fn answered(transaction: &Transaction) -> Result<Transaction, AllocError>
    ensures { IfOk result
        (λ next. next
        ≡ record transaction.now { superior = option_map request_answered transaction.now.superior }) }
{
    let mut next = transaction.clone()?;
    set_answered(&mut next);
    Ok(next)
}

/// The answer, where the transaction was to stay as it is: it is given anew only where it answers.
fn request_kept(
    alloc: Global,
    posts: &mut PostList,
    moment: &Moment,
    request: &Request,
    transaction: &Transaction,
) -> Result<Fate<Transaction, Move>, AllocError>
    ensures { (effects : List Effect) → IfOk result
        (λ fate. record { item = fate_of (Some transaction.now) fate; posts = posts.new; effects = effects }
        ≡ request_under moment.entry.now request.now transaction.now transaction.now.superior
        (record { item = Some transaction.now; posts = posts.old; effects = effects })) }
{
    let Some(superior) = &transaction.superior else {
        return Ok(Fate::Keep);
    };
    if push_answer(alloc, posts, moment, request, superior, transaction)? {
        Ok(Fate::Put(answered(transaction)?))
    } else {
        Ok(Fate::Keep)
    }
}

/// A copy of the transaction, moved.
fn moved(transaction: &Transaction, by: Move) -> Result<Transaction, AllocError>
    ensures { IfOk result (λ next. next ≡ moved by transaction.now) }
{
    let mut next = transaction.clone()?;
    by.make(&mut next);
    Ok(next)
}

/// The answer of a request, where the transaction is given anew.
fn request_put(
    alloc: Global,
    posts: &mut PostList,
    moment: &Moment,
    request: &Request,
    mut next: Transaction,
) -> Result<Fate<Transaction, Move>, AllocError>
    ensures { (found : Option Known) (effects : List Effect) → IfOk result
        (λ fate. record { item = fate_of found fate; posts = posts.new; effects = effects }
        ≡ request_under moment.entry.now request.now next next.superior
        (record { item = Some next; posts = posts.old; effects = effects })) }
{
    request_under(alloc, posts, moment, request, &mut next)?;
    Ok(Fate::Put(next))
}

/// The answer of a request, behind what is posted. It is waited for before a transaction has seats, so to copy one that
/// is moved costs little.
fn request_left(
    alloc: Global,
    posts: &mut PostList,
    moment: &Moment,
    request: &Request,
    transaction: &Transaction,
    fate: Fate<Transaction, Move>,
) -> Result<Fate<Transaction, Move>, AllocError>
    ensures { (effects : List Effect) → IfOk result
        (λ next. record { item = fate_of (Some transaction.now) next; posts = posts.new; effects = effects }
        ≡ request_left moment.entry.now request.now (fate_of (Some transaction.now) fate)
        (record { item = fate_of (Some transaction.now) fate; posts = posts.old; effects = effects })) }
{
    match fate {
        Fate::Keep => request_kept(alloc, posts, moment, request, transaction),
        Fate::Forget => {
            push_refused(alloc, posts, request)?;
            Ok(Fate::Forget)
        }
        Fate::Put(next) => request_put(alloc, posts, moment, request, next),
        Fate::Move(by) => {
            let next = moved(transaction, by)?;
            request_put(alloc, posts, moment, request, next)
        }
    }
}

/// The answer of this request.
fn with_request(
    alloc: Global,
    moment: &Moment,
    request: &Request,
    transaction: &Transaction,
    turn: &mut Turn<Transaction, Move>,
) -> Result<(), AllocError>
    ensures { OnOk result
        (turn_of (Some transaction.now) turn.new
        ≡ request_left moment.entry.now request.now (fate_of (Some transaction.now) turn.old.fate)
        (turn_of (Some transaction.now) turn.old)) }
{
    let fate = replace(&mut turn.fate, Fate::Keep);
    turn.fate = request_left(alloc, &mut turn.posts, moment, request, transaction, fate)?;
    Ok(())
}

/// The answer of a request, where there is one.
fn answer_request(
    alloc: Global,
    moment: &Moment,
    request: Option<&Request>,
    transaction: &Transaction,
    mut turn: Turn<Transaction, Move>,
) -> Result<Turn<Transaction, Move>, AllocError>
    ensures { IfOk result
        (λ next. turn_of (Some transaction.now) next
        ≡ answer_request moment.entry.now (option_copied request.entry) (turn_of (Some transaction.now) turn)) }
{
    match request {
        None => Ok(turn),
        Some(request) => {
            with_request(alloc, moment, request, transaction, &mut turn)?;
            Ok(turn)
        }
    }
}

/// The answer of a request in the branch where a record is absent.
fn answer_absent(
    alloc: Global,
    moment: &Moment,
    request: Option<&Request>,
    transaction: &Transaction,
    entry: Record,
    stands: Turn<Transaction, Move>,
    absent: Turn<Transaction, Move>,
) -> Result<Choice<Transaction, Move>, AllocError>
    ensures { IfOk result
        (λ choice. meant (Some transaction.now) choice
        ≡ Records entry (turn_of (Some transaction.now) stands)
        (Some (answer_request moment.entry.now (option_copied request.entry) (turn_of (Some transaction.now) absent)))) }
{
    let absent = answer_request(alloc, moment, request, transaction, absent)?;
    Ok(Choice::Records {
        entry,
        stands,
        absent: Some(absent),
    })
}

/// The request that made the transaction and waits for its answer.
fn request_of(transaction: &Transaction) -> Option<&Request>
    ensures { option_copied result ≡ request_of transaction.now.superior }
{
    match &transaction.superior {
        None => None,
        Some(superior) => superior.request.as_ref(),
    }
}

/// The choice, with the answer of the request that the transaction waits to give as its last post.
pub fn with_answer(
    alloc: Global,
    moment: &Moment,
    transaction: &Transaction,
    choice: Choice<Transaction, Move>,
) -> Result<Choice<Transaction, Move>, AllocError>
    ensures { IfOk result
        (λ answered. meant (Some transaction.now) answered
        ≡ with_answer moment.entry.now transaction.now (meant (Some transaction.now) choice)) }
{
    let request = request_of(transaction);
    match choice {
        Choice::Goes(turn) => Ok(Choice::Goes(answer_request(
            alloc,
            moment,
            request,
            transaction,
            turn,
        )?)),
        Choice::Records {
            entry,
            stands,
            absent,
        } => {
            let stands = answer_request(alloc, moment, request, transaction, stands)?;
            match absent {
                None => Ok(or_undone(entry, stands)),
                Some(absent) => answer_absent(
                    alloc,
                    moment,
                    request,
                    transaction,
                    entry,
                    stands,
                    absent,
                ),
            }
        }
    }
}
