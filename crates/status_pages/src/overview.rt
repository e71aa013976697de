//! What a node is and holds, as a page for a person.

ghost use Rattle.std.specs.Prelude.{◌≡◌, ◌++◌, OnOk, codes, decimal, length};
ghost use Rattle.at_base.specs.IdText.{id_text};
ghost use Rattle.at_base.specs.Names.{kind_name, vote_name};
ghost use Rattle.at_tables.specs.Texts.{state_name};
ghost use Rattle.node_at.specs.State.{seen};
ghost use Rattle.status_pages.specs.Overview.{activities_heading, activities_part, activity_row, activity_rows, age_facts, ago, cell, connection_facts, escaped, fact, facts, facts_end, generation_facts, generation_text, head, initiator_item, item_tag, items_part, leaf_row, leaf_rows, leaves_heading, leaves_part, left, link_head, link_item, overview, page_end, page_start, page_style, place, said, seat_item, seat_items, seconds, size_facts, standing, superior_items, transaction_row, transaction_rows, transactions_heading, transactions_part};
ghost use Rattle.status_pages.specs.Words.{progress_word, role_word};
ghost use Rattle.xml_profile.specs.CanonicalText.{text_byte, value_byte};

use crate::json::is_awaited;
use crate::words::{phase_word, progress_word, role_word};
use at_base::epr::Epr;
use at_base::id::Id;
use at_base::notice::Kind;
use at_tables::cells::State;
use by_id::place::Items;
use completion_at::activity::Activity;
use node_at::node::Node;
use node_at::role::Role;
use participant_at::leaf::Leaf;
use shown_pages::page::Counts;
use std::alloc::{AllocError, Global};
use transaction_at::transaction::{Completion, Enlistment, Link, Superior, Transaction};

#[tactic(auto, unfolding(crate::specs::Overview::page_start))]
fn page_start() -> &'static str
    ensures { result.now ≡ page_start }
{
    "<!DOCTYPE html>\n<html lang=\"en\"><head><meta charset=\"utf-8\"><title>atx: "
}

#[tactic(auto, unfolding(crate::specs::Overview::page_end))]
fn page_end() -> &'static str
    ensures { result.now ≡ page_end }
{
    "</body></html>\n"
}

#[tactic(auto, unfolding(crate::specs::Overview::page_style))]
fn page_style() -> &'static str
    ensures { result.now ≡ page_style }
{
    "</title><style>body{font:16px sans-serif;margin:2em;max-width:80em}table{border-collapse:collapse;width:100%}td,th{border-bottom:1px solid #bbb;padding:.3em .6em;text-align:left;vertical-align:top}ul{margin:0;padding-left:1em}.awaited{color:#a40}</style></head><body>\n<h1>"
}

#[tactic(auto, unfolding(crate::specs::Overview::transactions_heading))]
fn transactions_heading() -> &'static str
    ensures { result.now ≡ transactions_heading }
{
    "<h2>Transactions</h2>\n<table><tr><th>id</th><th>state</th><th>expires in</th><th>sent ago</th><th>who takes part; who is waited for stands out</th></tr>\n"
}

#[tactic(auto, unfolding(crate::specs::Overview::leaves_heading))]
fn leaves_heading() -> &'static str
    ensures { result.now ≡ leaves_heading }
{
    "<h2>Participants of its own</h2>\n<table><tr><th>id</th><th>kind</th><th>state</th><th>vote</th><th>expires in</th><th>sent ago</th><th>coordinator</th></tr>\n"
}

#[tactic(auto, unfolding(crate::specs::Overview::activities_heading))]
fn activities_heading() -> &'static str
    ensures { result.now ≡ activities_heading }
{
    "<h2>Activities</h2>\n<table><tr><th>id</th><th>root</th><th>state</th><th>works</th><th>expires in</th><th>sent ago</th><th>coordinator</th></tr>\n"
}

#[tactic(auto, unfolding(crate::specs::Overview::said))]
fn push(out: &mut Vec<u8>, text: &str) -> Result<(), AllocError>
    ensures { OnOk result (out.new.items ≡ out.old.items ++ said text.now) }
{
    out.extend_from_slice(text.as_bytes())
}

fn push_three(out: &mut Vec<u8>, first: &str, second: &str, third: &str) -> Result<(), AllocError>
    ensures { OnOk result (out.new.items ≡ out.old.items ++ (said first.now ++ (said second.now ++ said third.now))) }
{
    push(out, first)?;
    push(out, second)?;
    push(out, third)
}

#[tactic(auto, unfolding(crate::specs::Overview::said))]
fn push_number(alloc: Global, out: &mut Vec<u8>, number: u64) -> Result<(), AllocError>
    ensures { OnOk result (out.new.items ≡ out.old.items ++ decimal number) }
{
    let text = format!(in alloc; "{number}")?;
    push(out, text.as_str())
}

#[tactic(auto, unfolding(crate::specs::Overview::said))]
fn push_text_byte(out: &mut Vec<u8>, byte: u8) -> Result<(), AllocError>
    ensures { OnOk result (out.new.items ≡ out.old.items ++ text_byte byte) }
{
    match byte {
        b'&' => push(out, "&amp;"),
        b'<' => push(out, "&lt;"),
        b'>' => push(out, "&gt;"),
        b'\r' => push(out, "&#13;"),
        _ => out.extend_from_slice(&[byte]),
    }
}

#[tactic(auto, unfolding(crate::specs::Overview::said))]
fn push_value_byte(out: &mut Vec<u8>, byte: u8) -> Result<(), AllocError>
    ensures { OnOk result (out.new.items ≡ out.old.items ++ value_byte byte) }
{
    match byte {
        b'"' => push(out, "&quot;"),
        b'\t' => push(out, "&#9;"),
        b'\n' => push(out, "&#10;"),
        _ => push_text_byte(out, byte),
    }
}

fn push_escaped(out: &mut Vec<u8>, text: &str) -> Result<(), AllocError>
    ensures { OnOk result (out.new.items ≡ out.old.items ++ escaped text.now) }
{
    for byte in text.as_bytes() {
        push_value_byte(out, *byte)?;
    }
    Ok(())
}

#[tactic(auto, unfolding(crate::specs::Overview::seconds))]
fn push_seconds(alloc: Global, out: &mut Vec<u8>, millis: u64) -> Result<(), AllocError>
    ensures { OnOk result (out.new.items ≡ out.old.items ++ seconds millis) }
{
    push_number(alloc, out, millis / 1000)?;
    push(out, " s")
}

/// How long it is until then.
#[tactic(auto, unfolding(crate::specs::Overview::left))]
fn push_left(alloc: Global, out: &mut Vec<u8>, now: u64, at: Option<u128>) -> Result<(), AllocError>
    ensures { OnOk result (out.new.items ≡ out.old.items ++ left now at) }
{
    match at {
        Some(at) => {
            let left = at.saturating_sub(u128::from(now));
            push_seconds(alloc, out, u64::try_from(left).unwrap_or(u64::MAX))
        }
        None => push(out, "never"),
    }
}

/// How long ago it was.
#[tactic(auto, unfolding(crate::specs::Overview::ago))]
fn push_ago(alloc: Global, out: &mut Vec<u8>, now: u64, at: Option<u64>) -> Result<(), AllocError>
    ensures { OnOk result (out.new.items ≡ out.old.items ++ ago now at) }
{
    match at {
        Some(at) => push_seconds(alloc, out, now.saturating_sub(at)),
        None => push(out, "-"),
    }
}

#[tactic(auto, unfolding(crate::specs::Overview::place))]
fn push_place(out: &mut Vec<u8>, endpoint: &Option<Epr>) -> Result<(), AllocError>
    ensures { OnOk result (out.new.items ≡ out.old.items ++ place endpoint.now) }
{
    match endpoint {
        Some(endpoint) => push_escaped(out, endpoint.address.as_str()),
        None => push(out, "-"),
    }
}

#[tactic(auto, unfolding(crate::specs::Overview::cell))]
fn push_cell(out: &mut Vec<u8>, text: &str) -> Result<(), AllocError>
    ensures { OnOk result (out.new.items ≡ out.old.items ++ cell (said text.now)) }
{
    push(out, "<td>")?;
    push(out, text)?;
    push(out, "</td>")
}

#[tactic(auto, unfolding(crate::specs::Overview::item_tag))]
fn item_tag(is_awaited: bool) -> &'static str
    ensures { result.now ≡ item_tag is_awaited }
{
    if is_awaited {
        "<li class=\"awaited\">"
    } else {
        "<li>"
    }
}

fn push_id(alloc: Global, out: &mut Vec<u8>, id: Id) -> Result<(), AllocError>
    ensures { OnOk result (out.new.items ≡ out.old.items ++ cell (said (id_text id))) }
{
    let text = format!(in alloc; "{id}")?;
    push_cell(out, text.as_str())
}

#[tactic(auto, unfolding(crate::specs::Overview::cell))]
fn push_left_cell(
    alloc: Global,
    out: &mut Vec<u8>,
    now: u64,
    at: Option<u128>,
) -> Result<(), AllocError>
    ensures { OnOk result (out.new.items ≡ out.old.items ++ cell (left now at)) }
{
    push(out, "<td>")?;
    push_left(alloc, out, now, at)?;
    push(out, "</td>")
}

#[tactic(auto, unfolding(crate::specs::Overview::cell))]
fn push_ago_cell(
    alloc: Global,
    out: &mut Vec<u8>,
    now: u64,
    at: Option<u64>,
) -> Result<(), AllocError>
    ensures { OnOk result (out.new.items ≡ out.old.items ++ cell (ago now at)) }
{
    push(out, "<td>")?;
    push_ago(alloc, out, now, at)?;
    push(out, "</td>")
}

/// How long it is until one moment, and how long ago another was.
fn push_times(
    alloc: Global,
    out: &mut Vec<u8>,
    now: u64,
    deadline: Option<u128>,
    sent: Option<u64>,
) -> Result<(), AllocError>
    ensures { OnOk result (out.new.items ≡ out.old.items ++ (cell (left now deadline) ++ cell (ago now sent))) }
{
    push_left_cell(alloc, out, now, deadline)?;
    push_ago_cell(alloc, out, now, sent)
}

#[tactic(auto, unfolding(crate::specs::Overview::cell))]
fn push_place_cell(out: &mut Vec<u8>, endpoint: &Option<Epr>) -> Result<(), AllocError>
    ensures { OnOk result (out.new.items ≡ out.old.items ++ cell (place endpoint.now)) }
{
    push(out, "<td>")?;
    push_place(out, endpoint)?;
    push(out, "</td>")
}

/// The state of who takes part, at the end of its item.
#[tactic(auto, unfolding(crate::specs::Overview::standing))]
fn push_standing(out: &mut Vec<u8>, state: State) -> Result<(), AllocError>
    ensures { OnOk result (out.new.items ≡ out.old.items ++ standing state) }
{
    push_three(out, ": ", state.name(), "</li>")
}

#[tactic(auto, unfolding(crate::specs::Overview::seat_item))]
fn push_seat(alloc: Global, out: &mut Vec<u8>, seat: &Enlistment) -> Result<(), AllocError>
    ensures { OnOk result (out.new.items ≡ out.old.items ++ seat_item seat.now) }
{
    push(out, item_tag(is_awaited(seat.state)))?;
    push_number(alloc, out, u64::from(seat.number))?;
    push_three(out, " ", seat.kind.name(), " ")?;
    push_escaped(out, seat.participant.address.as_str())?;
    push_standing(out, seat.state)
}

fn push_seats(alloc: Global, out: &mut Vec<u8>, seats: &[Enlistment]) -> Result<(), AllocError>
    ensures { OnOk result (out.new.items ≡ out.old.items ++ seat_items seats.now) }
{
    for seat in seats {
        push_seat(alloc, out, seat)?;
    }
    Ok(())
}

#[tactic(auto, unfolding(crate::specs::Overview::initiator_item))]
fn push_initiator(out: &mut Vec<u8>, completion: &Option<Completion>) -> Result<(), AllocError>
    ensures { OnOk result (out.new.items ≡ out.old.items ++ initiator_item completion.now) }
{
    let Some(completion) = completion else {
        return Ok(());
    };
    push(out, "<li>initiator ")?;
    push_escaped(out, completion.initiator.address.as_str())?;
    push_standing(out, completion.state)
}

#[tactic(auto, unfolding(crate::specs::Overview::link_head))]
fn push_link_head(out: &mut Vec<u8>, kind: Kind) -> Result<(), AllocError>
    ensures { OnOk result (out.new.items ≡ out.old.items ++ link_head kind) }
{
    push_three(out, "<li>superior ", kind.name(), " ")
}

#[tactic(auto, unfolding(crate::specs::Overview::link_item))]
fn push_link(out: &mut Vec<u8>, kind: Kind, link: &Link) -> Result<(), AllocError>
    ensures { OnOk result (out.new.items ≡ out.old.items ++ link_item kind link.now) }
{
    push_link_head(out, kind)?;
    push_place(out, &link.coordinator)?;
    push_standing(out, link.state)
}

#[tactic(auto, unfolding(crate::specs::Overview::superior_items))]
fn push_superior(out: &mut Vec<u8>, superior: &Option<Superior>) -> Result<(), AllocError>
    ensures { OnOk result (out.new.items ≡ out.old.items ++ superior_items superior.now) }
{
    match superior {
        Some(superior) => {
            push_link(out, Kind::Durable, &superior.durable)?;
            push_link(out, Kind::Volatile, &superior.volatile)
        }
        None => Ok(()),
    }
}

/// Who takes part in a transaction.
fn push_parts(alloc: Global, out: &mut Vec<u8>, transaction: &Transaction) -> Result<(), AllocError>
    ensures { OnOk result (out.new.items ≡ out.old.items ++ (superior_items transaction.now.superior ++ (initiator_item transaction.now.completion ++ seat_items transaction.now.seats))) }
{
    push_superior(out, &transaction.superior)?;
    push_initiator(out, &transaction.completion)?;
    push_seats(alloc, out, transaction.seats.as_slice())
}

/// A row that begins with an id.
fn push_row(alloc: Global, out: &mut Vec<u8>, id: Id) -> Result<(), AllocError>
    ensures { OnOk result (out.new.items ≡ out.old.items ++ (said (codes "<tr>") ++ cell (said (id_text id)))) }
{
    push(out, "<tr>")?;
    push_id(alloc, out, id)
}

#[tactic(auto, unfolding(crate::specs::Overview::transaction_row))]
fn push_transaction(
    alloc: Global,
    out: &mut Vec<u8>,
    now: u64,
    transaction: &Transaction,
) -> Result<(), AllocError>
    ensures { OnOk result (out.new.items ≡ out.old.items ++ transaction_row now transaction.now) }
{
    push_row(alloc, out, transaction.id)?;
    push_cell(out, phase_word(transaction.phase))?;
    push_times(alloc, out, now, transaction.deadline, transaction.sent)?;
    push(out, "<td><ul>")?;
    push_parts(alloc, out, transaction)?;
    push(out, "</ul></td></tr>\n")
}

/// What a leaf is, and how it stands.
fn push_state(out: &mut Vec<u8>, leaf: &Leaf) -> Result<(), AllocError>
    ensures { OnOk result (out.new.items ≡ out.old.items ++ (cell (said (kind_name leaf.now.kind)) ++ (cell (said (state_name leaf.now.state)) ++ cell (said (vote_name leaf.now.vote))))) }
{
    push_cell(out, leaf.kind.name())?;
    push_cell(out, leaf.state.name())?;
    push_cell(out, leaf.vote.name())
}

#[tactic(auto, unfolding(crate::specs::Overview::leaf_row))]
fn push_leaf(alloc: Global, out: &mut Vec<u8>, now: u64, leaf: &Leaf) -> Result<(), AllocError>
    ensures { OnOk result (out.new.items ≡ out.old.items ++ leaf_row now leaf.now) }
{
    push_row(alloc, out, leaf.id)?;
    push_state(out, leaf)?;
    push_times(alloc, out, now, leaf.deadline, leaf.sent)?;
    push_place_cell(out, &leaf.coordinator)?;
    push(out, "</tr>\n")
}

#[tactic(auto, unfolding(crate::specs::Overview::cell))]
fn push_count(alloc: Global, out: &mut Vec<u8>, count: u32) -> Result<(), AllocError>
    ensures { OnOk result (out.new.items ≡ out.old.items ++ cell (decimal count)) }
{
    push(out, "<td>")?;
    push_number(alloc, out, u64::from(count))?;
    push(out, "</td>")
}

/// How far an activity has come.
fn push_progress(alloc: Global, out: &mut Vec<u8>, activity: &Activity) -> Result<(), AllocError>
    ensures { OnOk result (out.new.items ≡ out.old.items ++ (cell (said (id_text activity.now.root)) ++ (cell (said (progress_word activity.now.progress)) ++ cell (decimal activity.now.works)))) }
{
    push_id(alloc, out, activity.root)?;
    push_cell(out, progress_word(activity.progress))?;
    push_count(alloc, out, activity.works)
}

#[tactic(auto, unfolding(crate::specs::Overview::activity_row))]
fn push_activity(
    alloc: Global,
    out: &mut Vec<u8>,
    now: u64,
    activity: &Activity,
) -> Result<(), AllocError>
    ensures { OnOk result (out.new.items ≡ out.old.items ++ activity_row now activity.now) }
{
    push_row(alloc, out, activity.id)?;
    push_progress(alloc, out, activity)?;
    push_times(alloc, out, now, activity.deadline, activity.sent)?;
    push_place_cell(out, &activity.coordinator)?;
    push(out, "</tr>\n")
}

fn push_transactions(
    alloc: Global,
    out: &mut Vec<u8>,
    now: u64,
    items: Items<'_, Transaction>,
) -> Result<(), AllocError>
    ensures { OnOk result (out.new.items ≡ out.old.items ++ transaction_rows now items.entry) }
{
    for item in items {
        push_transaction(alloc, out, now, item)?;
    }
    Ok(())
}

fn push_leaves(
    alloc: Global,
    out: &mut Vec<u8>,
    now: u64,
    items: Items<'_, Leaf>,
) -> Result<(), AllocError>
    ensures { OnOk result (out.new.items ≡ out.old.items ++ leaf_rows now items.entry) }
{
    for item in items {
        push_leaf(alloc, out, now, item)?;
    }
    Ok(())
}

fn push_activities(
    alloc: Global,
    out: &mut Vec<u8>,
    now: u64,
    items: Items<'_, Activity>,
) -> Result<(), AllocError>
    ensures { OnOk result (out.new.items ≡ out.old.items ++ activity_rows now items.entry) }
{
    for item in items {
        push_activity(alloc, out, now, item)?;
    }
    Ok(())
}

/// What a node is called.
fn push_name(out: &mut Vec<u8>, role: Role, node: &Node) -> Result<(), AllocError>
    ensures { OnOk result (out.new.items ≡ out.old.items ++ (said (role_word role) ++ (said (codes " ") ++ escaped (seen node.now).book.base))) }
{
    push(out, role_word(role))?;
    push(out, " ")?;
    push_escaped(out, node.book().base().as_str())
}

#[tactic(auto, unfolding(crate::specs::Overview::head))]
fn push_head(out: &mut Vec<u8>, role: Role, node: &Node) -> Result<(), AllocError>
    ensures { OnOk result (out.new.items ≡ out.old.items ++ head role (seen node.now)) }
{
    push(out, page_start())?;
    push_name(out, role, node)?;
    push(out, page_style())?;
    push_name(out, role, node)?;
    push(out, "</h1>\n")
}

/// A number behind a text.
#[tactic(auto, unfolding(crate::specs::Overview::fact))]
fn push_fact(alloc: Global, out: &mut Vec<u8>, text: &str, number: u64) -> Result<(), AllocError>
    ensures { OnOk result (out.new.items ≡ out.old.items ++ fact text.now number) }
{
    push(out, text)?;
    push_number(alloc, out, number)
}

#[tactic(auto, unfolding(crate::specs::Overview::connection_facts))]
fn push_connections(alloc: Global, out: &mut Vec<u8>, counts: &Counts) -> Result<(), AllocError>
    ensures { OnOk result (out.new.items ≡ out.old.items ++ connection_facts counts.now) }
{
    push_fact(alloc, out, ". Turns: ", counts.taken)?;
    push_fact(alloc, out, ", unread: ", counts.unread)?;
    push_fact(alloc, out, ", web pages refused: ", counts.foreign)?;
    push_fact(alloc, out, ", lost: ", counts.lost)
}

/// How many records are live.
fn live_records(node: &Node) -> u64
    ensures { result ≡ length (seen node.now).kept.live }
{
    node.kept().live().len() as u64
}

#[tactic(auto, unfolding(crate::specs::Overview::size_facts))]
fn push_sizes(alloc: Global, out: &mut Vec<u8>, node: &Node) -> Result<(), AllocError>
    ensures { OnOk result (out.new.items ≡ out.old.items ++ size_facts (seen node.now)) }
{
    push_fact(alloc, out, ". Journal: ", node.journal().end())?;
    push_fact(alloc, out, " bytes, ", live_records(node))
}

/// How often the journal was written anew.
fn generation_of(node: &Node) -> u64
    ensures { result ≡ (seen node.now).journal.generation }
{
    u64::from(node.journal().generation())
}

#[tactic(auto, unfolding(crate::specs::Overview::generation_text))]
fn generation_text() -> &'static str
    ensures { result.now ≡ generation_text }
{
    " records, generation "
}

#[tactic(auto, unfolding(crate::specs::Overview::facts_end))]
fn facts_end() -> &'static str
    ensures { result.now ≡ facts_end }
{
    ".</p>\n"
}

#[tactic(auto, unfolding(crate::specs::Overview::generation_facts))]
fn push_generation(alloc: Global, out: &mut Vec<u8>, node: &Node) -> Result<(), AllocError>
    ensures { OnOk result (out.new.items ≡ out.old.items ++ generation_facts (seen node.now)) }
{
    push_fact(alloc, out, generation_text(), generation_of(node))?;
    push(out, facts_end())
}

#[tactic(auto, unfolding(crate::specs::Overview::age_facts))]
fn push_age(
    alloc: Global,
    out: &mut Vec<u8>,
    node: &Node,
    counts: &Counts,
) -> Result<(), AllocError>
    ensures { OnOk result (out.new.items ≡ out.old.items ++ age_facts (seen node.now) counts.now) }
{
    push(out, "<p>Up for ")?;
    push_seconds(alloc, out, counts.up)?;
    push_fact(
        alloc,
        out,
        ", in incarnation ",
        u64::from(node.incarnation()),
    )
}

/// What was counted, and the journal.
#[tactic(auto, unfolding(crate::specs::Overview::facts))]
fn push_facts(
    alloc: Global,
    out: &mut Vec<u8>,
    node: &Node,
    counts: &Counts,
) -> Result<(), AllocError>
    ensures { OnOk result (out.new.items ≡ out.old.items ++ facts (seen node.now) counts.now) }
{
    push_age(alloc, out, node, counts)?;
    push_connections(alloc, out, counts)?;
    push_sizes(alloc, out, node)?;
    push_generation(alloc, out, node)
}

#[tactic(auto, unfolding(crate::specs::Overview::transactions_part))]
fn push_transactions_part(
    alloc: Global,
    out: &mut Vec<u8>,
    now: u64,
    node: &Node,
) -> Result<(), AllocError>
    ensures { OnOk result (out.new.items ≡ out.old.items ++ transactions_part now (seen node.now).book.transactions) }
{
    push(out, transactions_heading())?;
    push_transactions(alloc, out, now, node.book().transactions())?;
    push(out, "</table>\n")
}

#[tactic(auto, unfolding(crate::specs::Overview::leaves_part))]
fn push_leaves_part(
    alloc: Global,
    out: &mut Vec<u8>,
    now: u64,
    node: &Node,
) -> Result<(), AllocError>
    ensures { OnOk result (out.new.items ≡ out.old.items ++ leaves_part now (seen node.now).book.leaves) }
{
    push(out, leaves_heading())?;
    push_leaves(alloc, out, now, node.book().leaves())?;
    push(out, "</table>\n")
}

#[tactic(auto, unfolding(crate::specs::Overview::activities_part))]
fn push_activities_part(
    alloc: Global,
    out: &mut Vec<u8>,
    now: u64,
    node: &Node,
) -> Result<(), AllocError>
    ensures { OnOk result (out.new.items ≡ out.old.items ++ activities_part now (seen node.now).book.activities) }
{
    push(out, activities_heading())?;
    push_activities(alloc, out, now, node.book().activities())?;
    push(out, "</table>\n")
}

/// What a node holds.
#[tactic(auto, unfolding(crate::specs::Overview::items_part))]
fn push_items(alloc: Global, out: &mut Vec<u8>, now: u64, node: &Node) -> Result<(), AllocError>
    ensures { OnOk result (out.new.items ≡ out.old.items ++ items_part now (seen node.now).book) }
{
    push_transactions_part(alloc, out, now, node)?;
    push_leaves_part(alloc, out, now, node)?;
    push_activities_part(alloc, out, now, node)
}

/// What a node is and holds.
#[tactic(auto, unfolding(crate::specs::Overview::overview))]
pub(crate) fn push_overview(
    alloc: Global,
    out: &mut Vec<u8>,
    role: Role,
    node: &Node,
    counts: &Counts,
) -> Result<(), AllocError>
    ensures { OnOk result (out.new.items ≡ out.old.items ++ overview role (seen node.now) counts.now) }
{
    push_head(out, role, node)?;
    push_facts(alloc, out, node, counts)?;
    push_items(alloc, out, counts.clock, node)?;
    push(out, page_end())
}
