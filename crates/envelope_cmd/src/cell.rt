//! `cell`: the cell that an envelope meets, and what the cell posts.

ghost use Rattle.std.specs.Prelude.{◌≡◌, ◌++◌, IfOk, OnOk, Some};
ghost use Rattle.envelope_cmd.specs.Output.{Output};
ghost use Rattle.envelope_cmd.specs.Cells.{IsCellOf, IsCellPrinted, IsMetPrinted, IsPosted, cell_line, meets, posted};

use crate::check::refused;
use crate::laws::one_report_is_printed;
use crate::lines::push;
use crate::output::Printed;
use crate::table::{meets, posted};
use at_base::outs::Post;
use at_tables::cells::{Act, Cell, State};
use std::alloc::{AllocError, Global};
use wire_msgs::decode::{Arrival, decode};
use wire_posts::encode::encode_post;

/// The cell of this state that a notification meets, and the envelope that the cell posts, each on a line; or the line of
/// the first refusal. The path of the request is `/`.
pub fn cell(alloc: Global, bytes: &[u8], state: State) -> Result<Printed, AllocError>
    ensures is { IfOk result (IsCellOf bytes.now state) }
    ensures only { IfOk result (λ printed. (output : Output) → IsCellOf bytes.now state output → output ≡ printed) }
{
    one_report_is_printed();
    report(alloc, bytes, state)
}

fn report(alloc: Global, bytes: &[u8], state: State) -> Result<Printed, AllocError>
    ensures { IfOk result (IsCellOf bytes.now state) }
{
    match decode(alloc, bytes, "/") {
        Ok(arrival) => met(alloc, &arrival, state),
        Err(refusal) => refused(alloc, &refusal),
    }
}

fn met(alloc: Global, arrival: &Arrival, state: State) -> Result<Printed, AllocError>
    ensures { IfOk result (IsMetPrinted arrival.now (meets arrival.now.target state arrival.now.message)) }
{
    match meets(&arrival.target, state, &arrival.message) {
        Ok(cell) => printed(alloc, arrival, cell),
        Err(none) => Printed::refused(alloc, none.line()),
    }
}

fn printed(alloc: Global, arrival: &Arrival, cell: Cell) -> Result<Printed, AllocError>
    ensures { IfOk result (IsCellPrinted arrival.now cell) }
{
    let envelope = post_line(alloc, arrival, cell.act)?;
    let mut text = Vec::new(alloc);
    push_cell(cell, &mut text)?;
    text.extend_from_slice(envelope.as_slice())?;
    Ok(Printed::accepted(text))
}

fn push_cell(cell: Cell, out: &mut Vec<u8>) -> Result<(), AllocError>
    ensures { OnOk result (out.new.items ≡ out.old.items ++ cell_line cell) }
{
    push(cell.act.text(), out)?;
    push(" -> ", out)?;
    push(cell.next.name(), out)?;
    push("\n", out)
}

/// The envelope that an act posts, on a line.
fn post_line(alloc: Global, arrival: &Arrival, act: Act) -> Result<Vec<u8>, AllocError>
    ensures { IfOk result (λ text. IsPosted (posted arrival.now act) text.items) }
{
    match posted(alloc, arrival, act)? {
        Some(post) => envelope_line(alloc, &post),
        None => Ok(Vec::new(alloc)),
    }
}

fn envelope_line(alloc: Global, post: &Post) -> Result<Vec<u8>, AllocError>
    ensures { IfOk result (λ text. IsPosted (Some post.now) text.items) }
{
    let mut text = encode_post(alloc, post)?;
    text.extend_from_slice(b"\n")?;
    Ok(text)
}
