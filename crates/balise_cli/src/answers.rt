//! The commands.

ghost use Rattle.std.specs.Prelude.{◌≡◌, ◌<◌, [], IfErr, IfOk, IsOkUnless, map, Ok, OnOk};
ghost use Rattle.balise_cli.specs.Output.{group_review};
ghost use Rattle.balise_cli.specs.Private.{answer_text, at_limit, review_after, DidAnswer, DidDo, IsRefused, IsTurn};
ghost use Rattle.balise_lines.specs.Writing.{Writes};
ghost use Rattle.balise_rules.specs.Plan.{group_named};
ghost use Rattle.balise_rules.specs.Session.{most_commands};
ghost use Rattle.balise_text.specs.Answers.{reply_of};
ghost use Rattle.balise_text.specs.Checks.{checked};
ghost use Rattle.balise_text.specs.Commands.{call_of};
ghost use Rattle.balise_text.specs.Requests.{call};
ghost use Rattle.balise_text.specs.Reviews.{review_line};
ghost use Rattle.balise_text.specs.Texts.{text_of};

use balise_history::{Command, Id, Plan, Refusal, ReviewLine, Session, review};
use balise_lines::{Counted, WriteFault};
use balise_text::{Reply, Request, check_request, put_reply, put_review, read_request};
use std::alloc::Global;
use std::io::Write;

/// What a command is answered: its reply, and after a turn its review lines.
#[derive(Drop)]
pub(crate) struct Answer {
    pub(crate) reply: Reply,
    pub(crate) review: Vec<ReviewLine>,
}

// Does what is asked for.
fn reply_to(session: &mut Session, request: Request) -> Reply
    ensures { DidDo (call request) session.old.state (reply_of result) session.new.state }
{
    match request {
        Request::Edit(command) => match session.edit(command) {
            Ok(serial) => Reply::Done(serial),
            Err(refusal) => Reply::Refused(refusal),
        },
        Request::Undo => match session.undo() {
            Ok(serial) => Reply::Undone(serial),
            Err(refusal) => Reply::Refused(refusal),
        },
        Request::Redo => match session.redo() {
            Ok(serial) => Reply::Redone(serial),
            Err(refusal) => Reply::Refused(refusal),
        },
        Request::Strike(serial) => match session.strike(serial) {
            Ok(struck) => Reply::Struck(struck.serial),
            Err(refusal) => Reply::Refused(refusal),
        },
    }
}

// The review lines of a turn of the group of an identity; none if there is no such group.
fn review_of(alloc: Global, plan: &Plan, id: Id) -> Result<Vec<ReviewLine>, Refusal>
    ensures ok { IfOk result (λ lines. lines.items ≡ group_review (group_named id plan.now.groups) plan.now.groups) }
    ensures fault { IsOkUnless result Refusal.OutOfMemory }
{
    match plan.tag_of(id) {
        Some(g) => match review(plan, g) {
            Ok(lines) => Ok(lines),
            Err(_) => Err(Refusal::OutOfMemory),
        },
        None => Ok(Vec::new(alloc)),
    }
}

// The review lines of a request: none but for a turn. It is made before the turn, so that memory can't run
// out after it.
fn review_for(alloc: Global, plan: &Plan, request: &Request) -> Result<Vec<ReviewLine>, Refusal>
    ensures ok { IfOk result (λ lines. lines.items ≡ review_after (call request.now) plan.now.groups) }
    ensures fault { IfErr result (λ e. (e ≡ Refusal.OutOfMemory) × IsTurn (call request.now)) }
{
    match request {
        Request::Edit(Command::TurnGroup { id }) => review_of(alloc, plan, *id),
        _ => Ok(Vec::new(alloc)),
    }
}

// Why a line is refused at the limit of a session: for its own fault, or as worn. No memory is taken, so it is never
// `OutOfMemory`.
fn refusal_at_limit(line: &[u8]) -> Refusal
    ensures { result ≡ at_limit (checked (call_of line.now)) }
{
    match check_request(line) {
        Ok(()) => Refusal::Worn,
        Err(refusal) => refusal,
    }
}

// The command that a line is, or why it is refused before anything is done.
fn request_of(alloc: Global, session: &Session, line: &[u8]) -> Result<Request, Refusal>
    ensures ok { IfOk result (λ r. call_of line.now ≡ Ok (call r)) }
    ensures time { OnOk result (session.now.state.count < most_commands) }
    ensures fault { IfErr result (λ e. IsRefused line.now session.now.state e) }
{
    if session.is_worn() {
        return Err(refusal_at_limit(line));
    }
    read_request(alloc, line)
}

// The answer to a line that is refused.
fn refused(alloc: Global, refusal: Refusal) -> Answer
    ensures reply { result.reply ≡ Reply.Refused refusal }
    ensures review { result.review.items ≡ [] }
{
    Answer {
        reply: Reply::Refused(refusal),
        review: Vec::new(alloc),
    }
}

/// Does what a line asks for.
pub(crate) fn answer_line(alloc: Global, session: &mut Session, line: &[u8]) -> Answer
    ensures { DidAnswer line.now session.old.state result session.new.state }
{
    let request = match request_of(alloc, session, line) {
        Ok(request) => request,
        Err(refusal) => return refused(alloc, refusal),
    };
    let lines = match review_for(alloc, session.plan(), &request) {
        Ok(lines) => lines,
        Err(refusal) => return refused(alloc, refusal),
    };
    let reply = reply_to(session, request);
    let review = match reply {
        Reply::Done(_) => lines,
        _ => Vec::new(alloc),
    };
    Answer { reply, review }
}

// Writes review lines.
fn put_reviews<W: Write>(writer: &mut Counted<W>, lines: &[ReviewLine]) -> Result<(), WriteFault>
    ensures { Writes W.contents writer.old writer.new result (text_of (map review_line lines.now)) }
{
    for line in lines {
        if let Err(fault) = put_review(writer, *line) {
            return Err(fault);
        }
    }
    Ok(())
}

/// Writes the answer to a command. The replies to accepted commands are left out where the run is quiet.
pub(crate) fn put_answer<W: Write>(
    writer: &mut Counted<W>,
    quiet: bool,
    answer: &Answer,
) -> Result<(), WriteFault>
    ensures { Writes W.contents writer.old writer.new result (answer_text quiet answer.now) }
{
    if !quiet || answer.reply.is_refused() {
        if let Err(fault) = put_reply(writer, answer.reply) {
            return Err(fault);
        }
    }
    put_reviews(writer, &answer.review)
}
